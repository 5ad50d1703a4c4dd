//! The search by hands that take their turns under an order, on one thread.

ghost use Rattle.std.specs.Prelude.{◌≡◌, ◌<◌, ◌≤◌, All, IfOk, OnOk};
ghost use Rattle.doom_edge.specs.Costs.{Rises};
ghost use Rattle.search_core.specs.Order.{events_of};
ghost use Rattle.brute_run.specs.Search.{count_of, all_meeting, first_meeting};
ghost use Rattle.brute_run.specs.Costs.{block_size, search_cost};

use crate::first::{BLOCK, found, walks_of};
use brute_ranges::Space;
use brute_targets::Wants;
use doom_edge::{Memory, Steps};
use game_trait::Game;
use search_core::{Schedule, Turns};
use std::alloc::Global;

/// What a search under an order came to.
#[derive(Clone, Copy, Debug, PartialEq, Eq)]
pub struct Simulated {
    /// The least number that meets, if there is one.
    pub first: Option<u64>,
    /// How many turns were taken.
    pub turns: u64,
}

/// The search for the least number whose sequence meets the targets, played on from the kept world, by as many hands
/// as the order asks for. They take their turns as it names them, and then round after round. `first` is the same for
/// every order; `turns` is the number of turns under this one.
///
/// The kept world keeps its meaning, also where memory is wanting.
pub fn simulate<G: Game>(
    alloc: Global,
    game: &G,
    kept: &mut G::World,
    space: &Space,
    wants: &Wants,
    order: &[u8],
    steps: &mut Steps,
) -> Result<Simulated, Memory>
    requires kept { G.fits game.now kept.old }
    requires order { All (λ hand. hand < 64) order.now }
    ensures first { IfOk result (λ done. done.first ≡ first_meeting G.Game game.now kept.old wants.now space.now) }
    ensures turns { IfOk result (λ done. done.turns
        ≡ events_of (count_of space.now) block_size (all_meeting G.Game game.now kept.old wants.now space.now) order.now) }
    ensures kept { kept.new ≡ kept.old }

    // The tics that all hands play together: no fewer than the new ones of the numbers below the first, and no more
    // than what all blocks cost.
    ensures cost { OnOk result (Rises (search_cost G.Game game.now kept.old wants.now space.now) steps.old.tics steps.new.tics) }
    ensures tics_never_fall { steps.old.tics ≤ steps.new.tics }
    ensures pages_never_fall { steps.old.pages ≤ steps.new.pages }
{
    let Ok(turns) = Turns::new(alloc, order) else {
        return Err(Memory);
    };
    simulate_by(alloc, game, kept, space, wants, &turns, steps)
}

/// The same search under an order that was read, so that many searches read it once.
///
/// The kept world keeps its meaning, also where memory is wanting.
pub fn simulate_by<G: Game>(
    alloc: Global,
    game: &G,
    kept: &mut G::World,
    space: &Space,
    wants: &Wants,
    turns: &Turns,
    steps: &mut Steps,
) -> Result<Simulated, Memory>
    requires kept { G.fits game.now kept.old }
    ensures first { IfOk result (λ done. done.first ≡ first_meeting G.Game game.now kept.old wants.now space.now) }
    ensures turns { IfOk result (λ done. done.turns
        ≡ events_of (count_of space.now) block_size (all_meeting G.Game game.now kept.old wants.now space.now) turns.now) }
    ensures kept { kept.new ≡ kept.old }

    // The tics that all hands play together: no fewer than the new ones of the numbers below the first, and no more
    // than what all blocks cost.
    ensures cost { OnOk result (Rises (search_cost G.Game game.now kept.old wants.now space.now) steps.old.tics steps.new.tics) }
    ensures tics_never_fall { steps.old.tics ≤ steps.new.tics }
    ensures pages_never_fall { steps.old.pages ≤ steps.new.pages }
{
    let count = space.count();
    let Ok(mut search) = Schedule::new(alloc, count, BLOCK, turns) else {
        return Err(Memory);
    };
    let mut walks = walks_of(alloc, game, kept, search.hands(), steps)?;
    'trying: while let Some(trial) = search.next_try() {
        let walk = &mut walks[trial.hand as usize];
        let met = walk.visit(alloc, game, space, wants, trial.number, steps)?;
        search.tried(met);
    }
    Ok(Simulated {
        first: found(search.least(), count),
        turns: search.turns(),
    })
}
