//! Who answers the searches of a session.

ghost use Rattle.std.specs.Prelude.{◌≡◌, ◌≤◌, IfOk, OnOk};
ghost use Rattle.doom_edge.specs.Costs.{Rises};
ghost use Rattle.brute_run.specs.Search.{first_meeting};
ghost use Rattle.brute_run.specs.Costs.{search_cost};
ghost use Rattle.build_session.specs.Searches.{CanSearch, turns_of};

use brute_ranges::Space;
use brute_run::{first_match, simulate_by};
use brute_targets::Wants;
use doom_edge::{Gate, Memory, Steps};
use game_trait::Game;
use search_core::Turns;
use std::alloc::Global;
use std::thread::Threads;

/// Who answers the searches of a session.
#[derive(Clone, Copy, Debug)]
pub enum Searcher<'a> {
    /// So many workers, 1 to 64, on threads of their own.
    Workers(u32),
    /// Hands that take their turns under an order that was read, on one thread. It tells how many turns they took.
    Hands(&'a Turns),
}

/// What a search came to.
#[derive(Clone, Copy, Debug, PartialEq, Eq)]
pub struct Searched {
    /// The least number whose sequence meets the targets, if there is one.
    pub first: Option<u64>,
    /// How many turns its hands took, where that is told.
    pub turns: Option<u64>,
}

/// As many sequences as a worker takes at a time.
const BLOCK: u64 = 256;

/// How many of the workers have something to do in a search of so many sequences: a thread for each block is enough.
fn busy_workers(count: u32, sequences: u64) -> u32
    requires { (1 ≤ count) × (count ≤ 64) }
    ensures { (1 ≤ result) × (result ≤ 64) }
{
    let blocks = sequences.div_ceil(BLOCK).max(1);
    if u64::from(count) <= blocks {
        return count;
    }
    blocks as u32
}

/// The least number whose sequence meets the targets, played on from the kept world. The kept world keeps its meaning.
pub fn search<G: Game + Sync, T: Gate + Sync, R: Threads + Sync>(
    alloc: Global,
    rt: &R,
    gate: &T,
    searcher: &Searcher<'_>,
    game: &G,
    kept: &mut G::World,
    space: &Space,
    wants: &Wants,
    steps: &mut Steps,
) -> Result<Searched, Memory>
where
    G::World: Send,
    requires fits { G.fits game.now kept.old }
    requires able { CanSearch searcher.now }
    ensures first { IfOk result (λ done. done.first ≡ first_meeting G.Game game.now kept.old wants.now space.now) }
    ensures turns { IfOk result (λ done. done.turns ≡ turns_of searcher.now G.Game game.now kept.old space.now wants.now) }
    ensures kept { kept.new ≡ kept.old }
    ensures cost { OnOk result (Rises (search_cost G.Game game.now kept.old wants.now space.now) steps.old.tics steps.new.tics) }
    ensures tics_never_fall { steps.old.tics ≤ steps.new.tics }
    ensures pages_never_fall { steps.old.pages ≤ steps.new.pages }
{
    match searcher {
        Searcher::Workers(count) => {
            let workers = busy_workers(*count, space.count());
            let first = first_match(alloc, rt, game, kept, space, wants, workers, gate, steps)?;
            Ok(Searched { first, turns: None })
        }
        Searcher::Hands(turns) => {
            let done = simulate_by(alloc, game, kept, space, wants, turns, steps)?;
            Ok(Searched {
                first: done.first,
                turns: Some(done.turns),
            })
        }
    }
}
