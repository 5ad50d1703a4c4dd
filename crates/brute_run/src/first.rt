//! The search by workers.

ghost use Rattle.std.specs.Prelude.{◌≡◌, ℕ, ◌<◌, ◌≤◌, List, length, All, Some, None, nat_lt, if◌then◌else◌, IfOk, OnOk};
ghost use Rattle.doom_edge.specs.Counts.{raised};
ghost use Rattle.doom_edge.specs.Costs.{Rises};
ghost use Rattle.claim_board.specs.Seated.{IsSeatOf};
ghost use Rattle.claim_board.specs.Views.{opening};
ghost use Rattle.brute_run.specs.Search.{count_of, all_meeting, first_meeting};
ghost use Rattle.brute_run.specs.Costs.{block_size, search_cost};
ghost use Rattle.brute_run.specs.Walks.{fresh_walk};

use crate::crew::{crew_of, fan_out, new_worker};
use crate::walk::Walk;
use brute_ranges::Space;
use brute_targets::Wants;
use claim_board::{Board, Seat};
use doom_edge::{Gate, Memory, Steps};
use game_trait::Game;
use std::alloc::Global;
use std::thread::Threads;

/// How many numbers a block has.
pub const BLOCK: u64 = 256;

/// The least number that was found, where it is one of the numbers that there are.
pub fn found(least: u64, count: u64) -> Option<u64>
    ensures { result ≡ (if nat_lt least count then Some least else None) }
{
    if least < count { Some(least) } else { None }
}

/// Adds a counter that is done with.
fn add_steps(steps: &mut Steps, own: Steps)
    ensures tics { steps.new.tics ≡ raised steps.old.tics own.tics }
    ensures tics_never_fall { steps.old.tics ≤ steps.new.tics }
    ensures pages_never_fall { steps.old.pages ≤ steps.new.pages }
{
    steps.add(own);
}

/// So many walks from the kept world.
pub fn walks_of<G: Game>(
    alloc: Global,
    game: &G,
    kept: &mut G::World,
    count: u32,
    steps: &mut Steps,
) -> Result<Vec<Walk<G>>, Memory>
    requires { G.fits game.now kept.old }
    ensures walks { IfOk result (λ walks. All (λ walk. walk ≡ fresh_walk kept.old) walks.items) }
    ensures count { IfOk result (λ walks. length walks.items ≡ count) }
    ensures kept { kept.new ≡ kept.old }
    ensures tics { steps.new.tics ≡ steps.old.tics }
    ensures pages_never_fall { steps.old.pages ≤ steps.new.pages }
{
    let mut walks = Vec::new(alloc);
    'forking: for _ in 0..count {
        walks.push(Walk::new(alloc, game, kept, steps)?)?;
    }
    Ok(walks)
}

/// The search by as many workers as there are walks, over a new board for the numbers that meet.
fn search_on<G: Game + Sync, T: Gate + Sync, R: Threads + Sync>(
    alloc: Global,
    rt: &R,
    game: &G,
    space: &Space,
    wants: &Wants,
    gate: &T,
    board: Board,
    mut seat: Seat,
    walk: Walk<G>,
    others: Vec<Walk<G>>,
    steps: &mut Steps,
) -> Result<Option<u64>, Memory>
where
    G::World: Send,
    requires seat { IsSeatOf board seat }
    requires view { seat.view ≡ opening (count_of space.now) block_size (all_meeting G.Game game.now walk.kept wants.now space.now) }
    requires fits { G.fits game.now walk.kept }
    requires fresh { walk ≡ fresh_walk walk.kept }
    requires others { All (λ other. other ≡ fresh_walk walk.kept) others.items }
    requires few { length others.items < 64 }
    ensures first { IfOk result (λ found. found ≡ first_meeting G.Game game.now walk.kept wants.now space.now) }
    ensures cost { OnOk result (Rises (search_cost G.Game game.now walk.kept wants.now space.now) steps.old.tics steps.new.tics) }
    ensures tics_never_fall { steps.old.tics ≤ steps.new.tics }
    ensures pages_never_fall { steps.old.pages ≤ steps.new.pages }
{
    let count = space.count();
    let crew = crew_of(alloc, count, &board, &mut seat, others)?;
    let first = new_worker(count, seat, walk, 0);
    let (seat, own) = fan_out(rt, alloc, game, space, wants, &board, gate, first, crew)?;
    add_steps(steps, own);
    Ok(found(board.close(seat), count))
}

/// The same, over a board that is made. `list` names the numbers that meet.
fn first_among<G: Game + Sync, T: Gate + Sync, R: Threads + Sync>(
    alloc: Global,
    rt: &R,
    game: &G,
    space: &Space,
    wants: &Wants,
    gate: &T,
    walk: Walk<G>,
    others: Vec<Walk<G>>,
    steps: &mut Steps,
) -> Result<Option<u64>, Memory>
where
    G::World: Send,
    ghost list: { List ℕ }
    requires fits { G.fits game.now walk.kept }
    requires fresh { walk ≡ fresh_walk walk.kept }
    requires others { All (λ other. other ≡ fresh_walk walk.kept) others.items }
    requires few { length others.items < 64 }
    requires list { list ≡ all_meeting G.Game game.now walk.kept wants.now space.now }
    ensures first { IfOk result (λ found. found ≡ first_meeting G.Game game.now walk.kept wants.now space.now) }
    ensures cost { OnOk result (Rises (search_cost G.Game game.now walk.kept wants.now space.now) steps.old.tics steps.new.tics) }
    ensures tics_never_fall { steps.old.tics ≤ steps.new.tics }
    ensures pages_never_fall { steps.old.pages ≤ steps.new.pages }
{
    let Ok((board, seat)) = Board::new(alloc, space.count(), BLOCK) else {
        return Err(Memory);
    };
    search_on(
        alloc, rt, game, space, wants, gate, board, seat, walk, others, steps,
    )
}

/// The least number whose sequence meets the targets, played on from the kept world, by 1 to 64 workers on threads of
/// their own; `None` exactly where there is none. Whatever the order of the workers' steps on the board, it is the same.
///
/// All forks of the kept world are made before a worker starts. A worker that finds no memory ends, and then the whole
/// answers `Memory`. The kept world keeps its meaning.
pub fn first_match<G: Game + Sync, T: Gate + Sync, R: Threads + Sync>(
    alloc: Global,
    rt: &R,
    game: &G,
    kept: &mut G::World,
    space: &Space,
    wants: &Wants,
    workers: u32,
    gate: &T,
    steps: &mut Steps,
) -> Result<Option<u64>, Memory>
where
    G::World: Send,
    requires kept { G.fits game.now kept.old }
    requires workers { (1 ≤ workers) × (workers ≤ 64) }
    ensures first { IfOk result (λ found. found ≡ first_meeting G.Game game.now kept.old wants.now space.now) }
    ensures kept { kept.new ≡ kept.old }

    // The tics that all workers play together: no fewer than the new ones of the numbers below the first, and no more
    // than what all blocks cost.
    ensures cost { OnOk result (Rises (search_cost G.Game game.now kept.old wants.now space.now) steps.old.tics steps.new.tics) }
    ensures tics_never_fall { steps.old.tics ≤ steps.new.tics }
    ensures pages_never_fall { steps.old.pages ≤ steps.new.pages }
{
    let first = Walk::new(alloc, game, kept, steps)?;
    let others = walks_of(alloc, game, kept, workers - 1, steps)?;
    gate.begin(space.count());
    first_among(alloc, rt, game, space, wants, gate, first, others, steps)
}
