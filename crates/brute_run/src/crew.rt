//! The workers of a search, and their work on threads of their own.

ghost use Rattle.std.specs.Prelude.{◌≡◌, ℕ, ◌+◌, ◌-◌, ◌*◌, ◌^◌, ◌<◌, ◌≤◌, List, [], ◌∷◌, length, All, None, IfOk, OnOk};
ghost use Rattle.std.specs.Thread.{IsSync, IsSend};
ghost use Rattle.claim_board.specs.Seated.{IsSeatOf};
ghost use Rattle.brute_run.specs.Search.{count_of, meets};
ghost use Rattle.brute_run.specs.Walks.{fresh_walk};
ghost use Rattle.brute_run.specs.Working.{IsAtWork, IsInCrew, HasWorked, start_of};
ghost use Rattle.claim_board.specs.Views.{split_off};

use crate::first::BLOCK;
use crate::walk::Walk;
use crate::worker::Worker;
use brute_ranges::Space;
use brute_targets::Wants;
use claim_board::{Board, Seat};
use doom_edge::{Gate, Memory, Steps};
use game_trait::Game;
use search_core::Hand;
use std::alloc::Global;
use std::thread::{Threads, join};

/// A worker that has done nothing.
pub fn new_worker<G: Game>(count: u64, seat: Seat, walk: Walk<G>, number: u32) -> Worker<G>
    requires { count ≤ 2 ^ 40 }
    ensures { result ≡ start_of count seat walk }
{
    Worker {
        hand: Hand::new(count, BLOCK),
        seat,
        walk,
        steps: Steps::new(),
        number,
    }
}

/// A worker for each walk. Their seats are split off this one.
pub fn crew_of<G: Game>(
    alloc: Global,
    count: u64,
    board: &Board,
    seat: &mut Seat,
    mut walks: Vec<Walk<G>>,
) -> Result<Vec<Worker<G>>, Memory>
    requires count { count ≤ 2 ^ 40 }
    requires seat { IsSeatOf board.now seat.old }
    requires spare { length walks.items ≤ seat.old.view.spare }
    requires few { length walks.items < 64 }
    ensures seat { IsSeatOf board.now seat.new }
    ensures view { seat.new.view ≡ record seat.old.view { spare = seat.new.view.spare } }
    ensures whole { IfOk result (λ crew. seat.new.view.spare + length crew.items ≡ seat.old.view.spare) }
    ensures crew { IfOk result (λ crew. (kept : G.World) → All (λ walk. walk ≡ fresh_walk kept) walks.items
        → All (λ worker. worker ≡ start_of count (record { board = board.now; view = split_off seat.old.view }) (fresh_walk kept)) crew.items) }
{
    let mut crew = Vec::new(alloc);
    'seating: while let Some(walk) = walks.pop() {
        let number = walks.len() as u32 + 1;
        crew.push(new_worker(count, board.split(seat), walk, number))?;
    }
    Ok(crew)
}

/// The work of the first worker and of the others, each on a thread of its own, in one seat and one counter.
pub fn fan_out<G: Game + Sync, T: Gate + Sync, R: Threads + Sync>(
    rt: &R,
    alloc: Global,
    game: &G,
    space: &Space,
    wants: &Wants,
    board: &Board,
    gate: &T,
    first: Worker<G>,
    mut others: Vec<Worker<G>>,
) -> Result<(Seat, Steps), Memory>
where
    G::World: Send,
    requires seat { IsSeatOf board.now first.seat }
    requires work { IsAtWork G.Game game.now wants.now space.now first }
    requires others { All (IsInCrew G.Game game.now wants.now space.now board.now first.walk.kept) others.items }
    ensures seat { IfOk result (λ done. IsSeatOf board.now done.0) }
    ensures worked { IfOk result (λ done. HasWorked (meets G.Game game.now first.walk.kept wants.now space.now) space.now
        (first.seat.view.parts + first.seat.view.spare + length others.items) done.0.view done.1.tics) }
{
    let Some(other) = others.pop() else {
        return first.worked(alloc, game, space, wants, board, gate);
    };
    let (mine, theirs) = join(
        rt,
        || -> Result<(Seat, Steps), Memory>
            requires { IsSync R.row × IsSync G.row × IsSync T.row × IsSeatOf board.now first.seat
                × IsAtWork G.Game game.now wants.now space.now first
                × All (IsInCrew G.Game game.now wants.now space.now board.now first.walk.kept) others.items }
            ensures { IfOk result (λ done. IsSeatOf board.entry.now done.0
                × HasWorked (meets G.Game game.entry.now first.walk.kept wants.entry.now space.entry.now) space.entry.now
                (first.seat.view.parts + first.seat.view.spare + length others.items) done.0.view done.1.tics) }
        { fan_out(rt, alloc, game, space, wants, board, gate, first, others) },
        || -> Result<(Seat, Steps), Memory>
            requires { IsSeatOf board.now other.seat × IsAtWork G.Game game.now wants.now space.now other }
            ensures { IfOk result (λ done. IsSeatOf board.entry.now done.0
                × HasWorked (meets G.Game game.entry.now other.walk.kept wants.entry.now space.entry.now) space.entry.now
                (other.seat.view.parts + other.seat.view.spare) done.0.view done.1.tics) }
        { other.worked(alloc, game, space, wants, board, gate) },
    );
    let (mut seat, mut steps) = mine?;
    let (other_seat, other_steps) = theirs?;
    board.join(&mut seat, other_seat);
    steps.add(other_steps);
    Ok((seat, steps))
}
