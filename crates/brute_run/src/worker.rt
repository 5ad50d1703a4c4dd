//! One worker: a hand of the search, a seat at the board, a walk, and a counter of its own.

ghost use Rattle.std.specs.Prelude.{◌≡◌, ◌+◌, ◌<◌, ◌≤◌, false, IfOk, OnOk, IsTrue};
ghost use Rattle.search_core.specs.declared.hand.Phase.TheVariants as phases;
ghost use Rattle.search_core.specs.Machine.{verdict};
ghost use Rattle.claim_board.specs.Seated.{IsSeatOf};
ghost use Rattle.claim_board.specs.Views.{IsOver};
ghost use Rattle.brute_run.specs.Search.{meets};
ghost use Rattle.brute_run.specs.Working.{IsAtWork, HasWorked, turns_left};

use crate::walk::Walk;
use brute_ranges::Space;
use brute_targets::Wants;
use claim_board::{Board, Seat};
use doom_edge::{Gate, Memory, Steps};
use game_trait::Game;
use search_core::{Answer, Ask, Hand};
use std::alloc::Global;
use std::marker::Model;

/// A worker of a search.
#[derive(Drop)]
pub struct Worker<G: Game> {
    pub hand: Hand,
    pub seat: Seat,
    pub walk: Walk<G>,
    pub steps: Steps,
    pub number: u32,
}

impl<G: Game> Model for Worker<G> {
    ghost use Rattle.brute_run.specs.Working.{Working};

    ghost Value = { Working G.World };

    ghost view = { λ worker. record {
      hand = worker.hand;
      seat = worker.seat;
      walk = worker.walk;
      steps = worker.steps;
    } };
}

/// What a hand is told of its try.
pub(crate) fn verdict(met: bool) -> Answer
    ensures { result ≡ verdict met }
{
    if met { Answer::Met } else { Answer::Missed }
}

impl<G: Game> Worker<G> {
    /// The worker's next turn, as its hand asks for it; or `false` where it has ended.
    fn turn<T: Gate>(
        &mut self,
        alloc: Global,
        game: &G,
        space: &Space,
        wants: &Wants,
        board: &Board,
        gate: &T,
    ) -> Result<bool, Memory>
        requires seat { IsSeatOf board.now self.old.seat }
        requires work { IsAtWork G.Game game.now wants.now space.now self.old }
        ensures seat { IsSeatOf board.now self.new.seat }
        ensures work { OnOk result (IsAtWork G.Game game.now wants.now space.now self.new) }
        ensures kept { self.new.walk.kept ≡ self.old.walk.kept }
        ensures parts { self.new.seat.view.parts ≡ self.old.seat.view.parts }
        ensures spare { self.new.seat.view.spare ≡ self.old.seat.view.spare }
        ensures less { IfOk result (λ going. IsTrue going → turns_left self.new.hand < turns_left self.old.hand) }
        ensures over { IfOk result (λ going. going ≡ false → IsOver self.new.seat.view) }
        ensures ended { IfOk result (λ going. going ≡ false → self.new.hand.phase ≡ phases.Over) }
    {
        match self.hand.next() {
            Ask::Claim => {
                let block = board.claim(&mut self.seat);
                self.hand.told(Answer::Block(block));
                gate.at(self.number, block);
                Ok(true)
            }
            Ask::Look => {
                let least = board.look(&mut self.seat);
                self.hand.told(Answer::Least(least));
                Ok(true)
            }
            Ask::Try(number) => {
                let met = self
                    .walk
                    .visit(alloc, game, space, wants, number, &mut self.steps)?;
                self.hand.told(verdict(met));
                Ok(true)
            }
            Ask::Post(number) => {
                let least = board.post(&mut self.seat, number);
                self.hand.told(Answer::Least(least));
                Ok(true)
            }
            Ask::Over => Ok(false),
        }
    }

    /// Takes turns until the hand has ended.
    fn work<T: Gate>(
        &mut self,
        alloc: Global,
        game: &G,
        space: &Space,
        wants: &Wants,
        board: &Board,
        gate: &T,
    ) -> Result<(), Memory>
        requires seat { IsSeatOf board.now self.old.seat }
        requires work { IsAtWork G.Game game.now wants.now space.now self.old }
        ensures seat { IsSeatOf board.now self.new.seat }
        ensures work { OnOk result (IsAtWork G.Game game.now wants.now space.now self.new) }
        ensures kept { self.new.walk.kept ≡ self.old.walk.kept }
        ensures parts { self.new.seat.view.parts ≡ self.old.seat.view.parts }
        ensures spare { self.new.seat.view.spare ≡ self.old.seat.view.spare }
        ensures over { OnOk result (IsOver self.new.seat.view) }
        ensures ended { OnOk result (self.new.hand.phase ≡ phases.Over) }
    {
        'working: while self.turn(alloc, game, space, wants, board, gate)? {}
        Ok(())
    }

    /// Works, and hands back the seat and the counter.
    pub fn worked<T: Gate>(
        mut self,
        alloc: Global,
        game: &G,
        space: &Space,
        wants: &Wants,
        board: &Board,
        gate: &T,
    ) -> Result<(Seat, Steps), Memory>
        requires seat { IsSeatOf board.now self.seat }
        requires work { IsAtWork G.Game game.now wants.now space.now self }
        ensures seat { IfOk result (λ done. IsSeatOf board.now done.0) }
        ensures worked { IfOk result (λ done. HasWorked (meets G.Game game.now self.walk.kept wants.now space.now) space.now
            (self.seat.view.parts + self.seat.view.spare) done.0.view done.1.tics) }
    {
        self.work(alloc, game, space, wants, board, gate)?;
        let Worker {
            hand: _,
            seat,
            walk: _,
            steps,
            number: _,
        } = self;
        Ok((seat, steps))
    }
}
