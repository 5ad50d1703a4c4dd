//! Walks over sequences.

ghost use Rattle.std.specs.Prelude.{◌≡◌, ℕ, ◌+◌, ◌-◌, ◌<◌, ◌≤◌, ◌||◌, min, List, [], ◌∷◌, ◌++◌, length, take, slice_get, Some, All, IfOk, OnOk};
ghost use Rattle.doom_edge.specs.Counts.{raised};
ghost use Rattle.lmp_codec.specs.declared.input.Tic.{Tic};
ghost use Rattle.game_trait.specs.Replay.{after_all};
ghost use Rattle.brute_ranges.specs.Space.{Ranges, sequence_at, shared_front};
ghost use Rattle.brute_targets.specs.declared.want.Want.{Want};
ghost use Rattle.brute_targets.specs.Lines.{has_bit};
ghost use Rattle.brute_targets.specs.Targets.{acts_at};
ghost use Rattle.brute_run.specs.Search.{count_of, meets};
ghost use Rattle.brute_run.specs.Walks.{Walked, fresh_walk, top_world, top_lines, Belongs, shared_with};

use brute_ranges::Space;
use brute_targets::{Wants, join_lines};
use doom_edge::{Memory, Steps};
use game_trait::Game;
use lmp_codec::Tic;
use std::alloc::Global;
use std::marker::Model;

// So many numbers are tried over pages that other walks share: pages of its own cost a walk a copy of the whole level.
const FEW_TRIES: u32 = 256;

/// A kept world, and one world for each depth along the sequence that was tried last. So of the next sequence only
/// the tics from the first one on that differs are played. Contracts see it as a `Walked`.
///
/// The worlds of a walk that has tried few numbers share pages with the world that it began from. After 256 numbers
/// the walk gives the world from which it plays on pages of its own, where it has none yet: once a depth at most.
///
/// After want of memory nothing is known of a walk but its kept world and the number that was tried last.
#[derive(Drop)]
pub struct Walk<G: Game> {
    kept: G::World,
    worlds: Vec<G::World>,
    lines: Vec<u16>,
    last: u64,
    // How many numbers were tried, up to `FEW_TRIES`.
    tries: u32,
    // After so many tics and more, the worlds are forks of one that got pages of its own.
    own_from: usize,
}

impl<G: Game> Model for Walk<G> {
    ghost use Rattle.brute_run.specs.Walks.{Walked};

    ghost Value = { Walked G.World };

    ghost view = { λ walk. record {
      kept = walk.kept;
      worlds = walk.worlds.items;
      lines = walk.lines.items;
      last = walk.last;
    } };
}

/// A fork of the last of the worlds, or of the kept world where there is none.
fn fork_top<G: Game>(
    alloc: Global,
    game: &G,
    kept: &mut G::World,
    worlds: &mut Vec<G::World>,
    steps: &mut Steps,
) -> Result<G::World, Memory>
    requires kept { G.fits game.now kept.old }
    requires worlds { G.fits game.now (top_world kept.old worlds.old.items) }
    ensures kept { kept.new ≡ kept.old }
    ensures worlds { worlds.new.items ≡ worlds.old.items }
    ensures same { IfOk result (λ forked. forked ≡ top_world kept.old worlds.old.items) }
    ensures fitting { IfOk result (G.fits game.now) }
    ensures tics { steps.new.tics ≡ steps.old.tics }
    ensures pages_never_fall { steps.old.pages ≤ steps.new.pages }
{
    let len = worlds.len();
    if len == 0 {
        let forked = game.fork(alloc, kept, steps)?;
        return Ok(forked);
    }
    let forked = game.fork(alloc, &mut worlds[len - 1], steps)?;
    Ok(forked)
}

/// Gives the last of the worlds, or the kept world where there is none, pages of its own.
fn own_top<G: Game>(
    alloc: Global,
    game: &G,
    kept: &mut G::World,
    worlds: &mut Vec<G::World>,
    steps: &mut Steps,
) -> Result<(), Memory>
    requires kept { G.fits game.now kept.old }
    requires worlds { G.fits game.now (top_world kept.old worlds.old.items) }
    ensures kept { kept.new ≡ kept.old }
    ensures worlds { worlds.new.items ≡ worlds.old.items }
    ensures tics { steps.new.tics ≡ steps.old.tics }
    ensures pages_never_fall { steps.old.pages ≤ steps.new.pages }
{
    let len = worlds.len();
    if len == 0 {
        game.own_pages(alloc, kept, steps)?;
        return Ok(());
    }
    game.own_pages(alloc, &mut worlds[len - 1], steps)?;
    Ok(())
}

/// The last of the line bits, or none.
fn last_of(lines: &[u16]) -> u16
    ensures { result ≡ top_lines lines.now }
{
    match lines.len() {
        0 => 0,
        len => lines[len - 1],
    }
}

impl<G: Game> Walk<G> {
    /// A walk from a fork of the kept world, with which it shares pages. No number was tried yet, and it belongs to
    /// this game, any targets and any sequences. It takes no tic step, and leaves the kept world as it was.
    pub fn new(
        alloc: Global,
        game: &G,
        kept: &mut G::World,
        steps: &mut Steps,
    ) -> Result<Walk<G>, Memory>
        requires { G.fits game.now kept.old }
        ensures fresh { IfOk result (λ walk. walk ≡ fresh_walk kept.old) }
        ensures belongs { IfOk result (λ walk. (wants : List Want) (ranges : Ranges) → 0 < count_of ranges
            → Belongs G.Game game.now wants ranges walk) }
        ensures kept { kept.new ≡ kept.old }
        ensures tics { steps.new.tics ≡ steps.old.tics }
        ensures pages_never_fall { steps.old.pages ≤ steps.new.pages }
    {
        Ok(Walk {
            kept: game.fork(alloc, kept, steps)?,
            worlds: Vec::new(alloc),
            lines: Vec::new(alloc),
            last: 0,
            tries: 0,
            own_from: usize::MAX,
        })
    }

    /// Counts one try more; or, once enough were counted, gives the world that is forked next pages of its own, where it
    /// is no fork of one that has some.
    fn count_try(&mut self, alloc: Global, game: &G, steps: &mut Steps) -> Result<(), Memory>
        requires kept { G.fits game.now self.old.kept }
        requires top { G.fits game.now (top_world self.old.kept self.old.worlds) }
        ensures same { self.new ≡ self.old }
        ensures tics { steps.new.tics ≡ steps.old.tics }
        ensures pages_never_fall { steps.old.pages ≤ steps.new.pages }
    {
        if self.tries < FEW_TRIES {
            self.tries += 1;
            return Ok(());
        }
        let depth = self.worlds.len();
        if depth < self.own_from {
            own_top(alloc, game, &mut self.kept, &mut self.worlds, steps)?;
            self.own_from = depth;
        }
        Ok(())
    }

    /// Plays one tic more.
    fn play(
        &mut self,
        alloc: Global,
        game: &G,
        wants: &Wants,
        tic: Tic,
        steps: &mut Steps,
    ) -> Result<(), Memory>
        requires kept { G.fits game.now self.old.kept }
        requires top { G.fits game.now (top_world self.old.kept self.old.worlds) }
        ensures kept { self.new.kept ≡ self.old.kept }
        ensures last { self.new.last ≡ self.old.last }
        ensures worlds { let next = G.after game.now (top_world self.old.kept self.old.worlds) tic in
            OnOk result ((self.new.worlds ≡ self.old.worlds ++ next ∷ []) × G.fits game.now next) }
        ensures lines { let next = G.after game.now (top_world self.old.kept self.old.worlds) tic in
            OnOk result ((lines : ℕ) × (self.new.lines ≡ self.old.lines ++ lines ∷ [])
            × ((i : ℕ) → has_bit lines i ≡ (has_bit (top_lines self.old.lines) i || acts_at G.Game game.now next wants.now i))) }
        ensures tics { OnOk result (steps.new.tics ≡ raised steps.old.tics 1) }
        ensures tics_never_fall { steps.old.tics ≤ steps.new.tics }
        ensures pages_never_fall { steps.old.pages ≤ steps.new.pages }
    {
        let mut world = fork_top(alloc, game, &mut self.kept, &mut self.worlds, steps)?;
        game.step(alloc, &mut world, tic, steps)?;
        let lines = join_lines(last_of(&self.lines), wants.lines_met(game, &world));
        self.worlds.push(world)?;
        self.lines.push(lines)?;
        Ok(())
    }

    /// Plays the tics of the last number that were not played yet, and counts the try.
    fn extend(
        &mut self,
        alloc: Global,
        game: &G,
        space: &Space,
        wants: &Wants,
        steps: &mut Steps,
    ) -> Result<(), Memory>
        requires { Belongs G.Game game.now wants.now space.now self.old }
        ensures belongs { OnOk result (Belongs G.Game game.now wants.now space.now self.new) }
        ensures kept { self.new.kept ≡ self.old.kept }
        ensures last { self.new.last ≡ self.old.last }
        ensures full { OnOk result (length self.new.worlds ≡ length space.now.tics) }
        ensures tics { OnOk result (steps.new.tics ≡ raised steps.old.tics (length space.now.tics - length self.old.worlds)) }
        ensures tics_never_fall { steps.old.tics ≤ steps.new.tics }
        ensures pages_never_fall { steps.old.pages ≤ steps.new.pages }
    {
        self.count_try(alloc, game, steps)?;
        let depth = space.depth();
        let played = self.worlds.len() as u32;
        'playing: for place in played..depth {
            let tic = space.tic_at(self.last, place);
            self.play(alloc, game, wants, tic, steps)?;
        }
        Ok(())
    }

    /// Whether the sequence with this number meets the targets, played on from the kept world. Of its tics those are
    /// played that it does not share with the number that was tried last.
    pub fn visit(
        &mut self,
        alloc: Global,
        game: &G,
        space: &Space,
        wants: &Wants,
        number: u64,
        steps: &mut Steps,
    ) -> Result<bool, Memory>
        requires belongs { Belongs G.Game game.now wants.now space.now self.old }
        requires number { number < count_of space.now }
        ensures met { IfOk result (λ met. met ≡ meets G.Game game.now self.old.kept wants.now space.now number) }
        ensures belongs { OnOk result (Belongs G.Game game.now wants.now space.now self.new) }
        ensures full { OnOk result (length self.new.worlds ≡ length space.now.tics) }
        ensures some_world { OnOk result (0 < length self.new.worlds) }
        ensures kept { self.new.kept ≡ self.old.kept }
        ensures last { self.new.last ≡ number }
        ensures tics { OnOk result (steps.new.tics ≡ raised steps.old.tics (length space.now.tics - shared_with self.old space.now number)) }

        // No number from the last one on up to this one shares less with it.
        ensures nearest { (m : ℕ) → self.old.last ≤ m → m ≤ number
            → shared_with self.old space.now number ≤ shared_front (sequence_at space.now m) (sequence_at space.now number) }
        ensures tics_never_fall { steps.old.tics ≤ steps.new.tics }
        ensures pages_never_fall { steps.old.pages ≤ steps.new.pages }
    {
        let depth = space.depth() as usize;
        let shared = space.shared(self.last, number) as usize;
        self.worlds.truncate(shared);
        self.lines.truncate(shared);
        self.last = number;
        self.extend(alloc, game, space, wants, steps)?;
        let met = wants.met(game, &self.worlds[depth - 1], self.lines[depth - 1]);
        Ok(met)
    }

    /// The world after the last tic of the number that was tried last.
    pub fn last(&self) -> &G::World
        requires { 0 < length self.now.worlds }
        ensures last { result.now ≡ top_world self.now.kept self.now.worlds }

        // In any game that the walk belongs to, after a number was tried, it is the world after that number's tics.
        ensures played { (game : G) (wants : List Want) (ranges : Ranges) → Belongs G.Game game wants ranges self.now
            → length self.now.worlds ≡ length (sequence_at ranges self.now.last)
            → result.now ≡ after_all G.Game game self.now.kept (sequence_at ranges self.now.last) }
    {
        &self.worlds[self.worlds.len() - 1]
    }
}
