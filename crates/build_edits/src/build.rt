ghost use Rattle.std.specs.Prelude.{◌≡◌, ◌+◌, ◌-◌, ◌<◌, ◌≤◌, ◌↔◌, max, [], length, slice_get, IsTrue, IfOk, OnOk};
ghost use Rattle.doom_edge.specs.Counts.{raised};
ghost use Rattle.lmp_codec.specs.Demo.{most_tics};
ghost use Rattle.game_trait.specs.Replay.{IsReplay};
ghost use Rattle.key_frames.specs.Frames.{frame_tics, frame_tic, frame_below};
ghost use Rattle.build_edits.specs.Parts.{all_tics};
ghost use Rattle.build_edits.specs.Edits.{Edits, MayEdit, seek_outcome, put_outcome, insert_outcome, delete_outcome, cut_outcome, repeat_outcome, accept_outcome};
ghost use Rattle.build_edits.specs.Built.{cursor_of, after_seek, after_edit};

use crate::fault::EditFault;
use crate::reel::Tape;
use doom_edge::{Memory, Steps};
use game_trait::Game;
use key_frames::Frames;
use lmp_codec::Tic;
use std::alloc::Global;
use std::marker::Model;

/// A tape that is played in a game: the world at the cursor can be shown, and worlds that are kept on the way
/// make that cheap.
///
/// It is seen as the game, the tape's parts and the tic of the last world that is kept. Each edit is that of
/// the [`Tape`], with the same refusals, and drops the kept worlds past the cursor, since they are no replays
/// any more.
#[derive(Drop)]
pub struct Build<G: Game> {
    game: G,
    tape: Tape,
    frames: Frames<G>,
}

impl<G: Game> Model for Build<G> {
    ghost use Rattle.key_frames.specs.Frames.{reach, AreFrames};
    ghost use Rattle.build_edits.specs.Parts.{all_tics};
    ghost use Rattle.build_edits.specs.Built.{Built};

    ghost Value = { Built G };

    ghost view = { λ b. record { game = b.game; tape = b.tape; reach = reach b.frames } };

    ghost invariant = { λ b. AreFrames G.Game b.game (all_tics b.tape) b.frames };
}

impl<G: Game> Build<G> {
    /// The game that it was opened with.
    pub fn game(&self) -> &G
        ensures game { result.now ≡ self.now.game }
    {
        &self.game
    }

    /// The tic at a place, if there is one.
    pub fn tic(&self, place: u32) -> Option<Tic>
        ensures tic { result ≡ slice_get (all_tics self.now.tape) place }
    {
        self.tape.tic(place)
    }

    /// How many tics there are.
    pub fn len(&self) -> usize
        ensures len { result ≡ length (all_tics self.now.tape) }
        ensures within { result ≤ most_tics }
    {
        self.tape.len()
    }

    /// Whether there is no tic.
    pub fn is_empty(&self) -> bool
        ensures { IsTrue result ↔ (length (all_tics self.now.tape) ≡ 0) }
    {
        self.tape.is_empty()
    }

    /// How many tics stand before the cursor.
    pub fn cursor(&self) -> u32
        ensures value { result ≡ cursor_of self.now }
        ensures within { length (all_tics self.now.tape) ≤ most_tics }
    {
        self.tape.cursor()
    }

    /// The world at the cursor: the plain replay of the tics before it. It takes a tic step for each tic from
    /// the last kept world that is not past the cursor. Without memory, the worlds that were made on the way
    /// stay.
    pub fn world(&mut self, alloc: Global, steps: &mut Steps) -> Result<G::World, Memory>
        ensures world { IfOk result (IsReplay G.Game self.old.game self.old.tape.before) }
        ensures tics { let played = cursor_of self.old - frame_below self.old.reach (cursor_of self.old) in
            OnOk result (steps.new.tics ≡ raised steps.old.tics played) }
        ensures near { OnOk result (frame_tic (cursor_of self.old) ≤ self.old.reach
            → steps.new.tics < steps.old.tics + frame_tics) }
        ensures kept { self.new ≡ record self.old { reach = self.new.reach } }
        ensures reach { OnOk result (self.new.reach ≡ max self.old.reach (frame_tic (cursor_of self.old))) }
        ensures none_dropped { self.old.reach ≤ self.new.reach }
        ensures none_past { self.new.reach ≤ max self.old.reach (frame_tic (cursor_of self.old)) }
        ensures tics_never_fall { steps.old.tics ≤ steps.new.tics }
        ensures pages_never_fall { steps.old.pages ≤ steps.new.pages }
    {
        let place = self.tape.cursor();
        self.tape.tics.gather(place as usize)?;
        let tics = self.tape.tics.front();
        self.frames.world_at(alloc, &self.game, place, tics, steps)
    }

    /// Moves the cursor to this place. Refused with `Place` and the number of tics where that is less.
    pub fn seek(&mut self, place: u32) -> Result<(), EditFault>
        ensures edits { Edits result self.old self.new (after_seek self.old (seek_outcome place self.old.tape)) }
    {
        self.tape.seek(place)?;
        Ok(())
    }

    /// Writes the tic over the one at the cursor, or appends it at the end, and moves the cursor behind it.
    /// Refused with `TooLong` where it would be one tic too many.
    pub fn put(&mut self, tic: Tic) -> Result<(), EditFault>
        ensures edits { MayEdit result self.old self.new (after_edit self.old (put_outcome tic self.old.tape)) }
    {
        let place = self.tape.cursor();
        self.tape.put(tic)?;
        self.frames.cut(place);
        Ok(())
    }

    /// Inserts the tic at the cursor, and moves the cursor behind it. Refused with `TooLong` where it would
    /// be one tic too many.
    pub fn insert(&mut self, tic: Tic) -> Result<(), EditFault>
        ensures edits { MayEdit result self.old self.new (after_edit self.old (insert_outcome tic self.old.tape)) }
    {
        let place = self.tape.cursor();
        self.tape.insert(tic)?;
        self.frames.cut(place);
        Ok(())
    }

    /// Removes the tic at the cursor. Refused with `Place` and the number of tics where the cursor is at the
    /// end.
    pub fn delete(&mut self) -> Result<(), EditFault>
        ensures edits { Edits result self.old self.new (after_edit self.old (delete_outcome self.old.tape)) }
    {
        let place = self.tape.cursor();
        self.tape.delete()?;
        self.frames.cut(place);
        Ok(())
    }

    /// Removes all tics from the cursor on. It is never refused.
    pub fn cut(&mut self) -> Result<(), EditFault>
        ensures edits { Edits result self.old self.new (after_edit self.old (cut_outcome self.old.tape)) }
    {
        let place = self.tape.cursor();
        self.tape.cut()?;
        self.frames.cut(place);
        Ok(())
    }

    /// Puts the tic before the cursor so many times more. Refused with `Before` where there is none, and with
    /// `TooLong` where that would be too many tics.
    pub fn repeat(&mut self, count: u32) -> Result<(), EditFault>
        ensures edits { let outcome = repeat_outcome count self.old.tape in
            MayEdit result self.old self.new (after_edit self.old outcome) }
    {
        let place = self.tape.cursor();
        self.tape.repeat(count)?;
        self.frames.cut(place);
        Ok(())
    }

    /// Puts these tics in place of all tics from the cursor on, and moves the cursor to the end. Refused with
    /// `TooLong` where that would be too many tics.
    pub fn accept(&mut self, tics: &[Tic]) -> Result<(), EditFault>
        ensures edits { let outcome = accept_outcome tics.now self.old.tape in
            MayEdit result self.old self.new (after_edit self.old outcome) }
    {
        let place = self.tape.cursor();
        self.tape.accept(tics)?;
        self.frames.cut(place);
        Ok(())
    }
}

impl<G: Game + Drop> Build<G> {
    /// A build of these tics in this game, with the cursor at its start.
    pub fn begin(alloc: Global, game: G, tics: Vec<Tic>) -> Result<Build<G>, Memory>
        requires { length tics.items ≤ most_tics }
        ensures begun { IfOk result (λ build. build ≡
            record { game = game; tape = record { before = []; after = tics.items }; reach = 0 }) }
    {
        let frames = Frames::new(alloc, &game)?;
        Ok(Build {
            game,
            tape: Tape::new(tics),
            frames,
        })
    }

    /// All the tics, in order, as the vector that holds them.
    pub fn into_tics(self) -> Result<Vec<Tic>, Memory>
        ensures all { IfOk result (λ tics. tics.items ≡ all_tics self.tape) }
        ensures within { IfOk result (λ tics. length tics.items ≤ most_tics) }
    {
        let Build {
            game: _,
            tape,
            frames: _,
        } = self;
        tape.into_tics()
    }
}
