//! A session: a build, and the report of what it has shown and found.

ghost use Rattle.std.specs.Prelude.{◌≡◌, ℕ, Bool, List, Option, ◌+◌, ◌<◌, ◌≤◌, ◌++◌, [], All, length, Some, Ok, Err, IfOk, IfSome, OnOk, OnErr};
ghost use Rattle.lmp_codec.specs.Demo.{most_tics};
ghost use Rattle.lmp_codec.specs.Tics.{HoldsTurns};
ghost use Rattle.build_script.specs.Script.{HoldsTics};
ghost use Rattle.key_frames.specs.Frames.{frame_below};
ghost use Rattle.brute_ranges.specs.Space.{Ranges, all_sequences, sequence_at};
ghost use Rattle.brute_targets.specs.declared.want.Want.{Want};
ghost use Rattle.build_edits.specs.Built.{cursor_of};
ghost use Rattle.build_edits.specs.Parts.{all_tics};
ghost use Rattle.build_script.specs.declared.commands.Command.TheVariants as script;
ghost use Rattle.build_session.specs.Searches.{CanSearch, turns_of};
ghost use Rattle.build_session.specs.Session.{play_of, accepted, carried, all_carried, shown_in, searched, NamesSectors, HasForm};
ghost use Rattle.build_session.specs.Costs.{spent, showing, kept_after, all_run, unspent};
ghost use Rattle.build_session.specs.Lines.{answer_lines};
ghost use Rattle.build_session.specs.Runs.{state_in, Does, CarriesOut, Ends, Stands};

use crate::fault::{SessionFault, refused_at};
use crate::searches::{Searched, Searcher, search};
use crate::show::{Form, form_line};
use crate::texts::answer_lines;
use brute_ranges::Space;
use brute_targets::Wants;
use build_edits::{Build, EditFault};
use build_script::{Command, Script};
use doom_edge::{Gate, Memory, Steps};
use game_trait::{Details, Game};
use lmp_codec::{MOST_TICS, Tic};
use std::alloc::Global;
use std::marker::Model;
use std::thread::Threads;

/// A tape that is played in a game, and the report so far: contracts see the build and the report's bytes.
#[derive(Drop)]
pub struct Session<G: Game> {
    build: Build<G>,
    report: Vec<u8>,
}

impl<G: Game> Model for Session<G> {
    ghost use Rattle.build_session.specs.Seen.{Seen};

    ghost Value = { Seen G };

    ghost view = { λ s. record { build = s.build; report = s.report.items } };
}

impl<G: Details> Session<G> {
    /// Appends to the report.
    fn tell(&mut self, lines: &str) -> Result<(), EditFault>
        ensures told { OnOk result (self.new ≡ record self.old { report = self.old.report ++ lines.now }) }
        ensures memory { OnErr result (result ≡ Err EditFault.Memory) }
    {
        self.report.extend_from_slice(lines.as_bytes())?;
        Ok(())
    }

    /// Shows the world at the cursor in a form.
    fn show(&mut self, alloc: Global, form: Form, steps: &mut Steps) -> Result<(), EditFault>
        requires { HasForm (G.has_sector self.old.build.game) form }
        ensures { (turns : G → G.World → Ranges → List Want → Option ℕ)
            → Does result (Ok (shown_in (play_of G.Game G.ground_of G.vitals_of turns) self.old.build.game form (state_in self.old)))
            (showing (cursor_of self.old.build) self.old.build.reach) self.old self.new steps.old.tics steps.new.tics }
    {
        let world = self.build.world(alloc, steps)?;
        let line = form_line(alloc, self.build.game(), &world, form)?;
        self.tell(&line)
    }

    /// Puts the sequence with this number after the tics before the cursor, in place of the rest.
    fn accept(&mut self, alloc: Global, space: &Space, number: u64) -> Result<(), EditFault>
        requires number { number < length (all_sequences space.now) }
        requires room { length self.old.build.tape.before + length (sequence_at space.now number) ≤ most_tics }
        ensures accepted { OnOk result (self.new ≡ record { build = record self.old.build { tape = accepted space.now (Some number) self.old.build.tape; reach = frame_below self.old.build.reach (cursor_of self.old.build) }; report = self.old.report }) }
        ensures memory { OnErr result (result ≡ Err EditFault.Memory) }
    {
        let Ok(tics) = space.sequence(alloc, number) else {
            return Err(EditFault::Memory);
        };
        self.build.accept(&tics)
    }

    /// Takes the answer of a search.
    fn answer(&mut self, alloc: Global, space: &Space, searched: &Searched) -> Result<(), EditFault>
        requires number { IfSome searched.now.first (λ number. number < length (all_sequences space.now)) }
        requires room { IfSome searched.now.first (λ number. length self.old.build.tape.before + length (sequence_at space.now number) ≤ most_tics) }
        ensures answered { OnOk result (self.new ≡ record {
          build = record self.old.build { tape = accepted space.now searched.now.first self.old.build.tape; reach = kept_after searched.now.first (cursor_of self.old.build) self.old.build.reach };
          report = self.old.report ++ answer_lines searched.now.first searched.now.turns;
        }) }
        ensures memory { OnErr result (result ≡ Err EditFault.Memory) }
    {
        let lines = answer_lines(alloc, searched)?;
        self.tell(&lines)?;
        match searched.first {
            Some(number) => self.accept(alloc, space, number),
            None => Ok(()),
        }
    }
}

impl<G: Details + Sync> Session<G>
where
    G::World: Send,
{
    /// Goes on the first sequence that meets the targets.
    fn go<T: Gate + Sync, R: Threads + Sync>(
        &mut self,
        alloc: Global,
        rt: &R,
        gate: &T,
        searcher: &Searcher<'_>,
        space: &Space,
        wants: &Wants,
        steps: &mut Steps,
    ) -> Result<(), EditFault>
        requires { CanSearch searcher.now }
        ensures { let play = play_of G.Game G.ground_of G.vitals_of (turns_of searcher.now G.Game) in
            Does result (searched play self.old.build.game space.now wants.now (state_in self.old))
            (spent play self.old.build.game (script.Go space.now wants.now) (state_in self.old) self.old.build.reach) self.old self.new steps.old.tics steps.new.tics }
    {
        if space.depth() as usize > MOST_TICS - self.build.cursor() as usize {
            return Err(EditFault::TooLong);
        }
        let mut kept = self.build.world(alloc, steps)?;
        let game = self.build.game();
        let searched = search(
            alloc, rt, gate, searcher, game, &mut kept, space, wants, steps,
        )?;
        self.answer(alloc, space, &searched)
    }

    /// Carries one command out.
    fn carry<T: Gate + Sync, R: Threads + Sync>(
        &mut self,
        alloc: Global,
        rt: &R,
        gate: &T,
        searcher: &Searcher<'_>,
        command: &Command,
        steps: &mut Steps,
    ) -> Result<(), EditFault>
        requires able { CanSearch searcher.now }
        requires there { NamesSectors (G.has_sector self.old.build.game) command.now }
        ensures { let play = play_of G.Game G.ground_of G.vitals_of (turns_of searcher.now G.Game) in
            Does result (carried play self.old.build.game command.now (state_in self.old))
            (spent play self.old.build.game command.now (state_in self.old) self.old.build.reach) self.old self.new steps.old.tics steps.new.tics }
    {
        match command {
            Command::Seek(place) => self.build.seek(*place),
            Command::Put(tic) => self.build.put(*tic),
            Command::Insert(tic) => self.build.insert(*tic),
            Command::Delete => self.build.delete(),
            Command::Cut => self.build.cut(),
            Command::Repeat(count) => self.build.repeat(*count),
            Command::Show => self.show(alloc, Form::World, steps),
            Command::ShowSector(sector) => self.show(alloc, Form::Sector(*sector), steps),
            Command::ShowKeys => self.show(alloc, Form::Keys, steps),
            Command::ShowHealth => self.show(alloc, Form::Health, steps),
            Command::Want(_) => Ok(()),
            Command::Go(space, wants) => self.go(alloc, rt, gate, searcher, space, wants, steps),
        }
    }

    /// Carries a script out, one command after the other. The first that is refused ends it, and changes nothing. After
    /// `Memory` nothing is said of the session. The gate is called as by a search of workers.
    pub fn carry_out<T: Gate + Sync, R: Threads + Sync>(
        &mut self,
        alloc: Global,
        rt: &R,
        gate: &T,
        searcher: &Searcher<'_>,
        script: &Script,
        steps: &mut Steps,
    ) -> Result<(), SessionFault>
        requires able { CanSearch searcher.now }
        requires there { All (λ entry. NamesSectors (G.has_sector self.old.build.game) entry.command) script.now }

        // The session and what was played are what the tables say of the commands in their order.
        ensures run { CarriesOut result (all_run (play_of G.Game G.ground_of G.vitals_of (turns_of searcher.now G.Game)) self.old.build.game script.now
            (unspent (state_in self.old) self.old.build.reach)) self.old self.new steps.old.tics steps.new.tics }

        // The same of the session alone.
        ensures carried { Ends result (all_carried (play_of G.Game G.ground_of G.vitals_of (turns_of searcher.now G.Game)) self.old.build.game script.now (state_in self.old)) self.new }

        // After a refusal the session is what the commands before the refused one have made.
        ensures stands { Stands result (play_of G.Game G.ground_of G.vitals_of (turns_of searcher.now G.Game)) self.old.build.game script.now self.old self.new }

        // A demo holds the turns of all tics that are left, where it holds those of the first and of the script.
        ensures turns { (long : Bool) → HoldsTics long script.now → HoldsTurns long (all_tics self.old.build.tape)
            → OnOk result (HoldsTurns long (all_tics self.new.build.tape)) }
    {
        for place in 0..script.len() {
            match self.carry(alloc, rt, gate, searcher, script.command(place), steps) {
                Ok(()) => {}
                Err(fault) => return Err(refused_at(script.line(place), fault)),
            }
        }
        Ok(())
    }
}

impl<G: Details + Drop> Session<G> {
    /// A session of these tics in this game, with the cursor at its start and nothing to report.
    pub fn begin(alloc: Global, game: G, tics: Vec<Tic>) -> Result<Session<G>, Memory>
        requires { length tics.items ≤ most_tics }
        ensures begun { IfOk result (λ session. session ≡ record { build = record { game = game; tape = record { before = []; after = tics.items }; reach = 0 }; report = [] }) }
    {
        let build = Build::begin(alloc, game, tics)?;
        Ok(Session {
            build,
            report: Vec::new(alloc),
        })
    }

    /// The report, and all the tics.
    pub fn finish(self) -> Result<(Vec<u8>, Vec<Tic>), Memory>
        ensures report { IfOk result (λ done. done.0.items ≡ self.report) }
        ensures tics { IfOk result (λ done. done.1.items ≡ all_tics self.build.tape) }
        ensures within { IfOk result (λ done. length done.1.items ≤ most_tics) }
    {
        let Session { build, report } = self;
        let tics = build.into_tics()?;
        Ok((report, tics))
    }
}
