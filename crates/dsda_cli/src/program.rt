// The top call: a command line, carried out over a shelf and a sink.
ghost use Rattle.std.specs.Prelude.{◌≡◌, ◌≤◌, ◌↔◌, Some, None, option_map, IfOk, IfSome};
ghost use Rattle.doom_edge.specs.Costs.{free};
ghost use Rattle.dsda_cli.specs.Refusal.{line_of};
ghost use Rattle.dsda_cli.specs.Commands.{HasWorkers, command_of};
ghost use Rattle.dsda_cli.specs.Meaning.{Reported, put_under};
ghost use Rattle.dsda_cli.specs.Ending.{seen, moment, EndsAs, Ends, IsLater, IsQuiet, Answers};
ghost use Rattle.dsda_cli.specs.Inside.{got, EndsBy, TellsRefusal};

use crate::command::{Command, command_of, inputs_of, out_name};
use crate::deliver::{push_text, put_demo, status_of_push, status_of_put, status_of_take};
use crate::fault::InputFault;
use crate::product::{Product, Stop};
use crate::status::Status;
use crate::take::take_all;
use crate::text::refusal_line;
use crate::words::Words;
use crate::work::judge;
use doom_edge::{Gate, Shelf, Sink, Steps};
use std::alloc::Global;
use std::thread::Threads;

/// Carries out the command that the words ask for: takes its inputs in the order of the words, puts the demo that they
/// come to, where there is one, and pushes the report, or the line of a refusal in its place.
#[tactic(auto, using(crate::proofs::EndLemmas::ends_answers))]
pub fn run<S: Shelf, N: Sink, G: Gate + Sync, R: Threads + Sync>(
    alloc: Global,
    rt: &R,
    words: &Words,
    shelf: &mut S,
    note: &mut N,
    gate: &G,
    steps: &mut Steps,
) -> Status
    // The words are no command line, and then nothing is touched.
    ensures usage { (result ≡ Status.Usage) ↔ (command_of words.now ≡ None) }
    ensures unused_shelf { result ≡ Status.Usage → shelf.new ≡ shelf.old }
    ensures unused_note { result ≡ Status.Usage → note.new ≡ note.old }

    // Each status comes by its cause, and what stands after it; work that was done took the tic steps that it costs.
    ensures ends { Ends (S.sure shelf.old × N.sure note.old) words.now
        (moment S.Shelf N.Sink shelf.old note.old steps.old.tics) (moment S.Shelf N.Sink shelf.new note.new steps.new.tics) result }

    // Where no count of faults rises, the status is the one that the words and the files come to, or there was no
    // memory.
    ensures complete { IsQuiet (seen S.Shelf N.Sink shelf.old note.old) (seen S.Shelf N.Sink shelf.new note.new)
        → Answers words.now (S.holds shelf.old) result }

    // So it is where no device fails but for a name that isn't held.
    ensures certain { S.sure shelf.old → N.sure note.old → Answers words.now (S.holds shelf.old) result }
{
    match command_of(words) {
        Some(command) => carry_out(alloc, rt, gate, command, words, shelf, note, steps),
        None => Status::Usage,
    }
}

/// Takes the inputs of the command, judges them, and puts and pushes what they come to.
fn carry_out<S: Shelf, N: Sink, G: Gate + Sync, R: Threads + Sync>(
    alloc: Global,
    rt: &R,
    gate: &G,
    command: Command,
    words: &Words,
    shelf: &mut S,
    note: &mut N,
    steps: &mut Steps,
) -> Status
    requires asked { command_of words.now ≡ Some command }
    requires able { HasWorkers command }
    ensures ends { Ends (S.sure shelf.old × N.sure note.old) words.now
        (moment S.Shelf N.Sink shelf.old note.old steps.old.tics) (moment S.Shelf N.Sink shelf.new note.new steps.new.tics) result }
    ensures used { result ≡ Status.Usage → ⊥ }
{
    let taken = take_all(alloc, inputs_of(command), words, shelf);
    match taken {
        Ok(texts) => conclude(
            alloc,
            judge(alloc, rt, gate, command, texts, steps),
            out_name(words, command),
            shelf,
            note,
        ),
        Err(fault) => status_of_take(fault),
    }
}

/// Puts the demo under the name, and pushes the report; or pushes the line of the refusal.
fn conclude<S: Shelf, N: Sink>(
    alloc: Global,
    judged: Result<Product, Stop>,
    name: Option<&str>,
    shelf: &mut S,
    note: &mut N,
) -> Status
    ensures ends { EndsBy (S.sure shelf.old × N.sure note.old) (option_map (λ name. name.now) name.entry) judged
        (seen S.Shelf N.Sink shelf.old note.old) (seen S.Shelf N.Sink shelf.new note.new) result }
    ensures later { IsLater (seen S.Shelf N.Sink shelf.old note.old) (seen S.Shelf N.Sink shelf.new note.new) }
    ensures used { result ≡ Status.Usage → ⊥ }
{
    match judged {
        Ok(product) => deliver(&product, name, shelf, note),
        Err(stop) => match stop {
            Stop::Refused(fault) => refuse(alloc, fault, note),
            Stop::Memory => Status::Memory,
        },
    }
}

/// Puts the demo under the name, if there is one, and then pushes the report.
fn deliver<S: Shelf, N: Sink>(
    product: &Product,
    name: Option<&str>,
    shelf: &mut S,
    note: &mut N,
) -> Status
    ensures ends { EndsAs (S.sure shelf.old × N.sure note.old)
        (Reported product.now.report (put_under (option_map (λ name. name.now) name.entry) product.now.demo) free)
        (seen S.Shelf N.Sink shelf.old note.old) (seen S.Shelf N.Sink shelf.new note.new) result }
    ensures later { IsLater (seen S.Shelf N.Sink shelf.old note.old) (seen S.Shelf N.Sink shelf.new note.new) }
{
    if let Err(fault) = put_demo(shelf, name, &product.demo) {
        return status_of_put(fault);
    }
    match push_text(note, &product.report) {
        Ok(()) => Status::Done,
        Err(fault) => status_of_push(fault),
    }
}

/// Pushes the line of the refusal.
fn refuse<N: Sink>(alloc: Global, fault: InputFault, note: &mut N) -> Status
    ensures tells { TellsRefusal (N.sure note.old) fault (got N.Sink note.old) (got N.Sink note.new) result }
    ensures later { N.faults note.old ≤ N.faults note.new }
{
    let Ok(line) = refusal_line(alloc, &fault) else {
        return Status::Memory;
    };
    match push_text(note, &line) {
        Ok(()) => Status::Refused(fault),
        Err(fault) => status_of_push(fault),
    }
}
