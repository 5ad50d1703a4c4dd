// What a command makes of the texts of its inputs.
ghost use Rattle.std.specs.Prelude.{◌≡◌, ◌≢◌, ℕ, map, option_map};
ghost use Rattle.doom_edge.specs.Costs.{free};
ghost use Rattle.dsda_cli.specs.Commands.{HasWorkers};
ghost use Rattle.dsda_cli.specs.Meaning.{with_cost, edited, worked, answer_of, too_large, text_at};
ghost use Rattle.dsda_cli.specs.Inside.{Gives, Takes};

use crate::command::{Command, Input, inputs_of};
use crate::edits::scripted;
use crate::fault::InputFault;
use crate::galleries::generate;
use crate::inputs;
use crate::level::level;
use crate::product::{Product, Stop};
use crate::sessions::{build, sim};
use doom_edge::{Gate, Steps};
use lmp_codec::{Demo, write_demo};
use std::alloc::Global;
use std::mem;
use std::thread::Threads;

/// What the command makes of these texts, or their first fault. A text above its limit is refused before any is read.
#[tactic(auto, using(crate::proofs::JudgingLemmas::takes_free))]
pub fn judge<G: Gate + Sync, R: Threads + Sync>(
    alloc: Global,
    rt: &R,
    gate: &G,
    command: Command,
    texts: Vec<Vec<u8>>,
    steps: &mut Steps,
) -> Result<Product, Stop>
    requires { HasWorkers command }
    ensures { Takes with_cost result (answer_of command (map (λ text. text.items) texts.items)) steps.old.tics steps.new.tics }
{
    if let Some(word) = too_large(inputs_of(command), &texts) {
        return Err(Stop::Refused(InputFault::Large(word)));
    }
    work(alloc, rt, gate, command, texts, steps)
}

/// The word of the first input whose text is above its limit.
fn too_large(inputs: &[Input], texts: &[Vec<u8>]) -> Option<u32>
    ensures { result ≡ option_map (λ pair. pair.0.word) (too_large inputs.now (map (λ text. text.items) texts.now)) }
{
    let (input, _) = inputs
        .iter()
        .zip(texts)
        .find(|(input, text)| text.len() > input.limit as usize)?;
    Some(input.word)
}

/// The text of the input at a place, or no bytes where there is no such input.
fn text_at(texts: &[Vec<u8>], place: usize) -> &[u8]
    ensures { result.now ≡ text_at (map (λ text. text.items) texts.now) place }
{
    match texts.get(place) {
        Some(text) => text.as_slice(),
        None => &[],
    }
}

/// Moves the text of the input at a place out, and leaves no bytes there.
fn take_text(alloc: Global, texts: &mut Vec<Vec<u8>>, place: usize) -> Vec<u8>
    ensures text { result.items ≡ text_at (map (λ text. text.items) texts.old.items) place }
    ensures others { (other : ℕ) → other ≢ place → text_at (map (λ text. text.items) texts.new.items) other
        ≡ text_at (map (λ text. text.items) texts.old.items) other }
{
    match texts.get_mut(place) {
        Some(text) => mem::replace(text, Vec::new(alloc)),
        None => Vec::new(alloc),
    }
}

/// What the command makes of texts within their limits.
#[tactic(auto, using(crate::proofs::JudgingLemmas::takes_free))]
fn work<G: Gate + Sync, R: Threads + Sync>(
    alloc: Global,
    rt: &R,
    gate: &G,
    command: Command,
    mut texts: Vec<Vec<u8>>,
    steps: &mut Steps,
) -> Result<Product, Stop>
    requires { HasWorkers command }
    ensures { Takes with_cost result (worked command (map (λ text. text.items) texts.items)) steps.old.tics steps.new.tics }
{
    match command {
        Command::Edit => edit(alloc, text_at(&texts, 0), text_at(&texts, 1)),
        Command::Level => {
            let wad = take_text(alloc, &mut texts, 0);
            level(alloc, wad, text_at(&texts, 1), text_at(&texts, 2))
        }
        Command::Build(workers) => {
            let wad = take_text(alloc, &mut texts, 0);
            let (tables, demo, script) = (
                text_at(&texts, 1),
                text_at(&texts, 2),
                text_at(&texts, 3),
            );
            build(alloc, rt, gate, workers, wad, tables, demo, script, steps)
        }
        Command::Sim => {
            let wad = take_text(alloc, &mut texts, 0);
            let (tables, demo, script) = (
                text_at(&texts, 1),
                text_at(&texts, 2),
                text_at(&texts, 3),
            );
            sim(
                alloc,
                rt,
                gate,
                wad,
                tables,
                demo,
                script,
                text_at(&texts, 4),
                steps,
            )
        }
        Command::Gen(number) => generate(alloc, rt, gate, number, steps),
    }
}

/// The demo with the tics that the script leaves.
#[tactic(auto, unfolding(crate::specs::Meaning::edited))]
fn edit(alloc: Global, demo: &[u8], script: &[u8]) -> Result<Product, Stop>
    ensures { Gives (λ output. with_cost output free) result (edited demo.now script.now) }
{
    let Demo { header, tics } = inputs::demo(alloc, demo)?;
    let tape = scripted(alloc, script, tics, header.long())?;
    let tics = tape.into_tics()?;
    let bytes = write_demo(alloc, &header, &tics)?;
    Ok(Product {
        report: Vec::new(alloc),
        demo: Some(bytes),
    })
}
