//! Galleries: `gen`.
ghost use Rattle.std.specs.Prelude.{◌≡◌, ◌++◌, None, IfOk, string_bytes};
ghost use Rattle.gallery_gen.specs.Plan.{room_count};
ghost use Rattle.gallery_gen.specs.Gallery.{tic_count};
ghost use Rattle.dsda_cli.specs.Meaning.{with_cost, gallery_line, gallery_script, generated};
ghost use Rattle.dsda_cli.specs.Inside.{Takes};

use crate::command::WORKERS;
use crate::level::push_count;
use crate::product::{Product, Stop};
use crate::sessions::build;
use doom_edge::{Gate, Memory, Steps};
use gallery_gen::{Gallery, gallery};
use std::alloc::Global;
use std::thread::Threads;

/// The line of a gallery: its number, its rooms, and the tics of its demo.
#[tactic(auto, unfolding(crate::specs::Meaning::gallery_line))]
fn gallery_line(alloc: Global, number: u32, rooms: u32, tics: u32) -> Result<String, Memory>
    requires rooms { rooms ≡ room_count number }
    requires tics { tics ≡ tic_count number }
    ensures { IfOk result (λ line. string_bytes line ≡ gallery_line number) }
{
    let mut line = String::new(alloc);
    push_count(&mut line, "gen ", number as usize)?;
    push_count(&mut line, " rooms ", rooms as usize)?;
    push_count(&mut line, " tics ", tics as usize)?;
    line.push_str("\n")?;
    Ok(line)
}

/// The script of a gallery of so many tics.
#[tactic(auto, unfolding(crate::specs::Meaning::gallery_script))]
fn gallery_script(alloc: Global, tics: u32) -> Result<String, Memory>
    ensures { IfOk result (λ script. string_bytes script ≡ gallery_script tics) }
{
    let mut script = String::new(alloc);
    push_count(&mut script, "seek ", tics as usize)?;
    push_count(
        &mut script,
        "\nshow\nseek 10\nput 0 0 0 0\nseek ",
        tics as usize,
    )?;
    script.push_str(
        "\nshow\nbrute 3\nrange all forward 40 50\nrange all side -2 2\nwant momx > 0\ngo\nshow\n",
    )?;
    Ok(script)
}

/// The report of a gallery's session behind the gallery's line. No demo is put.
fn behind(line: String, built: Product) -> Result<Product, Memory>
    ensures { IfOk result (λ product. product ≡ record { report = string_bytes line ++ built.report; demo = None }) }
{
    let mut report = line.into_bytes();
    report.extend_from_slice(&built.report)?;
    Ok(Product { report, demo: None })
}

/// A gallery, played, edited and searched.
#[tactic(auto, unfolding(crate::specs::Meaning::generated))]
pub fn generate<T: Gate + Sync, R: Threads + Sync>(
    alloc: Global,
    rt: &R,
    gate: &T,
    number: u32,
    steps: &mut Steps,
) -> Result<Product, Stop>
    ensures { Takes with_cost result (generated number) steps.old.tics steps.new.tics }
{
    let Gallery {
        wad,
        tables,
        demo,
        rooms,
        tics,
    } = gallery(alloc, number)?;
    let line = gallery_line(alloc, number, rooms, tics)?;
    let script = gallery_script(alloc, tics)?;
    let built = build(
        alloc,
        rt,
        gate,
        WORKERS,
        wad,
        &tables,
        &demo,
        script.as_bytes(),
        steps,
    )?;
    let product = behind(line, built)?;
    Ok(product)
}
