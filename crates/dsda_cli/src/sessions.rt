//! Sessions: `build` and `sim`.
ghost use Rattle.std.specs.Prelude.{◌≡◌, ◌≤◌, true, length, Ok, IfOk};
ghost use Rattle.doom_edge.specs.Costs.{Cost};
ghost use Rattle.lmp_codec.specs.Header.{is_long};
ghost use Rattle.lmp_codec.specs.Tics.{HoldsTurns};
ghost use Rattle.lmp_codec.specs.Demo.{most_tics};
ghost use Rattle.level_start.specs.Start.{start_of};
ghost use Rattle.build_script.specs.Script.{script_of, HoldsTics};
ghost use Rattle.play_step.specs.Rules.{doom_rules};
ghost use Rattle.build_edits.specs.Parts.{all_tics};
ghost use Rattle.build_session.specs.Searches.{CanSearch, turns_of};
ghost use Rattle.build_session.specs.Runs.{state_in};
ghost use Rattle.dsda_cli.specs.Judging.{exactly};
ghost use Rattle.dsda_cli.specs.Meaning.{with_cost, as_script, as_order, begun, files_read, set_up, AllThere, play_with, ended_as, carried_in, session, built, simulated};
ghost use Rattle.dsda_cli.specs.Order.{order_of};
ghost use Rattle.dsda_cli.specs.Inside.{Gives, Takes};

use crate::inputs;
use crate::level::level_in;
use crate::names::find_names;
use crate::order::read_order;
use crate::product::{Product, Stop};
use build_script::{Script, read_script};
use build_session::{Searcher, Session};
use doom_edge::{Gate, Steps};
use fixed_angle::PlayTables;
use lmp_codec::{Demo, Header, Tic, write_demo};
use map_geometry::Level;
use play_step::Doom;
use search_core::Turns;
use std::alloc::Global;
use std::marker::Model;
use std::thread::Threads;
use wad_lumps::Wad;

/// What the files of a session are read as.
#[derive(Drop)]
struct Read {
    wad: Wad,
    tables: PlayTables,
    demo: Demo,
    script: Script,
}

impl Model for Read {
    ghost use Rattle.dsda_cli.specs.Meaning.{Read as ReadValue};

    ghost Value = { ReadValue };

    ghost view = { λ read. record { wad = read.wad; tables = read.tables; demo = read.demo; entries = read.script } };
}

/// The commands of the script of a long or a short demo.
fn read_commands(alloc: Global, script: &[u8], long: bool) -> Result<Script, Stop>
    ensures commands { Gives (λ entries. entries) result (exactly (as_script (script_of true long script.now))) }
    ensures held { IfOk result (HoldsTics long) }
{
    Ok(read_script(alloc, script, true, long)?)
}

/// The files of a session, each read by itself.
#[tactic(auto, unfolding(crate::specs::Meaning::files_read))]
fn read_files(
    alloc: Global,
    wad: Vec<u8>,
    tables: &[u8],
    demo: &[u8],
    script: &[u8],
) -> Result<Read, Stop>
    ensures read { Gives (λ read. read) result (files_read wad.items tables.now demo.now script.now) }
    ensures within { IfOk result (λ read. length read.demo.tics ≤ most_tics) }
    ensures turns { IfOk result (λ read. HoldsTurns (is_long read.demo.header) read.demo.tics) }
    ensures held { IfOk result (λ read. HoldsTics (is_long read.demo.header) read.entries) }
{
    let wad = inputs::wad(wad)?;
    let tables = inputs::tables(alloc, tables)?;
    let demo = inputs::demo(alloc, demo)?;
    let script = read_commands(alloc, script, demo.header.long())?;
    Ok(Read {
        wad,
        tables,
        demo,
        script,
    })
}

/// The turns that an order file names.
fn read_turns(alloc: Global, order: &[u8]) -> Result<Turns, Stop>
    ensures turns { Gives (λ turns. turns) result (exactly (as_order (order_of order.now))) }
{
    let hands = read_order(alloc, order)?;
    Ok(Turns::new(alloc, &hands)?)
}

/// The game on a level, if it can be started.
fn game_on(alloc: Global, level: Level, tables: PlayTables, header: Header) -> Result<Doom, Stop>
    ensures game { IfOk result (λ game. game ≡ record { level = level; tables = tables; header = header }) }
    ensures begun { Gives (λ game. start_of game.level game.tables game.header) result (begun level tables header) }
{
    Ok(Doom::new(alloc, level, tables, header)?)
}

/// The game that the demo plays, in which all is there that the script names.
#[tactic(auto, unfolding(crate::specs::Meaning::set_up))]
fn set_up(
    alloc: Global,
    wad: &Wad,
    tables: PlayTables,
    header: Header,
    script: &Script,
) -> Result<Doom, Stop>
    ensures game { Gives (λ game. game) result (set_up wad.now tables header script.now) }
    ensures there { IfOk result (λ game. AllThere game script.now) }
    ensures header { IfOk result (λ game. game.header ≡ header) }
{
    let level = level_in(alloc, wad, &header)?;
    // Names are judged last.
    let found = find_names(&level, script);
    let game = game_on(alloc, level, tables, header)?;
    found?;
    Ok(game)
}

/// The report of a session that was carried out, and the demo that it leaves.
fn finish(alloc: Global, header: &Header, session: Session<Doom>) -> Result<Product, Stop>
    requires turns { HoldsTurns (is_long header.now) (all_tics session.build.tape) }
    ensures { (cost : Cost) → Gives (λ output. with_cost output cost) result (exactly (ended_as header.now (Ok (state_in session)) cost)) }
{
    let (report, tics) = session.finish()?;
    let bytes = write_demo(alloc, header, &tics)?;
    Ok(Product {
        report,
        demo: Some(bytes),
    })
}

/// The script carried out on these tics in a game.
fn play<T: Gate + Sync, R: Threads + Sync>(
    alloc: Global,
    rt: &R,
    gate: &T,
    searcher: &Searcher<'_>,
    game: Doom,
    header: &Header,
    tics: Vec<Tic>,
    script: &Script,
    steps: &mut Steps,
) -> Result<Product, Stop>
    requires able { CanSearch searcher.now }
    requires few { length tics.items ≤ most_tics }
    requires turns { HoldsTurns (is_long header.now) tics.items }
    requires held { HoldsTics (is_long header.now) script.now }
    requires there { AllThere game script.now }
    requires header { game.header ≡ header.now }
    ensures { Takes with_cost result (exactly (carried_in (play_with (turns_of searcher.now doom_rules)) game tics.items script.now)) steps.old.tics steps.new.tics }
{
    let mut session = Session::begin(alloc, game, tics)?;
    session.carry_out(alloc, rt, gate, searcher, script, steps)?;
    finish(alloc, header, session)
}

/// A session over what was read.
#[tactic(auto, unfolding(crate::specs::Meaning::session))]
fn session<T: Gate + Sync, R: Threads + Sync>(
    alloc: Global,
    rt: &R,
    gate: &T,
    searcher: &Searcher<'_>,
    read: Read,
    steps: &mut Steps,
) -> Result<Product, Stop>
    requires able { CanSearch searcher.now }
    requires within { length read.demo.tics ≤ most_tics }
    requires turns { HoldsTurns (is_long read.demo.header) read.demo.tics }
    requires held { HoldsTics (is_long read.demo.header) read.entries }
    ensures { Takes with_cost result (session (turns_of searcher.now doom_rules) read) steps.old.tics steps.new.tics }
{
    let Read {
        wad,
        tables,
        demo,
        script,
    } = read;
    let Demo { header, tics } = demo;
    let game = set_up(alloc, &wad, tables, header, &script)?;
    let tics = tics.into_list();
    play(
        alloc, rt, gate, searcher, game, &header, tics, &script, steps,
    )
}

/// The demo as the script makes it, with so many workers at each search.
#[tactic(auto, unfolding(crate::specs::Meaning::built))]
pub fn build<T: Gate + Sync, R: Threads + Sync>(
    alloc: Global,
    rt: &R,
    gate: &T,
    workers: u32,
    wad: Vec<u8>,
    tables: &[u8],
    demo: &[u8],
    script: &[u8],
    steps: &mut Steps,
) -> Result<Product, Stop>
    requires { (1 ≤ workers) × (workers ≤ 64) }
    ensures { Takes with_cost result (built wad.items tables.now demo.now script.now) steps.old.tics steps.new.tics }
{
    let read = read_files(alloc, wad, tables, demo, script)?;
    session(alloc, rt, gate, &Searcher::Workers(workers), read, steps)
}

/// The demo as the script makes it, with hands that search in the turns of an order file.
#[tactic(auto, unfolding(crate::specs::Meaning::simulated))]
pub fn sim<T: Gate + Sync, R: Threads + Sync>(
    alloc: Global,
    rt: &R,
    gate: &T,
    wad: Vec<u8>,
    tables: &[u8],
    demo: &[u8],
    script: &[u8],
    order: &[u8],
    steps: &mut Steps,
) -> Result<Product, Stop>
    ensures { Takes with_cost result (simulated wad.items tables.now demo.now script.now order.now) steps.old.tics steps.new.tics }
{
    let read = read_files(alloc, wad, tables, demo, script)?;
    let turns = read_turns(alloc, order)?;
    session(alloc, rt, gate, &Searcher::Hands(&turns), read, steps)
}
