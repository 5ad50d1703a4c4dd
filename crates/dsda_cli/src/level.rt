// What `level` reports.
ghost use Rattle.std.specs.Prelude.{◌≡◌, ◌++◌, ◌<◌, length, IfOk, OnOk, string_bytes};
ghost use Rattle.std.specs.Fmt.{decimal};
ghost use Rattle.doom_edge.specs.Costs.{free};
ghost use Rattle.wad_lumps.specs.Map.{AreSpans, IsMap, map_conditions};
ghost use Rattle.map_load.specs.Load.{level_conditions};
ghost use Rattle.map_load.specs.Spelled.{spelled};
ghost use Rattle.cow_world.specs.Flat.{IsLive, parts};
ghost use Rattle.dsda_cli.specs.declared.fault.InputFault.TheVariants as input_fault;
ghost use Rattle.dsda_cli.specs.LevelReport.{episode_of, map_of, level_name, counts_text, level_lines};
ghost use Rattle.dsda_cli.specs.Judging.{judged};
ghost use Rattle.dsda_cli.specs.Meaning.{with_cost, level_in, levelled, reported};
ghost use Rattle.dsda_cli.specs.Inside.{Gives};

use crate::begins::{begin, start_line};
use crate::inputs;
use crate::product::{Product, Stop};
use cow_world::World;
use doom_edge::Memory;
use fixed_angle::PlayTables;
use lmp_codec::{Demo, Header};
use map_geometry::Level;
use map_load::load;
use std::alloc::{AllocError, Global};
use wad_lumps::{MapSpans, Wad};

/// What the level that the demo plays is made of, and where its player starts.
#[tactic(auto, unfolding(crate::specs::Meaning::levelled))]
pub fn level(alloc: Global, wad: Vec<u8>, tables: &[u8], demo: &[u8]) -> Result<Product, Stop>
    ensures { Gives (λ output. with_cost output free) result (levelled wad.items tables.now demo.now) }
{
    let wad = inputs::wad(wad)?;
    let tables = inputs::tables(alloc, tables)?;
    let Demo { header, tics: _ } = inputs::demo(alloc, demo)?;
    let level = level_in(alloc, &wad, &header)?;
    report(alloc, &level, &tables, &header)
}

/// The report of the level, which tells its start.
#[tactic(auto, unfolding(crate::specs::Meaning::reported))]
fn report(
    alloc: Global,
    level: &Level,
    tables: &PlayTables,
    header: &Header,
) -> Result<Product, Stop>
    ensures { Gives (λ output. with_cost output free) result (reported level.now tables.now header.now) }
{
    let world = begin(alloc, level, tables, header)?;
    Ok(Product {
        report: level_lines(alloc, header, level, &world)?,
        demo: None,
    })
}

/// The level of the map that the demo's header names.
#[tactic(auto, unfolding(crate::specs::Meaning::level_in))]
pub fn level_in(alloc: Global, wad: &Wad, header: &Header) -> Result<Level, Stop>
    ensures { Gives (λ level. level) result (level_in wad.now header.now) }
{
    let found = find_map(alloc, wad, header)?;
    let level = load_level(alloc, wad, &found)?;
    Ok(level)
}

/// The lumps of the map that the demo's header names.
fn find_map(alloc: Global, wad: &Wad, header: &Header) -> Result<MapSpans, Stop>
    ensures found { IfOk result (IsMap wad.now (episode_of header.now) (map_of header.now)) }
    ensures spans { IfOk result (λ found. AreSpans wad.now found.spans.items) }
    ensures judged { Gives (λ _. tt) result
        (judged (map_conditions wad.now (episode_of header.now) (map_of header.now)) input_fault.Wad) }
{
    Ok(wad.map(alloc, header.episode(), header.map())?)
}

/// The level that the lumps spell.
fn load_level(alloc: Global, wad: &Wad, found: &MapSpans) -> Result<Level, Stop>
    requires { AreSpans wad.now found.now.spans.items }
    ensures level { IfOk result (λ level. level ≡ spelled wad.now found.now.spans.items found.now.episode_form) }
    ensures judged { Gives (λ _. tt) result
        (judged (level_conditions wad.now found.now.spans.items found.now.other_form found.now.episode_form) input_fault.Level) }
{
    Ok(load(alloc, wad, found)?)
}

/// The report: the level's name, how much there is of each kind, and the start.
#[tactic(auto, unfolding(crate::specs::LevelReport::level_lines))]
fn level_lines(
    alloc: Global,
    header: &Header,
    level: &Level,
    world: &World,
) -> Result<Vec<u8>, Memory>
    requires live { IsLive world.now }
    requires there { (parts world.now).player.thing < length (parts world.now).things }
    ensures { IfOk result (λ report. report.items ≡ level_lines header.now level.now world.now) }
{
    let name = level_name(alloc, header, level.episode_form())?;
    let counts = counts_text(alloc, level)?;
    let start = start_line(alloc, world)?;
    let report = format!(in alloc; "level {name}\n{counts}\n{start}\n")?;
    Ok(report.into_bytes())
}

/// `ExMy`, where the map's label is of that form, and else `MAPnn` with two digits.
#[tactic(auto, unfolding(crate::specs::LevelReport::level_name))]
fn level_name(alloc: Global, header: &Header, episode_form: bool) -> Result<String, AllocError>
    ensures { IfOk result (λ name. string_bytes name ≡ level_name header.now episode_form) }
{
    let map = header.map();
    if episode_form {
        let episode = header.episode();
        return format!(in alloc; "E{episode}M{map}");
    }
    let tens = map / 10;
    let ones = map % 10;
    format!(in alloc; "MAP{tens}{ones}")
}

/// How long each list is, and the columns and rows of the block map.
#[tactic(auto, unfolding(crate::specs::LevelReport::counts_text))]
fn counts_text(alloc: Global, level: &Level) -> Result<String, AllocError>
    ensures { IfOk result (λ text. string_bytes text ≡ counts_text level.now) }
{
    let mut text = String::new(alloc);
    push_count(&mut text, "things ", level.thing_count())?;
    push_count(&mut text, " lines ", level.line_count())?;
    push_count(&mut text, " sides ", level.side_count())?;
    push_count(&mut text, " vertices ", level.vertex_count())?;
    push_count(&mut text, " segs ", level.seg_count())?;
    push_count(&mut text, " subsectors ", level.subsector_count())?;
    push_count(&mut text, " nodes ", level.node_count())?;
    push_count(&mut text, " sectors ", level.sector_count())?;
    push_count(&mut text, " blocks ", level.width() as usize)?;
    push_count(&mut text, " ", level.height() as usize)?;
    Ok(text)
}

/// Appends what is counted, and then the count.
pub fn push_count(text: &mut String, counted: &str, count: usize) -> Result<(), AllocError>
    ensures { OnOk result (string_bytes text.new ≡ string_bytes text.old ++ counted.now ++ decimal count) }
{
    text.push_str(counted)?;
    write!(text, "{count}")
}
