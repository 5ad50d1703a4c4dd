// The start of a level, and what `level` says of it.
ghost use Rattle.std.specs.Prelude.{◌≡◌, ◌++◌, ◌<◌, length, IfOk, OnOk, string_bytes};
ghost use Rattle.std.specs.Fmt.{signed_decimal};
ghost use Rattle.cow_world.specs.Flat.{IsLive, parts};
ghost use Rattle.cow_world.specs.Fits.{Fits};
ghost use Rattle.dsda_cli.specs.LevelReport.{start_line};
ghost use Rattle.dsda_cli.specs.Meaning.{begun};
ghost use Rattle.dsda_cli.specs.Inside.{Gives};

use crate::level::push_count;
use crate::product::Stop;
use cow_world::World;
use fixed_angle::PlayTables;
use level_start::start;
use lmp_codec::Header;
use map_geometry::Level;
use std::alloc::{AllocError, Global};

/// The world with which the level starts, at the skill of the demo's header.
pub fn begin(
    alloc: Global,
    level: &Level,
    tables: &PlayTables,
    header: &Header,
) -> Result<World, Stop>
    ensures begun { Gives (λ world. world) result (begun level.now tables.now header.now) }
    ensures fits { IfOk result (Fits level.now tables.now) }
{
    Ok(start(alloc, level, tables, header)?)
}

/// Where the player stands, the way it looks, and the random index.
#[tactic(auto, unfolding(crate::specs::LevelReport::start_line))]
pub fn start_line(alloc: Global, world: &World) -> Result<String, AllocError>
    requires live { IsLive world.now }
    requires there { (parts world.now).player.thing < length (parts world.now).things }
    ensures { IfOk result (λ line. string_bytes line ≡ start_line world.now) }
{
    let player = world.player();
    let thing = world.thing(player.thing);
    let mut line = String::new(alloc);
    push_signed(&mut line, "start x ", thing.x)?;
    push_signed(&mut line, " y ", thing.y)?;
    push_signed(&mut line, " z ", thing.z)?;
    push_count(&mut line, " angle ", player.angle as usize)?;
    push_count(&mut line, " rng ", world.rng() as usize)?;
    Ok(line)
}

/// Appends what a number is, and then the number.
fn push_signed(text: &mut String, named: &str, number: i32) -> Result<(), AllocError>
    ensures { OnOk result (string_bytes text.new ≡ string_bytes text.old ++ named.now ++ signed_decimal number) }
{
    text.push_str(named)?;
    write!(text, "{number}")
}
