//! One tic.
ghost use Rattle.std.specs.Prelude.{◌≡◌, ◌≤◌, OnOk};
ghost use Rattle.doom_edge.specs.Counts.{raised};
ghost use Rattle.cow_world.specs.Flat.{IsLive, parts};
ghost use Rattle.cow_world.specs.Fits.{Fits, KeepsFit};
ghost use Rattle.cow_world.specs.Outcome.{Moves};
ghost use Rattle.play_step.specs.Step.{pressed, next_tic, timed, played, live_step};

use cow_world::{PlayFault, World, has_bit};
use doom_edge::{Memory, Steps};
use fixed_angle::PlayTables;
use game_trait::Halt;
use lmp_codec::Tic;
use map_geometry::Level;
use mover_run::run_thinkers;
use player_move::{think, xy_move, z_move};
use std::alloc::Global;

/// The special button.
const SPECIAL: u16 = 128;

const ATTACK: u16 = 1;

// Halts for the buttons that do.
fn press(tic: Tic, world: &World) -> Result<(), PlayFault>
    ensures { Moves result world.now (pressed tic world.now) }
{
    let buttons = u16::from(tic.buttons);
    if has_bit(buttons, SPECIAL) {
        return Err(PlayFault::Halt(Halt::Button));
    }
    if has_bit(buttons, ATTACK) {
        return Err(PlayFault::Halt(Halt::Attack));
    }
    Ok(())
}

// A count with one more, unless it is at its end.
#[tactic(auto, unfolding(doom_edge::specs::Counts::raised))]
fn after_one(count: u64) -> u64
    ensures { result ≡ raised count 1 }
{
    count.saturating_add(1)
}

// The number of a world's next tic, counted from 1.
fn next_tic(world: &World) -> u64
    requires live { IsLive world.now }
    ensures { result ≡ next_tic world.now }
{
    after_one(world.tics())
}

// The level time and the number of tics grow by one.
fn count_time(world: &mut World)
    requires live { IsLive world.old }
    ensures ok { world.new ≡ timed world.old }
    ensures fits { KeepsFit world.old world.new }
{
    let tic = next_tic(world);
    world.set_time(after_one(world.time()));
    world.set_tics(tic);
}

/// The parts of a tic. After a fault nothing is said of the world.
fn play(
    alloc: Global,
    level: &Level,
    tables: &PlayTables,
    world: &mut World,
    tic: Tic,
    steps: &mut Steps,
) -> Result<(), PlayFault>
    requires fits { Fits level.now tables.now world.old }
    ensures moves { Moves result world.new (played level.now tables.now tic world.old) }
    ensures fits { OnOk result (Fits level.now tables.now world.new) }

    ensures tics { steps.new.tics ≡ steps.old.tics }
    ensures pages { steps.old.pages ≤ steps.new.pages }
{
    press(tic, world)?;
    think(alloc, level, tables, world, tic, steps)?;
    xy_move(alloc, level, tables, world, tic, steps)?;
    z_move(level, tables, world, steps)?;
    run_thinkers(alloc, level, tables, world, steps)?;
    count_time(world);
    Ok(())
}

/// One tic of a live world. After `Memory` nothing is said of the world.
pub fn step_live(
    alloc: Global,
    level: &Level,
    tables: &PlayTables,
    world: &mut World,
    tic: Tic,
    steps: &mut Steps,
) -> Result<(), Memory>
    requires fits { Fits level.now tables.now world.old }
    ensures ok { OnOk result (world.new ≡ live_step level.now tables.now world.old tic) }
    ensures fits { OnOk result (IsLive world.new → Fits level.now tables.now world.new) }

    ensures tics { steps.new.tics ≡ steps.old.tics }
    ensures pages { steps.old.pages ≤ steps.new.pages }
{
    let number = next_tic(world);
    world.clear_acted();
    if world.exited() != 0 {
        world.set_tics(number);
        return Ok(());
    }
    match play(alloc, level, tables, world, tic, steps) {
        Ok(()) => Ok(()),
        Err(PlayFault::Halt(halt)) => {
            world.halt_on(level, number, halt);
            Ok(())
        }
        Err(PlayFault::Memory) => Err(Memory),
    }
}
