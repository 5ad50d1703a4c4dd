//! A line that stops lifts.
ghost use Rattle.special_tests.specs.Ready.{IsReady};

use crate::fixtures::{Line, Side, TAG, cross, prepare, started, strip, tables};
use cow_world::{PlatKind, PlayFault, Thinker, World};
use fixed_angle::PlayTables;
use map_geometry::Level;
use std::alloc::Global;
use std::test::Fail;

/// Starts lifts that go up and down, and stops them. Whether the last is stopped then.
fn start_and_stop(
    alloc: Global,
    level: &Level,
    tables: &PlayTables,
    world: &mut World,
) -> Result<bool, PlayFault>
    requires { IsReady level.now tables.now world.old }
{
    prepare(level, tables, world, Line::Border, 87, 0)?;
    cross(alloc, level, tables, world, Line::Border, Side::Front)?;
    prepare(level, tables, world, Line::Border, 89, 0)?;
    cross(alloc, level, tables, world, Line::Border, Side::Front)?;
    if world.thinker_count() != 2 {
        return Ok(false);
    }
    let lift = world.thinker(1);
    Ok(matches!(
        lift,
        Thinker::Lift {
            kind: PlatKind::Perpetual,
            stopped: true,
            ..
        }
    ))
}

#[test]
fn stopped(rt: HostRuntime) -> Result<(), Fail> {
    let level = strip(rt.alloc(), TAG, TAG, &[])?;
    let tables = tables(rt.alloc())?;
    let mut world = started(rt.alloc(), &level, &tables)?;
    let stopped = start_and_stop(rt.alloc(), &level, &tables, &mut world);
    assert_eq!(rt; stopped, Ok(true));
    Ok(())
}
