// Lifts that lines stop, and that perpetual ones wake.
ghost use Rattle.std.specs.Prelude.{◌≡◌, ◌<◌, ◌≤◌, length, fold, IfOk, OnOk};
ghost use Rattle.cow_world.specs.Flat.{parts};
ghost use Rattle.cow_world.specs.Fits.{FitsLevel, KeepsFit};
ghost use Rattle.cow_world.specs.Outcome.{Plays};
ghost use Rattle.cow_world.specs.Stretches.{places};
ghost use Rattle.mover_start.specs.Lifts.{lift_turned, lifts_turned, stop_plat_of};

use cow_world::{PlayFault, Stretch, Thinker, World};
use doom_edge::{Memory, Steps};
use map_geometry::Level;

/// Stops each lift of a sector with the line's tag, in whatever phase it is. True exactly where one was not stopped
/// yet. After `Memory` nothing is said of the world.
#[tactic(auto, unfolding(crate::specs::Lifts::stop_plat_of))]
pub fn stop_plat(
    level: &Level,
    world: &mut World,
    line: u32,
    steps: &mut Steps,
) -> Result<bool, PlayFault>
    requires fits { FitsLevel level.now world.old }
    requires line { line < length level.now.lines }
    ensures plays { Plays result world.new (stop_plat_of level.now world.old line) }
    ensures fits { OnOk result (KeepsFit world.old world.new) }

    ensures tics { steps.new.tics ≡ steps.old.tics }
    ensures pages { steps.old.pages ≤ steps.new.pages }
{
    let tag = level.line(line as usize).tag;
    let stopped = turn_lifts(level, world, tag, true, steps)?;
    Ok(stopped)
}

/// Stops or wakes all lifts of sectors with a tag. True exactly where one was not yet as it is to be.
#[tactic(auto, using(cow_world::proofs::Keeps::keeps_same))]
pub fn turn_lifts(
    level: &Level,
    world: &mut World,
    tag: i16,
    to: bool,
    steps: &mut Steps,
) -> Result<bool, Memory>
    requires fits { FitsLevel level.now world.old }
    ensures ok { IfOk result (λ turned. (world.new, turned) ≡ lifts_turned level.now tag to world.old) }
    ensures fits { OnOk result (KeepsFit world.old world.new) }

    ensures tics { steps.new.tics ≡ steps.old.tics }
    ensures pages { steps.old.pages ≤ steps.new.pages }
{
    let all = world.thinker_count();
    let mut turned = false;
    let mut from = 0;
    while from < all {
        let live = world.stretch_from(from);
        turned = turn_stretch(level, world, tag, to, &live, turned, steps)?;
        from = live.end;
    }
    Ok(turned)
}

// Stops or wakes those in a stretch. `before` says whether one was turned before them.
fn turn_stretch(
    level: &Level,
    world: &mut World,
    tag: i16,
    to: bool,
    stretch: &Stretch,
    before: bool,
    steps: &mut Steps,
) -> Result<bool, Memory>
    requires fits { FitsLevel level.now world.old }
    requires there { stretch.now.end ≤ length (parts world.old).thinkers }
    ensures ok { IfOk result (λ turned. (world.new, turned) ≡ fold (lift_turned level.now tag to) (world.old, before) (places stretch.now)) }
    ensures fits { OnOk result (KeepsFit world.old world.new) }

    ensures tics { steps.new.tics ≡ steps.old.tics }
    ensures pages { steps.old.pages ≤ steps.new.pages }
{
    let mut turned = before;
    for place in stretch.start..stretch.end {
        turned = turn_lift(level, world, tag, to, place, turned, steps)?;
    }
    Ok(turned)
}

// Stops or wakes the thinker at a place, if it is such a lift. `before` says whether one was turned before it.
#[tactic(auto, using(cow_world::proofs::Keeps::keeps_same))]
fn turn_lift(
    level: &Level,
    world: &mut World,
    tag: i16,
    to: bool,
    place: u32,
    before: bool,
    steps: &mut Steps,
) -> Result<bool, Memory>
    requires fits { FitsLevel level.now world.old }
    requires there { place < length (parts world.old).thinkers }
    ensures ok { IfOk result (λ turned. (world.new, turned) ≡ lift_turned level.now tag to (world.old, before) place) }
    ensures fits { OnOk result (KeepsFit world.old world.new) }

    ensures tics { steps.new.tics ≡ steps.old.tics }
    ensures pages { steps.old.pages ≤ steps.new.pages }
{
    match world.thinker(place) {
        Thinker::Lift {
            sector,
            kind,
            phase,
            stopped,
            low,
            high,
            wait,
            count,
        } => {
            if stopped == to || !level.has_tag(sector as usize, tag) {
                return Ok(before);
            }
            let lift = Thinker::Lift {
                sector,
                kind,
                phase,
                stopped: to,
                low,
                high,
                wait,
                count,
            };
            world.set_thinker(place, lift, steps)?;
            Ok(true)
        }
        Thinker::Door { .. } | Thinker::Floor { .. } | Thinker::Light { .. } | Thinker::Ended => {
            Ok(before)
        }
    }
}
