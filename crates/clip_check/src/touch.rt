//! What the player takes when it touches a thing.
ghost use Rattle.std.specs.Prelude.{◌≡◌, ◌<◌, ◌≤◌, pos, ◌<ℤ◌, length, false, not, is_some, unwrap_or, OnOk};
ghost use Rattle.cow_world.specs.Flat.{IsLive, parts, thing_at};
ghost use Rattle.cow_world.specs.Fits.{KeepsFit};
ghost use Rattle.clip_check.specs.Aside.{TouchesOnly};
ghost use Rattle.clip_check.specs.Touches.{rise_of, is_out_of_reach, key_of, taker_of, gone, taken_from, touch_of};

use cow_world::{Player, Thing, World};
use doom_edge::{Memory, Steps};
use map_geometry::{Level, difference};

/// How far above its feet the player reaches, in fixed point: as high as it is.
const REACH_UP: i32 = 56 * 65536;

/// And how far below them.
const REACH_DOWN: i32 = -8 * 65536;

/// The keys that the player holds, as bits.
const BLUE: u8 = 1;

const YELLOW: u8 = 2;

const RED: u8 = 4;

/// The player touches a thing: it takes what is in its reach and of use. A thing is gone exactly where it was taken.
/// After want of memory nothing is said of the world.
pub fn touch(level: &Level, world: &mut World, thing: u32, steps: &mut Steps) -> Result<(), Memory>
    requires live { IsLive world.old }
    requires there { thing < length (parts world.old).things }
    requires alive { pos 0 <ℤ (parts world.old).player.body.health }
    ensures ok { OnOk result (world.new ≡ touch_of level.now world.old thing) }
    ensures fits { OnOk result (KeepsFit world.old world.new) }
    ensures aside { OnOk result (TouchesOnly world.old world.new) }

    ensures tics { steps.new.tics ≡ steps.old.tics }
    ensures pages { steps.old.pages ≤ steps.new.pages }
{
    if is_out_of_reach(rise_of(world, thing)) {
        return Ok(());
    }
    take_from(level, world, thing, steps)
}

// How far a thing stands above the player's feet.
fn rise_of(world: &World, thing: u32) -> i32
    requires live { IsLive world.now }
    requires there { thing < length (parts world.now).things }
    ensures { result ≡ rise_of world.now thing }
{
    let player = world.player().thing;
    difference(world.thing(thing).z, world.thing(player).z)
}

// Whether a thing that stands so far above the player's feet can't be reached.
fn is_out_of_reach(rise: i32) -> bool
    ensures { result ≡ is_out_of_reach rise }
{
    rise > REACH_UP || rise < REACH_DOWN
}

// The player takes a thing in its reach, if it is of use.
fn take_from(level: &Level, world: &mut World, thing: u32, steps: &mut Steps) -> Result<(), Memory>
    requires live { IsLive world.old }
    requires there { thing < length (parts world.old).things }
    requires alive { pos 0 <ℤ (parts world.old).player.body.health }
    ensures ok { OnOk result (world.new ≡ taken_from level.now world.old thing) }
    ensures fits { OnOk result (KeepsFit world.old world.new) }

    ensures tics { steps.new.tics ≡ steps.old.tics }
    ensures pages { steps.old.pages ≤ steps.new.pages }
{
    let mut player = world.player();
    if !take(&mut player, world.thing(thing).kind, !level.episode_form()) {
        return Ok(());
    }
    world.set_player(player);
    remove(world, thing, steps)
}

// The player takes a thing with this number, or leaves it and stays as it is. The thing that it stands for is the same.
fn take(player: &mut Player, number: u16, doom2: bool) -> bool
    ensures taken { result ≡ is_some (taker_of (key_of number) player.old number doom2) }
    ensures player { player.new ≡ unwrap_or (taker_of (key_of number) player.old number doom2) player.old }
    ensures thing { player.new.thing ≡ player.old.thing }
    ensures alive { pos 0 <ℤ player.old.body.health → pos 0 <ℤ player.new.body.health }
{
    match key_of(number) {
        Some(key) => {
            player.keys |= key;
            true
        }
        None => player.body.take(number, doom2),
    }
}

// The key that a thing with this number is, a card or a skull.
fn key_of(number: u16) -> Option<u8>
    ensures { result ≡ key_of number }
{
    match number {
        5 | 40 => Some(BLUE),
        6 | 39 => Some(YELLOW),
        13 | 38 => Some(RED),
        _ => None,
    }
}

// The thing is gone.
fn remove(world: &mut World, thing: u32, steps: &mut Steps) -> Result<(), Memory>
    requires live { IsLive world.old }
    requires there { thing < length (parts world.old).things }
    ensures ok { OnOk result (world.new ≡ gone world.old thing) }
    ensures fits { OnOk result (KeepsFit world.old world.new) }

    ensures tics { steps.new.tics ≡ steps.old.tics }
    ensures pages { steps.old.pages ≤ steps.new.pages }
{
    let absent = without(world.thing(thing));
    world.set_thing(thing, absent, steps)
}

// The thing, not present.
fn without(thing: Thing) -> Thing
    ensures { result ≡ record thing { present = false } }
{
    Thing {
        present: false,
        ..thing
    }
}
