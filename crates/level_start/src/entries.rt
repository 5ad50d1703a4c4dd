//! What each of the map's things comes to when a level starts.
ghost use Rattle.std.specs.Prelude.{◌≡◌, ◌<◌, length};
ghost use Rattle.map_geometry.specs.Lists.{nth_thing};
ghost use Rattle.level_start.specs.Entries.{skill_bit, is_meant, is_of_doom2, is_other_start, entry_of_kind, entry_at, KnowsKind};

use crate::fault::StartFault;
use cow_world::{MONSTER, has_bit};
use fixed_angle::{Kind, PlayTables};
use map_geometry::Level;

/// The number of the first player's start.
const PLAYER: u16 = 1;

/// The number of what shoots cubes that become monsters.
const SPITTER: u16 = 89;

/// The starts of the other players, those of a match, and things without a number.
const OTHER_STARTS: [u16; 5] = [0, 2, 3, 4, 11];

/// The kinds that a map of the form `ExMy` can't have.
const OF_DOOM2: [u16; 10] = [64, 65, 66, 67, 68, 69, 71, 84, 88, 89];

/// The option of a thing that is there only where several play.
const SEVERAL: u16 = 16;

/// What a thing of the map comes to.
#[derive(Clone, Copy)]
pub enum Entry {
    /// Nothing is spawned.
    Skipped,
    /// The player.
    Player,
    /// A thing of this kind.
    Spawned(Kind),
    /// It can't be played.
    Faulty(StartFault),
}

/// What the thing at a place of the map comes to.
pub fn entry_at(level: &Level, tables: &PlayTables, skill: u8, i: u32) -> Entry
    requires there { i < length level.now.things }
    ensures entry { result ≡ entry_at level.now tables.now skill i }
    ensures known { KnowsKind tables.now (nth_thing level.now i).number result }
{
    let spot = level.thing(i as usize);
    if level.episode_form() && OF_DOOM2.contains(&spot.number) {
        return Entry::Faulty(StartFault::Doom2Thing(i));
    }
    if spot.number == PLAYER {
        return Entry::Player;
    }
    if OTHER_STARTS.contains(&spot.number) || !is_meant(skill, spot.options) {
        return Entry::Skipped;
    }
    if spot.number == SPITTER {
        return Entry::Faulty(StartFault::Spitter(i));
    }
    entry_of_kind(tables, i, spot.number)
}

// What a thing comes to by the kind with its number.
fn entry_of_kind(tables: &PlayTables, i: u32, number: u16) -> Entry
    ensures entry { result ≡ entry_of_kind tables.now i number }
    ensures known { KnowsKind tables.now number result }
{
    match tables.kind_of(number) {
        None => Entry::Faulty(StartFault::ThingUnknown(i, number)),
        Some(kind) if has_bit(kind.flags, MONSTER) => Entry::Skipped,
        Some(kind) => Entry::Spawned(kind),
    }
}

// Whether a thing with these options is there when one plays at a skill.
fn is_meant(skill: u8, options: i16) -> bool
    ensures { result ≡ is_meant skill options }
{
    let options = options.cast_unsigned();
    !has_bit(options, SEVERAL) && has_bit(options, skill_bit(skill))
}

// The option of a thing that is there at a skill.
fn skill_bit(skill: u8) -> u16
    ensures { result ≡ skill_bit skill }
{
    match skill {
        0 | 1 => 1,
        2 => 2,
        _ => 4,
    }
}
