//! The lines outside a search: the commands by their names, each with the words after it.

ghost use Rattle.std.specs.Prelude.{◌≡◌, ◌≤ℤ◌, ◌≤◌, pos, negsuc, unsigned_abs, Bool, IfOk};
ghost use Rattle.lmp_codec.specs.Turns.{turn_of};
ghost use Rattle.lmp_codec.specs.Tics.{tic_of, HoldsTurn};
ghost use Rattle.build_script.specs.Words.{name_of};
ghost use Rattle.build_script.specs.Steps.{Reads, next_number, turn_bounds};
ghost use Rattle.build_script.specs.Commands.{tic_in, place_in, count_in, depth_in, shown_in, is_edit, known_in, command_of, is_comment, outside, HoldsTicOf, IsSoundOutside};
ghost use Rattle.build_script.specs.Text.{words};

use crate::commands::Command;
use crate::fault::Kind;
use crate::names::{Form, Name, form_of, name_of};
use crate::numbers::Bounds;
use crate::steps::{complete, next_number, number_in};
use crate::text::Words;
use lmp_codec::{Tic, turn_of};

/// The most tics that a session may have.
const MOST_TICS: i64 = 1_000_000;

const PLACE: Bounds = Bounds {
    least: 0,
    greatest: MOST_TICS,
};

pub const FORWARD: Bounds = Bounds {
    least: -127,
    greatest: 127,
};

pub const SIDE: Bounds = Bounds {
    least: -128,
    greatest: 127,
};

const TURN: Bounds = Bounds {
    least: -128,
    greatest: 255,
};

const LONG_TURN: Bounds = Bounds {
    least: -32_768,
    greatest: 65_535,
};

const BUTTONS: Bounds = Bounds {
    least: 0,
    greatest: 255,
};

const COUNT: Bounds = Bounds {
    least: 1,
    greatest: MOST_TICS,
};

const DEPTH: Bounds = Bounds {
    least: 1,
    greatest: 35,
};

/// What a line outside a search says.
#[derive(Drop)]
pub enum Outside {
    /// It has no words, or is a comment.
    Nothing,
    /// This command.
    Does(Command),
    /// A search of so many tics is open from here on.
    Opens(u32),
}

/// The bounds of a turn, in a long or a short demo.
pub fn turn_bounds(long: bool) -> Bounds
    ensures bounds { result ≡ turn_bounds long }
    ensures least { negsuc 32767 ≤ℤ result.least }
    ensures greatest { result.greatest ≤ℤ pos 65535 }
{
    if long { LONG_TURN } else { TURN }
}

/// The number that the next word spells, and that says a turn.
fn next_turn(words: &mut Words, long: bool) -> Result<i64, Kind>
    ensures value { Reads result words.new (next_number (turn_bounds long) words.old) }
    ensures within { IfOk result (λ turn. (negsuc 32767 ≤ℤ turn) × (turn ≤ℤ pos 65535)) }
{
    if long {
        next_number(words, LONG_TURN)
    } else {
        next_number(words, TURN)
    }
}

/// The tic of these numbers.
fn tic_of(long: bool, forward: i64, side: i64, turn: i64, buttons: i64) -> Tic
    requires forward_least { negsuc 126 ≤ℤ forward }
    requires forward_greatest { forward ≤ℤ pos 127 }
    requires side_least { negsuc 127 ≤ℤ side }
    requires side_greatest { side ≤ℤ pos 127 }
    requires turn_least { negsuc 32767 ≤ℤ turn }
    requires turn_greatest { turn ≤ℤ pos 65535 }
    requires buttons_least { pos 0 ≤ℤ buttons }
    requires buttons_greatest { buttons ≤ℤ pos 255 }
    ensures tic { result ≡ tic_of forward side (turn_of long turn) (unsigned_abs buttons) }
    ensures held { HoldsTurn long result }
{
    Tic::of_numbers(
        forward as i8,
        side as i8,
        turn_of(long, turn as i32),
        buttons as u8,
    )
}

/// A tic, by its forward, side, turn and buttons.
fn tic_in(mut words: Words, long: bool) -> Result<Tic, Kind>
    ensures tic { result ≡ tic_in long words.entry }
    ensures held { IfOk result (HoldsTurn long) }
{
    let forward = next_number(&mut words, FORWARD)?;
    let side = next_number(&mut words, SIDE)?;
    let turn = next_turn(&mut words, long)?;
    let buttons = next_number(&mut words, BUTTONS)?;
    complete(words)?;
    Ok(tic_of(long, forward, side, turn, buttons))
}

/// A place for the cursor.
fn place_in(mut words: Words) -> Result<u32, Kind>
    ensures { result ≡ place_in words.entry }
{
    let place = next_number(&mut words, PLACE)?;
    complete(words)?;
    Ok(place as u32)
}

/// How many times a tic is put.
fn count_in(mut words: Words) -> Result<u32, Kind>
    ensures { result ≡ count_in words.entry }
{
    let count = next_number(&mut words, COUNT)?;
    complete(words)?;
    Ok(count as u32)
}

/// How many tics a search has.
fn depth_in(mut words: Words) -> Result<u32, Kind>
    ensures depth { result ≡ depth_in words.entry }
    ensures within { IfOk result (λ depth. (1 ≤ depth) × (depth ≤ 35)) }
{
    let depth = next_number(&mut words, DEPTH)?;
    complete(words)?;
    Ok(depth as u32)
}

/// What is shown.
fn shown_in(mut words: Words) -> Result<Command, Kind>
    ensures shown { result ≡ shown_in words.entry }
    ensures held { (long : Bool) → IfOk result (HoldsTicOf long) }
{
    let Some(word) = words.next() else {
        return Ok(Command::Show);
    };
    let Some(form) = form_of(word) else {
        return Err(Kind::Word);
    };
    match form {
        Form::Sector => Ok(Command::ShowSector(number_in(words)?)),
        Form::Keys => {
            complete(words)?;
            Ok(Command::ShowKeys)
        }
        Form::Health => {
            complete(words)?;
            Ok(Command::ShowHealth)
        }
    }
}

/// Whether a script without worlds knows the name.
fn is_edit(name: Name) -> bool
    ensures { result ≡ is_edit name }
{
    match name {
        Name::Seek | Name::Put | Name::Insert | Name::Delete | Name::Cut | Name::Repeat => true,
        Name::Show | Name::Brute | Name::Range | Name::Want | Name::Go => false,
    }
}

/// The name that a word is, if a script with or without worlds knows it.
fn known_name(word: &[u8], worlds: bool) -> Option<Name>
    ensures { result ≡ known_in worlds (name_of word.now) }
{
    let name = name_of(word)?;
    if worlds || is_edit(name) {
        Some(name)
    } else {
        None
    }
}

/// What the name says with the words after it, for a long or a short demo.
fn command_of(name: Name, words: Words, long: bool) -> Result<Outside, Kind>
    ensures command { result ≡ command_of long name words.entry }
    ensures sound { IfOk result (IsSoundOutside long) }
{
    let command = match name {
        Name::Seek => Command::Seek(place_in(words)?),
        Name::Put => Command::Put(tic_in(words, long)?),
        Name::Insert => Command::Insert(tic_in(words, long)?),
        Name::Delete => {
            complete(words)?;
            Command::Delete
        }
        Name::Cut => {
            complete(words)?;
            Command::Cut
        }
        Name::Repeat => Command::Repeat(count_in(words)?),
        Name::Show => shown_in(words)?,
        Name::Brute => return Ok(Outside::Opens(depth_in(words)?)),
        Name::Range | Name::Want | Name::Go => return Err(Kind::Missing),
    };
    Ok(Outside::Does(command))
}

/// Whether a line that begins with this word is a comment.
pub fn is_comment(word: &[u8]) -> bool
    ensures { result ≡ is_comment word.now }
{
    word.starts_with(b"#")
}

/// What a line outside a search says.
pub fn said_outside(line: &[u8], worlds: bool, long: bool) -> Result<Outside, Kind>
    ensures said { result ≡ outside worlds long (words line.now) }
    ensures sound { IfOk result (IsSoundOutside long) }
{
    let mut words = Words::new(line);
    let Some(word) = words.next() else {
        return Ok(Outside::Nothing);
    };
    if is_comment(word) {
        return Ok(Outside::Nothing);
    }
    let Some(name) = known_name(word, worlds) else {
        return Err(Kind::Word);
    };
    command_of(name, words, long)
}
