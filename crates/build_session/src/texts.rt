//! The lines of a report.

ghost use Rattle.std.specs.Prelude.{◌≡◌, ◌++◌, codes, IfOk, OnOk, string_bytes};
ghost use Rattle.std.specs.Fmt.{decimal, signed_decimal};
ghost use Rattle.build_session.specs.Lines.{halt_text, exit_text, world_line, ground_line, keys_line, vitals_line, first_line, turns_line, answer_lines};

use crate::searches::Searched;
use game_trait::{Ground, Halt, Shown, Vitals};
use std::alloc::{AllocError, Global};
use std::fmt::Write;

/// Appends a name and a number.
fn push_count(text: &mut String, name: &str, count: u64) -> Result<(), AllocError>
    ensures { OnOk result (string_bytes text.new ≡ string_bytes text.old ++ name.now ++ decimal count) }
{
    text.push_str(name)?;
    write!(text, "{count}")
}

/// Appends a name and a number that may be below 0.
fn push_number(text: &mut String, name: &str, number: i64) -> Result<(), AllocError>
    ensures { OnOk result (string_bytes text.new ≡ string_bytes text.old ++ name.now ++ signed_decimal number) }
{
    text.push_str(name)?;
    write!(text, "{number}")
}

/// Why a world is halted.
fn halt_text(alloc: Global, halt: &Halt) -> Result<String, AllocError>
    ensures { IfOk result (λ text. string_bytes text ≡ halt_text halt.now) }
{
    match halt {
        Halt::Attack => String::from_str(alloc, "attack"),
        Halt::Button => String::from_str(alloc, "button"),
        Halt::Special(number) => format!(in alloc; "special {number}"),
        Halt::Sector(number) => format!(in alloc; "sector {number}"),
        Halt::Listed => String::from_str(alloc, "listed"),
        Halt::Intercepts => String::from_str(alloc, "intercepts"),
        Halt::Lifts => String::from_str(alloc, "lifts"),
        Halt::Unset => String::from_str(alloc, "unset"),
        Halt::Mover => String::from_str(alloc, "mover"),
        Halt::NoBack(line) => format!(in alloc; "noback {line}"),
        Halt::Died => String::from_str(alloc, "died"),
        Halt::Stomp => String::from_str(alloc, "stomp"),
    }
}

/// How the level was left, if it was.
fn exit_text(exited: u8) -> &'static str
    ensures { result.now ≡ exit_text exited }
{
    if exited == 0 {
        return "";
    }
    if exited == 1 { " exit" } else { " secret" }
}

/// A halted world.
fn halt_line(alloc: Global, tic: u64, halt: &Halt) -> Result<String, AllocError>
    ensures { IfOk result (λ line. string_bytes line ≡ codes "halt tic " ++ decimal tic ++ codes " " ++ halt_text halt.now ++ codes "\n") }
{
    let mut line = String::new(alloc);
    push_count(&mut line, "halt tic ", tic)?;
    line.push_str(" ")?;
    line.push_str(&halt_text(alloc, halt)?)?;
    line.push_str("\n")?;
    Ok(line)
}

/// A world: the tics and the player, or the tic that halted and why.
#[tactic(auto, unfolding(crate::specs::Lines::world_line))]
pub fn world_line(alloc: Global, shown: &Shown) -> Result<String, AllocError>
    ensures { IfOk result (λ line. string_bytes line ≡ world_line shown.now) }
{
    match shown {
        Shown::Live {
            tic,
            x,
            y,
            z,
            momx,
            momy,
            momz,
            angle,
            rng,
            exited,
        } => {
            let mut line = String::new(alloc);
            push_count(&mut line, "tic ", *tic)?;
            push_number(&mut line, " x ", i64::from(*x))?;
            push_number(&mut line, " y ", i64::from(*y))?;
            push_number(&mut line, " z ", i64::from(*z))?;
            push_number(&mut line, " momx ", i64::from(*momx))?;
            push_number(&mut line, " momy ", i64::from(*momy))?;
            push_number(&mut line, " momz ", i64::from(*momz))?;
            push_count(&mut line, " angle ", u64::from(*angle))?;
            push_count(&mut line, " rng ", u64::from(*rng))?;
            line.push_str(exit_text(*exited))?;
            line.push_str("\n")?;
            Ok(line)
        }
        Shown::Halted { tic, halt } => halt_line(alloc, *tic, halt),
    }
}

/// A sector with its number.
#[tactic(auto, unfolding(crate::specs::Lines::ground_line))]
pub fn ground_line(alloc: Global, sector: u16, shown: &Ground) -> Result<String, AllocError>
    ensures { IfOk result (λ line. string_bytes line ≡ ground_line sector shown.now) }
{
    let mut line = String::new(alloc);
    push_count(&mut line, "sector ", u64::from(sector))?;
    push_number(&mut line, " floor ", i64::from(shown.floor))?;
    push_number(&mut line, " ceiling ", i64::from(shown.ceiling))?;
    push_number(&mut line, " light ", i64::from(shown.light))?;
    line.push_str("\n")?;
    Ok(line)
}

/// The keys held.
#[tactic(auto, unfolding(crate::specs::Lines::keys_line))]
pub fn keys_line(alloc: Global, keys: i64) -> Result<String, AllocError>
    ensures { IfOk result (λ line. string_bytes line ≡ keys_line keys) }
{
    format!(in alloc; "keys {keys}\n")
}

/// The player's body.
#[tactic(auto, unfolding(crate::specs::Lines::vitals_line))]
pub fn vitals_line(alloc: Global, vitals: &Vitals) -> Result<String, AllocError>
    ensures { IfOk result (λ line. string_bytes line ≡ vitals_line vitals.now) }
{
    let mut line = String::new(alloc);
    push_number(&mut line, "health ", i64::from(vitals.health))?;
    push_number(&mut line, " armour ", i64::from(vitals.armour))?;
    push_count(&mut line, " type ", u64::from(vitals.kind))?;
    push_count(&mut line, " suit ", u64::from(vitals.suit))?;
    push_count(&mut line, " guard ", u64::from(vitals.guard))?;
    push_count(&mut line, " react ", u64::from(vitals.react))?;
    line.push_str("\n")?;
    Ok(line)
}

/// The first number that meets, if there is one.
fn first_line(alloc: Global, first: Option<u64>) -> Result<String, AllocError>
    ensures { IfOk result (λ line. string_bytes line ≡ first_line first) }
{
    match first {
        Some(number) => format!(in alloc; "found {number}\n"),
        None => String::from_str(alloc, "none\n"),
    }
}

/// How many turns a search took, where that is told.
fn turns_line(alloc: Global, turns: Option<u64>) -> Result<String, AllocError>
    ensures { IfOk result (λ line. string_bytes line ≡ turns_line turns) }
{
    match turns {
        Some(turns) => format!(in alloc; "turns {turns}\n"),
        None => Ok(String::new(alloc)),
    }
}

/// What a search came to.
pub fn answer_lines(alloc: Global, searched: &Searched) -> Result<String, AllocError>
    ensures { IfOk result (λ lines. string_bytes lines ≡ answer_lines searched.now.first searched.now.turns) }
{
    let mut lines = first_line(alloc, searched.first)?;
    lines.push_str(&turns_line(alloc, searched.turns)?)?;
    Ok(lines)
}
