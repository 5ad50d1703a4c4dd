//! The words that a script has in fixed places.

ghost use Rattle.std.specs.Prelude.{◌≡◌};
ghost use Rattle.build_script.specs.Words.{name_of, inner_of, form_of, axis_of, aim_of, op_of};

use brute_targets::Op;
use game_trait::Quantity;

/// A command's name.
#[derive(Clone, Copy)]
pub enum Name {
    Seek,
    Put,
    Insert,
    Delete,
    Cut,
    Repeat,
    Show,
    Brute,
    Range,
    Want,
    Go,
}

/// The name of a command within an open search.
#[derive(Clone, Copy)]
pub enum Inner {
    Range,
    Want,
    Go,
}

/// What is shown beside the player's place.
#[derive(Clone, Copy)]
pub enum Form {
    Sector,
    Keys,
    Health,
}

/// A value of a tic.
#[derive(Clone, Copy, Debug, PartialEq, Eq)]
pub enum Axis {
    Forward,
    Side,
    Turn,
    Using,
}

/// What a target asks for.
#[derive(Clone, Copy)]
pub enum Aim {
    Reads(Quantity),
    Line,
    Exit,
}

/// The name of a command that a word is.
pub fn name_of(word: &[u8]) -> Option<Name>
    ensures { result ≡ name_of word.now }
{
    match word {
        b"seek" => Some(Name::Seek),
        b"put" => Some(Name::Put),
        b"insert" => Some(Name::Insert),
        b"delete" => Some(Name::Delete),
        b"cut" => Some(Name::Cut),
        b"repeat" => Some(Name::Repeat),
        b"show" => Some(Name::Show),
        b"brute" => Some(Name::Brute),
        b"range" => Some(Name::Range),
        b"want" => Some(Name::Want),
        b"go" => Some(Name::Go),
        _ => None,
    }
}

/// The name of a command within an open search that a word is.
pub fn inner_of(word: &[u8]) -> Option<Inner>
    ensures { result ≡ inner_of word.now }
{
    match word {
        b"range" => Some(Inner::Range),
        b"want" => Some(Inner::Want),
        b"go" => Some(Inner::Go),
        _ => None,
    }
}

/// What a word asks to be shown.
pub fn form_of(word: &[u8]) -> Option<Form>
    ensures { result ≡ form_of word.now }
{
    match word {
        b"sector" => Some(Form::Sector),
        b"keys" => Some(Form::Keys),
        b"health" => Some(Form::Health),
        _ => None,
    }
}

/// The value of a tic that a word names.
pub fn axis_of(word: &[u8]) -> Option<Axis>
    ensures { result ≡ axis_of word.now }
{
    match word {
        b"forward" => Some(Axis::Forward),
        b"side" => Some(Axis::Side),
        b"turn" => Some(Axis::Turn),
        b"use" => Some(Axis::Using),
        _ => None,
    }
}

/// What a target that begins with this word asks for.
pub fn aim_of(word: &[u8]) -> Option<Aim>
    ensures { result ≡ aim_of word.now }
{
    match word {
        b"x" => Some(Aim::Reads(Quantity::X)),
        b"y" => Some(Aim::Reads(Quantity::Y)),
        b"z" => Some(Aim::Reads(Quantity::Z)),
        b"momx" => Some(Aim::Reads(Quantity::MomX)),
        b"momy" => Some(Aim::Reads(Quantity::MomY)),
        b"momz" => Some(Aim::Reads(Quantity::MomZ)),
        b"angle" => Some(Aim::Reads(Quantity::Angle)),
        b"rng" => Some(Aim::Reads(Quantity::Rng)),
        b"keys" => Some(Aim::Reads(Quantity::Keys)),
        b"health" => Some(Aim::Reads(Quantity::Health)),
        b"armour" => Some(Aim::Reads(Quantity::Armour)),
        b"line" => Some(Aim::Line),
        b"exit" => Some(Aim::Exit),
        _ => None,
    }
}

/// The operator that a word is.
pub fn op_of(word: &[u8]) -> Option<Op>
    ensures { result ≡ op_of word.now }
{
    match word {
        b"<" => Some(Op::Less),
        b"<=" => Some(Op::LessEqual),
        b"=" => Some(Op::Equal),
        b"!=" => Some(Op::NotEqual),
        b">=" => Some(Op::GreaterEqual),
        b">" => Some(Op::Greater),
        _ => None,
    }
}
