ghost use Rattle.std.specs.Prelude.{IfOk, ◌≡◌, string_bytes};
ghost use Rattle.dsda_cli.specs.Refusal.{text_of, line_of, wad_text, tables_text, level_text, start_text, demo_text, kind_text, edit_text};

use crate::fault::{InputFault, Refused};
use build_edits::EditFault;
use build_script::Kind;
use doom_edge::Memory;
use fixed_angle::TabFault;
use level_start::StartFault;
use lmp_codec::DemoFault;
use map_load::LevelFault;
use std::alloc::{AllocError, Global};
use wad_lumps::WadFault;

fn memory(_fault: AllocError) -> Memory {
    Memory
}

/// The text of a refusal.
pub fn refusal_text(alloc: Global, fault: &InputFault) -> Result<Vec<u8>, Memory>
    ensures { IfOk result (λ text. text.items ≡ text_of fault.now) }
{
    let text = match fault {
        InputFault::Large(word) => format!(in alloc; "word {word} too large"),
        InputFault::Wad(refused) => wad_text(alloc, refused),
        InputFault::Tables(refused) => tables_text(alloc, refused),
        InputFault::Demo(refused) => demo_text(alloc, refused),
        InputFault::Script(line, kind) => {
            let kind = kind_text(*kind);
            format!(in alloc; "line {line}: {kind}")
        }
        InputFault::Order(place) => format!(in alloc; "order at {place}"),
        InputFault::Level(refused) => level_text(alloc, refused),
        InputFault::Start(refused) => start_text(alloc, refused),
        InputFault::Name(line) => format!(in alloc; "line {line}: name"),
        InputFault::Edit(line, refused) => {
            let text = edit_text(alloc, refused)?;
            format!(in alloc; "line {line}: {text}")
        }
    };
    Ok(text.map_err(memory)?.into_bytes())
}

/// The line that stands in place of the report where the fault is refused.
pub fn refusal_line(alloc: Global, fault: &InputFault) -> Result<Vec<u8>, Memory>
    ensures { IfOk result (λ line. line.items ≡ line_of fault.now) }
{
    let mut line = Vec::new(alloc);
    line.extend_from_slice(b"refused: ")?;
    line.extend_from_slice(&refusal_text(alloc, fault)?)?;
    line.push(b'\n')?;
    Ok(line)
}

fn wad_text(alloc: Global, refused: &Refused<WadFault>) -> Result<String, AllocError>
    ensures { IfOk result (λ text. string_bytes text ≡ wad_text refused.now) }
{
    match refused.fault() {
        WadFault::WadHead => String::from_str(alloc, "wad head"),
        WadFault::WadDir => String::from_str(alloc, "wad directory"),
        WadFault::NoMap => String::from_str(alloc, "no map"),
        WadFault::LumpRange(entry) => format!(in alloc; "lump {entry}"),
        WadFault::Memory => unreachable!("want of memory is no refusal"),
    }
}

fn tables_text(alloc: Global, refused: &Refused<TabFault>) -> Result<String, AllocError>
    ensures { IfOk result (λ text. string_bytes text ≡ tables_text refused.now) }
{
    match refused.fault() {
        TabFault::TabHead => String::from_str(alloc, "tables head"),
        TabFault::TabLength => String::from_str(alloc, "tables length"),
        TabFault::TabActor(place) => format!(in alloc; "tables kind {place}"),
        TabFault::Memory => unreachable!("want of memory is no refusal"),
    }
}

fn level_text(alloc: Global, refused: &Refused<LevelFault>) -> Result<String, AllocError>
    ensures { IfOk result (λ text. string_bytes text ≡ level_text refused.now) }
{
    match refused.fault() {
        LevelFault::MapForm => String::from_str(alloc, "map form"),
        LevelFault::NodesKind => String::from_str(alloc, "nodes kind"),
        LevelFault::LevelRef(lump, entry) => {
            format!(in alloc; "level lump {lump} entry {entry}")
        }
        LevelFault::NodeLoop => String::from_str(alloc, "node loop"),
        LevelFault::BlockShape => String::from_str(alloc, "block shape"),
        LevelFault::Memory => unreachable!("want of memory is no refusal"),
    }
}

fn start_text(alloc: Global, refused: &Refused<StartFault>) -> Result<String, AllocError>
    ensures { IfOk result (λ text. string_bytes text ≡ start_text refused.now) }
{
    match refused.fault() {
        StartFault::NoStart => String::from_str(alloc, "no start"),
        StartFault::Voodoo => String::from_str(alloc, "voodoo"),
        StartFault::ThingUnknown(place, number) => {
            format!(in alloc; "thing {place} number {number}")
        }
        StartFault::Doom2Thing(place) => format!(in alloc; "doom2 thing {place}"),
        StartFault::Spitter(place) => format!(in alloc; "spitter {place}"),
        StartFault::Memory => unreachable!("want of memory is no refusal"),
    }
}

fn demo_text(alloc: Global, refused: &Refused<DemoFault>) -> Result<String, AllocError>
    ensures { IfOk result (λ text. string_bytes text ≡ demo_text refused.now) }
{
    match refused.fault() {
        DemoFault::DemoVersion(version) => format!(in alloc; "demo version {version}"),
        DemoFault::DemoHead(place) => format!(in alloc; "demo head {place}"),
        DemoFault::DemoCut(len) => format!(in alloc; "demo cut at {len}"),
        DemoFault::DemoLong => String::from_str(alloc, "demo long"),
        DemoFault::Memory => unreachable!("want of memory is no refusal"),
    }
}

fn kind_text(kind: Kind) -> &'static str
    ensures { result.now ≡ kind_text kind }
{
    match kind {
        Kind::Word => "word",
        Kind::Number => "number",
        Kind::Range => "range",
        Kind::Missing => "missing",
        Kind::Space => "space",
    }
}

fn edit_text(alloc: Global, refused: &Refused<EditFault>) -> Result<String, AllocError>
    ensures { IfOk result (λ text. string_bytes text ≡ edit_text refused.now) }
{
    match refused.fault() {
        EditFault::Place(count) => format!(in alloc; "place {count}"),
        EditFault::Before => String::from_str(alloc, "before"),
        EditFault::TooLong => String::from_str(alloc, "long"),
        EditFault::Memory => unreachable!("want of memory is no refusal"),
    }
}
