// The reading of a whole text, line by line.
ghost use Rattle.std.specs.Prelude.{◌≡◌, length, Err, OnOk, IfOk, OnErr};
ghost use Rattle.build_script.specs.Commands.{outside};
ghost use Rattle.build_script.specs.Searches.{inside};
ghost use Rattle.build_script.specs.Script.{reading, with_entry, after_outside, after_inside, after_line, closed, script_of, Gives, Follows, HoldsTics, IsFor};
ghost use Rattle.build_script.specs.Text.{words};

use crate::commands::{Command, Entry, Script};
use crate::fault::{Kind, ScriptFault};
use crate::judge::{Outside, said_outside};
use crate::search::Search;
use crate::text::Lines;
use crate::within::{Inside, said_inside};
use std::alloc::Global;

/// Adds the command of the line with this number.
fn add(entries: &mut Vec<Entry>, line: u32, command: Command) -> Result<(), ScriptFault>
    ensures added { OnOk result (entries.new.items ≡ with_entry entries.old.items line command) }
    ensures memory { OnErr result (result ≡ Err ScriptFault.Memory) }
{
    entries.push(Entry { line, command })?;
    Ok(())
}

/// Reads a line outside a search.
fn read_outside(
    alloc: Global,
    entries: &mut Vec<Entry>,
    number: u32,
    line: &[u8],
    worlds: bool,
    long: bool,
) -> Result<Option<Search>, ScriptFault>
    ensures read { Follows result entries.new.items (after_outside long number entries.old.items (outside worlds long (words line.now))) }
    ensures held { OnOk result (HoldsTics long entries.old.items → HoldsTics long entries.new.items) }
    ensures for_it { IfOk result (IsFor long) }
{
    match said_outside(line, worlds, long) {
        Ok(Outside::Nothing) => Ok(None),
        Ok(Outside::Does(command)) => {
            add(entries, number, command)?;
            Ok(None)
        }
        Ok(Outside::Opens(depth)) => Ok(Some(Search::begin(alloc, number, depth, long)?)),
        Err(kind) => Err(ScriptFault::Line(number, kind)),
    }
}

/// Reads a line within a search.
fn read_inside(
    alloc: Global,
    entries: &mut Vec<Entry>,
    mut search: Search,
    number: u32,
    line: &[u8],
) -> Result<Option<Search>, ScriptFault>
    ensures read { Follows result entries.new.items (after_inside number entries.old.items search (inside (length search.ranges.tics) search.ranges.long (words line.now))) }
    ensures held { OnOk result (HoldsTics search.ranges.long entries.old.items → HoldsTics search.ranges.long entries.new.items) }
    ensures for_it { IfOk result (IsFor search.ranges.long) }
{
    match said_inside(line, search.depth(), search.is_long()) {
        Ok(Inside::Nothing) => Ok(Some(search)),
        Ok(Inside::Narrows(tics, axis, range)) => {
            search.narrow(tics, axis, range);
            Ok(Some(search))
        }
        Ok(Inside::Adds(want)) => {
            if search.is_full() {
                return Err(ScriptFault::Line(number, Kind::Range));
            }
            search.add(want)?;
            add(entries, number, Command::Want(want))?;
            Ok(Some(search))
        }
        Ok(Inside::Goes) => {
            let command = search.finish(alloc, number)?;
            add(entries, number, command)?;
            Ok(None)
        }
        Err(kind) => Err(ScriptFault::Line(number, kind)),
    }
}

/// Reads one line more, and answers the search that is open after it.
fn read_line(
    alloc: Global,
    entries: &mut Vec<Entry>,
    search: Option<Search>,
    number: u32,
    line: &[u8],
    worlds: bool,
    long: bool,
) -> Result<Option<Search>, ScriptFault>
    requires { IsFor long search }
    ensures read { Follows result entries.new.items (after_line worlds long (reading search entries.old.items) (number, line.now) search) }
    ensures held { OnOk result (HoldsTics long entries.old.items → HoldsTics long entries.new.items) }
    ensures for_it { IfOk result (IsFor long) }
{
    match search {
        None => read_outside(alloc, entries, number, line, worlds, long),
        Some(search) => read_inside(alloc, entries, search, number, line),
    }
}

/// The commands after the last line, where no search is open.
fn close(search: Option<Search>, entries: Vec<Entry>) -> Result<Script, ScriptFault>
    ensures script { Gives result (closed search entries.items) }
    ensures same { IfOk result (λ script. script ≡ entries.items) }
{
    match search {
        None => Ok(Script::from_entries(entries)),
        Some(search) => Err(ScriptFault::Line(search.line(), Kind::Missing)),
    }
}

/// The commands of a text in their order, each with the number of its line, or the first fault in the text.
///
/// Lines end by LF or CR LF, and words are separated by spaces and tabs. A line without words and one whose first word
/// begins with `#` are skipped; they count as lines do, from 1. A faulty line is refused by its first faulty word, from
/// the left. The bytes need not be UTF-8. With `worlds` the words that show and search worlds are known too. A search
/// is opened by `brute`, and is one command, at the line of its `go`; where no line is faulty and the text ends within
/// one, the line of its `brute` is refused. With `long` the script is one for a demo of version 111: a turn is written
/// in 65,536ths of a circle, and else in 256ths.
pub fn read_script(
    alloc: Global,
    bytes: &[u8],
    worlds: bool,
    long: bool,
) -> Result<Script, ScriptFault>
    ensures script { Gives result (script_of worlds long bytes.now) }

    // A demo of this version holds each tic that the commands add.
    ensures held { IfOk result (HoldsTics long) }
{
    let mut entries = Vec::new(alloc);
    let mut search = None;
    let mut number = 0u32;
    for line in Lines::new(bytes) {
        number = number.checked_add(1).ok_or(ScriptFault::Memory)?;
        search = read_line(alloc, &mut entries, search, number, line, worlds, long)?;
    }
    close(search, entries)
}
