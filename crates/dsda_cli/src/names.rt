//! The sectors and lines that a script names.
ghost use Rattle.std.specs.Prelude.{◌≡◌, ◌<◌, option_map, length, All, IfOk};
ghost use Rattle.build_session.specs.Session.{NamesSectors};
ghost use Rattle.dsda_cli.specs.Judging.{exactly};
ghost use Rattle.dsda_cli.specs.Meaning.{has_named, misnamed, named_unless};
ghost use Rattle.dsda_cli.specs.Inside.{Gives};

use crate::fault::InputFault;
use crate::product::Stop;
use brute_targets::Want;
use build_script::{Command, Script};
use map_geometry::Level;

/// Whether the level has the sector or the line that a command names, if it names one.
fn has_named(level: &Level, command: &Command) -> bool
    ensures { result ≡ has_named level.now command.now }
{
    match command {
        Command::ShowSector(sector) => usize::from(*sector) < level.sector_count(),
        Command::Want(Want::Line(line)) => (*line as usize) < level.line_count(),
        _ => true,
    }
}

/// The line of the first command that names what isn't there.
fn misnamed(level: &Level, script: &Script) -> Option<u32>
    ensures { result ≡ option_map (λ entry. entry.line) (misnamed level.now script.now) }
{
    for place in 0..script.len() {
        if !has_named(level, script.command(place)) {
            return Some(script.line(place));
        }
    }
    None
}

/// Refuses the first command that names a sector or a line which the level doesn't have.
pub fn find_names(level: &Level, script: &Script) -> Result<(), Stop>
    ensures found { Gives (λ found. found) result (exactly (named_unless (misnamed level.now script.now))) }
    ensures there { IfOk result (λ _. All (λ entry. NamesSectors (λ sector. sector < length level.now.sectors) entry.command) script.now) }
{
    match misnamed(level, script) {
        Some(line) => Err(Stop::Refused(InputFault::Name(line))),
        None => Ok(()),
    }
}
