// The commands of a script, carried out on the tics of a demo.
ghost use Rattle.std.specs.Prelude.{◌≡◌, ◌≤◌, Bool, false, length, IfOk};
ghost use Rattle.lmp_codec.specs.Tics.{HoldsTurns};
ghost use Rattle.lmp_codec.specs.Demo.{most_tics};
ghost use Rattle.build_script.specs.Script.{script_of, HoldsTics};
ghost use Rattle.build_edits.specs.Parts.{all_tics};
ghost use Rattle.build_edits.specs.Edits.{MayEdit};
ghost use Rattle.dsda_cli.specs.Judging.{exactly};
ghost use Rattle.dsda_cli.specs.Meaning.{as_script, scripted, edits_of, edited_by};
ghost use Rattle.dsda_cli.specs.Inside.{Gives};

use crate::product::{Stop, stop_of_edit};
use build_edits::{EditFault, Tape};
use build_script::{Command, Script, read_script};
use lmp_codec::Tics;
use std::alloc::Global;

/// The tics that the script leaves of a long or a short demo's.
#[tactic(auto, unfolding(crate::specs::Meaning::scripted))]
pub fn scripted(alloc: Global, script: &[u8], tics: Tics, long: bool) -> Result<Tape, Stop>
    requires few { length tics ≤ most_tics }
    requires turns { HoldsTurns long tics }
    ensures tics { Gives all_tics result (scripted long script.now tics) }
    ensures turns { IfOk result (λ left. HoldsTurns long (all_tics left)) }
{
    let commands = read_commands(alloc, script, long)?;
    edit_all(&commands, Tape::new(tics.into_list()))
}

/// The commands of the script.
fn read_commands(alloc: Global, script: &[u8], long: bool) -> Result<Script, Stop>
    ensures commands { Gives (λ entries. entries) result (exactly (as_script (script_of false long script.now))) }
    ensures held { IfOk result (HoldsTics long) }
{
    Ok(read_script(alloc, script, false, long)?)
}

/// Carries the commands out, one after the other. The first that is refused ends them.
fn edit_all(script: &Script, mut tape: Tape) -> Result<Tape, Stop>
    ensures parts { Gives (λ parts. parts) result (exactly (edits_of script.now tape)) }
    ensures turns { (long : Bool) → HoldsTics long script.now → HoldsTurns long (all_tics tape)
        → IfOk result (λ left. HoldsTurns long (all_tics left)) }
{
    for place in 0..script.len() {
        match edit(script.command(place), &mut tape) {
            Ok(()) => {}
            Err(fault) => return Err(stop_of_edit(script.line(place), fault)),
        }
    }
    Ok(tape)
}

/// Carries one command out.
fn edit(command: &Command, tape: &mut Tape) -> Result<(), EditFault>
    ensures edits { MayEdit result tape.old tape.new (edited_by command.now tape.old) }
{
    match command {
        Command::Seek(place) => tape.seek(*place),
        Command::Put(tic) => tape.put(*tic),
        Command::Insert(tic) => tape.insert(*tic),
        Command::Delete => tape.delete(),
        Command::Cut => tape.cut(),
        Command::Repeat(count) => tape.repeat(*count),
        // These are no words of a script without worlds.
        Command::Show => Ok(()),
        Command::ShowSector(_) => Ok(()),
        Command::ShowKeys => Ok(()),
        Command::ShowHealth => Ok(()),
        Command::Want(_) => Ok(()),
        Command::Go(_, _) => Ok(()),
    }
}
