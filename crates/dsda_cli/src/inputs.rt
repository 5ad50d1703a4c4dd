// The inputs, each read by itself. A fault that one has ends the work.
ghost use Rattle.std.specs.Prelude.{◌≡◌, ◌≤◌, length, IfOk};
ghost use Rattle.lmp_codec.specs.Header.{is_long};
ghost use Rattle.lmp_codec.specs.Tics.{HoldsTurns};
ghost use Rattle.lmp_codec.specs.Demo.{most_tics};
ghost use Rattle.wad_lumps.specs.Directory.{file_conditions};
ghost use Rattle.fixed_angle.specs.TableFile.{tables_of, table_conditions};
ghost use Rattle.dsda_cli.specs.declared.fault.InputFault.TheVariants as input_fault;
ghost use Rattle.dsda_cli.specs.Judging.{judged};
ghost use Rattle.dsda_cli.specs.Meaning.{as_demo};
ghost use Rattle.dsda_cli.specs.Inside.{Gives};

use crate::product::Stop;
use fixed_angle::PlayTables;
use lmp_codec::{Demo, read_demo};
use std::alloc::Global;
use wad_lumps::Wad;

/// The WAD that the bytes are. They are not copied.
pub fn wad(bytes: Vec<u8>) -> Result<Wad, Stop>
    ensures bytes { IfOk result (λ wad. wad ≡ bytes.items) }
    ensures judged { Gives (λ _. tt) result (judged (file_conditions bytes.items) input_fault.Wad) }
{
    Ok(Wad::read(bytes)?)
}

/// The play tables of the file.
pub fn tables(alloc: Global, bytes: &[u8]) -> Result<PlayTables, Stop>
    ensures tables { IfOk result (λ tables. tables ≡ tables_of bytes.now) }
    ensures judged { Gives (λ _. tt) result (judged (table_conditions bytes.now) input_fault.Tables) }
{
    Ok(PlayTables::read(alloc, bytes)?)
}

/// The demo that the text is.
pub fn demo(alloc: Global, text: &[u8]) -> Result<Demo, Stop>
    ensures read { Gives (λ demo. demo) result (as_demo text.now) }
    ensures within { IfOk result (λ demo. length demo.tics ≤ most_tics) }
    ensures turns { IfOk result (λ demo. HoldsTurns (is_long demo.header) demo.tics) }
{
    Ok(read_demo(alloc, text)?)
}
