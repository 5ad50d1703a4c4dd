// What is put and pushed at the end of a run.
ghost use Rattle.std.specs.Prelude.{◌≡◌, ◌≤◌, option_map};
ghost use Rattle.dsda_cli.specs.Meaning.{put_under};
ghost use Rattle.dsda_cli.specs.Inside.{held, got, Puts, Pushes, status_of_take, status_of_put, status_of_push};

use crate::status::Status;
use doom_edge::{PushFault, PutFault, Shelf, Sink, TakeFault};

/// Puts the demo under the name, if there are both.
pub fn put_demo<S: Shelf>(
    shelf: &mut S,
    name: Option<&str>,
    demo: &Option<Vec<u8>>,
) -> Result<(), PutFault>
    ensures puts { Puts (S.sure shelf.old) (put_under (option_map (λ name. name.now) name.entry) (option_map (λ bytes. bytes.items) demo.now)) (held S.Shelf shelf.old) (held S.Shelf shelf.new) result }
    ensures later { S.put_faults shelf.old ≤ S.put_faults shelf.new }
    ensures takes { S.take_faults shelf.new ≡ S.take_faults shelf.old }
{
    match (name, demo) {
        (Some(name), Some(bytes)) => shelf.put(name, bytes),
        _ => Ok(()),
    }
}

/// Pushes the text, if it isn't empty.
pub fn push_text<N: Sink>(note: &mut N, text: &[u8]) -> Result<(), PushFault>
    ensures pushes { Pushes (N.sure note.old) text.now (got N.Sink note.old) (got N.Sink note.new) result }
    ensures later { N.faults note.old ≤ N.faults note.new }
{
    if text.is_empty() {
        return Ok(());
    }
    note.push(text)
}

/// The status of a run that could not take an input.
pub fn status_of_take(fault: TakeFault) -> Status
    ensures { result ≡ status_of_take fault }
{
    match fault {
        TakeFault::Failed => Status::ReadFault,
        TakeFault::Memory => Status::Memory,
    }
}

/// The status of a run that could not put its demo.
pub fn status_of_put(fault: PutFault) -> Status
    ensures { result ≡ status_of_put fault }
{
    match fault {
        PutFault::Failed => Status::WriteFault,
        PutFault::Memory => Status::Memory,
    }
}

/// The status of a run that could not push its text.
pub fn status_of_push(fault: PushFault) -> Status
    ensures { result ≡ status_of_push fault }
{
    match fault {
        PushFault::Failed => Status::NoteFault,
        PushFault::Memory => Status::Memory,
    }
}
