// The inputs, as they are taken.
ghost use Rattle.std.specs.Prelude.{◌≡◌, ◌≤◌, Some, None, map, IfSome, IfOk, IsErrOf};
ghost use Rattle.doom_edge.specs.Counts.{Rose};
ghost use Rattle.dsda_cli.specs.Meaning.{contents};
ghost use Rattle.dsda_cli.specs.Inside.{front_of};

use crate::command::Input;
use crate::words::Words;
use doom_edge::{Shelf, TakeFault};
use std::alloc::Global;

/// Takes the inputs in order, one byte more of each than its limit where it has that many.
pub fn take_all<S: Shelf>(
    alloc: Global,
    inputs: &[Input],
    words: &Words,
    shelf: &mut S,
) -> Result<Vec<Vec<u8>>, TakeFault>
    ensures told { IfOk result (λ texts. IfSome (S.holds shelf.old) (λ files.
        map (front_of files words.now) inputs.now ≡ map (λ text. Some text.items) texts.items)) }
    ensures cause { IsErrOf result TakeFault.Failed → Rose (S.take_faults shelf.old) (S.take_faults shelf.new) }
    ensures missing { IsErrOf result TakeFault.Failed → S.sure shelf.old
        → IfSome (S.holds shelf.old) (λ files. contents files words.now inputs.now ≡ None) }
    ensures holds { S.holds shelf.new ≡ S.holds shelf.old }
    ensures takes { S.take_faults shelf.old ≤ S.take_faults shelf.new }
    ensures puts { S.put_faults shelf.new ≡ S.put_faults shelf.old }
    ensures stays_sure { S.sure shelf.old → S.sure shelf.new }
{
    let mut texts = Vec::new(alloc);
    for input in inputs {
        let mut text = Vec::new(alloc);
        shelf.take(
            words.word(input.word as usize),
            input.limit as usize + 1,
            &mut text,
        )?;
        texts.push(text)?;
    }
    Ok(texts)
}
