//! Edits of tics that stand in one piece.
ghost use Rattle.std.specs.Prelude.{◌≡◌, ◌≤◌, [], length, OnOk, OnErr};
ghost use Rattle.std.specs.List.{splice};

use doom_edge::Memory;
use lmp_codec::Tic;

/// Puts these tics in front of the one at a place.
pub fn insert(tics: &mut Vec<Tic>, place: usize, others: &[Tic]) -> Result<(), Memory>
    requires inside { place ≤ length tics.old.items }
    ensures ok { OnOk result (tics.new.items ≡ splice tics.old.items place place others.now) }
    ensures err { OnErr result (tics.new.items ≡ tics.old.items) }
{
    let len = tics.len();
    tics.extend_from_slice(others)?;
    tics.copy_within(place..len, place + others.len());
    tics[place..place + others.len()].copy_from_slice(others);
    Ok(())
}

/// Removes the tics from one place to another.
pub fn erase(tics: &mut Vec<Tic>, from: usize, to: usize)
    requires order { from ≤ to }
    requires inside { to ≤ length tics.old.items }
    ensures erased { tics.new.items ≡ splice tics.old.items from to [] }
{
    tics.copy_within(to.., from);
    tics.truncate(tics.len() - (to - from));
}
