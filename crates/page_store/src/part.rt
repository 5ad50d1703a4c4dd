// Parts of a base, and copies.
ghost use Rattle.std.specs.Prelude.{◌≡◌, ◌+◌, ◌*◌, ◌≤◌, ◌++◌, length, take, drop, OnOk, IfOk};

use doom_edge::{Memory, Steps};
use std::alloc::Global;

/// How many items a page holds.
pub const PAGE_LEN: usize = 32;

/// The items of a page over a base that begins at this place.
pub fn part_of<T>(base: &[T], start: usize) -> &[T]
    ensures { result.now ≡ take 32 (drop start base.now) }
{
    let rest = &base[start.min(base.len())..];
    &rest[..rest.len().min(PAGE_LEN)]
}

/// A copy with room for a whole page, each item by one step.
pub fn copy_of<T: Copy>(alloc: Global, items: &[T], steps: &mut Steps) -> Result<Vec<T>, Memory>
    ensures ok { IfOk result (λ copy. copy.items ≡ items.now) }
    ensures tics { steps.new.tics ≡ steps.old.tics }
    ensures least { steps.old.pages ≤ steps.new.pages }
    ensures most { steps.new.pages ≤ steps.old.pages + length items.now }
{
    let mut copy = Vec::with_capacity(alloc, PAGE_LEN)?;
    copy_onto(&mut copy, items, steps)?;
    Ok(copy)
}

/// Copies items behind those of a list as one block, each by one step.
pub fn copy_onto<T: Copy>(copy: &mut Vec<T>, items: &[T], steps: &mut Steps) -> Result<(), Memory>
    ensures ok { OnOk result (copy.new.items ≡ copy.old.items ++ items.now) }
    ensures tics { steps.new.tics ≡ steps.old.tics }
    ensures least { steps.old.pages ≤ steps.new.pages }
    ensures most { steps.new.pages ≤ steps.old.pages + length items.now }
{
    count_pages(steps, items.len() / PAGE_LEN);
    count(steps, items.len() % PAGE_LEN);
    copy.extend_from_slice(items)?;
    Ok(())
}

// Counts the items of so many whole pages. How many a page has is known when the program is built, so that one sum
// counts them.
fn count_pages(steps: &mut Steps, pages: usize)
    ensures tics { steps.new.tics ≡ steps.old.tics }
    ensures least { steps.old.pages ≤ steps.new.pages }
    ensures most { steps.new.pages ≤ steps.old.pages + 32 * pages }
{
    for _k in 0..pages {
        count(steps, PAGE_LEN);
    }
}

// Counts so many steps.
fn count(steps: &mut Steps, times: usize)
    ensures tics { steps.new.tics ≡ steps.old.tics }
    ensures least { steps.old.pages ≤ steps.new.pages }
    ensures most { steps.new.pages ≤ steps.old.pages + times }
{
    for _i in 0..times {
        steps.page();
    }
}
