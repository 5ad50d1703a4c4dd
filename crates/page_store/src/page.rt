// A page of a store.
ghost use Rattle.std.specs.Prelude.{◌≡◌, ◌+◌, ◌<◌, ◌≤◌, List, [], ◌∷◌, ◌++◌, length, slice_get, slice_set, Some, OnOk, OnErr, IfOk};
ghost use Rattle.page_store.specs.Pages.{items_of, named_items};
ghost use Rattle.page_store.specs.Under.{under, AreSettled};

use crate::part::{PAGE_LEN, copy_of};
use crate::settled::{Named, Settled};
use doom_edge::{Memory, Steps};
use std::alloc::Global;
use std::mem;
use std::sync::Arc;

/// A page of a store. Only an owned page is ever changed.
#[derive(Drop)]
pub enum Page<T> {
    /// What the last fork found in the page in which this place is.
    Under(usize),
    Owned(Vec<T>),
    Shared(Arc<Vec<T>>),
}

impl<T: Copy> Page<T> {
    /// A page of one item.
    pub fn of(alloc: Global, item: T, steps: &mut Steps) -> Result<Page<T>, Memory>
        ensures ok { (under : List T) → IfOk result (λ page. items_of under page ≡ item ∷ []) }
        ensures tics { steps.new.tics ≡ steps.old.tics }
        ensures least { steps.old.pages ≤ steps.new.pages }
        ensures most { steps.new.pages ≤ steps.old.pages + 1 }
    {
        let mut items = Vec::with_capacity(alloc, PAGE_LEN)?;
        steps.page();
        items.push(item)?;
        Ok(Page::Owned(items))
    }

    /// The item at a place.
    pub fn item(&self, base: &[T], settled: &Settled<T>, at: usize) -> T
        requires settled { AreSettled base.now settled.now }
        requires there { at < length (items_of (under base.now settled.now) self.now) }
        ensures { slice_get (items_of (under base.now settled.now) self.now) at ≡ Some result }
    {
        match self {
            Page::Under(start) => settled.item(base, *start / PAGE_LEN, at),
            Page::Owned(items) => items.as_slice()[at],
            Page::Shared(items) => items.as_slice()[at],
        }
    }

    /// Its items.
    pub fn items<'a>(&'a self, base: &'a [T], settled: &'a Settled<T>) -> &'a [T]
        requires { AreSettled base.now settled.now }
        ensures { result.now ≡ items_of (under base.now settled.now) self.now }
    {
        match self {
            Page::Under(start) => settled.page(base, *start),
            Page::Owned(items) => items.as_slice(),
            Page::Shared(items) => items.as_slice(),
        }
    }

    /// Writes an item. A page that isn't owned is first replaced by a copy.
    pub fn set(
        &mut self,
        alloc: Global,
        base: &[T],
        settled: &Settled<T>,
        at: usize,
        item: T,
        steps: &mut Steps,
    ) -> Result<(), Memory>
        requires settled { AreSettled base.now settled.now }
        requires there { at < length (items_of (under base.now settled.now) self.old) }
        ensures ok { OnOk result (items_of (under base.now settled.now) self.new ≡ slice_set (items_of (under base.now settled.now) self.old) at item) }
        ensures err { OnErr result (items_of (under base.now settled.now) self.new ≡ items_of (under base.now settled.now) self.old) }
        ensures tics { steps.new.tics ≡ steps.old.tics }
        ensures least { steps.old.pages ≤ steps.new.pages }
        ensures most { steps.new.pages ≤ steps.old.pages + length (items_of (under base.now settled.now) self.old) + 1 }
    {
        let mut items = self.take(alloc, base, settled, steps)?;
        steps.page();
        items[at] = item;
        *self = Page::Owned(items);
        Ok(())
    }

    /// Appends an item. A page that isn't owned is first replaced by a copy.
    pub fn push(
        &mut self,
        alloc: Global,
        base: &[T],
        settled: &Settled<T>,
        item: T,
        steps: &mut Steps,
    ) -> Result<(), Memory>
        requires { AreSettled base.now settled.now }
        ensures ok { OnOk result (items_of (under base.now settled.now) self.new ≡ items_of (under base.now settled.now) self.old ++ item ∷ []) }
        ensures err { OnErr result (items_of (under base.now settled.now) self.new ≡ items_of (under base.now settled.now) self.old) }
        ensures tics { steps.new.tics ≡ steps.old.tics }
        ensures least { steps.old.pages ≤ steps.new.pages }
        ensures most { steps.new.pages ≤ steps.old.pages + length (items_of (under base.now settled.now) self.old) + 1 }
    {
        let mut items = self.take(alloc, base, settled, steps)?;
        steps.page();
        let pushed = items.push(item);
        *self = Page::Owned(items);
        pushed?;
        Ok(())
    }

    /// Makes an owned page shared, and names the page for a table.
    pub fn share(
        &mut self,
        alloc: Global,
        base: &[T],
        settled: &Settled<T>,
        steps: &mut Steps,
    ) -> Result<Named<T>, Memory>
        requires { AreSettled base.now settled.now }
        ensures ok { IfOk result (λ named. named_items base.now named ≡ items_of (under base.now settled.now) self.old) }
        ensures kept { (under : List T) → items_of under self.new ≡ items_of under self.old }
        ensures tics { steps.new.tics ≡ steps.old.tics }
        ensures least { steps.old.pages ≤ steps.new.pages }
        ensures most { steps.new.pages ≤ steps.old.pages + 2 }
    {
        let shared = match mem::replace(self, Page::Under(0)) {
            Page::Under(start) => {
                steps.page();
                *self = Page::Under(start);
                return settled.named(base, start);
            }
            Page::Shared(items) => items,
            Page::Owned(items) => {
                steps.page();
                match Arc::new(alloc, items) {
                    Ok(items) => items,
                    Err(failed) => {
                        *self = Page::Owned(failed.value);
                        return Err(Memory);
                    }
                }
            }
        };
        steps.page();
        let named = Arc::try_clone(&shared);
        *self = Page::Shared(shared);
        Ok(Named::Shared(named?))
    }

    // Takes the items out of an owned page, or copies those of another. On `Memory` the page stays.
    fn take(
        &mut self,
        alloc: Global,
        base: &[T],
        settled: &Settled<T>,
        steps: &mut Steps,
    ) -> Result<Vec<T>, Memory>
        requires { AreSettled base.now settled.now }
        ensures ok { IfOk result (λ items. items.items ≡ items_of (under base.now settled.now) self.old) }
        ensures err { OnErr result (items_of (under base.now settled.now) self.new ≡ items_of (under base.now settled.now) self.old) }
        ensures tics { steps.new.tics ≡ steps.old.tics }
        ensures least { steps.old.pages ≤ steps.new.pages }
        ensures most { steps.new.pages ≤ steps.old.pages + length (items_of (under base.now settled.now) self.old) }
    {
        match mem::replace(self, Page::Under(0)) {
            Page::Under(start) => {
                *self = Page::Under(start);
                copy_of(alloc, settled.page(base, start), steps)
            }
            Page::Owned(items) => Ok(items),
            Page::Shared(items) => {
                let copied = copy_of(alloc, &items, steps);
                *self = Page::Shared(items);
                copied
            }
        }
    }
}
