// A list in pages, with its base.
ghost use Rattle.std.specs.Prelude.{◌≡◌, ◌+◌, ◌*◌, ◌<◌, ◌≤◌, [], ◌∷◌, ◌++◌, Some, length, slice_get, slice_set, OnOk, OnErr, IfOk};
ghost use Rattle.std.specs.Arc.{arc_value};
ghost use Rattle.page_store.specs.Pages.{page_count};

use crate::pages::Pages;
use doom_edge::{Memory, Steps, moves_between_threads};
use std::alloc::Global;
use std::marker::Model;
use std::sync::Arc;

/// A list of items in pages of 32 that has its base to itself, or shares it with its forks. A fork of a store that was
/// never written touches no count of owners but the base's, and takes no memory. Once there is a table of pages, a fork
/// names that too; where pages were written since the last fork, it first makes the table.
#[derive(Drop)]
pub struct Store<T> {
    base: Arc<Vec<T>>,
    pages: Pages<T>,
}

impl<T> Model for Store<T> {
    ghost use Rattle.std.specs.Prelude.{List};

    ghost Value = { List T };

    ghost use Rattle.std.specs.Arc.{arc_value};
    ghost use Rattle.page_store.specs.Over.{seen, IsOver};

    ghost view = { λ store. seen (arc_value store.base).items store.pages };

    ghost invariant = { λ store. IsOver (arc_value store.base).items store.pages };
}

impl<T: Copy + Send + Sync> Store<T> {
    /// A store of these items.
    pub fn from_list(alloc: Global, items: Vec<T>) -> Result<Store<T>, Memory>
        ensures { IfOk result (λ store. store ≡ items.items) }
    {
        let pages = Pages::over(alloc, &items);
        Ok(Store {
            base: shared(alloc, items)?,
            pages,
        })
    }

    /// Lets all items go. It takes no memory.
    pub fn clear(&mut self)
        ensures { self.new ≡ [] }
    {
        self.pages.clear();
    }

    /// How many items there are.
    pub fn len(&self) -> usize
        ensures { result ≡ length self.now }
    {
        self.pages.len()
    }

    /// The item at a place.
    pub fn get(&self, i: usize) -> T
        requires { i < length self.now }
        ensures { slice_get self.now i ≡ Some result }
    {
        self.pages.get(&self.base, i)
    }

    /// Writes an item at a place. On `Memory` the list is as before.
    pub fn set(&mut self, i: usize, item: T, steps: &mut Steps) -> Result<(), Memory>
        requires { i < length self.old }
        ensures ok { OnOk result (self.new ≡ slice_set self.old i item) }
        ensures err { OnErr result (self.new ≡ self.old) }

        ensures tics { steps.new.tics ≡ steps.old.tics }
        ensures least { steps.old.pages ≤ steps.new.pages }
        ensures most { steps.new.pages ≤ steps.old.pages + 34 }
    {
        self.pages.set(&self.base, i, item, steps)
    }

    /// Appends an item. On `Memory` the list is as before.
    pub fn push(&mut self, item: T, steps: &mut Steps) -> Result<(), Memory>
        ensures ok { OnOk result (self.new ≡ self.old ++ item ∷ []) }
        ensures err { OnErr result (self.new ≡ self.old) }

        ensures tics { steps.new.tics ≡ steps.old.tics }
        ensures least { steps.old.pages ≤ steps.new.pages }
        ensures most { steps.new.pages ≤ steps.old.pages + 34 }
    {
        self.pages.push(&self.base, item, steps)
    }

    /// A second store with the same list. A later write to either leaves the other.
    pub fn fork(&mut self, steps: &mut Steps) -> Result<Store<T>, Memory>
        ensures same { IfOk result (λ forked. forked ≡ self.old) }
        ensures kept { self.new ≡ self.old }

        ensures tics { steps.new.tics ≡ steps.old.tics }
        ensures least { steps.old.pages ≤ steps.new.pages }
        ensures most { steps.new.pages ≤ steps.old.pages + 2 * page_count (length self.old) }
    {
        let pages = self.pages.fork(&self.base, steps)?;
        let base = Arc::try_clone(&self.base)?;
        Ok(Store { base, pages })
    }

    /// Gives the store a base of its own, which no other store names, and no pages. On `Memory` all is as before.
    pub fn own_pages(&mut self, steps: &mut Steps) -> Result<(), Memory>
        ensures kept { self.new ≡ self.old }

        ensures tics { steps.new.tics ≡ steps.old.tics }
        ensures least { steps.old.pages ≤ steps.new.pages }
        ensures most { steps.new.pages ≤ steps.old.pages + length self.old }
    {
        let items = self.pages.copied(&self.base, steps)?;
        let alloc = *items.allocator();
        let pages = Pages::over(alloc, &items);
        self.base = shared(alloc, items)?;
        self.pages = pages;
        Ok(())
    }
}

// Items that forks share.
fn shared<T: Copy>(alloc: Global, items: Vec<T>) -> Result<Arc<Vec<T>>, Memory>
    ensures { IfOk result (λ base. arc_value base ≡ items) }
{
    match Arc::new(alloc, items) {
        Ok(base) => Ok(base),
        Err(_) => Err(Memory),
    }
}

// A store may move to another thread.
fn moves<T: Copy + Send + Sync>(store: Store<T>) -> Store<T>
    ensures { result ≡ store }
{
    moves_between_threads(store)
}
