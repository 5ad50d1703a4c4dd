// What was written of a list over its base.
ghost use Rattle.std.specs.Prelude.{◌≡◌, ◌+◌, ◌*◌, ◌<◌, ◌≤◌, List, [], ◌∷◌, ◌++◌, Some, length, slice_get, slice_set, OnOk, OnErr, IfOk};
ghost use Rattle.page_store.specs.Pages.{named_pieces, pieces_of, joined, seen_in, ArePages, IsStore, IsLaidOut, page_count};
ghost use Rattle.page_store.specs.Under.{under, AreSettled};
ghost use Rattle.page_store.specs.Over.{seen, IsOver};

use crate::page::Page;
use crate::part::{PAGE_LEN, copy_onto};
use crate::settled::{Named, Settled};
use doom_edge::{Memory, Steps};
use std::alloc::Global;

/// A list of items in pages of 32, over a base that stands elsewhere and is passed to each call: the items that the list
/// was made of. So one `Arc` may hold the bases of many lists.
///
/// A list has no pages until the first write since its last fork, and then one for each 32 items, which names its place in
/// what the list was at that fork until it is written. A fork settles the pages that were written: from then on they stand
/// in one table that both lists share, and whose pages no one writes. So a fork of a list that was not written since the
/// one before names that table once, however many pages are in it, and each of both copies a page before it first writes
/// into it. A page step is one item copied, or one page named or made shared.
#[derive(Drop)]
pub struct Pages<T> {
    settled: Settled<T>,
    pages: Vec<Page<T>>,
    len: usize,
}

impl<T: Copy> Pages<T> {
    /// The list that the base is.
    pub fn over(alloc: Global, base: &[T]) -> Pages<T>
        ensures seen { seen base.now result ≡ base.now }
        ensures over { IsOver base.now result }
    {
        Pages {
            settled: Settled::none(alloc),
            pages: Vec::new(alloc),
            len: base.len(),
        }
    }

    /// Lets all items go, whatever the base is. It takes no memory.
    pub fn clear(&mut self)
        ensures seen { (base : List T) → seen base self.new ≡ [] }
        ensures over { (base : List T) → IsOver base self.new }
    {
        self.settled = Settled::none(*self.pages.allocator());
        self.pages.clear();
        self.len = 0;
    }

    /// How many items there are.
    pub fn len(&self) -> usize
        ensures { (base : List T) → IsOver base self.now → result ≡ length (seen base self.now) }
    {
        self.len
    }

    /// The item at a place.
    pub fn get(&self, base: &[T], i: usize) -> T
        requires over { IsOver base.now self.now }
        requires there { i < length (seen base.now self.now) }
        ensures { slice_get (seen base.now self.now) i ≡ Some result }
    {
        item_in(base, &self.settled, &self.pages, self.len, i)
    }

    /// Writes an item at a place. On `Memory` the list is as before.
    pub fn set(&mut self, base: &[T], i: usize, item: T, steps: &mut Steps) -> Result<(), Memory>
        requires over { IsOver base.now self.old }
        requires there { i < length (seen base.now self.old) }
        ensures over { IsOver base.now self.new }
        ensures ok { OnOk result (seen base.now self.new ≡ slice_set (seen base.now self.old) i item) }
        ensures err { OnErr result (seen base.now self.new ≡ seen base.now self.old) }

        ensures tics { steps.new.tics ≡ steps.old.tics }
        ensures least { steps.old.pages ≤ steps.new.pages }
        ensures most { steps.new.pages ≤ steps.old.pages + 34 }
    {
        write(
            base,
            &self.settled,
            &mut self.pages,
            self.len,
            i,
            item,
            steps,
        )
    }

    /// Appends an item. On `Memory` the list is as before.
    pub fn push(&mut self, base: &[T], item: T, steps: &mut Steps) -> Result<(), Memory>
        requires { IsOver base.now self.old }
        ensures over { IsOver base.now self.new }
        ensures ok { OnOk result (seen base.now self.new ≡ seen base.now self.old ++ item ∷ []) }
        ensures err { OnErr result (seen base.now self.new ≡ seen base.now self.old) }

        ensures tics { steps.new.tics ≡ steps.old.tics }
        ensures least { steps.old.pages ≤ steps.new.pages }
        ensures most { steps.new.pages ≤ steps.old.pages + 34 }
    {
        if self.len == usize::MAX {
            return Err(Memory);
        }
        append(base, &self.settled, &mut self.pages, self.len, item, steps)?;
        self.len += 1;
        Ok(())
    }

    /// A second list with the same items, over the same base. A later write to either leaves the other.
    pub fn fork(&mut self, base: &[T], steps: &mut Steps) -> Result<Pages<T>, Memory>
        requires { IsOver base.now self.old }
        ensures over { IsOver base.now self.new }
        ensures forked { IfOk result (λ forked. IsOver base.now forked) }
        ensures same { IfOk result (λ forked. seen base.now forked ≡ seen base.now self.old) }
        ensures kept { seen base.now self.new ≡ seen base.now self.old }

        ensures tics { steps.new.tics ≡ steps.old.tics }
        ensures least { steps.old.pages ≤ steps.new.pages }
        ensures most { steps.new.pages ≤ steps.old.pages + 2 * page_count (length (seen base.now self.old)) }
    {
        self.settle(base, steps)?;
        Ok(Pages {
            settled: self.settled.again()?,
            pages: Vec::new(*self.pages.allocator()),
            len: self.len,
        })
    }

    // Puts the pages that were written, if any were, into a table with all others. On `Memory` the list is as before.
    fn settle(&mut self, base: &[T], steps: &mut Steps) -> Result<(), Memory>
        requires { IsOver base.now self.old }
        ensures over { IsOver base.now self.new }
        ensures none { OnOk result (self.new.pages.items ≡ []) }
        ensures len { self.new.len ≡ self.old.len }
        ensures kept { seen base.now self.new ≡ seen base.now self.old }
        ensures tics { steps.new.tics ≡ steps.old.tics }
        ensures least { steps.old.pages ≤ steps.new.pages }
        ensures most { steps.new.pages ≤ steps.old.pages + 2 * page_count (length (seen base.now self.old)) }
    {
        if self.pages.len() == 0 {
            return Ok(());
        }
        let alloc = *self.pages.allocator();
        let table = share_all(base, &self.settled, &mut self.pages, steps)?;
        self.settled = Settled::of(alloc, table)?;
        self.pages = Vec::new(alloc);
        Ok(())
    }

    /// All items, each copied by one step.
    pub fn copied(&self, base: &[T], steps: &mut Steps) -> Result<Vec<T>, Memory>
        requires { IsOver base.now self.now }
        ensures items { IfOk result (λ items. items.items ≡ seen base.now self.now) }
        ensures tics { steps.new.tics ≡ steps.old.tics }
        ensures least { steps.old.pages ≤ steps.new.pages }
        ensures most { steps.new.pages ≤ steps.old.pages + length (seen base.now self.now) }
    {
        let mut items = Vec::with_capacity(*self.pages.allocator(), self.len)?;
        copy_all_onto(
            base,
            &self.settled,
            &self.pages,
            self.len,
            &mut items,
            steps,
        )?;
        Ok(items)
    }
}

// The item at a place of a store.
fn item_in<T: Copy>(base: &[T], settled: &Settled<T>, pages: &[Page<T>], len: usize, i: usize) -> T
    requires settled { AreSettled base.now settled.now }
    requires store { IsStore (under base.now settled.now) pages.now len }
    requires there { i < length (seen_in (under base.now settled.now) pages.now len) }
    ensures { slice_get (seen_in (under base.now settled.now) pages.now len) i ≡ Some result }
{
    if pages.len() == 0 {
        return settled.item(base, i / PAGE_LEN, i % PAGE_LEN);
    }
    item_at(base, settled, pages, i)
}

// Writes an item at a place of a store.
fn write<T: Copy>(
    base: &[T],
    settled: &Settled<T>,
    pages: &mut Vec<Page<T>>,
    len: usize,
    i: usize,
    item: T,
    steps: &mut Steps,
) -> Result<(), Memory>
    requires settled { AreSettled base.now settled.now }
    requires store { IsStore (under base.now settled.now) pages.old.items len }
    requires there { i < length (seen_in (under base.now settled.now) pages.old.items len) }
    ensures store { IsStore (under base.now settled.now) pages.new.items len }
    ensures ok { OnOk result (seen_in (under base.now settled.now) pages.new.items len ≡ slice_set (seen_in (under base.now settled.now) pages.old.items len) i item) }
    ensures err { OnErr result (seen_in (under base.now settled.now) pages.new.items len ≡ seen_in (under base.now settled.now) pages.old.items len) }
    ensures tics { steps.new.tics ≡ steps.old.tics }
    ensures least { steps.old.pages ≤ steps.new.pages }
    ensures most { steps.new.pages ≤ steps.old.pages + 34 }
{
    lay_out(base, settled, pages, len)?;
    set_item(base, settled, pages, i, item, steps)?;
    Ok(())
}

// Appends an item to a store.
fn append<T: Copy>(
    base: &[T],
    settled: &Settled<T>,
    pages: &mut Vec<Page<T>>,
    len: usize,
    item: T,
    steps: &mut Steps,
) -> Result<(), Memory>
    requires settled { AreSettled base.now settled.now }
    requires store { IsStore (under base.now settled.now) pages.old.items len }
    ensures store { OnOk result (IsStore (under base.now settled.now) pages.new.items (len + 1)) }
    ensures ok { OnOk result (seen_in (under base.now settled.now) pages.new.items (len + 1) ≡ seen_in (under base.now settled.now) pages.old.items len ++ item ∷ []) }
    ensures same { OnErr result (IsStore (under base.now settled.now) pages.new.items len) }
    ensures err { OnErr result (seen_in (under base.now settled.now) pages.new.items len ≡ seen_in (under base.now settled.now) pages.old.items len) }
    ensures tics { steps.new.tics ≡ steps.old.tics }
    ensures least { steps.old.pages ≤ steps.new.pages }
    ensures most { steps.new.pages ≤ steps.old.pages + 34 }
{
    lay_out(base, settled, pages, len)?;
    push_item(base, settled, pages, len, item, steps)?;
    Ok(())
}

// Gives a store that has no pages yet its pages over the base. On `Memory` they are as before.
fn lay_out<T: Copy>(
    base: &[T],
    settled: &Settled<T>,
    pages: &mut Vec<Page<T>>,
    len: usize,
) -> Result<(), Memory>
    requires { IsStore (under base.now settled.now) pages.old.items len }
    ensures paged { OnOk result (ArePages (pieces_of (under base.now settled.now) pages.new.items)) }
    ensures ok { OnOk result (joined (pieces_of (under base.now settled.now) pages.new.items) ≡ seen_in (under base.now settled.now) pages.old.items len) }
    ensures err { OnErr result (pages.new.items ≡ pages.old.items) }
{
    if pages.len() > 0 || len == 0 {
        return Ok(());
    }
    *pages = pages_over(*pages.allocator(), base, settled, len)?;
    Ok(())
}

// The pages over what a list of so many items was at its last fork.
fn pages_over<T: Copy>(
    alloc: Global,
    base: &[T],
    settled: &Settled<T>,
    len: usize,
) -> Result<Vec<Page<T>>, Memory>
    requires { length (under base.now settled.now) ≡ len }
    ensures { IfOk result (λ pages. ArePages (pieces_of (under base.now settled.now) pages.items) × (joined (pieces_of (under base.now settled.now) pages.items) ≡ under base.now settled.now)) }
{
    // They are there for the contract alone.
    let _base = base;
    let _settled = settled;
    let count = len.div_ceil(PAGE_LEN);
    let mut pages = Vec::with_capacity(alloc, count)?;
    for k in 0..count {
        pages.push(Page::Under(PAGE_LEN * k))?;
    }
    Ok(pages)
}

// The item at a place of the pages.
fn item_at<T: Copy>(base: &[T], settled: &Settled<T>, pages: &[Page<T>], i: usize) -> T
    requires settled { AreSettled base.now settled.now }
    requires paged { ArePages (pieces_of (under base.now settled.now) pages.now) }
    requires there { i < length (joined (pieces_of (under base.now settled.now) pages.now)) }
    ensures { slice_get (joined (pieces_of (under base.now settled.now) pages.now)) i ≡ Some result }
{
    pages[i / PAGE_LEN].item(base, settled, i % PAGE_LEN)
}

// Writes an item at a place of the pages.
fn set_item<T: Copy>(
    base: &[T],
    settled: &Settled<T>,
    pages: &mut Vec<Page<T>>,
    i: usize,
    item: T,
    steps: &mut Steps,
) -> Result<(), Memory>
    requires settled { AreSettled base.now settled.now }
    requires paged { ArePages (pieces_of (under base.now settled.now) pages.old.items) }
    requires there { i < length (joined (pieces_of (under base.now settled.now) pages.old.items)) }
    ensures paged { ArePages (pieces_of (under base.now settled.now) pages.new.items) }
    ensures ok { OnOk result (joined (pieces_of (under base.now settled.now) pages.new.items) ≡ slice_set (joined (pieces_of (under base.now settled.now) pages.old.items)) i item) }
    ensures err { OnErr result (joined (pieces_of (under base.now settled.now) pages.new.items) ≡ joined (pieces_of (under base.now settled.now) pages.old.items)) }
    ensures tics { steps.new.tics ≡ steps.old.tics }
    ensures least { steps.old.pages ≤ steps.new.pages }
    ensures most { steps.new.pages ≤ steps.old.pages + 34 }
{
    let alloc = *pages.allocator();
    pages[i / PAGE_LEN].set(alloc, base, settled, i % PAGE_LEN, item, steps)?;
    Ok(())
}

// Appends an item to the pages, which have `len` items: to the last page where it has room, else to a new one.
fn push_item<T: Copy>(
    base: &[T],
    settled: &Settled<T>,
    pages: &mut Vec<Page<T>>,
    len: usize,
    item: T,
    steps: &mut Steps,
) -> Result<(), Memory>
    requires settled { AreSettled base.now settled.now }
    requires laid { IsLaidOut (pieces_of (under base.now settled.now) pages.old.items) len }
    ensures ok { OnOk result (ArePages (pieces_of (under base.now settled.now) pages.new.items) × (joined (pieces_of (under base.now settled.now) pages.new.items) ≡ joined (pieces_of (under base.now settled.now) pages.old.items) ++ item ∷ [])) }
    ensures err { OnErr result (pieces_of (under base.now settled.now) pages.new.items ≡ pieces_of (under base.now settled.now) pages.old.items) }
    ensures tics { steps.new.tics ≡ steps.old.tics }
    ensures least { steps.old.pages ≤ steps.new.pages }
    ensures most { steps.new.pages ≤ steps.old.pages + 34 }
{
    let alloc = *pages.allocator();
    if len % PAGE_LEN == 0 {
        let page = Page::of(alloc, item, steps)?;
        pages.push(page)?;
        return Ok(());
    }
    pages[len / PAGE_LEN].push(alloc, base, settled, item, steps)?;
    Ok(())
}

// Names each page for a table.
fn share_all<T: Copy>(
    base: &[T],
    settled: &Settled<T>,
    pages: &mut Vec<Page<T>>,
    steps: &mut Steps,
) -> Result<Vec<Named<T>>, Memory>
    requires { AreSettled base.now settled.now }
    ensures same { IfOk result (λ named. named_pieces base.now named.items ≡ pieces_of (under base.now settled.now) pages.old.items) }
    ensures kept { pieces_of (under base.now settled.now) pages.new.items ≡ pieces_of (under base.now settled.now) pages.old.items }
    ensures tics { steps.new.tics ≡ steps.old.tics }
    ensures least { steps.old.pages ≤ steps.new.pages }
    ensures most { steps.new.pages ≤ steps.old.pages + 2 * length pages.old.items }
{
    let alloc = *pages.allocator();
    let mut named = Vec::with_capacity(alloc, pages.len())?;
    for k in 0..pages.len() {
        named.push(pages[k].share(alloc, base, settled, steps)?)?;
    }
    Ok(named)
}

// Copies the items of a store behind those of a list, each by one step.
fn copy_all_onto<T: Copy>(
    base: &[T],
    settled: &Settled<T>,
    pages: &[Page<T>],
    len: usize,
    copy: &mut Vec<T>,
    steps: &mut Steps,
) -> Result<(), Memory>
    requires settled { AreSettled base.now settled.now }
    requires store { IsStore (under base.now settled.now) pages.now len }
    ensures ok { OnOk result (copy.new.items ≡ copy.old.items ++ seen_in (under base.now settled.now) pages.now len) }
    ensures tics { steps.new.tics ≡ steps.old.tics }
    ensures least { steps.old.pages ≤ steps.new.pages }
    ensures most { steps.new.pages ≤ steps.old.pages + length (seen_in (under base.now settled.now) pages.now len) }
{
    if pages.len() > 0 || len == 0 {
        return copy_pages_onto(base, settled, pages, copy, steps);
    }
    settled.copy_onto(base, copy, steps)
}

// Copies the items of all pages behind those of a list, each by one step.
fn copy_pages_onto<T: Copy>(
    base: &[T],
    settled: &Settled<T>,
    pages: &[Page<T>],
    copy: &mut Vec<T>,
    steps: &mut Steps,
) -> Result<(), Memory>
    requires { AreSettled base.now settled.now }
    ensures ok { OnOk result (copy.new.items ≡ copy.old.items ++ joined (pieces_of (under base.now settled.now) pages.now)) }
    ensures tics { steps.new.tics ≡ steps.old.tics }
    ensures least { steps.old.pages ≤ steps.new.pages }
    ensures most { steps.new.pages ≤ steps.old.pages + length (joined (pieces_of (under base.now settled.now) pages.now)) }
{
    for page in pages {
        copy_onto(copy, page.items(base, settled), steps)?;
    }
    Ok(())
}
