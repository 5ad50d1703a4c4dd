// What a list was at its last fork.
ghost use Rattle.std.specs.Prelude.{◌≡◌, ◌+◌, ◌*◌, ◌/◌, ◌<◌, ◌≤◌, ◌++◌, List, Some, length, slice_get, take, drop, OnOk, IfOk};
ghost use Rattle.page_store.specs.Pages.{named_items, named_pieces, joined, ArePages};
ghost use Rattle.page_store.specs.Under.{under, AreSettled};

use crate::part::{PAGE_LEN, copy_onto, part_of};
use doom_edge::{Memory, Steps};
use std::alloc::Global;
use std::sync::Arc;

/// A page as a fork found it. It is never changed.
#[derive(Drop)]
pub enum Named<T> {
    /// The items of the base from this place on.
    Based(usize),
    Shared(Arc<Vec<T>>),
}

impl<T: Copy> Named<T> {
    /// The item at a place.
    pub fn item(&self, base: &[T], at: usize) -> T
        requires { at < length (named_items base.now self.now) }
        ensures { slice_get (named_items base.now self.now) at ≡ Some result }
    {
        match self {
            Named::Based(start) => {
                let rest = &base[*start..];
                rest[at]
            }
            Named::Shared(items) => items.as_slice()[at],
        }
    }

    /// Its items.
    pub fn items<'a>(&'a self, base: &'a [T]) -> &'a [T]
        ensures { result.now ≡ named_items base.now self.now }
    {
        match self {
            Named::Based(start) => part_of(base, *start),
            Named::Shared(items) => items.as_slice(),
        }
    }

    /// A second name of the page.
    pub fn named(&self) -> Result<Named<T>, Memory>
        ensures { (base : List T) → IfOk result (λ named. named_items base named ≡ named_items base self.now) }
    {
        match self {
            Named::Based(start) => Ok(Named::Based(*start)),
            Named::Shared(items) => Ok(Named::Shared(Arc::try_clone(items)?)),
        }
    }
}

/// All pages of a list as its last fork found them, in one table that the list and its forks share. Before the first fork
/// of a list that was written there is none, and the items are those of the base.
#[derive(Drop)]
pub struct Settled<T> {
    // None or one.
    tables: Vec<Arc<Vec<Named<T>>>>,
}

impl<T: Copy> Settled<T> {
    /// The items of the base.
    pub fn none(alloc: Global) -> Settled<T>
        ensures under { (base : List T) → under base result ≡ base }
        ensures settled { (base : List T) → AreSettled base result }
    {
        Settled {
            tables: Vec::new(alloc),
        }
    }

    /// The pages of a table.
    pub fn of(alloc: Global, table: Vec<Named<T>>) -> Result<Settled<T>, Memory>
        ensures under { (base : List T) → IfOk result (λ settled. under base settled ≡ joined (named_pieces base table.items)) }
        ensures settled { (base : List T) → ArePages (named_pieces base table.items) → IfOk result (AreSettled base) }
    {
        let mut tables = Vec::with_capacity(alloc, 1)?;
        tables.push(Arc::new(alloc, table)?)?;
        Ok(Settled { tables })
    }

    /// The same pages, named once more as a whole.
    pub fn again(&self) -> Result<Settled<T>, Memory>
        ensures under { (base : List T) → IfOk result (λ settled. under base settled ≡ under base self.now) }
        ensures settled { (base : List T) → AreSettled base self.now → IfOk result (AreSettled base) }
    {
        let alloc = *self.tables.allocator();
        if self.tables.len() == 0 {
            return Ok(Settled {
                tables: Vec::new(alloc),
            });
        }
        let mut tables = Vec::with_capacity(alloc, 1)?;
        tables.push(Arc::try_clone(&self.tables[0])?)?;
        Ok(Settled { tables })
    }

    /// The item at a place of page `k`.
    pub fn item(&self, base: &[T], k: usize, at: usize) -> T
        requires settled { AreSettled base.now self.now }
        requires within { at < 32 }
        requires there { 32 * k + at < length (under base.now self.now) }
        ensures { slice_get (under base.now self.now) (32 * k + at) ≡ Some result }
    {
        if self.tables.len() == 0 {
            return item_of(base, k, at);
        }
        item_at(base, self.table(), k, at)
    }

    // The table, where there is one.
    fn table(&self) -> &[Named<T>]
        requires { 0 < length self.now.tables.items }
        ensures under { (base : List T) → under base self.now ≡ joined (named_pieces base result.now) }
        ensures settled { (base : List T) → AreSettled base self.now → ArePages (named_pieces base result.now) }
    {
        self.tables[0].as_slice()
    }

    /// The items of the page in which a place is.
    pub fn page<'a>(&'a self, base: &'a [T], i: usize) -> &'a [T]
        requires { AreSettled base.now self.now }
        ensures { result.now ≡ take 32 (drop (32 * (i / 32)) (under base.now self.now)) }
    {
        if self.tables.len() == 0 {
            return part_of(base, PAGE_LEN * (i / PAGE_LEN));
        }
        page_at(base, self.table(), i / PAGE_LEN)
    }

    /// A name of the page in which a place is.
    pub fn named(&self, base: &[T], i: usize) -> Result<Named<T>, Memory>
        requires { AreSettled base.now self.now }
        ensures { IfOk result (λ named. named_items base.now named ≡ take 32 (drop (32 * (i / 32)) (under base.now self.now))) }
    {
        if self.tables.len() == 0 {
            return Ok(Named::Based(PAGE_LEN * (i / PAGE_LEN)));
        }
        name_at(base, self.table(), i / PAGE_LEN)
    }

    /// Copies all items behind those of a list, each by one step.
    pub fn copy_onto(&self, base: &[T], copy: &mut Vec<T>, steps: &mut Steps) -> Result<(), Memory>
        ensures ok { OnOk result (copy.new.items ≡ copy.old.items ++ under base.now self.now) }
        ensures tics { steps.new.tics ≡ steps.old.tics }
        ensures least { steps.old.pages ≤ steps.new.pages }
        ensures most { steps.new.pages ≤ steps.old.pages + length (under base.now self.now) }
    {
        if self.tables.len() == 0 {
            return copy_onto(copy, base, steps);
        }
        copy_table_onto(base, self.table(), copy, steps)
    }
}

// The item at a place of a page of the base.
fn item_of<T: Copy>(base: &[T], k: usize, at: usize) -> T
    requires { 32 * k + at < length base.now }
    ensures { slice_get base.now (32 * k + at) ≡ Some result }
{
    base[PAGE_LEN * k + at]
}

// The item at a place of a page of a table.
fn item_at<T: Copy>(base: &[T], table: &[Named<T>], k: usize, at: usize) -> T
    requires paged { ArePages (named_pieces base.now table.now) }
    requires within { at < 32 }
    requires there { 32 * k + at < length (joined (named_pieces base.now table.now)) }
    ensures { slice_get (joined (named_pieces base.now table.now)) (32 * k + at) ≡ Some result }
{
    table[k].item(base, at)
}

// The items of a page of a table. Past the last page there are none.
fn page_at<'a, T: Copy>(base: &'a [T], table: &'a [Named<T>], k: usize) -> &'a [T]
    requires { ArePages (named_pieces base.now table.now) }
    ensures { result.now ≡ take 32 (drop (32 * k) (joined (named_pieces base.now table.now))) }
{
    if k >= table.len() {
        return &base[..0];
    }
    table[k].items(base)
}

// A name of a page of a table.
fn name_at<T: Copy>(base: &[T], table: &[Named<T>], k: usize) -> Result<Named<T>, Memory>
    requires { ArePages (named_pieces base.now table.now) }
    ensures { IfOk result (λ named. named_items base.now named ≡ take 32 (drop (32 * k) (joined (named_pieces base.now table.now)))) }
{
    if k >= table.len() {
        return Ok(Named::Based(base.len()));
    }
    table[k].named()
}

// Copies the items of all pages of a table behind those of a list, each by one step.
fn copy_table_onto<T: Copy>(
    base: &[T],
    table: &[Named<T>],
    copy: &mut Vec<T>,
    steps: &mut Steps,
) -> Result<(), Memory>
    ensures ok { OnOk result (copy.new.items ≡ copy.old.items ++ joined (named_pieces base.now table.now)) }
    ensures tics { steps.new.tics ≡ steps.old.tics }
    ensures least { steps.old.pages ≤ steps.new.pages }
    ensures most { steps.new.pages ≤ steps.old.pages + length (joined (named_pieces base.now table.now)) }
{
    for page in table {
        copy_onto(copy, page.items(base), steps)?;
    }
    Ok(())
}
