//! The kinds of things, and how one is found by its number.
ghost use Rattle.std.specs.Prelude.{◌≡◌, ◌≢◌, IfOk, IfSome, IfNone, All, Contains, IsPermutation};
ghost use Rattle.std.specs.List.Sorted.{IsNonDecreasingBy};

use std::alloc::{AllocError, Global};

/// A kind of thing.
#[derive(Clone, Copy, Debug, PartialEq, Eq)]
pub struct Kind {
    /// The number by which a map names it.
    pub number: u16,
    /// 1: special. 2: solid. 4: shootable. 8: hangs from the ceiling. 16: is not spawned without monsters.
    /// 32: is not linked in blocks.
    pub flags: u16,
    /// Half its width, in fixed point.
    pub radius: i32,
    /// In fixed point.
    pub height: i32,
    /// The length of its first state in tics. Above 0 it ticks.
    pub first: i32,
}

/// The kinds in the order of their numbers.
pub fn ordered(alloc: Global, kinds: &[Kind]) -> Result<Vec<Kind>, AllocError>
    ensures same { IfOk result (λ ordered. IsPermutation kinds.now ordered.items) }
    ensures rising { IfOk result (λ ordered. IsNonDecreasingBy (λ kind. kind.number) ordered.items) }
{
    let mut by_number = Vec::from_slice(alloc, kinds)?;
    by_number.sort_by_key(|kind| kind.number)?;
    Ok(by_number)
}

/// The kind with a number, among kinds in the order of their numbers.
pub fn search(ordered: &[Kind], number: u16) -> Option<Kind>
    requires { IsNonDecreasingBy (λ kind. kind.number) ordered.now }
    ensures found { IfSome result (λ kind. Contains ordered.now kind) }
    ensures number { IfSome result (λ kind. kind.number ≡ number) }
    ensures absent { IfNone result (All (λ kind. kind.number ≢ number) ordered.now) }
{
    match ordered.binary_search_by_key(&number, |kind| kind.number) {
        Ok(i) => Some(ordered[i]),
        Err(_) => None,
    }
}
