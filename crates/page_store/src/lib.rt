//! A list in pages, which two owners can share until one of them writes.
#![tactic(auto)]

mod page;
mod pages;
mod part;
mod settled;
mod store;

pub use pages::Pages;
pub use store::Store;
