//! A state with marks, whose writes can be undone.
#![tactic(auto)]

mod change;
mod first;
pub mod laws;
mod store;

pub use store::Store;
