//! Lists of turns in the order of their keys.
#![tactic(auto)]

pub mod merging;

pub use merging::{merge, pass_to_end};
