//! An index of the patterns of entries: where to look for the receivers of an action.
#![tactic(auto)]

pub mod index;

pub use index::Index;
