//! A group of all components. Nothing comes to it from outside, so each of its turns is sure: it is taken in the order of keys, without marks, and is
//! never taken back.
#![tactic(auto)]

pub mod batch;
pub mod drawn;
pub mod handover;
pub mod lone;
mod taking;

pub use batch::{Batch, Slot};
pub use drawn::{Drawn, draw};
pub use handover::Handover;
pub use lone::{LoneGroup, Rest, Took};
