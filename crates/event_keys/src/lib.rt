//! Keys of events, bounds of virtual time, messages and what a component has done, each with one total order; and the
//! steps of Time Warp.
//!
//! Every order compares the key first, then the action (none before any), then what is left, and takes no memory. Two
//! values that compare `Equal` are the same value ([`laws`]).
#![tactic(auto)]

pub mod bounds;
pub mod entry;
pub mod key;
pub mod laws;
pub mod message;
pub mod outcome;
pub mod step;

pub use bounds::lesser;
pub use entry::Entry;
pub use key::{Bound, Key};
pub use message::{Message, Sign, Signed};
pub use outcome::{Outcome, Turned};
pub use step::Step;
