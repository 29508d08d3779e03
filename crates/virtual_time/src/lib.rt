//! Time Warp over an abstract machine: what it is, and what is true of it.
//!
//! The crate has no code. Its `specs/` define the machine, the plain simulator, the worlds of the core with their five
//! steps, and the exchange; each public function has an empty body, and its contract is a law of these definitions.
#![tactic(auto)]

pub mod examples;
pub mod exchanges;
pub mod grouped;
pub mod merging;
pub mod reference;
pub mod rolling_back;
pub mod singles;
pub mod worlds;
