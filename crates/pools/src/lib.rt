//! Pools: what several threads take in turn and give back, so that each thing is in one place. What is taken by one thread at a time, as a lock
//! is, is a pool of one.
#![tactic(auto)]

pub mod places;
pub mod pool;
pub mod rule;

pub use places::{Pass, Pool};
pub use rule::{Hand, Numbered};
