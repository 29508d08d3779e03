//! Hunting for an action through the schedules of many seeds.
#![tactic(auto)]

mod counting;
mod course;
pub mod engine;
pub mod fault;
mod find;
pub mod looks;
mod searching;
mod seeds;
mod seeking;
mod sharing;
mod wanted;

pub use course::Course;
pub use engine::{count, hunt};
pub use fault::HuntFault;
pub use looks::{Looks, Unwatched};
