//! The enabled actions of a task, and the one that a turn takes.
//!
//! A condition that mentions a parameter is walked through: the parameters get their values one after another, and what is
//! decided by then is asked before the next one is tried.
#![tactic(auto)]

pub mod asking;
pub mod choose;
pub mod found;
pub mod known;
mod lone;
mod making;
mod node;
mod range;
mod several;
pub mod spans;
pub mod task;
mod tuples;
mod walk;

pub use task::{Known, Task};
