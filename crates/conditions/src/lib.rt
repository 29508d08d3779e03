//! Preconditions solved: branches of which one has to hold, and for each the tests that are asked
//! as soon as their parameters have values.
#![tactic(auto)]

mod apart;
mod bounds;
mod branches;
mod condition;
mod copy;
mod mentions;
mod reach;
mod stages;

pub use condition::{Branch, Condition, Stage, Test};
pub use reach::reach_of;
