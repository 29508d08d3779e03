//! The turns of a setup, and the schedules that their actions are.
#![tactic(auto)]

pub mod keys;
pub mod laws;

pub use keys::fits;
