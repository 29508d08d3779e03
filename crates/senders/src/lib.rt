//! Which components of a plan may send to which.
#![tactic(auto)]

mod meeting;
pub mod senders;

pub use senders::Senders;
