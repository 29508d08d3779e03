//! Messages and antimessages in flight.
//!
//! A [`Bag`] holds the signed messages that are on their way from one component, or to one. Those of one message that
//! have opposite signs annihilate when they meet (Jefferson 1985), whichever of them came first.
#![tactic(auto)]

pub mod bag;
pub mod laws;
pub(crate) mod merge;
pub(crate) mod walks;

pub use bag::Bag;
