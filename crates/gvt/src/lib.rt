//! Global virtual time: the least of bounds that are taken one after another, and the count of committed turns that threads publish.
#![tactic(auto)]

pub mod least;
pub mod published;
mod rule;
pub mod tournament;
pub mod word;

pub use event_keys::lesser;
pub use least::least_bound;
pub use word::{Published, Seat};
