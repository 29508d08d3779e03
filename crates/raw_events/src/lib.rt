//! Events that move between lists without taking memory.
//!
//! An [`EventCell`] is one node of its own block on the heap. An [`EventList`] links such nodes both ways by raw pointers,
//! and has a cursor between two of them. To put a cell into a list, to take one out and to append a list to another only
//! changes links: [`EventCell::new`] is the one call that takes memory, and so the one that can be refused.
#![tactic(auto)]

pub(crate) mod cell;
pub(crate) mod line;
pub(crate) mod list;
pub(crate) mod same;
pub(crate) mod slot;
pub(crate) mod sorted;
pub(crate) mod strand;

pub use cell::{EventCell, Refused};
pub use list::EventList;
pub use list::iter::Iter;
