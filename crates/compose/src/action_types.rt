//! Whether all entries of an action in a composition have the same types, and the first component with which they don't.

mod kinds;
pub mod laws;
mod search;
mod seen;
mod standing;

pub use search::first_difference;
