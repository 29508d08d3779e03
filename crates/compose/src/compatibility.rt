//! Whether components are compatible, and the first of them with which they aren't; and whether two entries of signatures stand for an action
//! together, told from their parameters without listing any action.

mod arguments;
mod entries;
pub mod laws;
pub mod rule;
mod search;
mod seen;
mod span;
mod standing;

pub use arguments::overlap;
pub use entries::is_shared;
pub use rule::Rule;
pub use search::first_break;
pub use span::{Span, meet, span_of};
