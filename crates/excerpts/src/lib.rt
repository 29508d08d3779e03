//! Where a place of a text stands, as people count, and what they are told of a refused text: an address, a sentence, the line with
//! carets below the place, and advice.
#![tactic(auto)]

mod excerpt;
mod places;
mod putting;

pub use excerpt::{Mark, Told, explanation};
pub use places::{column_at, line_at, line_of};
