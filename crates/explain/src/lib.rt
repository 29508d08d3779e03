//! What people are told of a refusal: the place as they count, a sentence, the line with carets, and advice; and at length of a number.
#![tactic(auto)]

mod advice;
mod files;
mod marks;
mod outline;
mod source;
mod texts;

pub use files::{FileKind, explain_line};
pub use source::explain_source;
pub use texts::story;
