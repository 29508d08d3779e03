//! Cases with known answers, read from JSON: what the service has to answer is told, and what the check or the composition of a source has to
//! answer is judged here. And sources that a grammar gives, with a simulator to compare with.
#![tactic(auto)]

mod case;
mod content;
mod crews;
mod grammar;
mod plain;

pub use case::Case;
pub use crews::{CREWS, owned, with_crew};
pub use grammar::Grammar;
pub use plain::plain_text;
