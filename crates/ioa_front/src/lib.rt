//! Sources of composed I/O automata: bytes read as trees, and trees printed as text.
#![tactic(auto)]

mod fault;
mod readable;
mod reading;
pub mod texts;

pub use fault::ReadError;
pub use readable::{Source, print};
pub use reading::{MOST_BYTES, read};
