//! Sources of composed I/O automata, laid out as people write them: the same tokens and the same comments, with new white
//! space between them.
#![tactic(auto)]

mod gap;
mod item;
mod joint;
mod layout;
mod outline;
mod reach;
mod reading;
mod settling;
mod writing;

pub use layout::format;
