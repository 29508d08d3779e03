//! Text of turns on its way out, and files of actions and of steps on their way in.
#![tactic(auto)]

pub mod counted;
pub mod fault;
pub mod file;
mod known;
pub mod laws;
mod line;
mod line_fault;
pub mod lines;
mod long;
mod ordered;
mod reading;
pub mod steps;
pub mod texts;
mod words;
mod written;

pub use counted::Counted;
pub use fault::{TraceError, WriteFault};
pub use file::read_trace;
pub use lines::{Lines, append_taken, append_turn, append_turns, write_turns};
pub use long::append_action;
pub use steps::read_steps;
pub use texts::{Form, write_front, write_head, write_text};
