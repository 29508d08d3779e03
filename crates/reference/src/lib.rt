//! A composition run by one thread, one turn after another, and runs checked against it.
#![tactic(auto)]

pub mod agenda;
pub mod checking;
mod clocks;
mod frontier;
mod line;
mod memos;
pub mod scheduling;
pub mod simulator;
pub mod standing;
mod taking;

pub use agenda::{Agenda, Due};
pub use checking::{Verdict, check_run};
pub use scheduling::schedule;
pub use simulator::Reference;
pub use standing::Standing;
