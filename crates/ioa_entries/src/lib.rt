//! The checks of values that are put in places, of statements, signatures and transitions: their faults, and what they mean without names.
#![tactic(auto)]

mod assignment;
pub mod between;
mod effects;
pub mod entries;
pub mod heads;
pub mod parameters;
pub mod slots;
pub mod statements;
pub mod transitions;
pub mod values;

pub use entries::check_entries;
pub use slots::Slot;
pub use statements::check_statements;
pub use transitions::{Meant, check_transitions};
pub use values::{Put, check_init};
