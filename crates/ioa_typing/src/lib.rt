//! What types mean, names in scope, and the checks of types and terms: their faults, and what they mean without names.
#![tactic(auto)]

pub mod boxed;
pub mod fault;
pub mod kind;
pub mod listing;
pub mod meaning;
pub mod names;
mod operators;
pub mod progress;
mod sequences;
pub mod shape;
pub mod term;
pub mod typed;
pub mod types;

pub use fault::{Fault, FaultKind};
pub use kind::Kind;
pub use meaning::Meaning;
pub use names::Names;
pub use progress::Progress;
pub use shape::Shape;
pub use term::check_term;
pub use typed::Typed;
pub use types::check_type;
