//! Values, terms and effects of automata, and actions. What terms and effects mean stands in `specs/Meaning.antt`.
//!
//! All names are resolved: formals, parameters, loop variables and state variables are known by their numbers, members
//! of enumerations and names of actions too. Nothing here judges types: a term that isn't well typed has some value.
#![tactic(auto)]

mod action;
pub mod cells;
mod effect;
pub mod laws;
pub mod mentions;
pub mod reading;
mod refusal;
mod same;
mod scalar;
mod state;
mod term;
pub mod value;

pub use action::Action;
pub use cells::{Cells, Env};
pub use effect::{Effect, Last, Part};
pub use refusal::{NoMemory, Refusal};
pub use scalar::{Listed, Scalar, Shape};
pub use state::State;
pub use term::{Link, Operand, Operator, Term};
pub use value::Value;
