//! The checks of automata, of the composed automaton, and of a source as a whole: its least fault, or what it means without names.
#![tactic(auto)]

mod arguments;
pub mod automata;
mod body;
pub mod checked;
mod checking;
pub mod component;
mod components;
pub mod composed;
mod definitions;
pub mod fault;
pub mod formals;
mod hidden;
pub mod locals;
pub mod meant;
pub mod resolved;
mod resolving;
pub mod tasks;
pub mod used;
pub mod variables;

pub use automata::check_automata;
pub use checked::Checked;
pub use checking::check;
pub use component::MeantComponent;
pub use composed::check_composed;
pub use fault::CheckError;
pub use formals::check_formals;
pub use meant::{MeantAutomaton, MeantComposed};
pub use resolved::{Automaton, Component, Resolved, Transition, Variable};
pub use tasks::{check_tasks, task_places};
pub use used::Used;
pub use variables::{Cell, check_variables, declare_variables};
