//! Input/output automata, their names resolved to numbers, and what compositions of them mean: signatures, joint steps, and the
//! actions that are enabled.
#![tactic(auto)]

pub mod automaton;

pub use automaton::{ActionName, Automaton, Component, Entry, Kind, Param};
