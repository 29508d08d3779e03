//! The parts of a plan that a checked source means: names of actions become numbers, types become parameters, and the formals of components
//! have their values.

pub mod actions;
mod automata;
mod components;
mod entries;
pub mod parts;
pub mod table;

pub use parts::{Parts, parts_of};
