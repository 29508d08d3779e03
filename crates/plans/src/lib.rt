//! Compositions of input/output automata: signatures, start states, joint steps and the outcomes of turns.
#![tactic(auto)]

pub mod laws;
pub mod memo;
pub mod plan;
pub mod resting;

pub use memo::Memo;
pub use plan::{Ask, Plan};
pub use resting::Resting;
