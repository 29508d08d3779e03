//! What is written of turns is read back.
#![tactic(auto)]

pub mod laws;
