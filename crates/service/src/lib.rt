//! The engine of `run`, over bytes, and what the program `warp` answers to its words, over files of any kind; all write to writers of any kind.
#![tactic(auto)]

mod asked;
pub mod laws;
pub mod running;
pub mod serve;
