//! The trees of sources, how they are spelled, and the grammar; and the rules: which faults a source has, at which tokens, and what it means without
//! its names.
#![tactic(auto)]

pub mod laws;
pub mod meant;
pub mod tree;
