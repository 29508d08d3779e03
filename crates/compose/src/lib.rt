//! Composition: a checked source becomes a plan, if its components are compatible; and the composition of a source text.
//!
//! - `composing`, `fault`, `hiding` and `laws`: the faults of a composition, the least of them, and the plan where there is none.
//! - `compatibility`: whether components are compatible, and whether two entries of signatures stand for an action together.
//! - `action_types`: whether all entries of an action have the same types.
//! - `instances`: the parts of a plan that a checked source means.
//! - `sound_laws`: what holds of the meaning of every source without faults.
//! - `source`, `source_error` and `source_laws`: from the bytes of a source to a plan.
#![tactic(auto)]

mod action_types;
pub mod compatibility;
pub mod composing;
pub mod fault;
mod hiding;
mod instances;
pub mod laws;
mod sound_laws;
pub mod source;
pub mod source_error;
pub mod source_laws;

pub use composing::compose;
pub use fault::ComposeError;
pub use plans::Plan;
pub use source::compose_source;
pub use source_error::SourceError;
