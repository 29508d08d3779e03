//! One component of a simulation.
#![tactic(auto)]

pub mod component;
pub mod copied;
mod deliver;
mod drop;
mod growth;
pub mod inverse;
mod keys;
pub mod laws;
mod matching;
pub mod refused;
mod room;
mod same;
mod sent;
mod spares;

pub use component::Component;
pub use copied::Copies;
pub use inverse::Trip;
pub use refused::ProcessRefused;
