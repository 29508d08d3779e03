//! The core on one thread: worlds, driven by steps.
#![tactic(auto)]

mod commit;
pub mod equality;
pub mod examples;
mod flight;
mod known;
pub mod laws;
mod same;
pub mod step;
pub mod world;

pub use event_keys::Step;
pub use step::{Reply, StepRefused};
pub use virtual_time::rolling_back::inverse_law;
pub use world::World;
