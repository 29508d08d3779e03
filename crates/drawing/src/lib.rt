//! Schedules as space-time diagrams, in SVG.
#![tactic(auto)]

mod elements;
pub mod engine;
pub mod fault;
mod pieces;
mod turns;
mod window;

pub use engine::draw;
pub use fault::DrawFault;
pub use window::{MOST_TURNS, Window};
