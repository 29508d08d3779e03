//! Groups of components, which workers hold.
#![tactic(auto)]

mod dropping;
pub mod group;
pub mod losses;
mod members;
mod passing;
pub mod running;
mod seating;
mod seats;
mod start;
pub mod window;

pub use group::Group;
pub use losses::Losses;
pub use running::{Ran, Stop};
pub use window::Window;
