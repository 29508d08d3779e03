//! What steers the workers: how far a group runs ahead, when its worker visits the exchange, when the bound is raised, and how a worker waits. No promise
//! rests on it. And the counts of what workers did.
#![tactic(auto)]

pub mod nap;
pub mod pace;
mod policy;
pub mod raises;
pub mod ready;
pub mod signals;
pub mod stats;
pub mod vigil;

pub use pace::Pace;
pub use raises::Raises;
pub use ready::Ready;
pub use signals::Signals;
pub use stats::Stats;
pub use vigil::Vigil;
