//! What workers share, and what each of them holds away from it.
#![tactic(auto)]

pub mod chunk;
pub mod exchange;
mod holding;
pub mod judging;
pub mod laws;
pub mod lease;
mod meeting;
mod notes;
pub mod parcel;
mod queue;
mod same;
mod start;
pub mod stub;
pub mod tally;
pub mod window;

pub use chunk::Chunk;
pub use exchange::Exchange;
pub use judging::MeetRefused;
pub use lease::{Lease, Ran, Stop};
pub use parcel::Parcel;
pub use stub::Stub;
pub use tally::{Effort, Tally};
pub use window::Window;
