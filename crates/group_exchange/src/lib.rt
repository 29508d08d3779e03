//! What workers share who hold components in groups, and what each of them holds away from it.
#![tactic(auto)]

pub mod chunk;
mod committing;
mod copying;
pub mod division;
pub mod exchange;
pub mod judging;
pub mod lease;
mod matching;
mod meeting;
mod notes;
pub mod parcel;
pub mod passage;
mod queue;
mod start;
pub mod stub;
pub mod tally;

pub use chunk::Chunk;
pub use division::{Parted, partition_of};
pub use exchange::Exchange;
pub use groups::Window;
pub use judging::MeetRefused;
pub use lease::Lease;
pub use parcel::Parcel;
pub use passage::Passage;
pub use stub::Stub;
pub use tally::{Effort, Tally};
