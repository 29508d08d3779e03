//! Whether a component is the one that others know by the messages that it has taken and sent: both sides of a balance have each message equally
//! often. One walk along both tells it where they have them in the same order.
#![tactic(auto)]

pub mod done;
mod message_walk;
mod passing;
pub mod received;
pub mod sent;

pub use done::Done;
pub use received::Received;
pub use sent::Sent;
