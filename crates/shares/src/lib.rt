//! Turns that are drawn and dealt to groups of components. Each group gets its own turns, in order, and of each is told for which turns of other groups
//! it has to wait, so that all its turns are sure.
#![tactic(auto)]

pub mod deal;
pub mod dealer;
mod hand;
pub mod share;
mod waiting;

pub use deal::Deal;
pub use dealer::Dealer;
pub use share::{Own, Share, Wait};
