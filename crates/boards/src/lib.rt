//! Boards: one item that several threads take in turn and give back, as a lock is. It has sections, each of one thread, and who has the item
//! changes no other thread's. So each thread finds its own sections as it left them.
#![tactic(auto)]

pub mod board;
pub mod parts;
pub mod rule;

pub use parts::{Board, Made, Pass};
pub use rule::{Section, Sectioned, Sight};
