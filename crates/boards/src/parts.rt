//! The board and its passes.
use crate::rule::{OneOwner, Sectioned, Sight};
use crossbeam_queue::RuledArrayQueue;

/// An item that waits for a thread. Threads share it by `&`, and each of them has a pass of its own.
#[derive(Drop)]
pub struct Board<L: Sectioned<K, P>, K, P> {
    pub(crate) queue: RuledArrayQueue<L, Sight<K, P>, OneOwner<L>>,
}

/// The right to take the item of one board and to give it back. It has no bytes.
#[derive(Drop)]
pub struct Pass<L, K, P> {
    pub(crate) pass: crossbeam_queue::Pass<L, Sight<K, P>>,
}

/// A new board, and all its passes.
#[derive(Drop)]
pub struct Made<L: Sectioned<K, P>, K, P> {
    pub board: Board<L, K, P>,
    /// A pass for each section, in the order of the sections.
    pub passes: Vec<Pass<L, K, P>>,
    /// A pass that has no section.
    pub reader: Pass<L, K, P>,
}
