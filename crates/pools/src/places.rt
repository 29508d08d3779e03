//! The pool and its passes.
use crate::rule::{Hand, Numbered, OnePlace};
use crossbeam_queue::RuledArrayQueue;

/// Leases that wait for a worker. Threads share it by `&`, and each of them has a pass of its own.
#[derive(Drop)]
pub struct Pool<L: Numbered<K>, K> {
    pub(crate) queue: RuledArrayQueue<L, Hand<K>, OnePlace<L>>,
}

/// The right to take items from one pool and to give them back. It has no bytes.
#[derive(Drop)]
pub struct Pass<L, K> {
    pub(crate) pass: crossbeam_queue::Pass<L, Hand<K>>,
}
