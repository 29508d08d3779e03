//! Turns on their way from the thread that takes them to the one that writes them.

use event_keys::Key;
use terms::Action;

/// Room for a turn: its key, and the action that it took, if it took one.
#[derive(Drop)]
pub struct Slot {
    pub key: Key,
    pub found: Option<Action>,
}

/// Turns of a lone group: in the order of keys, the next ones after those that were handed over before. They stand in the first slots, so many; what
/// is in the others is left from before, and its memory serves again.
#[derive(Drop)]
pub struct Batch {
    pub slots: Vec<Slot>,
    pub used: usize,
    /// How many turns were handed over before, and with these.
    pub first: u64,
    pub given: u64,
    /// Whether there are no more.
    pub is_last: bool,
}
