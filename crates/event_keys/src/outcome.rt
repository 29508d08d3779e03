//! Turns that were taken.

use crate::key::Key;
use terms::Action;

/// What came of a turn: none of its task's actions was enabled, or the action that was taken. `Idle` is before every
/// action.
#[derive(Clone, PartialEq, Eq, PartialOrd, Ord, Drop)]
pub enum Outcome {
    Idle,
    Did(Action),
}

/// A component's own turn and what came of it: one line of a schedule. It is compared by key, then outcome.
#[derive(Clone, PartialEq, Eq, PartialOrd, Ord, Drop)]
pub struct Turned {
    pub key: Key,
    pub outcome: Outcome,
}
