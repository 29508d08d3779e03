//! What comes to a component of others.

use event_keys::Key;
use terms::Action;

/// The action of another component, at the key of its turn, for a component that takes it as an input.
#[derive(Drop)]
pub struct Input {
    pub to: u16,
    pub key: Key,
    pub action: Action,
}
