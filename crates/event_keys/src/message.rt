//! Messages and antimessages.

use crate::key::Key;
use terms::Action;

/// A message: the action `action`, which the turn of the key `key` took as its output, on its way to the component
/// `to` (its number, from 0), which has it as an input. It is compared by key, then action, then receiver.
#[derive(Clone, PartialEq, Eq, PartialOrd, Ord, Drop)]
pub struct Message {
    pub key: Key,
    pub action: Action,
    pub to: u16,
}

/// What a message does to its equal of the other sign: the two annihilate (Jefferson 1985).
#[derive(Clone, Copy, PartialEq, Eq, PartialOrd, Ord)]
pub enum Sign {
    /// A message as it was sent.
    Plus,
    /// The antimessage that takes it back.
    Minus,
}

/// A message or an antimessage. It is compared by the message, then plus before minus.
#[derive(Clone, PartialEq, Eq, PartialOrd, Ord, Drop)]
pub struct Signed {
    pub message: Message,
    pub sign: Sign,
}
