//! What may happen in a world.

use crate::key::Bound;
use crate::message::{Message, Signed};

/// A step of a world. A component is told by its number, from 0. (Jefferson 1985, local and global control.)
#[derive(Clone, PartialEq, Eq, Drop)]
pub enum Step {
    /// The component does its next entry.
    Process(u16),
    /// A message or an antimessage that is in flight comes to its receiver.
    Deliver(Signed),
    /// The message and its antimessage, both in flight, annihilate.
    Meet(Message),
    /// The component takes its last done entry back.
    RollBack(u16),
    /// All turns below the bound are committed.
    Commit(Bound),
}
