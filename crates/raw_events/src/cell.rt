//! One owned node.
ghost use Rattle.std.specs.Prelude.{◌≡◌, [], ◌∷◌, length, MatchResult};
ghost use Rattle.raw_events.specs.Cells.{the_only};

use crate::line::Line;
use std::alloc::{AllocError, Global};
use std::marker::Model;
use std_alloc::room::Vacant;

pub(crate) mod lends;

/// One owned node on the heap, seen as its value.
pub struct EventCell<T> {
    pub(crate) line: Line<T>,
    ghost single: { length line ≡ 1 },
}

impl<T> Model for EventCell<T> {
    ghost Value = { T };

    ghost view = { λ c. the_only c.line c.single };
}

impl<T: Drop> Drop for EventCell<T> {
    fn drop(self) {
        let EventCell { line } = self;
        drop(line);
    }
}

/// A value for which there was no memory.
#[derive(Debug, PartialEq, Eq, Drop)]
pub struct Refused<T> {
    pub value: T,
}

// So that `EventCell::new(alloc, value)?` answers `AllocError`. The value is dropped.
impl<T: Drop> From<Refused<T>> for AllocError {
    fn from(_refused: Refused<T>) -> AllocError {
        AllocError
    }
}

impl<T> EventCell<T> {
    /// A node that holds `value`. This is the only call of the crate that takes memory.
    ///
    /// # Errors
    ///
    /// Where the allocator refuses the block of the node, which no clause can rule out; the value comes back.
    pub fn new(alloc: Global, value: T) -> Result<EventCell<T>, Refused<T>>
        ensures { MatchResult result (λ cell. cell ≡ value) (λ refused. refused.value ≡ value) }
    {
        match Vacant::take(alloc) {
            Ok(room) => Ok(EventCell {
                line: Line::one(room, value),
            }),
            Err(_) => Err(Refused { value }),
        }
    }

    /// Takes the value out, and frees the node.
    pub fn into_value(self) -> T
        ensures { result ≡ self }
    {
        let EventCell { line } = self;
        let (value, room) = line.take_apart();
        drop(room.free());
        value
    }

    /// The value.
    pub fn value(&self) -> &T
        ensures { result.now ≡ self.now }
    {
        self.line.first()
    }

    pub(crate) fn of_line(line: Line<T>) -> EventCell<T>
        requires { length line ≡ 1 }
        ensures { line ≡ result ∷ [] }
    {
        EventCell { line }
    }

    pub(crate) fn into_line(self) -> Line<T>
        ensures { result ≡ self ∷ [] }
    {
        let EventCell { line } = self;
        line
    }
}
