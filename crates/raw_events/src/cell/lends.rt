//! What a cell lends for writing.
ghost use Rattle.std.specs.Prelude.{◌≡◌};
ghost use Rattle.std.specs.Borrow.{Lends, sem};
ghost use Rattle.raw_events.specs.contracts.cell.EventCell.{the_row};

use super::EventCell;

impl<T> EventCell<T> {
    /// The value, to be changed in its place.
    pub fn value_mut(&mut self) -> &mut T
        ensures* writes_back { sem 𝓛 (Lends (the_row T.row) T.row self.entry result
            (λ value. value)) }
        ensures value { result.now ≡ self.old }
    {
        self.line.last_mut()
    }
}
