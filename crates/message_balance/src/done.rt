//! What a component has done, as it keeps it.
ghost use Rattle.message_balance.specs.Same.{same_done};
ghost use Rattle.message_balance.specs.SameLaws.{same_done_per};

use event_keys::{Signed, Turned};
use raw_events::{EventCell, EventList};

/// A done entry: a turn with the antimessages of all that it sent, or the message that was taken as an input.
#[derive(Drop)]
pub enum Done {
    Turn(EventCell<Turned>, EventList<Signed>),
    Input(EventCell<Signed>),
}

/// Done entries are equal where they are the same turn with the same outcome, or the same input. The antimessages that lie
/// ready follow from the turn.
impl PartialEq for Done {
    ghost eq = { same_done };

    ghost laws = { same_done_per };

    fn eq(&self, other: &Done) -> bool {
        match (self, other) {
            (Done::Turn(turned, _), Done::Turn(turn, _)) => turned.value() == turn.value(),
            (Done::Input(signed), Done::Input(input)) => signed.value() == input.value(),
            _ => false,
        }
    }
}
