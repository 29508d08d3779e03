//! Whether a component is the one that others know by what it has taken and what it has sent.
ghost use Rattle.std.specs.Prelude.{◌≡◌, ◌<◌, ◌^◌, ◌↔◌, true};
ghost use Rattle.rollback.specs.Matched.{IsStanding, IsTaken};
ghost use Rattle.rollback.specs.Stepped.{machine_at};

use crate::component::Component;
use antimessage::Bag;
use antimessage::laws::order_law;
use message_balance::{Received, Sent};
use plans::laws::receivers_law;
use task_seed::Turns;

// The number of a component fits its type.
fn is_short(number: u16)
    ensures { number < 2 ^ 16 }
{}

impl<T: Turns> Component<T> {
    /// Whether `taken` are the messages that the component has taken: of each, as many as are done, pending or in `tray`, without
    /// as many as there are antimessages owed or in `tray`. `tray` are signed messages to it that are not delivered yet. What is
    /// sent to others doesn't matter.
    ///
    /// No memory is taken. Where they are, the time grows with the number of all these messages; where they are not, it grows as its square.
    pub fn has_taken(&self, taken: &Bag, tray: &Bag) -> bool
        ensures { (result ≡ true)
            ↔ IsTaken
            (machine_at T.turn_of self.now) self.now.number self.now.history taken.now tray.now }
    {
        order_law(taken);
        order_law(tray);
        let received = Received {
            taken,
            tray,
            done: &self.done,
            pending: &self.pending,
            owed: &self.owed,
        };
        received.is_matched(self.number)
    }

    /// Whether `standing` are the messages that the component has sent and not taken back: of each, to each receiver, as many as the
    /// done turns sent and as there are antimessages in `out`, without as many as there are in `out`. `out` are its signed messages
    /// that have not left yet. What others sent doesn't matter.
    ///
    /// No memory is taken. Where they are, the time grows with the number of all these messages; where they are not, it grows as its square.
    pub fn has_standing(&self, standing: &Bag, out: &Bag) -> bool
        ensures { (result ≡ true)
            ↔ IsStanding
            (machine_at T.turn_of self.now) self.now.number self.now.history standing.now out.now }
    {
        is_short(self.number);
        receivers_law();
        order_law(standing);
        order_law(out);
        let sent = Sent {
            standing,
            out,
            done: &self.done,
        };
        sent.has_same_messages() || sent.is_all_balanced(self.number)
    }
}
