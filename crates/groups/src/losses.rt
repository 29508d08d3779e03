//! What a group took back.
use event_keys::Sign;

/// What a group took back, counted for who measures it. No clause speaks of the counts, and each ends at the greatest `u64`.
#[derive(Clone, Copy, Default, PartialEq, Eq)]
pub struct Losses {
    /// How many entries.
    pub taken_back: u64,
    /// How many times messages or antimessages took something back.
    pub roll_backs: u64,
    /// How many of these times it was a message, which came too late.
    pub stragglers: u64,
}

impl Losses {
    // One came, and so many entries were taken back.
    pub(crate) fn note(&mut self, taken_back: u64, sign: Sign) {
        if taken_back == 0 {
            return;
        }
        self.taken_back = self.taken_back.saturating_add(taken_back);
        self.roll_backs = self.roll_backs.saturating_add(1);
        match sign {
            Sign::Plus => self.stragglers = self.stragglers.saturating_add(1),
            Sign::Minus => {}
        }
    }
}
