//! What an exchange and its leases count for who measures them. No clause speaks of the counts, and no promise rests on them.
use antimessage::Bag;
use event_keys::Sign;
use groups::Losses;

/// What happened at an exchange since its start. Each count ends at the greatest `u64`.
#[derive(Clone, Copy, Default, PartialEq, Eq)]
pub struct Tally {
    /// How many leases met it.
    pub meetings: u64,
    /// How often the bound was raised, or was to be.
    pub commits: u64,
    /// How many chunks were taken.
    pub chunks: u64,
    /// How many messages were sent through it, one for each receiver.
    pub messages: u64,
    /// How many antimessages were.
    pub antimessages: u64,
    /// How many antimessages met their message in an inbox, before the receiver had either.
    pub annihilated: u64,
}

/// What was done of a group since its lease was last asked. Each count ends at the greatest `u64`.
#[derive(Clone, Copy, Default, PartialEq, Eq)]
pub struct Effort {
    /// How many entries were processed: turns of its components, and messages that they received.
    pub processed: u64,
    /// How many of these were taken back.
    pub taken_back: u64,
    /// How many times messages or antimessages took something back.
    pub roll_backs: u64,
    /// How many of these times it was a message, which came too late.
    pub stragglers: u64,
}

impl Tally {
    pub(crate) fn meet(&mut self) {
        self.meetings = self.meetings.saturating_add(1);
    }

    pub(crate) fn commit(&mut self) {
        self.commits = self.commits.saturating_add(1);
    }

    pub(crate) fn give(&mut self) {
        self.chunks = self.chunks.saturating_add(1);
    }

    // All of these are sent.
    pub(crate) fn send(&mut self, sent: &Bag) {
        for signed in sent.iter() {
            match signed.sign {
                Sign::Plus => self.messages = self.messages.saturating_add(1),
                Sign::Minus => self.antimessages = self.antimessages.saturating_add(1),
            }
        }
    }

    // So many pairs met.
    pub(crate) fn annihilate(&mut self, pairs: u64) {
        self.annihilated = self.annihilated.saturating_add(pairs);
    }
}

impl Effort {
    // So many entries are processed.
    pub(crate) fn process(&mut self, count: u32) {
        self.processed = self.processed.saturating_add(u64::from(count));
    }

    // So much is taken back.
    pub(crate) fn lose(&mut self, losses: Losses) {
        self.taken_back = self.taken_back.saturating_add(losses.taken_back);
        self.roll_backs = self.roll_backs.saturating_add(losses.roll_backs);
        self.stragglers = self.stragglers.saturating_add(losses.stragglers);
    }

    /// Both together.
    pub fn and(self, other: Effort) -> Effort {
        Effort {
            processed: self.processed.saturating_add(other.processed),
            taken_back: self.taken_back.saturating_add(other.taken_back),
            roll_backs: self.roll_backs.saturating_add(other.roll_backs),
            stragglers: self.stragglers.saturating_add(other.stragglers),
        }
    }
}
