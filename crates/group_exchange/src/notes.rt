//! What the exchange notes for those who ask.
use crate::tally::Tally;
use std::alloc::Global;
use terms::NoMemory;

// To whom something came, and how often. No promise rests on it.
#[derive(Drop)]
pub(crate) struct Notes {
    pub(crate) receivers: Receivers,
    pub(crate) tally: Tally,
}

impl Notes {
    // Something came to a group.
    pub(crate) fn note(&mut self, group: usize) {
        if let Ok(number) = u16::try_from(group) {
            self.receivers.note(number);
        }
    }
}

// Not the number of a group.
const NOBODY: u16 = u16::MAX;

// The groups to whose inboxes something came, each once, the last one first. It steers those who ask, and no promise rests on it.
#[derive(Drop)]
pub(crate) struct Receivers {
    last: u16,
    // For each group the one that was noted before it, or itself where it isn't noted.
    before: Vec<u16>,
}

impl Receivers {
    // Nobody is noted, of so many groups.
    pub(crate) fn none(alloc: Global, groups: u16) -> Result<Receivers, NoMemory> {
        let mut before = Vec::with_capacity(alloc, usize::from(groups))?;
        for i in 0..groups {
            before.push(i)?;
        }
        Ok(Receivers {
            last: NOBODY,
            before,
        })
    }

    // Something came to a group.
    pub(crate) fn note(&mut self, to: u16) {
        let at = usize::from(to);
        if at < self.before.len() && self.before[at] == to {
            self.before[at] = self.last;
            self.last = to;
        }
    }

    // The one that was noted last, if there is any; it isn't noted any more.
    pub(crate) fn take(&mut self) -> Option<u16> {
        let last = self.last;
        let at = usize::from(last);
        if at >= self.before.len() {
            return None;
        }
        self.last = self.before[at];
        self.before[at] = last;
        Some(last)
    }
}
