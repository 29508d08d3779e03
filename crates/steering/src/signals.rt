//! What workers of groups tell each other without the exchange.
use event_keys::Bound;
use std::alloc::Global;
use std::sync::atomic::{AtomicU64, Ordering};
use terms::NoMemory;

// How many words a group has: as many as lie in one line of a processor's cache, so that who writes one disturbs no other.
const WORDS: usize = 8;

// Nothing is left to do.
const NOTHING: u64 = u64::MAX;

/// For each group the tick of what it has to do next, as its worker told last, and whether something came for it; and how often the bound has
/// risen. It steers the workers, and no promise rests on it.
#[derive(Drop)]
pub struct Signals {
    groups: u16,
    ticks: Vec<AtomicU64>,
    calls: Vec<AtomicU64>,
    rises: AtomicU64,
}

impl Signals {
    /// Of so many groups, which stand at the start. Nothing has come.
    pub fn new(alloc: Global, groups: u16) -> Result<Signals, NoMemory> {
        let mut ticks = Vec::new(alloc);
        let mut calls = Vec::new(alloc);
        for _ in 0..WORDS * usize::from(groups) {
            ticks.push(AtomicU64::new(0))?;
            calls.push(AtomicU64::new(0))?;
        }
        Ok(Signals {
            groups,
            ticks,
            calls,
            rises: AtomicU64::new(0),
        })
    }

    /// How many groups there are.
    pub fn groups(&self) -> u16 {
        self.groups
    }

    /// A group has this to do next. Whether that is more than so many ticks ahead of what all others have to do.
    pub fn stand(&self, group: u16, next: Bound, leash: u64) -> bool {
        let tick = tick_of(next);
        store(&self.ticks, group, tick);
        let mut least = NOTHING;
        for other in 0..self.groups {
            if other != group {
                least = least.min(load(&self.ticks, other));
            }
        }
        tick > least.saturating_add(leash)
    }

    /// Something came for a group.
    pub fn call(&self, group: u16) {
        store(&self.calls, group, 1);
    }

    /// Whether something came for a group since it was answered last.
    pub fn is_called(&self, group: u16) -> bool {
        load(&self.calls, group) != 0
    }

    /// The bound has risen.
    pub fn rise(&self) {
        self.rises.fetch_add(1, Ordering::AcqRel);
    }

    /// How often it has.
    pub fn rises(&self) -> u64 {
        self.rises.load(Ordering::Acquire)
    }

    /// What came for a group is taken.
    pub fn answer(&self, group: u16) {
        store(&self.calls, group, 0);
    }
}

fn tick_of(next: Bound) -> u64 {
    match next {
        Bound::End => NOTHING,
        Bound::At(key) => key.tick,
    }
}

fn load(words: &[AtomicU64], group: u16) -> u64 {
    match words.get(WORDS * usize::from(group)) {
        None => NOTHING,
        Some(word) => word.load(Ordering::Acquire),
    }
}

fn store(words: &[AtomicU64], group: u16, value: u64) {
    if let Some(word) = words.get(WORDS * usize::from(group)) {
        word.store(value, Ordering::Release);
    }
}
