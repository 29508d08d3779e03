//! How far a hunt is, told on standard error once a second. Nothing of it is claimed by a contract.

use commands::Looks;
use std::rt::Clock;
use std::sync::atomic::{AtomicU64, Ordering};
use std::time::Instant;

/// Looks at seeds, of which is told by whoever comes first after each second.
#[derive(Drop)]
pub struct PacedLooks<'a, R> {
    rt: &'a R,
    /// When they began; nothing is told where this isn't known.
    start: Option<Instant>,
    /// How many seeds there are.
    seeds: u64,
    /// How many were looked at.
    looked: AtomicU64,
    /// How many seconds had passed when it was told last.
    second: AtomicU64,
    /// How many were looked at when it was told last.
    told: AtomicU64,
}

impl<'a, R: Clock + Eprint> PacedLooks<'a, R> {
    /// Looks from now on at so many seeds; without their number, or without a clock, nothing is told.
    pub fn new(rt: &'a R, seeds: Option<u64>) -> PacedLooks<'a, R> {
        let start = match seeds {
            Some(_) => Instant::now(rt).ok(),
            None => None,
        };
        PacedLooks {
            rt,
            start,
            seeds: seeds.unwrap_or(0),
            looked: AtomicU64::new(0),
            second: AtomicU64::new(0),
            told: AtomicU64::new(0),
        }
    }

    // Tells how many were looked at, where a second has passed since it was told last and no other worker tells it.
    fn tell(&self, second: u64, looked: u64) {
        let last = self.second.load(Ordering::SeqCst);
        if second <= last {
            return;
        }
        if !self.is_first(last, second) {
            return;
        }
        let told = self.told.swap(looked, Ordering::SeqCst);
        let rate = looked.saturating_sub(told) / (second - last);
        let rt = self.rt;
        let _ = eprintln!(rt; "{looked} of {} seeds, {rate} seeds a second", self.seeds);
    }

    // Whether no other worker has noted a second since this one was.
    fn is_first(&self, last: u64, second: u64) -> bool {
        self.second
            .compare_exchange(last, second, Ordering::SeqCst, Ordering::SeqCst)
            .is_ok()
    }
}

impl<'a, R: Clock + Eprint> Looks for PacedLooks<'a, R> {
    fn looked(&self) {
        if let Some(start) = &self.start {
            let before = self.looked.fetch_add(1, Ordering::SeqCst);
            if let Ok(passed) = start.elapsed(self.rt) {
                self.tell(passed.as_secs(), before.saturating_add(1));
            }
        }
    }
}
