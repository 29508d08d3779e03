//! How the threads of a lone group wait for each other.
use crate::nap::nap_for;
use crate::policy::POLICY;
use std::hint::spin_loop;
use std::sync::Wait;
use std::thread::yield_now;

/// One thread's own counts, where one group has all components. It steers the thread, and no promise rests on it.
#[derive(Clone, Copy)]
pub struct Pace {
    // How many turns are taken in a row, and how many are drawn at once.
    slice: u32,
    page: usize,
    // How many times in a row it found nothing to do.
    vain: u32,
    // How many microseconds it napped since that was asked.
    waited: u64,
}

impl Pace {
    /// That of a thread that takes at most so many turns in a row.
    pub fn new(budget: u32) -> Pace {
        Pace {
            slice: budget.min(POLICY.slice_alone),
            page: POLICY.first_page,
            vain: 0,
            waited: 0,
        }
    }

    /// How many turns it takes before it looks around.
    pub fn slice(&self) -> u32 {
        self.slice
    }

    /// How many turns are drawn next: few at first, so that those who wait for them can begin, then more and more.
    pub fn next_page(&mut self) -> usize {
        let page = self.page;
        self.page = POLICY.most_waiting.min(page.saturating_mul(2));
        page
    }

    /// Whether more turns may be taken, where so many wait to be handed over.
    pub fn has_room(&self, waiting: usize) -> bool {
        waiting < POLICY.most_waiting
    }

    /// Whether one more list of drawn turns may wait, where so many do.
    pub fn may_add(&self, lists: u64) -> bool {
        lists < POLICY.most_lists
    }

    /// Whether turns that were taken go now, where so many batches wait: at once where none does, so that nobody waits for them; else only where there
    /// are as many as there may be, or no more come.
    pub fn may_share(&self, batches: u64, is_full: bool) -> bool {
        batches == 0 || (is_full && batches < POLICY.most_lists)
    }

    /// It found something to do.
    pub fn go_on(&mut self) {
        self.vain = 0;
    }

    /// It found nothing to do: it looks again at once for a while, then gives the processor up between looks, and naps last.
    pub fn wait<R: Wait>(&mut self, rt: &R) {
        if self.vain < POLICY.most_vain_alone {
            self.vain += 1;
            spin_loop();
            return;
        }
        if self.vain - POLICY.most_vain_alone < POLICY.most_yields_alone {
            self.vain += 1;
            yield_now();
            return;
        }
        self.waited = self.waited.saturating_add(POLICY.nap);
        nap_for(rt, POLICY.nap);
    }

    /// How many microseconds it napped since this was asked last.
    pub fn take_waited(&mut self) -> u64 {
        let waited = self.waited;
        self.waited = 0;
        waited
    }
}
