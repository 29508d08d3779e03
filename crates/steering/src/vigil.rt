//! How a worker keeps its group going, and waits where there is nothing to do.
use crate::nap::nap_for;
use crate::policy::POLICY;
use std::hint::spin_loop;
use std::sync::Wait;

/// A worker's own counts: what it did since its last visit to the exchange, and how often it found nothing to do. It steers the worker, and no promise
/// rests on it.
#[derive(Clone, Copy)]
pub struct Vigil {
    // How many entries it does before it looks around, and how many such slices it does in a row.
    slice: u32,
    slices: u32,
    // How many ticks its group may run ahead of all others, and how many entries it did since that changed.
    leash: u64,
    unlost: u64,
    // How many entries it did since its last visit.
    done: u64,
    // How many times in a row it found nothing to do.
    vain: u32,
    // Whether nothing is left that it could do, or its group's window has no room: then it can go on only after something came, or the bound rose.
    is_stuck: bool,
    // Whether it was so at its last visit, and how often the bound had risen then.
    has_told: bool,
    rises: u64,
    // How often the calling thread had looked for turns when the worker last saw that it did, and how many were published then.
    caller_looks: u64,
    published: u64,
    // How many are now.
    count: u64,
    // How many microseconds it napped since its last visit.
    waited: u64,
}

impl Vigil {
    /// That of a worker of one of several groups that does at most so many entries in a row.
    pub fn new(budget: u32) -> Vigil {
        Vigil {
            slice: budget.min(POLICY.slice),
            slices: budget / POLICY.slice + 1,
            leash: POLICY.leash,
            unlost: 0,
            done: 0,
            vain: 0,
            is_stuck: false,
            has_told: false,
            rises: 0,
            caller_looks: 0,
            published: 0,
            count: 0,
            waited: 0,
        }
    }

    /// How many entries it does before it looks around, one at least.
    pub fn slice(&self) -> u32 {
        self.slice
    }

    /// How many such slices it does in a row, one at least.
    pub fn slices(&self) -> u32 {
        self.slices
    }

    /// How many ticks its group may run ahead of all others.
    pub fn leash(&self) -> u64 {
        self.leash
    }

    /// Since its last visit it did so many entries, and so many of its group were taken back. A loss makes the leash shorter, and many entries without
    /// any make it longer.
    pub fn adapt(&mut self, done: u64, taken_back: u64) {
        if taken_back > 0 {
            self.leash = POLICY.leash.max(self.leash / 2);
            self.unlost = 0;
            return;
        }
        self.unlost = self.unlost.saturating_add(done);
        if self.unlost >= POLICY.entries_a_visit {
            self.leash = POLICY.most_leash.min(self.leash.saturating_add(1));
            self.unlost = 0;
        }
    }

    /// It did so many entries, or found nothing to do; whether it can go on only after something came or the bound rose.
    pub fn note(&mut self, done: u32, is_stuck: bool) {
        self.done = self.done.saturating_add(u64::from(done));
        self.is_stuck = is_stuck;
        self.vain = if done == 0 {
            self.vain.saturating_add(1)
        } else {
            0
        };
    }

    /// Whether its last visit is long ago, or the exchange doesn't know yet that it can't go on, or the bound has risen meanwhile, for which it waits;
    /// or it naps between vain looks, so that others don't wait for its group's base.
    pub fn is_visit_due(&self, rises: u64) -> bool {
        let is_news = self.is_stuck && (self.done > 0 || !self.has_told || self.rises != rises);
        is_news || self.done >= POLICY.entries_a_visit || self.vain > POLICY.most_vain
    }

    /// It visits the exchange, after the bound has risen so often.
    pub fn visit(&mut self, rises: u64) {
        self.has_told = self.is_stuck;
        self.rises = rises;
    }

    /// What it did since its last visit, which is now.
    pub fn take_done(&mut self) -> u64 {
        let done = self.done;
        self.done = 0;
        done
    }

    /// How many microseconds it napped since its last visit, which is now.
    pub fn take_waited(&mut self) -> u64 {
        let waited = self.waited;
        self.waited = 0;
        waited
    }

    /// Whether it can go on only after something came or the bound rose.
    pub fn is_stuck(&self) -> bool {
        self.is_stuck
    }

    /// So many turns are published.
    pub fn see(&mut self, count: u64) {
        self.count = count;
    }

    /// Naps, if the calling thread has looked for turns so often, and many were published since it did last. Answers whether it napped.
    pub fn keep_back<R: Wait>(&mut self, rt: &R, caller_looks: u64) -> bool {
        if self.caller_looks != caller_looks {
            self.caller_looks = caller_looks;
            self.published = self.count;
        }
        if self.count.saturating_sub(self.published) <= POLICY.most_unseen {
            return false;
        }
        self.sleep(rt);
        true
    }

    /// Lets other threads go on, where it found nothing to do: for a while it looks again at once, since what it waits for mostly comes soon.
    pub fn wait<R: Wait>(&mut self, rt: &R) {
        if self.vain > POLICY.most_vain {
            self.sleep(rt);
        } else if self.vain > 0 {
            spin_loop();
        }
    }

    fn sleep<R: Wait>(&mut self, rt: &R) {
        self.waited = self.waited.saturating_add(POLICY.nap);
        nap_for(rt, POLICY.nap);
    }
}
