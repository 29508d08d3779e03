//! The turns that come next, by the components' clocks.
ghost use Rattle.std.specs.Prelude.{ℕ, ◌≡◌, ◌<◌, ◌+◌, Some, IfOk, OnOk, OnErr, IfSome, length, replicate, slice_set, slice_index_or};
ghost use Rattle.plans.specs.Plans.{composition};
ghost use Rattle.task_seed.specs.Setups.{system, plan_of};
ghost use Rattle.task_seed.specs.Turning.{key_of, turn_in};
ghost use Rattle.reference.specs.Clocks.{AreClocks};

use event_keys::Key;
use std::alloc::Global;
use task_seed::{Clock, Setup, Turn, Turns};
use terms::NoMemory;

/// The clocks of the components.
#[derive(Drop)]
pub(crate) struct Clocks {
    clocks: Vec<Clock>,
}

impl Clocks {
    /// Each has reached the first turn.
    pub(crate) fn new<T: Turns>(alloc: Global, setup: &Setup<T>) -> Result<Clocks, NoMemory>
        ensures { IfOk result (λ c. (n : ℕ)
            → AreClocks T.turn_of setup.now (replicate n 0) c.clocks.items) }
    {
        let mut clocks = Vec::new(alloc);
        for i in 0..setup.plan().components() {
            let mut clock = Clock::new(alloc, i);
            clock.reach(setup, 0)?;
            clocks.push(clock)?;
        }
        Ok(Clocks { clocks })
    }

    /// The turn of a key.
    #[inline(always)]
    pub(crate) fn turn<T: Turns>(&self, setup: &Setup<T>, key: Key, numbers: &[u64]) -> Turn
        requires there { Some key ≡ key_of (system T.turn_of setup.now) key.component key.number }
        requires within { key.component < length (composition (plan_of setup.now)) }
        requires clocks { AreClocks T.turn_of setup.now numbers.now self.now.clocks.items }
        ensures { Some result ≡ turn_in (system T.turn_of setup.now) key.component key.number }
    {
        self.clocks[usize::from(key.component)].turn(setup, key.number)
    }

    /// The clock of this key's component reaches the turn after it, and gives that turn's key, if there is one. A refusal leaves the clocks.
    #[inline(always)]
    pub(crate) fn reach_after<T: Turns>(
        &mut self,
        setup: &Setup<T>,
        key: Key,
        numbers: &[u64],
    ) -> Result<Option<Key>, NoMemory>
        requires there { Some key ≡ key_of (system T.turn_of setup.now) key.component key.number }
        requires small { key.number < 4294967296 }
        requires within { key.component < length (composition (plan_of setup.now)) }
        requires number { slice_index_or numbers.now key.component 0 ≡ key.number }
        requires clocks { AreClocks T.turn_of setup.now numbers.now self.old.clocks.items }
        ensures key { let n = key.number + 1 in
            IfOk result (λ next. next ≡ key_of (system T.turn_of setup.now) key.component n) }
        ensures small { IfOk result (λ next. IfSome next (λ next. next.number < 4294967296)) }
        ensures clocks { AreClocks T.turn_of setup.now numbers.now self.new.clocks.items }
        ensures reached { OnOk result (AreClocks T.turn_of setup.now
            (slice_set numbers.now key.component (key.number + 1)) self.new.clocks.items) }
    {
        self.clocks[usize::from(key.component)].reach_after(setup, key)
    }
}
