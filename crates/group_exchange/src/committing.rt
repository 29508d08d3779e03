//! Commits: how far nothing can come any more.
ghost use Rattle.std.specs.Prelude.{◌≡◌, ◌≤◌, length, map};
ghost use Rattle.event_keys.specs.Ranks.{rank_of_bound};
ghost use Rattle.plans.specs.Plans.{composition};
ghost use Rattle.task_seed.specs.Machines.{end_rank};
ghost use Rattle.task_seed.specs.Setups.{system, plan_of};
ghost use Rattle.rollback.specs.ComponentView.{machine_of};
ghost use Rattle.gvt.specs.Least.{IsLeast};
ghost use Rattle.virtual_time.specs.Reference.{reference_below, point, turns_of};
ghost use Rattle.group_exchange.specs.ExchangeView.{ArePassing, HavePassed, clear_until};
ghost use Rattle.group_exchange.specs.Seen.{HasCommitted, HasFewInInboxes, IsOneCommit};

use crate::exchange::Exchange;
use crate::passage::Passage;
use crate::stub::Stub;
use event_keys::Bound;
use event_keys::laws::rank_law;
use gvt::least_bound;
use rollback::laws::least_law;
use task_seed::laws::machine_is_lawful;
use task_seed::{Setup, Turns, Walk};
use terms::{Action, State};
use virtual_time::exchanges::exchange_is_core;
use virtual_time::grouped::{group_exchange_is_core, group_exchange_is_sound, group_window_law};
use virtual_time::reference::reference_is_counted;

// The least of all floors and of all keys in inboxes.
fn least_clear(stubs: &[Stub]) -> Bound
    ensures { IsLeast (map clear_until stubs.now) result }
{
    least_bound(stubs.iter().map(|stub| stub.clear_until()))
}

// The rank of a bound is at most the end's.
#[tactic(auto, using(crate::proofs::Raising::end_is))]
pub(crate) fn is_bounded(bound: Bound)
    ensures { rank_of_bound bound ≤ end_rank }
{
    if let Bound::At(key) = bound {
        rank_law(key);
    }
}

// Counts all turns below a bound.
fn pass_all<T: Turns>(
    setup: &Setup<T>,
    passages: &mut [Passage],
    walks: &mut [Walk],
    bound: Bound,
) -> u64
    requires walks { length walks.old ≡ length (composition (plan_of setup.now)) }
    requires many { length passages.old ≡ length (composition (plan_of setup.now)) }
    requires passing { ArePassing (system T.turn_of setup.now) bound passages.old }
    requires end { rank_of_bound bound ≤ end_rank }
    ensures items { length walks.new ≡ length walks.old }
    ensures passages { HavePassed (system T.turn_of setup.now) bound passages.old passages.new }
    ensures many { length passages.new ≡ length passages.old }
    ensures passed { ArePassing (system T.turn_of setup.now) bound passages.new }
    ensures count { result ≡ turns_of (point (machine_of T.turn_of setup.now) (rank_of_bound bound))
        (length (composition (plan_of setup.now))) }
{
    machine_is_lawful(setup);
    reference_is_counted::<State, Action>();
    let mut count = 0;
    for i in 0..setup.plan().components() {
        let passage = &mut passages[usize::from(i)];
        passage.pass_turns(setup, i, &mut walks[usize::from(i)], bound);
        count += passage.passed;
    }
    count
}

impl<T: Turns> Exchange<T> {
    /// Raises the bound to the least of all floors and of all keys in inboxes: nothing below it can come any more. The answer is the
    /// number of the turns with keys below it. It takes no memory; its time grows with the number of the components and with that of the
    /// turns that were passed.
    ///
    /// It is one commit of the whole world that the exchange and its leases stand for, wherever these are.
    pub fn commit(&mut self) -> u64
        ensures commit { HasCommitted T.turn_of self.old self.new }
        ensures rest { self.new
            ≡ record self.old { bound = self.new.bound; passages = self.new.passages } }
        ensures passages { HavePassed (system T.turn_of self.old.setup) self.new.bound
            self.old.passages self.new.passages }
        ensures count { result ≡ length
            (reference_below (machine_of T.turn_of self.old.setup) (rank_of_bound self.new.bound)) }
        ensures core { IsOneCommit T.turn_of self.old self.new }
        ensures inboxes { HasFewInInboxes T.turn_of self.new }
    {
        machine_is_lawful(self.setup());
        exchange_is_core::<State, Action>();
        group_exchange_is_core::<State, Action>();
        self.soundness_law();
        let count = self.raise_bound();
        self.soundness_law();
        count
    }

    fn raise_bound(&mut self) -> u64
        ensures commit { HasCommitted T.turn_of self.old self.new }
        ensures rest { self.new
            ≡ record self.old { bound = self.new.bound; passages = self.new.passages } }
        ensures passages { HavePassed (system T.turn_of self.old.setup) self.new.bound
            self.old.passages self.new.passages }
        ensures count { result ≡ length
            (reference_below (machine_of T.turn_of self.old.setup) (rank_of_bound self.new.bound)) }
    {
        machine_is_lawful(&self.setup);
        group_exchange_is_sound::<State, Action>();
        reference_is_counted::<State, Action>();
        group_window_law::<State, Action>();
        least_law();
        self.notes.tally.commit();
        let bound = least_clear(&self.stubs);
        is_bounded(bound);
        let count = pass_all(&self.setup, &mut self.passages, &mut self.walks, bound);
        self.bound = bound;
        count
    }
}
