//! Leases: components that workers hold, away from what they share.
ghost use Rattle.std.specs.Prelude.{◌≡◌, ◌≤◌, ◌-◌, ◌^◌, [], length, min, replicate, false, None, IfOk, OnErr, ◌⊎◌};
ghost use Rattle.antimessage.specs.Bags.{least_of};
ghost use Rattle.event_keys.specs.Ranks.{rank_of_bound};
ghost use Rattle.plans.specs.Plans.{composition};
ghost use Rattle.raw_events.specs.Around.{is_nonempty};
ghost use Rattle.rollback.specs.ComponentView.{machine_of, next_key, is_last_idle};
ghost use Rattle.rollback.specs.Stepped.{next_entry};
ghost use Rattle.task_seed.specs.Setups.{plan_of};
ghost use Rattle.exchange.specs.Core.{StaysKnown, deliveries};
ghost use Rattle.exchange.specs.LeaseView.{IsAhead, AllDelivered, HasStopped, lease_of, may_go_on};
ghost use Rattle.exchange.specs.Seen.{IsSoundLease, MovesBy, StaysInWindow};
ghost use Rattle.exchange.specs.Windows.{KeepsToWindow};
ghost use Rattle.virtual_time.specs.Exchange.Leases.{IsLease};
ghost use Rattle.virtual_time.specs.Worlds.{Process};

use crate::holding::Holding;
use crate::tally::Effort;
use crate::window::Window;
use event_keys::{Bound, Signed, Turned};
use pools::Numbered;
use raw_events::EventList;
use std::alloc::Global;
use std::marker::Model;
use task_seed::laws::machine_is_lawful;
use task_seed::{Setup, Turns};
use terms::{Action, NoMemory, State};
use virtual_time::exchanges::window_law;

/// A component that a worker holds, away from what workers share: with its tray of messages that came to it and aren't delivered
/// yet, its outgoing messages and two copies of each, its floor, the least key that it had to do at its last meeting, and its window, if it
/// has one. It can't be cloned.
#[derive(Drop)]
pub struct Lease<T: Turns> {
    pub(crate) holding: Holding<T>,
}

/// Why a lease that ran ahead stopped.
#[derive(Clone, Copy, PartialEq, Eq)]
pub enum Stop {
    /// So many entries were processed as it was allowed.
    Budget,
    /// Nothing is pending, and no turn is left.
    End,
    /// Something is next, the window has room for it, and memory was refused.
    NoMemory,
    /// An own turn is next, and as many are done as the window has.
    NoRoom,
}

/// How far a lease ran ahead.
#[derive(Clone, Copy, PartialEq, Eq)]
pub struct Ran {
    /// How many entries were processed.
    pub count: u32,
    /// Why there were no more.
    pub stop: Stop,
}

impl<T: Turns> Model for Lease<T> {
    ghost use Rattle.task_seed.specs.declared.setup.Setup.{Setup};
    ghost use Rattle.exchange.specs.LeaseView.{LeaseView};
    ghost use Rattle.exchange.specs.Windows.{KeepsToWindow};
    ghost use Rattle.rollback.specs.ComponentView.{machine_of};
    ghost use Rattle.plans.specs.Plans.{composition};
    ghost use Rattle.task_seed.specs.Setups.{plan_of};
    ghost use Rattle.std.specs.Prelude.{length};
    ghost use Rattle.std.specs.Coded.{codes};
    ghost use Rattle.plans.specs.KnownLaws.{are_known_prop};
    ghost use Rattle.terms.specs.Datum.{datum_code};
    ghost use Rattle.terms.specs.contracts.scalar.Shape as shape;
    ghost use Rattle.terms.specs.contracts.term.Term as term;
    ghost use Rattle.terms.specs.contracts.effect.Effect as effect;

    ghost Value = { LeaseView (Setup T) };

    ghost coded = { Prim.hlevel (
      codes,
      are_known_prop,
      shape.the_row.coded,
      term.the_row.coded,
      effect.the_row.coded,
      datum_code,
    ) };

    ghost view = { λ l. l.holding };

    ghost invariant = { λ l. KeepsToWindow (machine_of T.turn_of l.holding.component.setup)
        (length (composition (plan_of l.holding.component.setup))) l.holding };
}

// So leases can wait in a pool.
impl<T: Turns> Numbered<Setup<T>> for Lease<T> {
    ghost number_of = { λ lease. lease.component.number };

    ghost kind_of = { λ lease. lease.component.setup };
}

impl<T: Turns> Lease<T> {
    /// The number of the component, from 0.
    pub fn number(&self) -> u16
        ensures { result ≡ self.now.component.number }
    {
        self.holding.component.number()
    }

    /// The least key of what waits in its tray, or the end where the tray is empty.
    pub fn least_coming(&self) -> Bound
        ensures { result ≡ least_of self.now.tray }
    {
        self.holding.tray.least()
    }

    /// The least key that it had to do when it last met the exchange: that of its next entry, or of a message in its tray.
    pub fn floor(&self) -> Bound
        ensures { result ≡ self.now.floor }
    {
        self.holding.floor
    }

    /// Its window, if it has one.
    pub fn window(&self) -> Option<Window>
        ensures { result ≡ self.now.window }
    {
        self.holding.window
    }

    /// The key of the entry that is done next, or the end where there is none.
    pub fn next(&self) -> Bound
        ensures { rank_of_bound result
            ≡ next_key (machine_of T.turn_of self.now.component.setup)
            (next_entry T.turn_of self.now.component) }
    {
        self.holding.component.next()
    }

    /// Whether its window, if it has one, has room for its next entry: an own turn has room where fewer are done since the base, and an input
    /// always has.
    pub fn may_go_on(&self) -> bool
        ensures { result ≡ may_go_on T.turn_of self.now }
    {
        self.holding.may_go_on()
    }

    /// How many entries are done since the base, and can be taken back.
    pub fn depth(&self) -> usize
        ensures { result ≡ length self.now.component.history.done }
    {
        self.holding.component.depth()
    }

    /// Whether the last done entry is a turn of the component by which it did nothing, where anything is done since the base.
    pub fn is_idle(&self) -> bool
        ensures { result ≡ is_last_idle self.now.component.history.done }
    {
        self.holding.component.is_idle()
    }

    /// Whether messages or antimessages wait to leave at the next meeting.
    pub fn is_sending(&self) -> bool
        ensures { result ≡ is_nonempty self.now.out }
    {
        !self.holding.out.is_empty()
    }

    /// Every lease is sound: its record is proper and grounded, and no key that is next, waits in its tray or is outgoing lies below its floor.
    /// Where it has a window, at most so many own turns are done, and at most as many messages of each other component are done or pending.
    /// The call does nothing.
    pub fn soundness_law(&self)
        ensures lease { IsLease
            (machine_of T.turn_of self.now.component.setup) self.now.component.number
            (lease_of self.now) }
        ensures holding { IsSoundLease T.turn_of self.now }
        ensures within { KeepsToWindow (machine_of T.turn_of self.now.component.setup)
            (length (composition (plan_of self.now.component.setup))) self.now }
        ensures few { StaysInWindow self.now }
    {
        self.holding.holding_law();
    }

    /// Swaps the component's spare cells for others, which then serve for its next turns.
    pub fn swap_spare(&mut self, spare: &mut EventList<Turned>)
        ensures { self.new ≡ self.old }
    {
        self.holding.swap_spare(spare);
    }

    /// What was done since this was last asked, counted.
    pub fn take_effort(&mut self) -> Effort
        ensures { self.new ≡ self.old }
    {
        self.holding.take_effort()
    }

    /// Processes entries, at most `budget` of them, and answers how many. It stops short where nothing is pending and no turn is
    /// left, before an own turn for which its window has no room, and where memory is refused, as [`Lease::run_and_tell`] says; that is an
    /// error only where the first entry was refused, and then nothing has changed.
    pub fn run_ahead(&mut self, alloc: Global, budget: u32) -> Result<u32, NoMemory>
        ensures ahead { IfOk result (λ count. IsAhead
            (machine_of T.turn_of self.old.component.setup) self.old self.new count) }
        ensures most { IfOk result (λ count. count ≤ budget) }
        ensures none { IfOk result (λ count. count ≡ 0 → (budget ≡ 0)
            ⊎ ((next_entry T.turn_of self.old.component ≡ None)
            ⊎ (may_go_on T.turn_of self.old ≡ false))) }
        ensures moves { IfOk result (λ count. MovesBy T.turn_of self.old
            (replicate count (Process self.old.component.number)) self.new) }
        ensures known { StaysKnown
            (machine_of T.turn_of self.old.component.setup) self.old.component.number
            (lease_of self.old) (lease_of self.new) }
        ensures few { StaysInWindow self.new }
        ensures kept { OnErr result (self.new ≡ self.old) }
    {
        let ran = self.run_and_tell(alloc, budget);
        match ran.stop {
            Stop::NoMemory if ran.count == 0 => Err(NoMemory),
            _ => Ok(ran.count),
        }
    }

    /// Does the same as `run_ahead`, and tells why it stopped too. Where memory was refused, what was processed before stays.
    pub fn run_and_tell(&mut self, alloc: Global, budget: u32) -> Ran
        ensures ahead { IsAhead
            (machine_of T.turn_of self.old.component.setup) self.old self.new result.count }
        ensures most { result.count ≤ budget }
        ensures stop { HasStopped T.turn_of budget result.count result.stop self.new }
        ensures moves { MovesBy T.turn_of self.old
            (replicate result.count (Process self.old.component.number)) self.new }
        ensures known { StaysKnown
            (machine_of T.turn_of self.old.component.setup) self.old.component.number
            (lease_of self.old) (lease_of self.new) }
        ensures few { StaysInWindow self.new }
        ensures kept { result.count ≡ 0 → self.new ≡ self.old }
    {
        let ran = self.holding.run_and_tell(alloc, budget);
        self.soundness_law();
        ran
    }

    /// Delivers the whole tray, from the least message on, and answers how many messages that were, or the greatest `u64` where
    /// there were more. It takes no memory.
    pub fn settle(&mut self) -> u64
        ensures delivered { AllDelivered
            (machine_of T.turn_of self.old.component.setup) self.old self.old.tray self.new }
        ensures tray { self.new.tray ≡ [] }
        ensures count { result ≡ min (length self.old.tray) (2 ^ 64 - 1) }
        ensures moves { MovesBy T.turn_of self.old
            (deliveries self.old.component.number self.old.tray) self.new }
        ensures known { StaysKnown
            (machine_of T.turn_of self.old.component.setup) self.old.component.number
            (lease_of self.old) (lease_of self.new) }
        ensures few { StaysInWindow self.new }
    {
        machine_is_lawful(self.holding.setup());
        window_law::<State, Action>();
        let count = self.holding.settle();
        self.holding.holding_law();
        self.soundness_law();
        count
    }
}
