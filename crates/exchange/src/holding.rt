//! What a worker holds of a component, whatever its window is.
ghost use Rattle.std.specs.Prelude.{◌≡◌, ◌≤◌, ◌<◌, ◌-◌, ◌^◌, [], length, min, replicate, true, false, None, IfOk, OnOk, OnErr, IsErrOf, ◌↔◌};
ghost use Rattle.exchange.specs.Core.{StaysKnown, deliveries};
ghost use Rattle.exchange.specs.LeaseView.{IsAhead, IsOnlyAhead, AllDelivered, HasStopped, lease_of, may_go_on};
ghost use Rattle.exchange.specs.Seen.{HasDelivered, IsSoundLease, MovesBy};
ghost use Rattle.exchange.specs.Windows.{KeepsWindow};
ghost use Rattle.plans.specs.Plans.{composition};
ghost use Rattle.rollback.specs.ComponentView.{machine_of, processed};
ghost use Rattle.rollback.specs.Stepped.{HasNextKey, IsNextSent, next_entry};
ghost use Rattle.task_seed.specs.Setups.{plan_of};
ghost use Rattle.virtual_time.specs.Exchange.Leases.{IsLease};
ghost use Rattle.virtual_time.specs.Worlds.{Process};

use crate::lease::{Ran, Stop};
use crate::tally::Effort;
use crate::window::Window;
use antimessage::Bag;
use event_keys::{Bound, Key, Turned};
use raw_events::EventList;
use rollback::laws::run_law;
use rollback::{Component, Copies, ProcessRefused};
use std::alloc::Global;
use std::marker::Model;
use std::mem::replace;
use task_seed::laws::machine_is_lawful;
use task_seed::{Setup, Turns};
use terms::{Action, State};
use virtual_time::exchanges::{exchange_is_core, exchange_is_sound, lease_law, window_law};

// A component with its tray of messages that came to it and aren't delivered yet, its outgoing messages and two copies of each, its floor, the
// least key that it had to do at its last meeting, and its window. While its tray is delivered, more may be pending than the window allows; so
// what the window promises is said of the lease.
#[derive(Drop)]
pub(crate) struct Holding<T: Turns> {
    pub(crate) component: Component<T>,
    pub(crate) tray: Bag,
    pub(crate) out: Bag,
    pub(crate) copies: Copies,
    pub(crate) floor: Bound,
    pub(crate) window: Option<Window>,
    pub(crate) effort: Effort,
}

impl<T: Turns> Model for Holding<T> {
    ghost use Rattle.task_seed.specs.declared.setup.Setup.{Setup};
    ghost use Rattle.exchange.specs.LeaseView.{LeaseView, IsValidLease};
    ghost use Rattle.rollback.specs.ComponentView.{machine_of};
    ghost use Rattle.plans.specs.Plans.{composition};
    ghost use Rattle.task_seed.specs.Setups.{plan_of};
    ghost use Rattle.std.specs.Prelude.{length};
    ghost use Rattle.std.specs.Coded.{codes};
    ghost use Rattle.plans.specs.KnownLaws.{are_known_prop};
    ghost use Rattle.terms.specs.Datum.{datum_code};
    ghost use Rattle.terms.specs.contracts.scalar.Shape as shape;
    ghost use Rattle.terms.specs.contracts.term.Term as term;
    ghost use Rattle.terms.specs.contracts.effect.Effect as effect;

    ghost Value = { LeaseView (Setup T) };

    ghost coded = { Prim.hlevel (
      codes,
      are_known_prop,
      shape.the_row.coded,
      term.the_row.coded,
      effect.the_row.coded,
      datum_code,
    ) };

    ghost view = { λ l.
        record {
          component = l.component;
          tray = l.tray;
          out = l.out;
          copies = l.copies;
          floor = l.floor;
          window = l.window;
        } };

    ghost invariant = { λ l. IsValidLease (machine_of T.turn_of l.component.setup)
        (length (composition (plan_of l.component.setup)))
        (record {
          component = l.component;
          tray = l.tray;
          out = l.out;
          copies = l.copies;
          floor = l.floor;
          window = l.window;
        }) };
}

impl<T: Turns> Holding<T> {
    // Its record is proper and grounded, and no key that is next, waits in its tray or is outgoing lies below its floor. The call does nothing.
    pub(crate) fn holding_law(&self)
        ensures lease { IsLease (machine_of T.turn_of self.now.component.setup)
            self.now.component.number (lease_of self.now) }
        ensures holding { IsSoundLease T.turn_of self.now }
        ensures there { self.now.component.number < length
            (composition (plan_of self.now.component.setup)) }
    {
        let _number = self.component.number();
    }

    // Whether its window, if it has one, has room for its next entry.
    pub(crate) fn may_go_on(&self) -> bool
        ensures { result ≡ may_go_on T.turn_of self.now }
    {
        match self.window {
            None => true,
            Some(window) => self.component.has_room(window.turns),
        }
    }

    // Swaps the component's spare cells for others.
    pub(crate) fn swap_spare(&mut self, spare: &mut EventList<Turned>)
        ensures { self.new ≡ self.old }
    {
        self.component.swap_spare(spare);
    }

    // What was done since this was last asked, counted.
    pub(crate) fn take_effort(&mut self) -> Effort
        ensures { self.new ≡ self.old }
    {
        replace(&mut self.effort, Effort::default())
    }

    // Processes entries, at most so many, until its window stops it.
    pub(crate) fn run_and_tell(&mut self, alloc: Global, budget: u32) -> Ran
        ensures ahead { IsAhead (machine_of T.turn_of self.old.component.setup) self.old self.new
            result.count }
        ensures most { result.count ≤ budget }
        ensures stop { HasStopped T.turn_of budget result.count result.stop self.new }
        ensures moves { MovesBy T.turn_of self.old
            (replicate result.count (Process self.old.component.number)) self.new }
        ensures known { StaysKnown (machine_of T.turn_of self.old.component.setup)
            self.old.component.number (lease_of self.old) (lease_of self.new) }
        ensures window { KeepsWindow self.old self.new }
        ensures kept { result.count ≡ 0 → self.new ≡ self.old }
    {
        machine_is_lawful(self.setup());
        exchange_is_core::<State, Action>();
        exchange_is_sound::<State, Action>();
        lease_law::<State, Action>();
        self.holding_law();
        let ran = self.process_some(alloc, budget);
        self.holding_law();
        ran
    }

    // Delivers the whole tray, from the least message on.
    pub(crate) fn settle(&mut self) -> u64
        ensures delivered { AllDelivered (machine_of T.turn_of self.old.component.setup) self.old
            self.old.tray self.new }
        ensures tray { self.new.tray ≡ [] }
        ensures count { result ≡ min (length self.old.tray) (2 ^ 64 - 1) }
        ensures moves { MovesBy T.turn_of self.old
            (deliveries self.old.component.number self.old.tray) self.new }
        ensures known { StaysKnown (machine_of T.turn_of self.old.component.setup)
            self.old.component.number (lease_of self.old) (lease_of self.new) }
    {
        machine_is_lawful(self.setup());
        exchange_is_core::<State, Action>();
        exchange_is_sound::<State, Action>();
        lease_law::<State, Action>();
        self.holding_law();
        let count = self.deliver_all();
        self.holding_law();
        count
    }

    pub(crate) fn setup(&self) -> &Setup<T>
        ensures { result.now ≡ self.now.component.setup }
    {
        self.component.setup()
    }

    // Processes entries, at most so many.
    #[tactic(auto, using(crate::proofs::Windowed::keeps_same, crate::proofs::Windowed::keeps_both))]
    fn process_some(&mut self, alloc: Global, budget: u32) -> Ran
        ensures ahead { IsAhead (machine_of T.turn_of self.old.component.setup) self.old self.new
            result.count }
        ensures most { result.count ≤ budget }
        ensures stop { HasStopped T.turn_of budget result.count result.stop self.new }
        ensures window { KeepsWindow self.old self.new }
        ensures kept { result.count ≡ 0 → self.new ≡ self.old }
    {
        run_law::<State>();
        for count in 0..budget {
            if !self.may_go_on() {
                return Ran {
                    count,
                    stop: Stop::NoRoom,
                };
            }
            let stop = match self.process_in_room(alloc) {
                Ok(_) => continue,
                Err(ProcessRefused::NothingPending) => Stop::End,
                Err(ProcessRefused::NoMemory) => Stop::NoMemory,
            };
            return Ran { count, stop };
        }
        Ran {
            count: budget,
            stop: Stop::Budget,
        }
    }

    // Delivers the whole tray.
    fn deliver_all(&mut self) -> u64
        ensures delivered { AllDelivered (machine_of T.turn_of self.old.component.setup) self.old
            self.old.tray self.new }
        ensures tray { self.new.tray ≡ [] }
        ensures count { result ≡ min (length self.old.tray) (2 ^ 64 - 1) }
    {
        let mut count: u64 = 0;
        while self.deliver_next() {
            count = count.saturating_add(1);
        }
        count
    }

    // The least message of the tray comes to the component; false where there is none.
    fn deliver_next(&mut self) -> bool
        ensures delivered { result ≡ true → HasDelivered T.turn_of self.old self.new }
        ensures none { result ≡ false → (self.old.tray ≡ []) × (self.new ≡ self.old) }
    {
        machine_is_lawful(self.component.setup());
        exchange_is_sound::<State, Action>();
        lease_law::<State, Action>();
        let Some(cell) = self.tray.take(self.component.number()) else {
            return false;
        };
        let sign = cell.value().sign;
        let taken_back = self.component.deliver(cell, &mut self.out);
        self.effort.deliver(sign, taken_back);
        true
    }

    // Does the component's next entry, for which the window has room.
    fn process_in_room(&mut self, alloc: Global) -> Result<Key, ProcessRefused>
        requires { may_go_on T.turn_of self.old ≡ true }
        ensures key { IfOk result (λ key. HasNextKey T.turn_of self.old.component key) }
        ensures record { OnOk result (self.new.component.history
            ≡ processed (next_entry T.turn_of self.old.component) self.old.component.history) }
        ensures sent { OnOk result (IsNextSent T.turn_of self.old.component self.old.out
            self.new.out) }
        ensures rest { IsOnlyAhead self.old self.new }
        ensures nothing { IsErrOf result ProcessRefused.NothingPending
            ↔ (next_entry T.turn_of self.old.component ≡ None) }
        ensures window { KeepsWindow self.old self.new }
        ensures kept { OnErr result (self.new ≡ self.old) }
    {
        machine_is_lawful(self.setup());
        window_law::<State, Action>();
        self.process_next(alloc)
    }

    // Does the component's next entry.
    fn process_next(&mut self, alloc: Global) -> Result<Key, ProcessRefused>
        ensures key { IfOk result (λ key. HasNextKey T.turn_of self.old.component key) }
        ensures record { OnOk result (self.new.component.history
            ≡ processed (next_entry T.turn_of self.old.component) self.old.component.history) }
        ensures sent { OnOk result (IsNextSent T.turn_of self.old.component self.old.out
            self.new.out) }
        ensures rest { IsOnlyAhead self.old self.new }
        ensures nothing { IsErrOf result ProcessRefused.NothingPending
            ↔ (next_entry T.turn_of self.old.component ≡ None) }
        ensures kept { OnErr result (self.new ≡ self.old) }
    {
        machine_is_lawful(self.component.setup());
        exchange_is_sound::<State, Action>();
        lease_law::<State, Action>();
        let key = self
            .component
            .process_copied(alloc, &mut self.out, &mut self.copies)?;
        self.effort.process();
        Ok(key)
    }
}
