//! Leases: groups of components that workers hold, away from what they share.
ghost use Rattle.std.specs.Prelude.{◌≡◌, ◌≤◌, [], length, IfOk};
ghost use Rattle.event_keys.specs.Ranks.{rank_of_bound};
ghost use Rattle.plans.specs.Plans.{composition};
ghost use Rattle.raw_events.specs.Around.{is_nonempty};
ghost use Rattle.rollback.specs.ComponentView.{machine_of};
ghost use Rattle.task_seed.specs.Setups.{plan_of};
ghost use Rattle.groups.specs.GroupView.{is_member};
ghost use Rattle.groups.specs.Moves.{HasStopped, IsAhead, IsSettled, next_rank};
ghost use Rattle.groups.specs.Windows.{MayGoOn};
ghost use Rattle.group_exchange.specs.LeaseView.{KeepsMembers};
ghost use Rattle.group_exchange.specs.Moving.{AreCopies};
ghost use Rattle.group_exchange.specs.Seen.{IsSoundLease, MovesAlone, StaysInWindow, StaysTheSame};
ghost use Rattle.group_exchange.specs.Windows.{KeepsToWindow};

use crate::copying::copies_of;
use crate::tally::Effort;
use event_keys::{Bound, Turned};
use groups::{Group, Ran, Window};
use raw_events::EventList;
use rollback::Copies;
use std::alloc::Global;
use std::marker::Model;
use std::mem::replace;
use task_seed::laws::machine_is_lawful;
use task_seed::{Setup, Turns};
use terms::{Action, NoMemory, State};
use virtual_time::exchanges::exchange_is_core;
use virtual_time::grouped::{
    group_exchange_is_core, group_exchange_is_sound, group_lease_law, group_window_law,
};

/// A group of components that a worker holds, away from what workers share: with its tray of messages that came to it and aren't
/// delivered yet, the messages that leave it, its floor, the least key that it had to do at its last meeting, and its window, if it has one. It
/// can't be cloned.
#[derive(Drop)]
pub struct Lease<T: Turns> {
    pub(crate) group: Group<T>,
    // Copies of the messages that leave it, where they were made since the last of these came.
    pub(crate) copies: Option<Copies>,
    effort: Effort,
}

impl<T: Turns> Model for Lease<T> {
    ghost use Rattle.std.specs.Prelude.{IfSome, length};
    ghost use Rattle.task_seed.specs.declared.setup.Setup.{Setup};
    ghost use Rattle.groups.specs.GroupView.{GroupView};
    ghost use Rattle.rollback.specs.ComponentView.{machine_of};
    ghost use Rattle.plans.specs.Plans.{composition};
    ghost use Rattle.task_seed.specs.Setups.{plan_of};
    ghost use Rattle.group_exchange.specs.LeaseView.{IsValidLease};
    ghost use Rattle.group_exchange.specs.Moving.{AreCopies};
    ghost use Rattle.group_exchange.specs.Windows.{KeepsToWindow};
    ghost use Rattle.std.specs.Coded.{codes};
    ghost use Rattle.plans.specs.KnownLaws.{are_known_prop};
    ghost use Rattle.terms.specs.Datum.{datum_code};
    ghost use Rattle.terms.specs.contracts.scalar.Shape as shape;
    ghost use Rattle.terms.specs.contracts.term.Term as term;
    ghost use Rattle.terms.specs.contracts.effect.Effect as effect;

    ghost Value = { GroupView (Setup T) };

    ghost coded = { Prim.hlevel (
      codes,
      are_known_prop,
      shape.the_row.coded,
      term.the_row.coded,
      effect.the_row.coded,
      datum_code,
    ) };

    ghost view = { λ l. l.group };

    ghost invariant = { λ l. IsValidLease (machine_of T.turn_of l.group.setup)
        (length (composition (plan_of l.group.setup))) l.group
        × IfSome l.copies (AreCopies l.group.out)
        × KeepsToWindow (machine_of T.turn_of l.group.setup)
        (length (composition (plan_of l.group.setup))) l.group };
}

impl<T: Turns> Lease<T> {
    /// The number of the group.
    pub fn number(&self) -> u16
        ensures { result ≡ self.now.number }
    {
        self.group.number()
    }

    /// Whether a component is one of the group's.
    pub fn has(&self, number: u16) -> bool
        ensures { result ≡ is_member self.now.components number }
    {
        self.group.has(number)
    }

    /// The least key that it had to do when it last met the exchange.
    pub fn floor(&self) -> Bound
        ensures { result ≡ self.now.floor }
    {
        self.group.floor()
    }

    /// Its window, if it has one.
    pub fn window(&self) -> Option<Window>
        ensures { result ≡ self.now.window }
    {
        self.group.window()
    }

    /// The least of the next keys of its components, or the end where none has anything to do.
    pub fn next(&self) -> Bound
        ensures { rank_of_bound result ≡ next_rank T.turn_of self.now }
    {
        self.group.next()
    }

    /// Whether its window, if it has one, has room for what is next: an own turn has room where its component has fewer done since the base, and
    /// an input always has. Where nothing is next, it has room too.
    pub fn may_go_on(&self) -> bool
        ensures { MayGoOn T.turn_of self.now.window result self.now.components }
    {
        self.group.may_go_on()
    }

    /// Whether messages or antimessages wait to leave at the next meeting.
    pub fn is_sending(&self) -> bool
        ensures { result ≡ is_nonempty self.now.out }
    {
        self.group.is_sending()
    }

    /// Every lease is sound: the records of its components are proper and grounded, and no key that is next, waits in its tray or is
    /// outgoing lies below its floor. Where it has a window, at most so many own turns of each component are done, and at most as many messages
    /// of each other component are done or pending. The call does nothing.
    pub fn soundness_law(&self)
        ensures sound { IsSoundLease T.turn_of self.now }
        ensures within { KeepsToWindow (machine_of T.turn_of self.now.setup)
            (length (composition (plan_of self.now.setup))) self.now }
        ensures few { StaysInWindow self.now }
    {
        let _number = self.group.number();
    }

    /// What was done since this was last asked, counted.
    pub fn take_effort(&mut self) -> Effort
        ensures { self.new ≡ self.old }
    {
        self.effort.lose(self.group.take_losses());
        replace(&mut self.effort, Effort::default())
    }

    /// Makes the copies that the exchange keeps of what waits to leave, so that the next meeting need not.
    pub fn pack(&mut self, alloc: Global) -> Result<(), NoMemory>
        ensures { self.new ≡ self.old }
    {
        let copies = self.take_copies(alloc)?;
        self.copies = Some(copies);
        Ok(())
    }

    // The copies that the exchange keeps of what waits to leave.
    pub(crate) fn take_copies(&mut self, alloc: Global) -> Result<Copies, NoMemory>
        ensures copies { IfOk result (AreCopies self.old.out) }
        ensures same { self.new ≡ self.old }
    {
        match replace(&mut self.copies, None) {
            Some(copies) => Ok(copies),
            None => copies_of(alloc, self.group.out()),
        }
    }

    /// Processes entries, at most `budget` of them, the least first, and delivers what its components send to each other at once. It tells how
    /// many entries these were, and why there were no more: it stops before an own turn for which its window has no room. Where memory was
    /// refused, what was processed before stays.
    pub fn run_ahead(&mut self, alloc: Global, budget: u32) -> Ran
        ensures ahead { IsAhead T.turn_of self.old self.new result.count }
        ensures most { result.count ≤ budget }
        ensures stop { HasStopped T.turn_of budget result.count result.stop self.new }
        ensures moves { MovesAlone T.turn_of self.old self.new }
        ensures known { StaysTheSame T.turn_of self.old self.new }
        ensures same { KeepsMembers self.old self.new }
        ensures window { self.new.window ≡ self.old.window }
        ensures few { StaysInWindow self.new }
        ensures kept { result.count ≡ 0 → self.new ≡ self.old }
    {
        let ran = self.run_some(alloc, budget);
        self.soundness_law();
        ran
    }

    // The same entries.
    fn run_some(&mut self, alloc: Global, budget: u32) -> Ran
        ensures ahead { IsAhead T.turn_of self.old self.new result.count }
        ensures most { result.count ≤ budget }
        ensures stop { HasStopped T.turn_of budget result.count result.stop self.new }
        ensures moves { MovesAlone T.turn_of self.old self.new }
        ensures known { StaysTheSame T.turn_of self.old self.new }
        ensures same { KeepsMembers self.old self.new }
        ensures window { self.new.window ≡ self.old.window }
        ensures kept { result.count ≡ 0 → self.new ≡ self.old }
    {
        machine_is_lawful(self.group.setup());
        exchange_is_core::<State, Action>();
        group_exchange_is_core::<State, Action>();
        group_exchange_is_sound::<State, Action>();
        group_lease_law::<State, Action>();
        group_window_law::<State, Action>();
        self.group.soundness_law();
        self.copies = None;
        let ran = self.group.run_ahead(alloc, budget);
        self.group.soundness_law();
        self.effort.process(ran.count);
        ran
    }

    /// Adds spare cells of turns that are of no use any more. They serve for its components' next turns, which then take no memory for it.
    pub fn add_spare(&mut self, spare: &mut EventList<Turned>)
        ensures kept { self.new ≡ self.old }
        ensures empty { spare.new ≡ record { before = []; after = [] } }
    {
        self.group.add_spare(spare);
    }

    /// Delivers all that is in its tray, and what follows of it within the group. It takes no memory.
    pub fn settle(&mut self)
        ensures settled { IsSettled T.turn_of self.old self.new }
        ensures moves { MovesAlone T.turn_of self.old self.new }
        ensures known { StaysTheSame T.turn_of self.old self.new }
        ensures same { KeepsMembers self.old self.new }
        ensures window { self.new.window ≡ self.old.window }
        ensures few { StaysInWindow self.new }
    {
        self.deliver_all();
        self.soundness_law();
    }

    // The same deliveries.
    fn deliver_all(&mut self)
        ensures settled { IsSettled T.turn_of self.old self.new }
        ensures moves { MovesAlone T.turn_of self.old self.new }
        ensures known { StaysTheSame T.turn_of self.old self.new }
        ensures same { KeepsMembers self.old self.new }
        ensures window { self.new.window ≡ self.old.window }
    {
        machine_is_lawful(self.group.setup());
        exchange_is_core::<State, Action>();
        group_exchange_is_core::<State, Action>();
        group_exchange_is_sound::<State, Action>();
        group_lease_law::<State, Action>();
        group_window_law::<State, Action>();
        self.group.soundness_law();
        self.copies = None;
        self.group.settle();
        self.group.soundness_law();
    }
}

// The lease of a group at the start.
pub(crate) fn lease_of<T: Turns>(group: Group<T>) -> Lease<T>
    requires valid { IsSoundLease T.turn_of group }
    requires within { KeepsToWindow (machine_of T.turn_of group.setup)
        (length (composition (plan_of group.setup))) group }
    ensures { result ≡ group }
{
    Lease {
        group,
        copies: None,
        effort: Effort::default(),
    }
}
