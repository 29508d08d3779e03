//! Meetings of a lease with what workers share.
ghost use Rattle.std.specs.Prelude.{◌≡◌, ◌<◌, ◌++◌, ℕ, List, Some, [], length, slice_get, IfOk, IfSome, OnOk, OnErr};
ghost use Rattle.event_keys.specs.Ranks.{rank_of_bound};
ghost use Rattle.antimessage.specs.Bags.{first_is_below, insert_all, without_below};
ghost use Rattle.task_seed.specs.Setups.{system};
ghost use Rattle.groups.specs.GroupView.{AreMembers, is_member};
ghost use Rattle.groups.specs.Moves.{theory};
ghost use Rattle.groups.specs.Open.{AllInside};
ghost use Rattle.virtual_time.specs.Groups.Leases.{IsFloor};
ghost use Rattle.groups.specs.GroupView.{lease_of};
ghost use Rattle.group_exchange.specs.ExchangeView.{group_at, inbox_of};
ghost use Rattle.group_exchange.specs.Held.{AreTakenIn, ArePuttable, HaveNothing};
ghost use Rattle.groups.specs.Dropping.{AreGivenUp, cut_all};
ghost use Rattle.raw_events.specs.Around.{Around};
ghost use Rattle.event_keys.specs.declared.outcome.Turned.{Turned as TurnedSeen};
ghost use Rattle.rollback.specs.ComponentView.{ComponentView};
ghost use Rattle.task_seed.specs.declared.setup.Setup.{Setup as SetupSeen};
ghost use Rattle.group_exchange.specs.LeaseView.{KeepsMembers};
ghost use Rattle.group_exchange.specs.Moving.{AllCome, HasMetStub, HasPassedOn, IsArrived, IsBrought, IsForgotten, IsHandedOver, IsSent, first_receiver};
ghost use Rattle.group_exchange.specs.Seen.{HasFewInInboxes, IsMeeting, Knows, StaysInWindow};

use crate::exchange::Exchange;
use crate::lease::Lease;
use crate::notes::Notes;
use crate::queue::{Queue, put_all_into};
use crate::stub::Stub;
use antimessage::Bag;
use antimessage::laws::order_law;
use event_keys::Bound;
use event_keys::laws::bound_law;
use groups::Group;
use rollback::Copies;
use rollback::laws::{comparable_law, flight_law};
use std::alloc::Global;
use std::mem::swap;
use task_seed::Turns;
use task_seed::laws::machine_is_lawful;
use terms::{Action, NoMemory, State};
use virtual_time::exchanges::exchange_is_core;
use virtual_time::grouped::{
    group_exchange_is_core, group_exchange_is_sound, group_meeting_law, group_window_law,
};
use virtual_time::merging::merging_law;

// Moves all messages into a bag, each to its place. In an empty one they have their places.
#[tactic(auto, using(crate::proofs::Moved::moved_in, crate::proofs::Moved::empty_out))]
fn move_all(bag: &mut Bag, other: &mut Bag)
    ensures all { bag.new ≡ insert_all other.old bag.old }
    ensures empty { other.new ≡ [] }
{
    order_law(other);
    if bag.is_empty() {
        swap(bag, other);
    } else {
        bag.append(other);
    }
}

// Whether there is a first message, and its key is below the bound.
#[tactic(auto, using(crate::proofs::Moved::least_below))]
fn is_first_below(bag: &Bag, bound: Bound) -> bool
    ensures { result ≡ first_is_below bound bag.now }
{
    let least = bag.least();
    bound_law(least, bound);
    least < bound
}

// Drops all messages whose keys are below the bound. They stand first.
fn drop_below(bag: &mut Bag, bound: Bound)
    ensures { bag.new ≡ without_below bound bag.old }
{
    order_law(bag);
    while is_first_below(bag, bound) {
        let _cell = bag.take_first();
    }
}

impl Stub {
    // What is outgoing leaves: messages stand, and antimessages take theirs out.
    fn send(&mut self, copies: &mut Bag, out: &Bag)
        ensures stub { IsSent copies.old out.now self.old self.new }
        ensures copies { copies.new ≡ [] }
    {
        flight_law();
        order_law(out);
        move_all(&mut self.standing, copies);
        order_law(&self.standing);
        self.standing.cancel(out);
        order_law(&self.standing);
    }

    // Signed messages come, and copies of the messages: of a message and its antimessage only one is left. The answer is how many pairs met.
    fn arrive(&mut self, mut came: Bag, mut copies: Bag) -> u64
        ensures { IsArrived came copies self.old self.new }
    {
        flight_law();
        move_all(&mut self.inbox, &mut came);
        order_law(&self.inbox);
        move_all(&mut self.copies, &mut copies);
        order_law(&self.copies);
        self.copies.cancel(&self.inbox);
        order_law(&self.copies);
        let pairs = self.inbox.meet_all();
        order_law(&self.inbox);
        pairs
    }

    // The inbox leaves: its messages are taken, and its antimessages take theirs out.
    fn hand_over(&mut self, came: &mut Bag)
        requires { came.old ≡ [] }
        ensures stub { IsHandedOver self.old self.new }
        ensures came { came.new ≡ self.old.inbox }
    {
        flight_law();
        order_law(&self.inbox);
        move_all(&mut self.taken, &mut self.copies);
        order_law(&self.taken);
        self.taken.cancel(&self.inbox);
        order_law(&self.taken);
        swap(&mut self.inbox, came);
    }

    // Below a bound nothing is kept, and the bound is the base.
    fn forget_below(&mut self, bound: Bound)
        ensures { IsForgotten bound self.old self.new }
    {
        flight_law();
        comparable_law(bound);
        order_law(&self.taken);
        drop_below(&mut self.taken, bound);
        order_law(&self.standing);
        drop_below(&mut self.standing, bound);
        self.base = bound;
    }
}

// To whom the first of these goes, if there is any.
fn first_receiver(bag: &Bag) -> Option<u16>
    ensures { result ≡ first_receiver bag.now }
{
    let mut items = bag.iter();
    let first = items.next()?;
    Some(first.message.to)
}

// The same of outgoing messages, and of the copies where nothing is outgoing.
fn next_receiver(out: &Bag, copies: &Bag) -> Option<u16>
    ensures { result ≡ first_receiver (out.now ++ copies.now) }
{
    match first_receiver(out) {
        Some(to) => Some(to),
        None => first_receiver(copies),
    }
}

/// The number of a component's group; one that no group has where it is in none.
pub(crate) fn group_at(groups: &[u16], to: u16) -> usize
    ensures { result ≡ group_at groups.now to }
{
    match groups.get(usize::from(to)) {
        None => 65_536,
        Some(group) => usize::from(*group),
    }
}

// Signed messages come to the stub of a group, if there is one, and copies of the messages. It stays a call, since most meetings send nothing.
#[inline(never)]
fn bring(stubs: &mut [Stub], group: usize, came: Bag, copies: Bag) -> u64
    ensures { IsBrought group came copies stubs.old stubs.new }
{
    if group < stubs.len() {
        stubs[group].arrive(came, copies)
    } else {
        0
    }
}

// All that is outgoing comes to the stubs, each message to that of its receiver's group. Only the receivers are gone through.
fn spread(stubs: &mut [Stub], groups: &[u16], out: &mut Bag, copies: &mut Bag, notes: &mut Notes)
    ensures come { AllCome (group_at groups.now) out.old copies.old stubs.old stubs.new }
    ensures many { length stubs.new ≡ length stubs.old }
{
    flight_law();
    while let Some(to) = next_receiver(out, copies) {
        let came = out.split_to(to);
        notes.tally.send(&came);
        let group = group_at(groups, to);
        let pairs = bring(stubs, group, came, copies.split_to(to));
        notes.tally.annihilate(pairs);
        notes.note(group);
    }
}

// A group meets its stub: what is outgoing stands, the inbox comes into the tray, and below the bound, which is the group's base by then, nothing is
// kept.
fn meet_stub<T: Turns>(
    own: &mut Stub,
    bound: Bound,
    group: &mut Group<T>,
    copies: &mut Bag,
    out: &Bag,
)
    requires { AllInside group.old.components own.old.inbox }
    ensures stub { HasMetStub bound group.new.floor out.now copies.old own.old own.new }
    ensures group { group.new ≡ record group.old {
      tray = insert_all own.old.inbox group.old.tray;
      floor = group.new.floor;
    } }
    ensures floor { (group_of : ℕ → ℕ)
        → AreMembers group_of group.old.number group.old.components
        → IsFloor (theory T.turn_of group.old) group_of group.old.number
        (rank_of_bound group.new.floor) (lease_of (theory T.turn_of group.old) group.new).part }
{
    own.send(copies, out);
    let mut came = Bag::new();
    own.hand_over(&mut came);
    own.forget_below(bound);
    group.append_tray(&mut came);
    let floor = group.least();
    group.set_floor(floor);
    own.floor = floor;
}

// What is outgoing of a group goes to the stubs of the others, and its own inbox into its tray.
fn pass_on<T: Turns>(
    stubs: &mut [Stub],
    groups: &[u16],
    bound: Bound,
    group: &mut Group<T>,
    mut copies: Copies,
    notes: &mut Notes,
)
    requires there { group.old.number < length stubs.old }
    requires inside { AllInside group.old.components
        (inbox_of (slice_get stubs.old group.old.number)) }
    ensures passed { HasPassedOn (group_at groups.now) group.old.number bound group.new.floor
        group.old.out copies stubs.old stubs.new }
    ensures group { group.new ≡ record group.old {
      out = [];
      tray = insert_all (inbox_of (slice_get stubs.old group.old.number)) group.old.tray;
      floor = group.new.floor;
    } }
    ensures floor { (group_of : ℕ → ℕ)
        → AreMembers group_of group.old.number group.old.components
        → IsFloor (theory T.turn_of group.old) group_of group.old.number
        (rank_of_bound group.new.floor) (lease_of (theory T.turn_of group.old) group.new).part }
{
    let i = usize::from(group.number());
    let mut out = group.take_out();
    meet_stub(&mut stubs[i], bound, group, &mut copies.of_sender, &out);
    spread(stubs, groups, &mut out, &mut copies.of_receiver, notes);
}

// What the components of a group give up below a bound comes into their queues, and the bound becomes the group's base. Where it is that already, they
// have nothing to give up. Where memory is refused nothing changes.
fn take_in<T: Turns>(
    alloc: Global,
    queues: &mut [Queue],
    group: &mut Group<T>,
    bound: Bound,
) -> Result<(), NoMemory>
    requires there { (place : ℕ) (c : ComponentView (SetupSeen T))
        → slice_get group.old.components place ≡ Some c → c.number < length queues.old }
    requires puttable { (lists : List (Around TurnedSeen))
        → AreGivenUp bound group.old.components lists
        → ArePuttable (cut_all T.turn_of bound group.old.components) lists }
    requires nothing { group.old.base ≡ bound
        → HaveNothing T.turn_of bound group.old.components }
    ensures group { OnOk result (group.new ≡ record group.old {
      base = bound;
      components = cut_all T.turn_of bound group.old.components;
    }) }
    ensures taken { OnOk result
        (AreTakenIn T.turn_of bound group.old.components queues.old queues.new) }
    ensures kept { OnErr result ((queues.new ≡ queues.old) × (group.new ≡ group.old)) }
{
    if group.base() == bound {
        return Ok(());
    }
    let mut lists = group.drop_below(alloc, bound)?;
    put_all_into(queues, group.components(), &mut lists);
    Ok(())
}

impl<T: Turns> Exchange<T> {
    /// A lease meets the exchange. Its outgoing messages and antimessages go to their receivers' inboxes, where each antimessage
    /// annihilates with its message; its own inbox goes into its tray; the done entries of its components below the exchange's bound are dropped,
    /// and their own turns are taken in; the bound becomes its base, and its floor the least of what its components have to do and of its tray's
    /// keys. The answer is the bound.
    ///
    /// The lease is known to be the one that is kept of its group. Each that has met the exchange is, and stays it while it waits, whatever
    /// other leases do. Where the exchange has a window, the lease has it too; where it has none, the lease has none from then on. Nothing is
    /// compared, so that the time grows only with what moves, and, where the bound has risen, with the number of the group's components. Where
    /// memory is refused, neither changes.
    ///
    /// In the whole world that the exchange and its leases stand for, wherever these are, messages meet their antimessages, and nothing else
    /// happens.
    pub fn meet_known(&mut self, alloc: Global, lease: &mut Lease<T>) -> Result<Bound, NoMemory>
        requires own { system T.turn_of self.old.setup ≡ system T.turn_of lease.old.setup }
        requires window { IfSome self.old.window (λ window. lease.old.window ≡ Some window) }
        requires known { Knows T.turn_of self.old lease.old }
        ensures bound { IfOk result (λ bound. bound ≡ self.old.bound) }
        ensures meeting { OnOk result (IsMeeting T.turn_of self.old lease.old self.new lease.new) }
        ensures there { length self.new.stubs ≡ length self.old.stubs }
        ensures rest { self.new ≡ record self.old { stubs = self.new.stubs; held = self.new.held } }
        ensures same { KeepsMembers lease.old lease.new }
        ensures inboxes { HasFewInInboxes T.turn_of self.new }
        ensures lease { StaysInWindow lease.new }
        ensures kept { OnErr result ((self.new ≡ self.old) × (lease.new ≡ lease.old)) }
    {
        let met = self.join(alloc, lease);
        self.soundness_law();
        lease.soundness_law();
        met
    }

    // The meeting.
    fn join(&mut self, alloc: Global, lease: &mut Lease<T>) -> Result<Bound, NoMemory>
        requires own { system T.turn_of self.old.setup ≡ system T.turn_of lease.old.setup }
        requires window { IfSome self.old.window (λ window. lease.old.window ≡ Some window) }
        requires known { Knows T.turn_of self.old lease.old }
        ensures bound { IfOk result (λ bound. bound ≡ self.old.bound) }
        ensures meeting { OnOk result (IsMeeting T.turn_of self.old lease.old self.new lease.new) }
        ensures there { length self.new.stubs ≡ length self.old.stubs }
        ensures rest { self.new ≡ record self.old { stubs = self.new.stubs; held = self.new.held } }
        ensures same { KeepsMembers lease.old lease.new }
        ensures kept { OnErr result ((self.new ≡ self.old) × (lease.new ≡ lease.old)) }
    {
        machine_is_lawful(&self.setup);
        flight_law();
        exchange_is_core::<State, Action>();
        group_exchange_is_core::<State, Action>();
        group_meeting_law::<State, Action>();
        group_exchange_is_sound::<State, Action>();
        merging_law::<Action>();
        group_window_law::<State, Action>();
        let copies = lease.take_copies(alloc)?;
        lease.group.soundness_law();
        take_in(alloc, &mut self.held, &mut lease.group, self.bound)?;
        lease.copies = None;
        self.notes.tally.meet();
        pass_on(
            &mut self.stubs,
            &self.groups,
            self.bound,
            &mut lease.group,
            copies,
            &mut self.notes,
        );
        lease.group.soundness_law();
        lease.group.set_window(self.window);
        Ok(self.bound)
    }
}
