//! Meetings of a lease with what workers share.
ghost use Rattle.std.specs.Prelude.{◌≡◌, ◌↔◌, ◌++◌, [], ℕ, List, Some, true, false, length, slice_get, IfErr, IfOk, OnOk, OnErr, IsOk, IsErrOf};
ghost use Rattle.event_keys.specs.Ranks.{rank_of_bound};
ghost use Rattle.antimessage.specs.Bags.{first_is_below, insert_all, without_below};
ghost use Rattle.antimessage.specs.Counts.{Each};
ghost use Rattle.plans.specs.Plans.{composition};
ghost use Rattle.task_seed.specs.Setups.{plan_of, system};
ghost use Rattle.exchange.specs.declared.stub.Stub.{Stub as StubValue};
ghost use Rattle.exchange.specs.LeaseView.{KeepsComponent};
ghost use Rattle.exchange.specs.Moving.{first_receiver, HasCome, IsBrought, IsSent, IsArrived, IsHandedOver, IsForgotten, IsReached, HasOwnInbox, HasPassedOn};
ghost use Rattle.exchange.specs.Seen.{HasFewInInboxes, HaveMet, IsFloorOf, Knows, OnlyMeets, StaysInWindow, is_own};
ghost use Rattle.exchange.specs.Windows.{IsInWindow, same_window};

use crate::exchange::Exchange;
use crate::holding::Holding;
use crate::judging::MeetRefused;
use crate::lease::Lease;
use crate::notes::Notes;
use crate::queue::put_into;
use crate::stub::{Stub, earlier};
use crate::window::is_same_window;
use antimessage::Bag;
use antimessage::laws::order_law;
use event_keys::laws::bound_law;
use event_keys::{Bound, Signed};
use raw_events::EventList;
use rollback::laws::{comparable_law, flight_law};
use rollback::{Component, Copies};
use std::mem::swap;
use task_seed::laws::machine_is_lawful;
use task_seed::{Setup, Turns};
use terms::{Action, State};
use virtual_time::exchanges::{exchange_is_core, exchange_is_sound, meeting_law, window_law};
use virtual_time::merging::merging_law;

// Moves all messages into a bag, each to its place. In an empty one they have their places.
#[tactic(auto, using(crate::proofs::Moved::moved_in, crate::proofs::Moved::empty_out))]
fn move_all(bag: &mut Bag, other: &mut Bag)
    ensures all { bag.new ≡ insert_all other.old bag.old }
    ensures empty { other.new ≡ [] }
{
    order_law(other);
    if bag.is_empty() {
        swap(bag, other);
    } else {
        bag.append(other);
    }
}

// Whether there is a first message, and its key is below the bound.
#[tactic(auto, using(crate::proofs::Moved::least_below))]
fn is_first_below(bag: &Bag, bound: Bound) -> bool
    ensures { result ≡ first_is_below bound bag.now }
{
    let least = bag.least();
    bound_law(least, bound);
    least < bound
}

// Takes all messages whose keys are below the bound. They stand first, and their cells serve again.
fn take_below(bag: &mut Bag, bound: Bound, cells: &mut EventList<Signed>)
    ensures { bag.new ≡ without_below bound bag.old }
{
    order_law(bag);
    while is_first_below(bag, bound) {
        if let Some(cell) = bag.take_first() {
            cells.push_last(cell);
        }
    }
}

impl Stub {
    // What is outgoing leaves: messages stand, and antimessages take theirs out.
    fn send(&mut self, copies: &mut Bag, out: &Bag)
        ensures stub { IsSent copies.old out.now self.old self.new }
        ensures copies { copies.new ≡ [] }
    {
        flight_law();
        order_law(out);
        move_all(&mut self.standing, copies);
        order_law(&self.standing);
        self.standing.cancel(out);
        order_law(&self.standing);
    }

    // Signed messages come, and copies of the messages: of a message and its antimessage only one is left. The answer is how many pairs met.
    fn arrive(&mut self, mut came: Bag, mut copies: Bag) -> u64
        ensures { IsArrived came copies self.old self.new }
    {
        flight_law();
        move_all(&mut self.inbox, &mut came);
        order_law(&self.inbox);
        move_all(&mut self.copies, &mut copies);
        order_law(&self.copies);
        self.copies.cancel(&self.inbox);
        order_law(&self.copies);
        let pairs = self.inbox.meet_all();
        order_law(&self.inbox);
        pairs
    }

    // Signed messages come, and copies of the messages. A stub to which nothing comes stays as it is.
    fn come(&mut self, came: Bag, copies: Bag) -> u64
        ensures { HasCome came copies self.old self.new }
    {
        if came.is_empty() && copies.is_empty() {
            return 0;
        }
        self.arrive(came, copies)
    }

    // The inbox goes into the tray: its messages are taken, and its antimessages take theirs out.
    fn hand_over(&mut self, tray: &mut Bag)
        ensures stub { IsHandedOver self.old self.new }
        ensures tray { tray.new ≡ insert_all self.old.inbox tray.old }
    {
        flight_law();
        order_law(&self.inbox);
        move_all(&mut self.taken, &mut self.copies);
        order_law(&self.taken);
        self.taken.cancel(&self.inbox);
        order_law(&self.taken);
        move_all(tray, &mut self.inbox);
    }

    // Below a bound nothing is kept but the cells, and the bound is the base.
    fn forget_below(&mut self, bound: Bound, cells: &mut EventList<Signed>)
        ensures { IsForgotten bound self.old self.new }
    {
        flight_law();
        comparable_law(bound);
        order_law(&self.taken);
        take_below(&mut self.taken, bound, cells);
        order_law(&self.standing);
        take_below(&mut self.standing, bound, cells);
        self.base = bound;
    }
}

// To whom the first of these goes, if there is any.
fn first_receiver(bag: &Bag) -> Option<u16>
    ensures { result ≡ first_receiver bag.now }
{
    let mut items = bag.iter();
    let first = items.next()?;
    Some(first.message.to)
}

// The same of outgoing messages, and of the copies where nothing is outgoing.
fn next_receiver(out: &Bag, copies: &Bag) -> Option<u16>
    ensures { result ≡ first_receiver (out.now ++ copies.now) }
{
    match first_receiver(out) {
        Some(to) => Some(to),
        None => first_receiver(copies),
    }
}

// Signed messages come to the stub of a component, if there is one, and copies of the messages. It stays a call, since most meetings send nothing.
#[inline(never)]
fn bring(stubs: &mut [Stub], to: u16, came: Bag, copies: Bag) -> u64
    ensures { IsBrought to came copies stubs.old stubs.new }
{
    if usize::from(to) < stubs.len() {
        stubs[usize::from(to)].come(came, copies)
    } else {
        0
    }
}

// All that is outgoing comes to the stubs, each message to its receiver's. Only the receivers are gone through, not all stubs.
fn spread(stubs: &mut [Stub], out: &mut Bag, copies: &mut Bag, notes: &mut Notes)
    ensures many { length stubs.new ≡ length stubs.old }
    ensures each { (j : ℕ) (stub : StubValue) → slice_get stubs.new j ≡ Some stub
        → IsReached out.old copies.old stubs.old j stub }
    ensures out { out.new ≡ [] }
    ensures copies { copies.new ≡ [] }
{
    while let Some(to) = next_receiver(out, copies) {
        let came = out.split_to(to);
        notes.tally.send(&came);
        let pairs = bring(stubs, to, came, copies.split_to(to));
        notes.tally.annihilate(pairs);
        notes.receivers.note(to);
    }
}

// The least of the component's next key and of the keys in its tray.
fn floor_of<T: Turns>(component: &Component<T>, tray: &Bag) -> Bound
    requires { Each (λ x. x.message.to ≡ component.now.number) tray.now }
    ensures { IsFloorOf T.turn_of component.now tray.now result }
{
    machine_is_lawful(component.setup());
    component.lists_law();
    order_law(tray);
    earlier(component.next(), tray.least())
}

// What is outgoing of a component goes to all stubs, and its own inbox into its tray. The answer is its floor from then on.
fn pass_on<T: Turns>(
    stubs: &mut [Stub],
    bound: Bound,
    component: &Component<T>,
    tray: &mut Bag,
    out: &mut Bag,
    copies: &mut Copies,
    notes: &mut Notes,
    cells: &mut EventList<Signed>,
) -> Bound
    requires many { length stubs.old ≡ length (composition (plan_of component.now.setup)) }
    requires arrived { Each (λ x. x.message.to ≡ component.now.number) tray.old }
    requires inbox { HasOwnInbox component.now.number stubs.old }
    ensures passed { HasPassedOn component.now.number bound result out.old copies.old tray.old
        tray.new stubs.old stubs.new }
    ensures arrived { Each (λ x. x.message.to ≡ component.now.number) tray.new }
    ensures floor { IsFloorOf T.turn_of component.now tray.new result }
    ensures out { out.new ≡ [] }
    ensures copies { copies.new ≡ record { of_sender = []; of_receiver = [] } }
{
    flight_law();
    machine_is_lawful(component.setup());
    let i = usize::from(component.number());
    stubs[i].send(&mut copies.of_sender, out);
    spread(stubs, out, &mut copies.of_receiver, notes);
    let own = &mut stubs[i];
    own.hand_over(tray);
    own.forget_below(bound, cells);
    own.floor = floor_of(component, tray);
    own.floor
}

impl<T: Turns> Exchange<T> {
    /// A lease meets the exchange. Its outgoing messages and antimessages go to their receivers' inboxes, where each antimessage
    /// annihilates with its message; its own inbox goes into its tray; its done entries below the exchange's bound are dropped, and their
    /// own turns are taken in; the bound becomes its base, and its floor the least of its next key and of its tray's keys. The answer is
    /// the bound.
    ///
    /// It is accepted exactly where the lease's setup and window are the exchange's (else 40), and its base, floor, taken messages and standing
    /// sends are those that are kept of its component (else 41). A refusal changes neither. It takes no memory.
    ///
    /// In the whole world that the exchange and its leases stand for, wherever these are, messages meet their antimessages, and nothing else
    /// happens.
    pub fn meet(&mut self, lease: &mut Lease<T>) -> Result<Bound, MeetRefused>
        ensures ok { IsOk result ↔
            ((is_own ⟦<Setup<T> as PartialEq>⟧.eq self.old lease.old ≡ true)
            × Knows T.turn_of self.old lease.old) }
        ensures other { IsErrOf result MeetRefused.OtherSetup
            ↔ (is_own ⟦<Setup<T> as PartialEq>⟧.eq self.old lease.old ≡ false) }
        ensures bound { IfOk result (λ bound. bound ≡ self.old.bound) }
        ensures met { OnOk result (HaveMet T.turn_of self.old lease.old self.new lease.new) }
        ensures core { OnOk result (OnlyMeets T.turn_of self.old lease.old self.new lease.new) }
        ensures rest { self.new ≡ record self.old { stubs = self.new.stubs; held = self.new.held } }
        ensures same { OnOk result (KeepsComponent lease.old lease.new) }
        ensures kept { OnErr result ((self.new ≡ self.old) × (lease.new ≡ lease.old)) }
        ensures inboxes { HasFewInInboxes T.turn_of self.new }
        ensures lease { StaysInWindow lease.new }
    {
        let met = self.meet_if_own(lease);
        self.soundness_law();
        lease.soundness_law();
        met
    }

    // The meeting, where the lease is one of the exchange's.
    fn meet_if_own(&mut self, lease: &mut Lease<T>) -> Result<Bound, MeetRefused>
        ensures ok { IsOk result ↔ ((is_own ⟦<Setup<T> as PartialEq>⟧.eq self.old lease.old ≡ true)
            × Knows T.turn_of self.old lease.old) }
        ensures other { IsErrOf result MeetRefused.OtherSetup
            ↔ (is_own ⟦<Setup<T> as PartialEq>⟧.eq self.old lease.old ≡ false) }
        ensures bound { IfOk result (λ bound. bound ≡ self.old.bound) }
        ensures met { OnOk result (HaveMet T.turn_of self.old lease.old self.new lease.new) }
        ensures core { OnOk result (OnlyMeets T.turn_of self.old lease.old self.new lease.new) }
        ensures rest { self.new ≡ record self.old { stubs = self.new.stubs; held = self.new.held } }
        ensures same { OnOk result (KeepsComponent lease.old lease.new) }
        ensures kept { OnErr result ((self.new ≡ self.old) × (lease.new ≡ lease.old)) }
    {
        if !self.is_own(lease) {
            return Err(MeetRefused::OtherSetup);
        }
        self.meet_within(lease)
    }

    /// Does the same as `meet` with a lease whose setup is known to mean what the exchange's does. The setups, which may be long, aren't compared,
    /// so that the time doesn't grow with them. It is refused exactly where the windows differ (40), or base, floor, taken messages and standing
    /// sends aren't those that are kept of the lease's component (41); a refusal changes neither. It takes no memory.
    pub fn meet_own(&mut self, lease: &mut Lease<T>) -> Result<Bound, MeetRefused>
        requires own { system T.turn_of self.old.setup
            ≡ system T.turn_of lease.old.component.setup }
        ensures ok { IsOk result ↔ ((same_window self.old.window lease.old.window ≡ true)
            × Knows T.turn_of self.old lease.old) }
        ensures other { IsErrOf result MeetRefused.OtherSetup
            ↔ (same_window self.old.window lease.old.window ≡ false) }
        ensures window { OnOk result (self.old.window ≡ lease.old.window) }
        ensures bound { IfOk result (λ bound. bound ≡ self.old.bound) }
        ensures met { OnOk result (HaveMet T.turn_of self.old lease.old self.new lease.new) }
        ensures core { OnOk result (OnlyMeets T.turn_of self.old lease.old self.new lease.new) }
        ensures rest { self.new ≡ record self.old { stubs = self.new.stubs; held = self.new.held } }
        ensures same { OnOk result (KeepsComponent lease.old lease.new) }
        ensures kept { OnErr result ((self.new ≡ self.old) × (lease.new ≡ lease.old)) }
        ensures inboxes { HasFewInInboxes T.turn_of self.new }
        ensures lease { StaysInWindow lease.new }
    {
        let met = self.meet_in_window(lease);
        self.soundness_law();
        lease.soundness_law();
        met
    }

    // The same meeting.
    fn meet_in_window(&mut self, lease: &mut Lease<T>) -> Result<Bound, MeetRefused>
        requires own { system T.turn_of self.old.setup
            ≡ system T.turn_of lease.old.component.setup }
        ensures ok { IsOk result ↔ ((same_window self.old.window lease.old.window ≡ true)
            × Knows T.turn_of self.old lease.old) }
        ensures other { IsErrOf result MeetRefused.OtherSetup
            ↔ (same_window self.old.window lease.old.window ≡ false) }
        ensures window { OnOk result (self.old.window ≡ lease.old.window) }
        ensures bound { IfOk result (λ bound. bound ≡ self.old.bound) }
        ensures met { OnOk result (HaveMet T.turn_of self.old lease.old self.new lease.new) }
        ensures core { OnOk result (OnlyMeets T.turn_of self.old lease.old self.new lease.new) }
        ensures rest { self.new ≡ record self.old { stubs = self.new.stubs; held = self.new.held } }
        ensures same { OnOk result (KeepsComponent lease.old lease.new) }
        ensures kept { OnErr result ((self.new ≡ self.old) × (lease.new ≡ lease.old)) }
    {
        if !is_same_window(self.window, lease.window()) {
            return Err(MeetRefused::OtherSetup);
        }
        self.meet_within(lease)
    }

    // The meeting with a lease whose setup means what the exchange's does, and whose window is the exchange's.
    fn meet_within(&mut self, lease: &mut Lease<T>) -> Result<Bound, MeetRefused>
        requires own { system T.turn_of self.old.setup
            ≡ system T.turn_of lease.old.component.setup }
        requires window { self.old.window ≡ lease.old.window }
        ensures ok { IsOk result ↔ Knows T.turn_of self.old lease.old }
        ensures stranger { IfErr result (λ refused. refused ≡ MeetRefused.Stranger) }
        ensures bound { IfOk result (λ bound. bound ≡ self.old.bound) }
        ensures met { OnOk result (HaveMet T.turn_of self.old lease.old self.new lease.new) }
        ensures core { OnOk result (OnlyMeets T.turn_of self.old lease.old self.new lease.new) }
        ensures rest { self.new ≡ record self.old { stubs = self.new.stubs; held = self.new.held } }
        ensures same { OnOk result (KeepsComponent lease.old lease.new) }
        ensures kept { OnErr result ((self.new ≡ self.old) × (lease.new ≡ lease.old)) }
    {
        self.judge_own(lease)?;
        Ok(self.meet_known(lease))
    }

    /// Does the same as `meet_own` with a lease of the exchange's window that is known to be the one that is kept of its component. Each that has
    /// met the exchange is, and stays it while it waits, whatever other leases do. Nothing is compared, so that the time grows only with what
    /// moves. It takes no memory.
    pub fn meet_known(&mut self, lease: &mut Lease<T>) -> Bound
        requires own { system T.turn_of self.old.setup
            ≡ system T.turn_of lease.old.component.setup }
        requires window { self.old.window ≡ lease.old.window }
        requires known { Knows T.turn_of self.old lease.old }
        ensures bound { result ≡ self.old.bound }
        ensures met { HaveMet T.turn_of self.old lease.old self.new lease.new }
        ensures core { OnlyMeets T.turn_of self.old lease.old self.new lease.new }
        ensures rest { self.new ≡ record self.old { stubs = self.new.stubs; held = self.new.held } }
        ensures same { KeepsComponent lease.old lease.new }
        ensures inboxes { HasFewInInboxes T.turn_of self.new }
        ensures lease { StaysInWindow lease.new }
    {
        machine_is_lawful(self.setup());
        exchange_is_core::<State, Action>();
        exchange_is_sound::<State, Action>();
        self.soundness_law();
        let bound = self.accept(lease);
        self.soundness_law();
        lease.soundness_law();
        bound
    }

    // The meeting. The cells of messages that are kept no longer serve the lease again.
    fn accept(&mut self, lease: &mut Lease<T>) -> Bound
        requires same { system T.turn_of self.old.setup
            ≡ system T.turn_of lease.old.component.setup }
        requires window { self.old.window ≡ lease.old.window }
        requires matches { Knows T.turn_of self.old lease.old }
        ensures bound { result ≡ self.old.bound }
        ensures met { HaveMet T.turn_of self.old lease.old self.new lease.new }
        ensures rest { self.new ≡ record self.old { stubs = self.new.stubs; held = self.new.held } }
        ensures same { KeepsComponent lease.old lease.new }
    {
        machine_is_lawful(self.setup());
        window_law::<State, Action>();
        self.soundness_law();
        lease.soundness_law();
        lease.holding.holding_law();
        self.take_in(&mut lease.holding)
    }

    // The same of what a lease holds, where that is in its window.
    fn take_in(&mut self, holding: &mut Holding<T>) -> Bound
        requires same { system T.turn_of self.old.setup
            ≡ system T.turn_of holding.old.component.setup }
        requires window { self.old.window ≡ holding.old.window }
        requires within { IsInWindow (length (composition (plan_of holding.old.component.setup)))
            holding.old }
        requires matches { Knows T.turn_of self.old holding.old }
        ensures bound { result ≡ self.old.bound }
        ensures met { HaveMet T.turn_of self.old holding.old self.new holding.new }
        ensures rest { self.new ≡ record self.old { stubs = self.new.stubs; held = self.new.held } }
        ensures same { KeepsComponent holding.old holding.new }
    {
        self.notes.tally.meet();
        let mut cells = EventList::new();
        let bound = self.join(holding, &mut cells);
        holding.component.add_spare_messages(&mut cells);
        bound
    }

    // The same, where these are the cells.
    fn join(&mut self, lease: &mut Holding<T>, cells: &mut EventList<Signed>) -> Bound
        requires same { system T.turn_of self.old.setup
            ≡ system T.turn_of lease.old.component.setup }
        requires window { self.old.window ≡ lease.old.window }
        requires within { IsInWindow (length (composition (plan_of lease.old.component.setup)))
            lease.old }
        requires matches { Knows T.turn_of self.old lease.old }
        ensures bound { result ≡ self.old.bound }
        ensures met { HaveMet T.turn_of self.old lease.old self.new lease.new }
        ensures rest { self.new ≡ record self.old { stubs = self.new.stubs; held = self.new.held } }
        ensures same { KeepsComponent lease.old lease.new }
    {
        machine_is_lawful(&self.setup);
        flight_law();
        meeting_law::<State, Action>();
        exchange_is_sound::<State, Action>();
        merging_law::<Action>();
        window_law::<State, Action>();
        let turns = lease.component.drop_below(self.bound);
        put_into(&mut self.held, lease.component.number(), turns);
        lease.floor = pass_on(
            &mut self.stubs,
            self.bound,
            &lease.component,
            &mut lease.tray,
            &mut lease.out,
            &mut lease.copies,
            &mut self.notes,
            cells,
        );
        self.bound
    }
}
