//! What workers share.
ghost use Rattle.std.specs.Prelude.{◌≡◌, ℕ, ◌≤◌, ◌<◌, ◌+◌, ◌↔◌, true, Some, List, [], ◌∷◌, length, map, slice_get, option_map};
ghost use Rattle.std.specs.Arc.{arc_value};
ghost use Rattle.event_keys.specs.declared.key.Bound.TheVariants.{At, End};
ghost use Rattle.event_keys.specs.Ranks.{rank_of_bound};
ghost use Rattle.virtual_time.specs.Reference.{reference_below, point, turns_of};
ghost use Rattle.virtual_time.specs.Exchange.Leases.{Lease as LeaseSeen};
ghost use Rattle.virtual_time.specs.Exchange.Stubs.{IsSound};
ghost use Rattle.virtual_time.specs.Worlds.{Commit};
ghost use Rattle.terms.specs.Datum.{Datum};
ghost use Rattle.terms.specs.Named.{Named};
ghost use Rattle.plans.specs.Plans.{composition};
ghost use Rattle.task_seed.specs.Setups.{system, plan_of};
ghost use Rattle.task_seed.specs.Machines.{end_rank};
ghost use Rattle.rollback.specs.ComponentView.{machine_of};
ghost use Rattle.gvt.specs.Least.{IsLeast};
ghost use Rattle.exchange.specs.declared.stub.Stub.{Stub as StubValue};
ghost use Rattle.exchange.specs.ExchangeView.{ArePassing, HavePassed, clear_until, has_mail, is_end, is_ended, IsValidExchange};
ghost use Rattle.std.specs.List.{list_all};
ghost use Rattle.exchange.specs.Seen.{HasCommitted, HasFewInInboxes, IsOneCommit, IsSoundExchange};
ghost use Rattle.exchange.specs.Windows.{HasWindow};

use crate::notes::Notes;
use crate::queue::Queue;
use crate::stub::Stub;
use crate::tally::Tally;
use crate::window::Window;
use event_keys::Bound;
use event_keys::laws::rank_law;
use gvt::least_bound;
use std::marker::Model;
use std::sync::Arc;
use task_seed::laws::machine_is_lawful;
use task_seed::{Setup, Turns, Walk};
use terms::{Action, State};
use virtual_time::exchanges::{exchange_is_core, exchange_is_sound, window_law};
use virtual_time::reference::reference_is_counted;

/// What workers share: for each component a stub, the committed bound, the turns taken in and not yet given, how many were given, and the
/// window of its leases, if they have one.
#[derive(Drop)]
pub struct Exchange<T: Turns> {
    pub(crate) setup: Arc<Setup<T>>,
    pub(crate) stubs: Vec<Stub>,
    // For each component the walk by which its turns are read as they are committed.
    pub(crate) walks: Vec<Walk>,
    pub(crate) bound: Bound,
    // For each component its turns that were taken in and not given.
    pub(crate) held: Vec<Queue>,
    pub(crate) given: u64,
    pub(crate) window: Option<Window>,
    pub(crate) notes: Notes,
}

impl<T: Turns> Model for Exchange<T> {
    ghost use Rattle.std.specs.Prelude.{◌≡◌, length};
    ghost use Rattle.std.specs.Arc.{arc_value};
    ghost use Rattle.plans.specs.Plans.{composition};
    ghost use Rattle.task_seed.specs.declared.setup.Setup.{Setup};
    ghost use Rattle.task_seed.specs.Setups.{plan_of, system};
    ghost use Rattle.exchange.specs.ExchangeView.{ExchangeView, IsValidExchange};
    ghost use Rattle.exchange.specs.Windows.{HasWindow};
    ghost use Rattle.task_seed.specs.Machines.{machine};
    ghost use Rattle.std.specs.Coded.{codes};
    ghost use Rattle.plans.specs.KnownLaws.{are_known_prop};
    ghost use Rattle.terms.specs.Datum.{datum_code};
    ghost use Rattle.terms.specs.contracts.scalar.Shape as shape;
    ghost use Rattle.terms.specs.contracts.term.Term as term;
    ghost use Rattle.terms.specs.contracts.effect.Effect as effect;

    ghost Value = { ExchangeView (Setup T) };

    ghost coded = { Prim.hlevel (
      codes,
      are_known_prop,
      shape.the_row.coded,
      term.the_row.coded,
      effect.the_row.coded,
      datum_code,
    ) };

    ghost view = { λ e.
        record {
          setup = arc_value e.setup;
          stubs = e.stubs.items;
          bound = e.bound;
          held = e.held.items;
          given = e.given;
          window = e.window;
        } };

    ghost invariant = { λ e. (length e.walks.items
        ≡ length (composition (plan_of (arc_value e.setup))))
        × IsValidExchange (system T.turn_of (arc_value e.setup))
        (record {
          setup = arc_value e.setup;
          stubs = e.stubs.items;
          bound = e.bound;
          held = e.held.items;
          given = e.given;
          window = e.window;
        })
        × HasWindow (machine (system T.turn_of (arc_value e.setup)))
        (length (composition (plan_of (arc_value e.setup))))
        (record {
          setup = arc_value e.setup;
          stubs = e.stubs.items;
          bound = e.bound;
          held = e.held.items;
          given = e.given;
          window = e.window;
        }) };
}

impl<T: Turns> Exchange<T> {
    /// The setup.
    pub fn setup(&self) -> &Setup<T>
        ensures { result.now ≡ self.now.setup }
    {
        &self.setup
    }

    /// Every exchange is sound, though every lease may be away: its bound lies between all bases and all floors, and no key in an inbox is below
    /// it; from the bound on, what senders have standing is what receivers have taken or have in their inboxes; below it, both are what the
    /// reference sends; and what was taken in and given are the reference's turns. Where it has a window, all inboxes together hold at most
    /// twice as many messages and antimessages as that has turns for each pair of components. The call does nothing.
    pub fn soundness_law(&self)
        ensures sound { IsSoundExchange T.turn_of self.now }
        ensures shared { IsValidExchange (system T.turn_of self.now.setup) self.now }
        ensures within { HasWindow (machine_of T.turn_of self.now.setup)
            (length (composition (plan_of self.now.setup))) self.now }
        ensures few { HasFewInInboxes T.turn_of self.now }
    {
        machine_is_lawful(&self.setup);
        window_law::<State, Action>();
    }

    /// The bound that the last commit left: nothing below it can come any more. Before the first commit there is no key below it.
    pub fn bound(&self) -> Bound
        ensures { result ≡ self.now.bound }
    {
        self.bound
    }

    /// The window of its leases, if they have one.
    pub fn window(&self) -> Option<Window>
        ensures { result ≡ self.now.window }
    {
        self.window
    }

    /// How many turns chunks have given.
    pub fn given(&self) -> u64
        ensures { result ≡ self.now.given }
    {
        self.given
    }

    /// Whether messages wait for a component. For one that there isn't none do.
    pub fn has_mail(&self, number: u16) -> bool
        ensures { result ≡ has_mail (slice_get self.now.stubs number) }
    {
        match self.stubs.get(usize::from(number)) {
            None => false,
            Some(stub) => !stub.inbox.is_empty(),
        }
    }

    /// A component to whose inbox something came since it was last answered here, if there is one, the last one first. It tells who looks for
    /// work whom to look at; something may still wait where it doesn't, and nothing may wait any more where it does.
    pub fn take_receiver(&mut self) -> Option<u16>
        ensures { self.new ≡ self.old }
    {
        self.notes.receivers.take()
    }

    /// What happened since the start, counted.
    pub fn tally(&self) -> Tally {
        self.notes.tally
    }

    /// Whether every base is the end: then all turns that there are lie below the bases.
    pub fn finished(&self) -> bool
        ensures { result ≡ list_all is_ended self.now.stubs }
    {
        all_ended(&self.stubs)
    }

    /// Raises the bound to the least of all floors and of all keys in inboxes: nothing below it can come any more. The answer is the
    /// number of the turns with keys below it. It takes no memory; its time grows with the number of the components and with that of the
    /// turns that were passed.
    ///
    /// It is one commit of the whole world that the exchange and its leases stand for, wherever these are.
    pub fn commit(&mut self) -> u64
        ensures commit { HasCommitted T.turn_of self.old self.new }
        ensures rest { self.new
            ≡ record self.old { bound = self.new.bound; stubs = self.new.stubs } }
        ensures stubs { HavePassed
            (system T.turn_of self.old.setup) self.new.bound self.old.stubs self.new.stubs }
        ensures count { result ≡ length
            (reference_below (machine_of T.turn_of self.old.setup) (rank_of_bound self.new.bound)) }
        ensures core { IsOneCommit T.turn_of self.old self.new }
        ensures inboxes { HasFewInInboxes T.turn_of self.new }
    {
        machine_is_lawful(self.setup());
        exchange_is_core::<State, Action>();
        self.soundness_law();
        let count = self.raise_bound();
        self.soundness_law();
        count
    }

    fn raise_bound(&mut self) -> u64
        ensures commit { HasCommitted T.turn_of self.old self.new }
        ensures rest { self.new
            ≡ record self.old { bound = self.new.bound; stubs = self.new.stubs } }
        ensures stubs { HavePassed
            (system T.turn_of self.old.setup) self.new.bound self.old.stubs self.new.stubs }
        ensures count { result ≡ length
            (reference_below (machine_of T.turn_of self.old.setup) (rank_of_bound self.new.bound)) }
    {
        machine_is_lawful(&self.setup);
        exchange_is_sound::<State, Action>();
        reference_is_counted::<State, Action>();
        window_law::<State, Action>();
        self.notes.tally.commit();
        let bound = least_clear(&self.stubs);
        is_bounded(bound);
        let count = pass_all(&self.setup, &mut self.stubs, &mut self.walks, bound);
        self.bound = bound;
        count
    }
}

fn is_end(bound: Bound) -> bool
    ensures { result ≡ is_end bound }
{
    match bound {
        Bound::At(_) => false,
        Bound::End => true,
    }
}

fn all_ended(stubs: &[Stub]) -> bool
    ensures { result ≡ list_all is_ended stubs.now }
{
    stubs.iter().all(|stub| is_end(stub.base))
}

// The least of all floors and of all keys in inboxes.
fn least_clear(stubs: &[Stub]) -> Bound
    ensures { IsLeast (map clear_until stubs.now) result }
{
    least_bound(stubs.iter().map(|stub| stub.clear_until()))
}

// The rank of a bound is at most the end's.
#[tactic(auto, using(crate::proofs::Committing::end_is))]
pub(crate) fn is_bounded(bound: Bound)
    ensures { rank_of_bound bound ≤ end_rank }
{
    if let Bound::At(key) = bound {
        rank_law(key);
    }
}

// Counts all turns below a bound.
fn pass_all<T: Turns>(setup: &Setup<T>, stubs: &mut [Stub], walks: &mut [Walk], bound: Bound) -> u64
    requires walks { length walks.old ≡ length (composition (plan_of setup.now)) }
    requires many { length stubs.old ≡ length (composition (plan_of setup.now)) }
    requires passing { ArePassing (system T.turn_of setup.now) bound stubs.old }
    requires end { rank_of_bound bound ≤ end_rank }
    ensures items { length walks.new ≡ length walks.old }
    ensures stubs { HavePassed (system T.turn_of setup.now) bound stubs.old stubs.new }
    ensures many { length stubs.new ≡ length stubs.old }
    ensures passed { ArePassing (system T.turn_of setup.now) bound stubs.new }
    ensures count { result ≡ turns_of (point (machine_of T.turn_of setup.now) (rank_of_bound bound))
        (length (composition (plan_of setup.now))) }
{
    machine_is_lawful(setup);
    reference_is_counted::<State, Action>();
    let mut count = 0;
    for i in 0..setup.plan().components() {
        let stub = &mut stubs[usize::from(i)];
        stub.pass_turns(setup, i, &mut walks[usize::from(i)], bound);
        count += stub.passed;
    }
    count
}
