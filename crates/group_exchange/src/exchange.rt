//! What workers share who hold components in groups.
ghost use Rattle.std.specs.Prelude.{◌≡◌, length, slice_get};
ghost use Rattle.std.specs.List.{list_all};
ghost use Rattle.plans.specs.Plans.{composition};
ghost use Rattle.rollback.specs.ComponentView.{machine_of};
ghost use Rattle.task_seed.specs.Setups.{system, plan_of};
ghost use Rattle.group_exchange.specs.ExchangeView.{IsValidExchange, has_mail, is_end, is_ended};
ghost use Rattle.group_exchange.specs.Seen.{HasFewInInboxes, IsSoundExchange};
ghost use Rattle.group_exchange.specs.Windows.{HasWindow};

use crate::notes::Notes;
use crate::passage::Passage;
use crate::queue::Queue;
use crate::stub::Stub;
use crate::tally::Tally;
use event_keys::Bound;
use groups::Window;
use std::marker::Model;
use std::sync::Arc;
use task_seed::laws::machine_is_lawful;
use task_seed::{Setup, Turns, Walk};
use terms::{Action, State};
use virtual_time::grouped::group_window_law;

/// What workers share who hold components in groups: for each group a stub, the committed bound, for each component how far its turns are
/// counted and the turns taken in and not yet given, how many were given, and the window of its leases, if they have one.
#[derive(Drop)]
pub struct Exchange<T: Turns> {
    pub(crate) setup: Arc<Setup<T>>,
    // Of each component the number of its group.
    pub(crate) groups: Vec<u16>,
    pub(crate) stubs: Vec<Stub>,
    pub(crate) passages: Vec<Passage>,
    // For each component the walk by which its turns are read as they are committed.
    pub(crate) walks: Vec<Walk>,
    pub(crate) bound: Bound,
    // For each component its turns that were taken in and not given.
    pub(crate) held: Vec<Queue>,
    pub(crate) given: u64,
    // The window of its leases, if they have one.
    pub(crate) window: Option<Window>,
    pub(crate) notes: Notes,
}

impl<T: Turns> Model for Exchange<T> {
    ghost use Rattle.std.specs.Prelude.{◌≡◌, length};
    ghost use Rattle.std.specs.Arc.{arc_value};
    ghost use Rattle.plans.specs.Plans.{composition};
    ghost use Rattle.task_seed.specs.declared.setup.Setup.{Setup};
    ghost use Rattle.task_seed.specs.Setups.{plan_of, system};
    ghost use Rattle.task_seed.specs.Machines.{machine};
    ghost use Rattle.group_exchange.specs.ExchangeView.{ExchangeView, IsValidExchange};
    ghost use Rattle.group_exchange.specs.Windows.{HasWindow};
    ghost use Rattle.std.specs.Coded.{codes};
    ghost use Rattle.plans.specs.KnownLaws.{are_known_prop};
    ghost use Rattle.terms.specs.Datum.{datum_code};
    ghost use Rattle.terms.specs.contracts.scalar.Shape as shape;
    ghost use Rattle.terms.specs.contracts.term.Term as term;
    ghost use Rattle.terms.specs.contracts.effect.Effect as effect;

    ghost Value = { ExchangeView (Setup T) };

    ghost coded = { Prim.hlevel (
      codes,
      are_known_prop,
      shape.the_row.coded,
      term.the_row.coded,
      effect.the_row.coded,
      datum_code,
    ) };

    ghost view = { λ e.
        record {
          setup = arc_value e.setup;
          groups = e.groups.items;
          stubs = e.stubs.items;
          passages = e.passages.items;
          bound = e.bound;
          held = e.held.items;
          given = e.given;
          window = e.window;
        } };

    ghost invariant = { λ e. (length e.walks.items
        ≡ length (composition (plan_of (arc_value e.setup))))
        × IsValidExchange (system T.turn_of (arc_value e.setup))
        (record {
          setup = arc_value e.setup;
          groups = e.groups.items;
          stubs = e.stubs.items;
          passages = e.passages.items;
          bound = e.bound;
          held = e.held.items;
          given = e.given;
          window = e.window;
        })
        × HasWindow (machine (system T.turn_of (arc_value e.setup)))
        (length (composition (plan_of (arc_value e.setup))))
        (record {
          setup = arc_value e.setup;
          groups = e.groups.items;
          stubs = e.stubs.items;
          passages = e.passages.items;
          bound = e.bound;
          held = e.held.items;
          given = e.given;
          window = e.window;
        }) };
}

impl<T: Turns> Exchange<T> {
    /// The setup.
    pub fn setup(&self) -> &Setup<T>
        ensures { result.now ≡ self.now.setup }
    {
        &self.setup
    }

    /// Of each component the number of its group.
    pub fn groups(&self) -> &[u16]
        ensures { result.now ≡ self.now.groups }
    {
        self.groups.as_slice()
    }

    /// Every exchange is sound, though every lease may be away: its bound lies between all bases and all floors, and no key in an inbox is below
    /// it; from the bound on, what groups have standing at others is what these have taken or have in their inboxes; below it, both are what the
    /// reference sends; and what was taken in and given are the reference's turns. Where it has a window, all inboxes together hold at most
    /// twice as many messages and antimessages as that has turns for each pair of components of two groups. The call does nothing.
    pub fn soundness_law(&self)
        ensures sound { IsSoundExchange T.turn_of self.now }
        ensures shared { IsValidExchange (system T.turn_of self.now.setup) self.now }
        ensures within { HasWindow (machine_of T.turn_of self.now.setup)
            (length (composition (plan_of self.now.setup))) self.now }
        ensures few { HasFewInInboxes T.turn_of self.now }
    {
        machine_is_lawful(&self.setup);
        group_window_law::<State, Action>();
    }

    /// The bound that the last commit left: nothing below it can come any more. Before the first commit there is no key below it.
    pub fn bound(&self) -> Bound
        ensures { result ≡ self.now.bound }
    {
        self.bound
    }

    /// The window of its leases, if they have one.
    pub fn window(&self) -> Option<Window>
        ensures { result ≡ self.now.window }
    {
        self.window
    }

    /// How many turns chunks have given.
    pub fn given(&self) -> u64
        ensures { result ≡ self.now.given }
    {
        self.given
    }

    /// Whether messages wait for the components of a group. For one that there isn't none do.
    pub fn has_mail(&self, number: u16) -> bool
        ensures { result ≡ has_mail (slice_get self.now.stubs number) }
    {
        match self.stubs.get(usize::from(number)) {
            None => false,
            Some(stub) => !stub.inbox.is_empty(),
        }
    }

    /// A group to whose inbox something came since it was last answered here, if there is one, the last one first. It tells who looks for
    /// work whom to look at; something may still wait where it doesn't, and nothing may wait any more where it does.
    pub fn take_receiver(&mut self) -> Option<u16>
        ensures { self.new ≡ self.old }
    {
        self.notes.receivers.take()
    }

    /// What happened since the start, counted.
    pub fn tally(&self) -> Tally {
        self.notes.tally
    }

    /// Whether every base is the end: then all turns that there are lie below the bases.
    pub fn finished(&self) -> bool
        ensures { result ≡ list_all is_ended self.now.stubs }
    {
        all_ended(&self.stubs)
    }
}

fn is_end(bound: Bound) -> bool
    ensures { result ≡ is_end bound }
{
    match bound {
        Bound::At(_) => false,
        Bound::End => true,
    }
}

fn all_ended(stubs: &[Stub]) -> bool
    ensures { result ≡ list_all is_ended stubs.now }
{
    stubs.iter().all(|stub| is_end(stub.base))
}
