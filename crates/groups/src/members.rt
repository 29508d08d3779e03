//! The components of a group.
ghost use Rattle.std.specs.Prelude.{◌≡◌, ◌<◌, ◌↔◌, ◌++◌, [], true, IfErr, IfOk, IsErrOf, OnErr, OnOk, length, map};
ghost use Rattle.std.specs.Arc.{arc_value};
ghost use Rattle.event_keys.specs.Ranks.{rank, rank_of_bound};
ghost use Rattle.task_seed.specs.declared.setup.Setup.{Setup as SetupValue};
ghost use Rattle.rollback.specs.ComponentView.{ComponentView, lowest_bound, machine_of};
ghost use Rattle.groups.specs.Crew.{AreSound, MembersView, place_in};
ghost use Rattle.groups.specs.Dropping.{AreGivenUp, cut_all};
ghost use Rattle.groups.specs.GroupView.{count_of, group_in, is_member, least_next, start_components};
ghost use Rattle.groups.specs.Open.{IsDelivered, IsProcessed};
ghost use Rattle.groups.specs.Windows.{IsHalted, MayGoOn};

use crate::dropping::{drop_all, no_turns};
use crate::losses::Losses;
use crate::running::Stop;
use crate::seating::{
    deliver_placed, first_may_go_on, has_place, least_bound, process_first, seats_of,
};
use crate::seats::Seat;
use crate::start::start_placed;
use crate::window::Window;
use antimessage::Bag;
use event_keys::{Bound, Key, Signed, Turned};
use raw_events::{EventCell, EventList};
use rollback::Component;
use std::alloc::Global;
use std::marker::Model;
use std::mem::replace;
use std::sync::Arc;
use task_seed::{Setup, Turns};
use terms::NoMemory;

// The components of a group, in order of their numbers, and of each component its place among them.
#[derive(Drop)]
pub(crate) struct Members<T: Turns> {
    setup: Arc<Setup<T>>,
    base: Bound,
    components: Vec<Component<T>>,
    places: Vec<u16>,
    // A tournament of what each has to do next.
    seats: Vec<Seat>,
    // Cells of turns that are of no use any more.
    spare: EventList<Turned>,
    losses: Losses,
}

impl<T: Turns> Model for Members<T> {
    ghost use Rattle.std.specs.Arc.{arc_value};
    ghost use Rattle.task_seed.specs.declared.setup.Setup.{Setup};
    ghost use Rattle.groups.specs.Crew.{AreValidMembers, MembersView};
    ghost use Rattle.std.specs.Coded.{codes};
    ghost use Rattle.plans.specs.KnownLaws.{are_known_prop};
    ghost use Rattle.terms.specs.Datum.{datum_code};
    ghost use Rattle.terms.specs.contracts.scalar.Shape as shape;
    ghost use Rattle.terms.specs.contracts.term.Term as term;
    ghost use Rattle.terms.specs.contracts.effect.Effect as effect;

    ghost Value = { MembersView (Setup T) };

    ghost coded = { Prim.hlevel (
      codes,
      are_known_prop,
      shape.the_row.coded,
      term.the_row.coded,
      effect.the_row.coded,
      datum_code,
    ) };

    ghost view = { λ m.
        record { setup = arc_value m.setup; base = m.base; components = m.components.items } };

    ghost invariant = { λ m. AreValidMembers T.turn_of (arc_value m.setup) m.base
        m.components.items m.places.items m.seats.items };
}

impl<T: Turns> Members<T> {
    pub(crate) fn new(
        alloc: Global,
        setup: Arc<Setup<T>>,
        group_of: &[u16],
        number: u16,
    ) -> Result<Members<T>, NoMemory>
        ensures { IfOk result (λ members. members
            ≡ record {
              setup = arc_value setup;
              base = lowest_bound;
              components = start_components T.turn_of
                  (arc_value setup) (group_in (count_of (arc_value setup)) group_of.now)
                  (count_of (arc_value setup)) number;
            }) }
    {
        let placed = start_placed(alloc, &setup, group_of, number)?;
        let seats = seats_of(alloc, &placed.components)?;
        Ok(Members {
            setup,
            base: Bound::At(Key {
                tick: 0,
                component: 0,
                number: 0,
            }),
            components: placed.components,
            places: placed.places,
            seats,
            spare: EventList::new(),
            losses: Losses::default(),
        })
    }

    // No two components have one number, and each is of the setup and the base. The call does nothing.
    pub(crate) fn members_law(&self)
        ensures { AreSound T.turn_of self.now }
    {
        let _base = self.base;
    }

    pub(crate) fn setup(&self) -> &Setup<T>
        ensures { result.now ≡ self.now.setup }
    {
        &self.setup
    }

    pub(crate) fn base(&self) -> Bound
        ensures { result ≡ self.now.base }
    {
        self.base
    }

    pub(crate) fn components(&self) -> &[Component<T>]
        ensures { result.now ≡ self.now.components }
    {
        self.components.as_slice()
    }

    // The least of the next keys, or the end where none has anything to do.
    pub(crate) fn next(&self) -> Bound
        ensures { rank_of_bound result ≡ least_next T.turn_of self.now.setup self.now.components }
    {
        least_bound(&self.components, &self.seats)
    }

    // Whether a window has room for what is next; where nothing is, it has.
    pub(crate) fn may_go_on(&self, window: Option<Window>) -> bool
        ensures { MayGoOn T.turn_of window result self.now.components }
    {
        first_may_go_on(&self.components, &self.seats, window)
    }

    // Whether a component is a member.
    pub(crate) fn has(&self, number: u16) -> bool
        ensures { result ≡ is_member self.now.components number }
    {
        has_place(&self.components, &self.places, number)
    }

    // The member with the least next key does that entry, where the window has room for it.
    pub(crate) fn process(
        &mut self,
        window: Option<Window>,
        alloc: Global,
        sent: &mut Bag,
    ) -> Result<Key, Stop>
        ensures key { IfOk result (λ key. rank key
            ≡ least_next T.turn_of self.old.setup self.old.components) }
        ensures done { OnOk result
            (IsProcessed T.turn_of window self.old self.new sent.old sent.new) }
        ensures stop { IfErr result
            (λ stop. IsHalted T.turn_of window stop self.old.components) }
        ensures nothing { IsErrOf result Stop.End
            ↔ (least_next T.turn_of self.old.setup self.old.components
            ≡ (machine_of T.turn_of self.old.setup).top) }
        ensures kept { OnErr result ((self.new ≡ self.old) × (sent.new ≡ sent.old)) }
    {
        process_first(&mut self.components, &mut self.seats, window, alloc, sent)
    }

    // A message or an antimessage comes to its receiver, a member. The answer is the number of the entries that were taken back.
    pub(crate) fn deliver(&mut self, cell: EventCell<Signed>, sent: &mut Bag) -> u64
        requires { is_member self.old.components cell.message.to ≡ true }
        ensures came { IsDelivered T.turn_of cell result self.old self.new sent.old sent.new }
        ensures quiet { result ≡ 0 → sent.new ≡ sent.old }
    {
        let sign = cell.value().sign;
        let taken_back = deliver_placed(
            &mut self.components,
            &self.places,
            &mut self.seats,
            cell,
            sent,
        );
        self.losses.note(taken_back, sign);
        taken_back
    }

    // What was taken back since this was last asked, counted.
    pub(crate) fn take_losses(&mut self) -> Losses
        ensures { self.new ≡ self.old }
    {
        replace(&mut self.losses, Losses::default())
    }

    // Adds spare cells of turns.
    pub(crate) fn add_spare(&mut self, spare: &mut EventList<Turned>)
        ensures kept { self.new ≡ self.old }
        ensures empty { spare.new ≡ record { before = []; after = [] } }
    {
        self.spare.append_all(spare);
    }

    // Each gives up its done entries below a bound. The answer is the own turns among them, of each a list, in order of their numbers.
    pub(crate) fn drop_below(
        &mut self,
        alloc: Global,
        bound: Bound,
    ) -> Result<Vec<EventList<Turned>>, NoMemory>
        ensures members { OnOk result (self.new ≡ record self.old {
          base = bound;
          components = cut_all T.turn_of bound self.old.components;
        }) }
        ensures turns { IfOk result
            (λ lists. AreGivenUp bound self.old.components lists.items) }
        ensures kept { OnErr result (self.new ≡ self.old) }
    {
        let mut lists = no_turns(alloc, self.components.len())?;
        drop_all(&mut self.components, bound, &mut self.spare, &mut lists);
        self.base = bound;
        Ok(lists)
    }
}
