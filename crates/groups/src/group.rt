//! A group of components that a worker holds.
ghost use Rattle.std.specs.Prelude.{◌≡◌, ◌≤◌, ◌↔◌, ℕ, [], true, None, IfErr, IfOk, IsErrOf, OnErr, OnOk};
ghost use Rattle.std.specs.Arc.{arc_value};
ghost use Rattle.antimessage.specs.Bags.{insert_all};
ghost use Rattle.event_keys.specs.Ranks.{rank, rank_of_bound};
ghost use Rattle.raw_events.specs.Around.{is_nonempty};
ghost use Rattle.rollback.specs.ComponentView.{lowest_bound, machine_of};
ghost use Rattle.virtual_time.specs.Groups.Leases.{IsFloor, start_lease};
ghost use Rattle.groups.specs.Crew.{AreSound};
ghost use Rattle.groups.specs.Dropping.{AreGivenUp, cut_all};
ghost use Rattle.groups.specs.GroupView.{AreMembers, count_of, group_in, is_member, lease_of, start_components};
ghost use Rattle.groups.specs.Moves.{HasStopped, IsAhead, IsSettled, IsStepped, IsSteppedWithin, MovesBy, next_rank, theory};
ghost use Rattle.groups.specs.Open.{AllInside, AllOutside};
ghost use Rattle.groups.specs.Windows.{IsHalted, KeepRoom, KeepsWindow, MayGoOn, refusal_of};

use crate::losses::Losses;
use crate::members::Members;
use crate::passing::pass_all;
use crate::running::{Ran, Stop};
use crate::window::Window;
use antimessage::Bag;
use antimessage::laws::order_law;
use event_keys::{Bound, Key, Turned, lesser};
use raw_events::EventList;
use rollback::laws::least_law;
use rollback::{Component, ProcessRefused};
use std::alloc::Global;
use std::marker::Model;
use std::mem::replace;
use std::sync::Arc;
use task_seed::laws::machine_is_lawful;
use task_seed::{Setup, Turns};
use terms::NoMemory;

// Why an entry was refused where there is no window.
fn refusal(stop: Stop) -> ProcessRefused
    ensures { result ≡ refusal_of stop }
{
    match stop {
        Stop::End => ProcessRefused::NothingPending,
        Stop::Budget => ProcessRefused::NoMemory,
        Stop::NoMemory => ProcessRefused::NoMemory,
        Stop::NoRoom => ProcessRefused::NoMemory,
    }
}

/// The components of a group, away from what workers share: with the tray of messages that came to them and aren't delivered yet, the
/// messages that leave the group, its floor, the least key that it had to do at its last meeting, and its window, if it has one. It can't be
/// cloned.
#[derive(Drop)]
pub struct Group<T: Turns> {
    number: u16,
    members: Members<T>,
    tray: Bag,
    out: Bag,
    floor: Bound,
    window: Option<Window>,
}

impl<T: Turns> Model for Group<T> {
    ghost use Rattle.task_seed.specs.declared.setup.Setup.{Setup};
    ghost use Rattle.groups.specs.GroupView.{GroupView};
    ghost use Rattle.groups.specs.Open.{AllInside, AllOutside};
    ghost use Rattle.std.specs.Coded.{codes};
    ghost use Rattle.plans.specs.KnownLaws.{are_known_prop};
    ghost use Rattle.terms.specs.Datum.{datum_code};
    ghost use Rattle.terms.specs.contracts.scalar.Shape as shape;
    ghost use Rattle.terms.specs.contracts.term.Term as term;
    ghost use Rattle.terms.specs.contracts.effect.Effect as effect;

    ghost Value = { GroupView (Setup T) };

    ghost coded = { Prim.hlevel (
      codes,
      are_known_prop,
      shape.the_row.coded,
      term.the_row.coded,
      effect.the_row.coded,
      datum_code,
    ) };

    ghost view = { λ g.
        record {
          number = g.number;
          setup = g.members.setup;
          base = g.members.base;
          components = g.members.components;
          floor = g.floor;
          tray = g.tray;
          out = g.out;
          window = g.window;
        } };

    ghost invariant = { λ g. AllInside g.members.components g.tray
        × AllOutside g.members.components g.out };
}

impl<T: Turns> Group<T> {
    /// The components whose group is `number`, at their start. `group_of` has the group of each component, by number; a component beyond
    /// it is in none.
    pub fn new(
        alloc: Global,
        setup: Arc<Setup<T>>,
        group_of: &[u16],
        number: u16,
    ) -> Result<Group<T>, NoMemory>
        ensures group { IfOk result (λ group. (group.number ≡ number)
            × (group.setup ≡ arc_value setup) × (group.tray ≡ []) × (group.out ≡ [])) }
        ensures window { IfOk result (λ group. group.window ≡ None) }
        ensures components { IfOk result (λ group. group.components
            ≡ start_components T.turn_of (arc_value setup)
            (group_in (count_of (arc_value setup)) group_of.now)
            (count_of (arc_value setup)) number) }
        ensures members { IfOk result (λ group. AreMembers
            (group_in (count_of (arc_value setup)) group_of.now) number group.components) }
        ensures lease { IfOk result (λ group. lease_of (theory T.turn_of group) group
            ≡ start_lease (machine_of T.turn_of (arc_value setup))
            (group_in (count_of (arc_value setup)) group_of.now) (count_of (arc_value setup)) number) }
    {
        machine_is_lawful(&setup);
        let members = Members::new(alloc, setup, group_of, number)?;
        let floor = members.next();
        Ok(Group {
            number,
            members,
            tray: Bag::new(),
            out: Bag::new(),
            floor,
            window: None,
        })
    }

    /// No two of its components have one number, and each is of its setup and its base. What waits in its tray is to them, and what waits
    /// to leave is to others. The call does nothing.
    pub fn soundness_law(&self)
        ensures members { AreSound T.turn_of (record {
          setup = self.now.setup;
          base = self.now.base;
          components = self.now.components;
        }) }
        ensures tray { AllInside self.now.components self.now.tray }
        ensures out { AllOutside self.now.components self.now.out }
    {
        self.members.members_law();
    }

    /// The number of the group.
    pub fn number(&self) -> u16
        ensures { result ≡ self.now.number }
    {
        self.number
    }

    /// The setup.
    pub fn setup(&self) -> &Setup<T>
        ensures { result.now ≡ self.now.setup }
    {
        self.members.setup()
    }

    /// The bound of the base of its components: nothing done below it is kept.
    pub fn base(&self) -> Bound
        ensures { result ≡ self.now.base }
    {
        self.members.base()
    }

    /// The least key that it had to do when it last met the exchange.
    pub fn floor(&self) -> Bound
        ensures { result ≡ self.now.floor }
    {
        self.floor
    }

    /// Its window, if it has one.
    pub fn window(&self) -> Option<Window>
        ensures { result ≡ self.now.window }
    {
        self.window
    }

    /// Its components, in order of their numbers.
    pub fn components(&self) -> &[Component<T>]
        ensures { result.now ≡ self.now.components }
    {
        self.members.components()
    }

    /// Whether a component is one of them.
    pub fn has(&self, number: u16) -> bool
        ensures { result ≡ is_member self.now.components number }
    {
        self.members.has(number)
    }

    /// The least of the next keys of its components, or the end where none has anything to do.
    pub fn next(&self) -> Bound
        ensures { rank_of_bound result ≡ next_rank T.turn_of self.now }
    {
        self.members.next()
    }

    /// Whether its window, if it has one, has room for what is next: an own turn has room where its component has fewer done since the base, and
    /// an input always has. Where nothing is next, it has room too.
    pub fn may_go_on(&self) -> bool
        ensures { MayGoOn T.turn_of self.now.window result self.now.components }
    {
        self.members.may_go_on(self.window)
    }

    /// The least key of what it has to do: of its components' next keys and of what is in flight to them. It is the end where there is
    /// nothing.
    pub fn least(&self) -> Bound
        ensures { (group : ℕ → ℕ) → AreMembers group self.now.number self.now.components
            → IsFloor (theory T.turn_of self.now) group self.now.number (rank_of_bound result)
            (lease_of (theory T.turn_of self.now) self.now).part }
    {
        machine_is_lawful(self.members.setup());
        self.members.members_law();
        least_law();
        order_law(&self.tray);
        lesser(self.members.next(), self.tray.least())
    }

    /// Whether messages or antimessages wait to leave.
    pub fn is_sending(&self) -> bool
        ensures { result ≡ is_nonempty self.now.out }
    {
        !self.out.is_empty()
    }

    /// The messages and antimessages that came to its components and aren't delivered yet.
    pub fn tray(&self) -> &Bag
        ensures { result.now ≡ self.now.tray }
    {
        &self.tray
    }

    /// The messages and antimessages that wait to leave.
    pub fn out(&self) -> &Bag
        ensures { result.now ≡ self.now.out }
    {
        &self.out
    }

    /// Takes all that waits to leave.
    pub fn take_out(&mut self) -> Bag
        ensures taken { result ≡ self.old.out }
        ensures rest { self.new ≡ record self.old { out = [] } }
    {
        replace(&mut self.out, Bag::new())
    }

    /// Messages and antimessages to its components come into the tray. `came` is left empty.
    pub fn append_tray(&mut self, came: &mut Bag)
        requires { AllInside self.old.components came.old }
        ensures tray { self.new
            ≡ record self.old { tray = insert_all came.old self.old.tray } }
        ensures empty { came.new ≡ [] }
    {
        self.tray.append(came);
    }

    /// Gives it a floor.
    pub fn set_floor(&mut self, floor: Bound)
        ensures { self.new ≡ record self.old { floor = floor } }
    {
        self.floor = floor;
    }

    /// Gives it a window, or none.
    pub fn set_window(&mut self, window: Option<Window>)
        ensures { self.new ≡ record self.old { window = window } }
    {
        self.window = window;
    }

    /// The component with the least next key does that entry, whatever the window is. What is then in flight within the group, and what
    /// follows of it there, is delivered at once. A refusal changes nothing.
    pub fn process(&mut self, alloc: Global) -> Result<Key, ProcessRefused>
        ensures key { IfOk result (λ key. rank key ≡ next_rank T.turn_of self.old) }
        ensures step { OnOk result (IsStepped T.turn_of self.old self.new) }
        ensures nothing { IsErrOf result ProcessRefused.NothingPending
            ↔ (next_rank T.turn_of self.old ≡ (theory T.turn_of self.old).top) }
        ensures kept { OnErr result (self.new ≡ self.old) }
    {
        match self.process_within(None, alloc) {
            Ok(key) => Ok(key),
            Err(stop) => Err(refusal(stop)),
        }
    }

    // The same where the window has room for the entry.
    fn process_within(&mut self, window: Option<Window>, alloc: Global) -> Result<Key, Stop>
        ensures key { IfOk result (λ key. rank key ≡ next_rank T.turn_of self.old) }
        ensures step { OnOk result (IsSteppedWithin T.turn_of window self.old self.new) }
        ensures within { OnOk result (KeepRoom window self.old.components self.new.components) }
        ensures stop { IfErr result
            (λ stop. IsHalted T.turn_of window stop self.old.components) }
        ensures nothing { IsErrOf result Stop.End
            ↔ (next_rank T.turn_of self.old ≡ (theory T.turn_of self.old).top) }
        ensures kept { OnErr result (self.new ≡ self.old) }
    {
        machine_is_lawful(self.members.setup());
        self.members.members_law();
        let key = self.members.process(window, alloc, &mut self.tray)?;
        pass_all(&mut self.members, &mut self.tray, &mut self.out);
        Ok(key)
    }

    /// Delivers all that is in flight within the group, and what follows of it there. It takes no memory.
    pub fn settle(&mut self)
        ensures settled { IsSettled T.turn_of self.old self.new }
        ensures window { KeepsWindow self.old self.new }
    {
        pass_all(&mut self.members, &mut self.tray, &mut self.out);
    }

    /// Processes entries, at most `budget` of them, and tells how many, and why there were no more: it stops before an own turn for which the
    /// window has no room. Where memory was refused, what was processed before stays.
    pub fn run_ahead(&mut self, alloc: Global, budget: u32) -> Ran
        ensures ahead { IsAhead T.turn_of self.old self.new result.count }
        ensures most { result.count ≤ budget }
        ensures stop { HasStopped T.turn_of budget result.count result.stop self.new }
        ensures moves { MovesBy T.turn_of self.old self.new }
        ensures window { KeepsWindow self.old self.new }
        ensures kept { result.count ≡ 0 → self.new ≡ self.old }
    {
        self.run_some(alloc, budget)
    }

    // The same, entry by entry.
    fn run_some(&mut self, alloc: Global, budget: u32) -> Ran
        ensures ahead { IsAhead T.turn_of self.old self.new result.count }
        ensures most { result.count ≤ budget }
        ensures stop { HasStopped T.turn_of budget result.count result.stop self.new }
        ensures window { KeepsWindow self.old self.new }
        ensures kept { result.count ≡ 0 → self.new ≡ self.old }
    {
        for count in 0..budget {
            let window = self.window;
            match self.process_within(window, alloc) {
                Ok(_) => continue,
                Err(stop) => return Ran { count, stop },
            }
        }
        Ran {
            count: budget,
            stop: Stop::Budget,
        }
    }

    /// What was taken back since this was last asked, counted.
    pub fn take_losses(&mut self) -> Losses
        ensures { self.new ≡ self.old }
    {
        self.members.take_losses()
    }

    /// Adds spare cells of turns that are of no use any more. They serve for its components' next turns, which then take no memory for it.
    pub fn add_spare(&mut self, spare: &mut EventList<Turned>)
        ensures kept { self.new ≡ self.old }
        ensures empty { spare.new ≡ record { before = []; after = [] } }
    {
        self.members.add_spare(spare);
    }

    /// Each component gives up its done entries below a bound, and the bound becomes the base: fossil collection. The answer is the own turns
    /// among them, of each component a list, in order of their numbers, the oldest turn first. The caller's bound is neither below the base
    /// nor above what the group has to do. Where memory is refused nothing changes.
    pub fn drop_below(
        &mut self,
        alloc: Global,
        bound: Bound,
    ) -> Result<Vec<EventList<Turned>>, NoMemory>
        ensures group { OnOk result (self.new ≡ record self.old {
          base = bound;
          components = cut_all T.turn_of bound self.old.components;
        }) }
        ensures turns { IfOk result
            (λ lists. AreGivenUp bound self.old.components lists.items) }
        ensures kept { OnErr result (self.new ≡ self.old) }
    {
        self.members.drop_below(alloc, bound)
    }
}
