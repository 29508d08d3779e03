//! Steps of one component, by its number.
ghost use Rattle.std.specs.Prelude.{◌≡◌, ◌↔◌, ◌<◌, None, Some, IfNone, IfOk, IfSome, OnErr, OnOk, IsErrOf, length, option_map, slice_get};
ghost use Rattle.event_keys.specs.Ranks.{rank, rank_of_bound};
ghost use Rattle.antimessage.specs.Order.{KeyFits};
ghost use Rattle.task_seed.specs.declared.setup.Setup.{Setup as SetupValue};
ghost use Rattle.rollback.specs.ComponentView.{ComponentView, last_key};
ghost use Rattle.rollback.specs.Stepped.{HasNextKey, next_entry, taken_back};
ghost use Rattle.virtual_time.specs.Worlds.{Process, RollBack};
ghost use Rattle.world.specs.Stepping.{Delivers, HasWorld, IsComeTo, IsRolledBackAt, IsSteppedAt, Meets, OfComponent, Steps};
ghost use Rattle.world.specs.Steps.{answer_by};
ghost use Rattle.world.specs.Times.{least_next};

use crate::known::laws;
use crate::step::{Reply, StepRefused};
use antimessage::Bag;
use antimessage::laws::{order_law, take_equal_law, take_law};
use event_keys::laws::rank_law;
use event_keys::{Bound, Key, Message, Signed, lesser};
use raw_events::EventCell;
use rollback::{Component, ProcessRefused};
use std::alloc::Global;
use task_seed::{Setup, Turns};

fn process_at<T: Turns>(
    components: &mut [Component<T>],
    alloc: Global,
    i: u16,
    flight: &mut Bag,
) -> Result<Key, ProcessRefused>
    requires { i < length components.old }
    ensures key { IfOk result (λ key. (c : ComponentView (SetupValue T))
        → slice_get components.old i ≡ Some c → HasNextKey T.turn_of c key) }
    ensures done { OnOk result
        (IsSteppedAt T.turn_of i components.old flight.old components.new flight.new) }
    ensures nothing { OfComponent i components.old
        (λ c. IsErrOf result ProcessRefused.NothingPending ↔ (next_entry T.turn_of c ≡ None)) }
    ensures kept { OnErr result ((components.new ≡ components.old) × (flight.new ≡ flight.old)) }
{
    components[usize::from(i)].process(alloc, flight)
}

// The key of the entry that was taken back, where one was done.
fn roll_back_at<T: Turns>(components: &mut [Component<T>], i: u16, flight: &mut Bag) -> Option<Key>
    requires { i < length components.old }
    ensures key { (c : ComponentView (SetupValue T)) → slice_get components.old i ≡ Some c
        → option_map rank result ≡ last_key c.history.done }
    ensures done { IfSome result
        (λ _. IsRolledBackAt T.turn_of i components.old flight.old components.new flight.new) }
    ensures kept { IfNone result ((components.new ≡ components.old) × (flight.new ≡ flight.old)) }
{
    let component = &mut components[usize::from(i)];
    let key = component.last()?;
    component.roll_back(flight);
    Some(key)
}

// The number of the entries that were taken back.
fn deliver_at<T: Turns>(
    components: &mut [Component<T>],
    cell: EventCell<Signed>,
    flight: &mut Bag,
) -> u64
    requires there { cell.message.to < length components.old }
    requires number { (c : ComponentView (SetupValue T))
        → slice_get components.old cell.message.to ≡ Some c → c.number ≡ cell.message.to }
    ensures done { IsComeTo T.turn_of cell.message.to components.old flight.old components.new
        flight.new cell }
    ensures count { OfComponent cell.message.to components.old
        (λ c. result ≡ length (taken_back T.turn_of c cell)) }
{
    let to = usize::from(cell.value().message.to);
    components[to].deliver(cell, flight)
}

// The least key of all next entries, or the end.
pub(crate) fn least_next<T: Turns>(components: &[Component<T>]) -> Bound
    ensures { rank_of_bound result ≡ least_next T.turn_of components.now }
{
    let mut least = Bound::End;
    for component in components {
        least = lesser(least, component.next());
    }
    least
}

// The numbers of a key fit their types.
fn fits(key: Key)
    ensures { KeyFits key }
{
    rank_law(key);
}

/// A component does its next entry.
pub(crate) fn process<T: Turns>(
    setup: &Setup<T>,
    components: &mut [Component<T>],
    alloc: Global,
    i: u16,
    flight: &mut Bag,
) -> Result<Key, StepRefused>
    ensures step { Steps T.turn_of setup.now components.old flight.old components.new flight.new
        (Process i) (answer_by Reply.Processed result) }
    ensures many { length components.new ≡ length components.old }
    ensures kept { OnErr result ((components.new ≡ components.old) × (flight.new ≡ flight.old)) }
{
    laws(setup);
    if usize::from(i) >= components.len() {
        return Err(StepRefused::NoSuchComponent);
    }
    match process_at(components, alloc, i, flight) {
        Ok(key) => Ok(key),
        Err(ProcessRefused::NoMemory) => Err(StepRefused::NoMemory),
        Err(ProcessRefused::NothingPending) => Err(StepRefused::NothingPending),
    }
}

/// A component takes its last done entry back.
pub(crate) fn roll_back<T: Turns>(
    setup: &Setup<T>,
    components: &mut [Component<T>],
    i: u16,
    flight: &mut Bag,
) -> Result<Key, StepRefused>
    ensures step { Steps T.turn_of setup.now components.old flight.old components.new flight.new
        (RollBack i) (answer_by Reply.RolledBack result) }
    ensures many { length components.new ≡ length components.old }
    ensures kept { OnErr result ((components.new ≡ components.old) × (flight.new ≡ flight.old)) }
{
    laws(setup);
    if usize::from(i) >= components.len() {
        return Err(StepRefused::NoSuchComponent);
    }
    match roll_back_at(components, i, flight) {
        Some(key) => Ok(key),
        None => Err(StepRefused::NothingToRollBack),
    }
}

/// A message or an antimessage comes to its receiver.
pub(crate) fn deliver<T: Turns>(
    setup: &Setup<T>,
    components: &mut [Component<T>],
    signed: &Signed,
    flight: &mut Bag,
) -> Result<u64, StepRefused>
    requires { HasWorld T.turn_of setup.now components.old flight.old }
    ensures step { Delivers T.turn_of setup.now components.old flight.old components.new flight.new
        signed.now (answer_by Reply.Delivered result) }
    ensures many { length components.new ≡ length components.old }
    ensures kept { OnErr result ((components.new ≡ components.old) × (flight.new ≡ flight.old)) }
{
    laws(setup);
    take_law();
    take_equal_law();
    order_law(flight);
    fits(signed.message.key);
    match flight.take_equal(signed) {
        Some(cell) => Ok(deliver_at(components, cell, flight)),
        None => Err(StepRefused::NoSuchMessage),
    }
}

/// A message and its antimessage annihilate.
pub(crate) fn meet<T: Turns>(
    setup: &Setup<T>,
    components: &[Component<T>],
    message: &Message,
    flight: &mut Bag,
) -> Result<(), StepRefused>
    ensures step { Meets T.turn_of setup.now components.now flight.old flight.new message.now
        (answer_by (λ _. Reply.Met) result) }
    ensures kept { OnErr result (flight.new ≡ flight.old) }
{
    laws(setup);
    order_law(flight);
    fits(message.key);
    if flight.meet(message) {
        Ok(())
    } else {
        Err(StepRefused::NoSuchMessage)
    }
}
