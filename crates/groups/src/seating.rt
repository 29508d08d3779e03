//! Components with their seats in a tournament.
ghost use Rattle.std.specs.Prelude.{◌≡◌, ◌<◌, Some, None, IfErr, IfOk, IfSome, OnOk, OnErr, true, length, slice_get};
ghost use Rattle.event_keys.specs.Ranks.{rank_of_bound};
ghost use Rattle.task_seed.specs.declared.setup.Setup.{Setup as SetupValue};
ghost use Rattle.rollback.specs.ComponentView.{ComponentView};
ghost use Rattle.rollback.specs.Stepped.{HasNextKey, next_entry, taken_back};
ghost use Rattle.groups.specs.Crew.{ArePlaced, AreSeated, AreSeatedBut, AreSeatedTo, IsSeatOf, place_in};
ghost use Rattle.groups.specs.Open.{HasCome, IsComeTo, IsFirstDone, IsSteppedAt, OfComponent};
ghost use Rattle.groups.specs.Windows.{IsFirst, IsHalted, MayGoOn, NothingIsNext, lets_through};
ghost use Rattle.groups.specs.GroupView.{is_member, least_next};

use crate::running::Stop;
use crate::seats::{Seat, empty, has_next, put, seat_at};
use crate::window::Window;
use antimessage::Bag;
use antimessage::laws::order_law;
use event_keys::{Bound, Key, Signed};
use raw_events::EventCell;
use rollback::laws::leaving_law;
use rollback::{Component, ProcessRefused};
use std::alloc::Global;
use task_seed::Turns;
use terms::NoMemory;

// What the component at a place has to do next.
fn seat_of<T: Turns>(component: &Component<T>, place: usize) -> Seat
    requires { place < 65536 }
    ensures { IsSeatOf T.turn_of place component.now result }
{
    component.lists_law();
    seat_at(place as u16, component.next())
}

/// The seats of components.
pub(crate) fn seats_of<T: Turns>(
    alloc: Global,
    components: &[Component<T>],
) -> Result<Vec<Seat>, NoMemory>
    requires { length components.now < 65536 }
    ensures { IfOk result (λ seats. AreSeated T.turn_of components.now seats.items) }
{
    let mut seats = vec![in alloc; empty(); 2 * components.len()]?;
    seat_all(components, &mut seats);
    Ok(seats)
}

// Each component takes its seat.
fn seat_all<T: Turns>(components: &[Component<T>], seats: &mut [Seat])
    requires few { length components.now < 65536 }
    requires none { AreSeatedTo T.turn_of components.now 0 seats.old }
    ensures { AreSeated T.turn_of components.now seats.new }
{
    for place in 0..components.len() {
        let seat = seat_of(&components[place], place);
        put(seats, components.len(), place, seat);
    }
}

/// The component at a place has something else to do next.
pub(crate) fn seat_anew<T: Turns>(components: &[Component<T>], seats: &mut [Seat], place: usize)
    requires there { place < length components.now }
    requires few { length components.now < 65536 }
    requires others { AreSeatedBut T.turn_of components.now place seats.old }
    ensures { AreSeated T.turn_of components.now seats.new }
{
    let seat = seat_of(&components[place], place);
    put(seats, components.len(), place, seat);
}

/// The place of the component that is next first, or none where none has anything to do.
pub(crate) fn first_place<T: Turns>(components: &[Component<T>], seats: &[Seat]) -> Option<usize>
    requires seated { AreSeated T.turn_of components.now seats.now }
    ensures some { IfSome result (IsFirst T.turn_of components.now) }
    ensures none { result ≡ None → NothingIsNext T.turn_of components.now }
{
    let first = *seats.get(1)?;
    if !has_next(first) {
        return None;
    }
    Some(usize::from(first.place))
}

/// The component at a place does its next entry.
pub(crate) fn process_at<T: Turns>(
    components: &mut [Component<T>],
    alloc: Global,
    place: usize,
    sent: &mut Bag,
) -> Result<Key, ProcessRefused>
    requires { place < length components.old }
    ensures key { IfOk result (λ key. OfComponent place components.old
        (λ c. HasNextKey T.turn_of c key)) }
    ensures done { OnOk result (IsSteppedAt T.turn_of place components.old sent.old components.new
        sent.new) }
    ensures kept { OnErr result ((components.new ≡ components.old) × (sent.new ≡ sent.old)) }
{
    components[place].process(alloc, sent)
}

/// A message or an antimessage comes to the component at a place. The answer is the number of the entries that were taken back.
pub(crate) fn deliver_at<T: Turns>(
    components: &mut [Component<T>],
    place: usize,
    cell: EventCell<Signed>,
    sent: &mut Bag,
) -> u64
    requires there { place < length components.old }
    requires number { (c : ComponentView (SetupValue T)) → slice_get components.old place ≡ Some c
        → cell.message.to ≡ c.number }
    ensures done { IsComeTo T.turn_of place components.old sent.old components.new sent.new cell }
    ensures count { OfComponent place components.old
        (λ c. result ≡ length (taken_back T.turn_of c cell)) }
    ensures quiet { result ≡ 0 → sent.new ≡ sent.old }
{
    leaving_law();
    order_law(sent);
    let count = components[place].deliver(cell, sent);
    order_law(sent);
    count
}

// Whether a window has room for the next entry of the component at a place; where there is no window there always is room.
fn may_go_on<T: Turns>(components: &[Component<T>], place: usize, window: Option<Window>) -> bool
    requires { place < length components.now }
    ensures { OfComponent place components.now (λ c. result
        ≡ lets_through window c.history.done (next_entry T.turn_of c)) }
{
    match window {
        None => true,
        Some(window) => components[place].has_room(window.turns),
    }
}

/// Whether a window has room for what is next; where nothing is, it has.
pub(crate) fn first_may_go_on<T: Turns>(
    components: &[Component<T>],
    seats: &[Seat],
    window: Option<Window>,
) -> bool
    requires seated { AreSeated T.turn_of components.now seats.now }
    ensures { MayGoOn T.turn_of window result components.now }
{
    match first_place(components, seats) {
        None => true,
        Some(place) => may_go_on(components, place, window),
    }
}

/// The component that is next first does that entry, where the window has room for it.
pub(crate) fn process_first<T: Turns>(
    components: &mut [Component<T>],
    seats: &mut [Seat],
    window: Option<Window>,
    alloc: Global,
    sent: &mut Bag,
) -> Result<Key, Stop>
    requires few { length components.old < 65536 }
    requires seated { AreSeated T.turn_of components.old seats.old }
    ensures done { IfOk result (λ key. IsFirstDone T.turn_of window key components.old sent.old
        components.new sent.new) }
    ensures stop { IfErr result (λ stop. IsHalted T.turn_of window stop components.old) }
    ensures seated { AreSeated T.turn_of components.new seats.new }
    ensures kept { OnErr result ((components.new ≡ components.old) × (sent.new ≡ sent.old)) }
{
    let Some(place) = first_place(components, seats) else {
        return Err(Stop::End);
    };
    if !may_go_on(components, place, window) {
        return Err(Stop::NoRoom);
    }
    let Ok(key) = process_at(components, alloc, place, sent) else {
        return Err(Stop::NoMemory);
    };
    seat_anew(components, seats, place);
    Ok(key)
}

/// A message or an antimessage comes to its receiver, whose place is noted. The answer is the number of the entries that were taken back.
pub(crate) fn deliver_placed<T: Turns>(
    components: &mut [Component<T>],
    places: &[u16],
    seats: &mut [Seat],
    cell: EventCell<Signed>,
    sent: &mut Bag,
) -> u64
    requires few { length components.old < 65536 }
    requires placed { ArePlaced components.old places.now }
    requires seated { AreSeated T.turn_of components.old seats.old }
    requires member { is_member components.old cell.message.to ≡ true }
    ensures came { HasCome T.turn_of cell result components.old sent.old components.new sent.new }
    ensures quiet { result ≡ 0 → sent.new ≡ sent.old }
    ensures seated { AreSeated T.turn_of components.new seats.new }
{
    let place = place_of(places, cell.value().message.to);
    let count = deliver_at(components, place, cell, sent);
    seat_anew(components, seats, place);
    count
}

/// The place of a component among the members, or one that no member has.
pub(crate) fn place_of(places: &[u16], number: u16) -> usize
    ensures { result ≡ place_in places.now number }
{
    match places.get(usize::from(number)) {
        None => 65_535,
        Some(place) => usize::from(*place),
    }
}

/// Whether a component has a place.
pub(crate) fn has_place<T: Turns>(components: &[Component<T>], places: &[u16], number: u16) -> bool
    requires { ArePlaced components.now places.now }
    ensures { result ≡ is_member components.now number }
{
    place_of(places, number) < components.len()
}

/// The least of the next keys, or the end where none has anything to do.
pub(crate) fn least_bound<T: Turns>(components: &[Component<T>], seats: &[Seat]) -> Bound
    requires seated { AreSeated T.turn_of components.now seats.now }
    ensures { (setup : SetupValue T)
        → rank_of_bound result ≡ least_next T.turn_of setup components.now }
{
    match first_place(components, seats) {
        None => Bound::End,
        Some(place) => components[place].next(),
    }
}
