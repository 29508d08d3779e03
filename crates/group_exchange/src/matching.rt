//! Whether a group is the one that is kept of it: its components' messages, counted.
ghost use Rattle.std.specs.Prelude.{◌≡◌, ◌==◌, ◌↔◌, ℕ, true, [], length, IfOk};
ghost use Rattle.event_keys.specs.declared.message.Sign.TheVariants.{Plus};
ghost use Rattle.event_keys.specs.Ranks.{rank_of_bound};
ghost use Rattle.rollback.specs.Flight.{in_flight};
ghost use Rattle.groups.specs.GroupView.{AreMembers};
ghost use Rattle.groups.specs.Moves.{theory};
ghost use Rattle.group_exchange.specs.Compared.{AllIn, AreInside, AreMatched, AreTogether, HasAll, TellsMatch, all_sent};
ghost use Rattle.group_exchange.specs.ExchangeView.{group_at};
ghost use Rattle.group_exchange.specs.Seen.{IsSoundLease};

use crate::copying::copy_of;
use crate::meeting::group_at;
use crate::stub::Stub;
use antimessage::Bag;
use event_keys::Bound;
use event_keys::laws::bound_rank_law;
use groups::Group;
use rollback::Component;
use rollback::laws::flight_law;
use std::alloc::Global;
use task_seed::Turns;
use task_seed::laws::machine_is_lawful;
use terms::NoMemory;

// Whether each of these components is in a group, by the list of all components' groups.
fn are_in<T: Turns>(groups: &[u16], number: u16, components: &[Component<T>]) -> bool
    ensures { (result ≡ true) ↔ AllIn groups.now number components.now }
{
    for component in components {
        if group_at(groups, component.number()) != usize::from(number) {
            return false;
        }
    }
    true
}

// Whether a group has all of the first components that are in it.
fn has_all<T: Turns>(groups: &[u16], count: u16, group: &Group<T>) -> bool
    ensures { (result ≡ true)
        ↔ HasAll groups.now group.now.number group.now.components count }
{
    let number = usize::from(group.number());
    for i in 0..count {
        if group_at(groups, i) == number && !group.has(i) {
            return false;
        }
    }
    true
}

/// Whether the components of a group are those that are in it, by the list of all components' groups.
pub(crate) fn are_members<T: Turns>(groups: &[u16], count: u16, group: &Group<T>) -> bool
    requires { length groups.now ≡ count }
    ensures { (result ≡ true)
        ↔ AreMembers (group_at groups.now) group.now.number group.now.components }
{
    are_in(groups, group.number(), group.components()) && has_all(groups, count, group)
}

// Copies of all that components have sent.
fn sent_by<T: Turns>(alloc: Global, components: &[Component<T>]) -> Result<Bag, NoMemory>
    ensures { IfOk result (λ sent. (j : ℕ)
        → in_flight Plus j sent ≡ all_sent T.turn_of components.now j []) }
{
    let mut sent = Bag::new();
    for component in components {
        component.copy_sent(alloc, &mut sent)?;
    }
    Ok(sent)
}

// Of some messages those that go to one of these components.
fn inside_of<T: Turns>(components: &[Component<T>], mut sent: Bag) -> Bag
    ensures { AreInside components.now sent result }
{
    flight_law();
    let mut inside = Bag::new();
    for component in components {
        inside.append(&mut sent.split_to(component.number()));
    }
    inside
}

// Copies of the messages of two bags together.
fn together(alloc: Global, one: &Bag, other: &Bag) -> Result<Bag, NoMemory>
    ensures { IfOk result (AreTogether one.now other.now) }
{
    flight_law();
    let mut both = copy_of(alloc, one)?;
    let mut more = copy_of(alloc, other)?;
    both.append(&mut more);
    Ok(both)
}

// Whether each of these components has taken and sent these.
fn are_matched<T: Turns>(
    components: &[Component<T>],
    taken: &Bag,
    standing: &Bag,
    tray: &Bag,
    out: &Bag,
) -> bool
    ensures { (result ≡ true)
        ↔ AreMatched T.turn_of components.now taken.now standing.now tray.now out.now }
{
    for component in components {
        if !component.has_taken(taken, tray) {
            return false;
        }
        if !component.has_standing(standing, out) {
            return false;
        }
    }
    true
}

// Whether a group of the stub's base and floor has taken and sent what is kept of it. To what it took from others, and to what stands there, comes
// what its components sent to each other: then each of them is matched by itself.
fn is_matched<T: Turns>(alloc: Global, stub: &Stub, group: &Group<T>) -> Result<bool, NoMemory>
    requires valid { IsSoundLease T.turn_of group.now }
    requires base { rank_of_bound group.now.base ≡ rank_of_bound stub.now.base }
    requires floor { rank_of_bound group.now.floor ≡ rank_of_bound stub.now.floor }
    ensures { IfOk result (TellsMatch (theory T.turn_of group.now) stub.now group.now) }
{
    machine_is_lawful(group.setup());
    group.soundness_law();
    let sent = sent_by(alloc, group.components())?;
    let within = inside_of(group.components(), sent);
    let taken = together(alloc, &stub.taken, &within)?;
    let standing = together(alloc, &stub.standing, &within)?;
    Ok(are_matched(
        group.components(),
        &taken,
        &standing,
        group.tray(),
        group.out(),
    ))
}

fn is_same_bound(a: Bound, b: Bound) -> bool
    ensures { result ≡ (rank_of_bound a == rank_of_bound b) }
{
    bound_rank_law(a, b);
    a.cmp(&b).is_eq()
}

/// Whether a group is the one of which this stub is kept: base, floor, and what its components have taken from others and sent to them.
pub(crate) fn is_known<T: Turns>(
    alloc: Global,
    stub: &Stub,
    group: &Group<T>,
) -> Result<bool, NoMemory>
    requires { IsSoundLease T.turn_of group.now }
    ensures { IfOk result (TellsMatch (theory T.turn_of group.now) stub.now group.now) }
{
    if !is_same_bound(group.base(), stub.base) {
        return Ok(false);
    }
    if !is_same_bound(group.floor(), stub.floor) {
        return Ok(false);
    }
    is_matched(alloc, stub, group)
}
