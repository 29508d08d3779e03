//! The components from neighbour to neighbour.
ghost use Rattle.std.specs.Prelude.{OnOk, IsPermutation};

use crate::swap::swap_groups;
use std::alloc::Global;
use terms::NoMemory;

/// For each component those that it sends to and those that send to it. One with which both are so stands there twice.
pub(crate) fn both_ways(alloc: Global, sent: &[Vec<u16>]) -> Result<Vec<Vec<u16>>, NoMemory> {
    let mut beside: Vec<Vec<u16>> = Vec::with_capacity(alloc, sent.len())?;
    for receivers in sent {
        beside.push(Vec::from_slice(alloc, receivers.as_slice())?)?;
    }
    for (sender, receivers) in sent.iter().enumerate() {
        for receiver in receivers {
            note(&mut beside, *receiver, sender)?;
        }
    }
    Ok(beside)
}

fn note(beside: &mut Vec<Vec<u16>>, receiver: u16, sender: usize) -> Result<(), NoMemory> {
    let place = usize::from(receiver);
    if place < beside.len() {
        if let Ok(sender) = u16::try_from(sender) {
            beside[place].push(sender)?;
        }
    }
    Ok(())
}

/// The components breadth first along their connections, from one with the fewest. What isn't reached comes behind, in the same
/// way.
pub(crate) fn breadth_first(
    alloc: Global,
    beside: &[Vec<u16>],
    components: u16,
) -> Result<Vec<u16>, NoMemory> {
    let mut starts = Vec::with_capacity(alloc, usize::from(components))?;
    for i in 0..components {
        starts.push((neighbours(beside, i).len(), i))?;
    }
    starts.sort_unstable();
    let mut seen = vec![in alloc; false; usize::from(components)]?;
    let mut order = Vec::with_capacity(alloc, usize::from(components))?;
    for (_, start) in &starts {
        reach(beside, *start, &mut seen, &mut order)?;
    }
    Ok(order)
}

/// The components with which one is connected.
#[inline(always)]
pub(crate) fn neighbours(beside: &[Vec<u16>], i: u16) -> &[u16] {
    match beside.get(usize::from(i)) {
        Some(list) => list.as_slice(),
        None => &[],
    }
}

// Adds a component and all that can be reached from it.
fn reach(
    beside: &[Vec<u16>],
    start: u16,
    seen: &mut Vec<bool>,
    order: &mut Vec<u16>,
) -> Result<(), NoMemory> {
    let first = order.len();
    see(start, seen, order)?;
    for next in first..beside.len() {
        let Some(i) = order.get(next) else {
            return Ok(());
        };
        for j in neighbours(beside, *i) {
            see(*j, seen, order)?;
        }
    }
    Ok(())
}

fn see(i: u16, seen: &mut Vec<bool>, order: &mut Vec<u16>) -> Result<(), NoMemory> {
    let place = usize::from(i);
    if place < seen.len() && !seen[place] {
        seen[place] = true;
        order.push(i)?;
    }
    Ok(())
}

/// Deals the groups out in this order: the component at a place gets the group that stands there.
pub(crate) fn deal(alloc: Global, order: &[u16], group_of: &mut Vec<u16>) -> Result<(), NoMemory>
    ensures { OnOk result (IsPermutation group_of.old.items group_of.new.items) }
{
    let mut standing = Vec::with_capacity(alloc, group_of.len())?;
    let mut places = Vec::with_capacity(alloc, group_of.len())?;
    for place in 0..group_of.len() {
        standing.push(place)?;
        places.push(place)?;
    }
    for (place, i) in order.iter().enumerate() {
        stand(&mut standing, &mut places, place, usize::from(*i), group_of);
    }
    Ok(())
}

// The component that is wanted stands at a place from now on, and the one that stood there where it stood.
fn stand(
    standing: &mut Vec<usize>,
    places: &mut Vec<usize>,
    place: usize,
    wanted: usize,
    group_of: &mut Vec<u16>,
)
    ensures { IsPermutation group_of.old.items group_of.new.items }
{
    if place < standing.len() && wanted < places.len() {
        let before = standing[place];
        let away = places[wanted];
        swap_groups(group_of, before, wanted);
        put(standing, away, before);
        put(places, before, away);
        put(standing, place, wanted);
        put(places, wanted, place);
    }
}

fn put(list: &mut Vec<usize>, place: usize, value: usize) {
    if place < list.len() {
        list[place] = value;
    }
}
