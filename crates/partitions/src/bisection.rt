//! Groups are halved, their halves are, and so on; at each halving components are swapped so that few edges are cut.
ghost use Rattle.std.specs.Prelude.{OnOk, IsPermutation};

use crate::pass::{Pass, Sides};
use std::alloc::Global;
use terms::NoMemory;

// The most passes over the members of two halves.
const PASSES: usize = 8;

// Groups with consecutive numbers, from `low` on and below `high`, and their members.
#[derive(Drop)]
struct Range {
    low: u16,
    high: u16,
    members: Vec<u16>,
}

/// Swaps components so that fewer edges lead from one group to another.
pub(crate) fn bisect(
    alloc: Global,
    beside: &[Vec<u16>],
    groups: u16,
    group_of: &mut Vec<u16>,
) -> Result<(), NoMemory>
    ensures { OnOk result (IsPermutation group_of.old.items group_of.new.items) }
{
    let mut pass = Pass::new(alloc, group_of.len())?;
    let members = all(alloc, group_of.len())?;
    let mut ranges = Vec::new(alloc);
    ranges.push(Range {
        low: 0,
        high: groups,
        members,
    })?;
    for _ in 0..groups {
        let Some(range) = ranges.pop() else {
            return Ok(());
        };
        halve(alloc, beside, &mut pass, &range, group_of)?;
        add_halves(alloc, &range, group_of.as_slice(), &mut ranges)?;
    }
    Ok(())
}

fn all(alloc: Global, components: usize) -> Result<Vec<u16>, NoMemory> {
    let mut members = Vec::with_capacity(alloc, components)?;
    for i in 0..components {
        if let Ok(i) = u16::try_from(i) {
            members.push(i)?;
        }
    }
    Ok(members)
}

fn middle(range: &Range) -> u16 {
    range
        .low
        .saturating_add(range.high.saturating_sub(range.low) / 2)
}

fn halve(
    alloc: Global,
    beside: &[Vec<u16>],
    pass: &mut Pass,
    range: &Range,
    group_of: &mut Vec<u16>,
) -> Result<(), NoMemory>
    ensures { OnOk result (IsPermutation group_of.old.items group_of.new.items) }
{
    let sides = Sides {
        low: range.low,
        middle: middle(range),
        high: range.high,
    };
    for _ in 0..PASSES {
        let better = pass.improve(alloc, beside, sides, range.members.as_slice(), group_of)?;
        if !better {
            return Ok(());
        }
    }
    Ok(())
}

// Adds the halves of a range that have several groups.
fn add_halves(
    alloc: Global,
    range: &Range,
    group_of: &[u16],
    ranges: &mut Vec<Range>,
) -> Result<(), NoMemory> {
    let middle = middle(range);
    add_part(alloc, range, group_of, range.low, middle, ranges)?;
    add_part(alloc, range, group_of, middle, range.high, ranges)
}

fn add_part(
    alloc: Global,
    range: &Range,
    group_of: &[u16],
    low: u16,
    high: u16,
    ranges: &mut Vec<Range>,
) -> Result<(), NoMemory> {
    if high.saturating_sub(low) < 2 {
        return Ok(());
    }
    let mut members = Vec::new(alloc);
    for i in &range.members {
        if is_within(group_of, *i, low, high) {
            members.push(*i)?;
        }
    }
    ranges.push(Range { low, high, members })?;
    Ok(())
}

fn is_within(group_of: &[u16], i: u16, low: u16, high: u16) -> bool {
    match group_of.get(usize::from(i)) {
        Some(group) => low <= *group && *group < high,
        None => false,
    }
}
