//! An even partition that cuts few edges.
ghost use Rattle.std.specs.Prelude.{◌≡◌, ◌<◌, ◌≤◌, IfOk};
ghost use Rattle.partitions.specs.Partitions.{IsPartition, AreEven};

use crate::bisection::bisect;
use crate::blocks::blocks;
use crate::cut::count_cut;
use crate::order::{both_ways, breadth_first, deal};
use std::alloc::Global;
use terms::NoMemory;

/// An even partition: the better one of two, which begin with blocks of consecutive numbers and with blocks of neighbours.
pub(crate) fn divide(
    alloc: Global,
    sent: &[Vec<u16>],
    components: u16,
    groups: u16,
) -> Result<Vec<u16>, NoMemory>
    requires few { groups ≤ components }
    requires some { 0 < components → 0 < groups }
    ensures partition { IfOk result (λ list. IsPartition components groups list.items) }
    ensures even { IfOk result (λ list. AreEven groups list.items) }
{
    if groups < 2 || groups == components {
        return blocks(alloc, components, groups);
    }
    let beside = both_ways(alloc, sent)?;
    let by_number = from_numbers(alloc, beside.as_slice(), components, groups)?;
    let by_neighbour = from_neighbours(alloc, beside.as_slice(), components, groups)?;
    let first = count_cut(sent, by_number.as_slice());
    let second = count_cut(sent, by_neighbour.as_slice());
    if second.cut < first.cut {
        Ok(by_neighbour)
    } else {
        Ok(by_number)
    }
}

fn from_numbers(
    alloc: Global,
    beside: &[Vec<u16>],
    components: u16,
    groups: u16,
) -> Result<Vec<u16>, NoMemory>
    requires few { groups ≤ components }
    requires some { 0 < components → 0 < groups }
    ensures partition { IfOk result (λ list. IsPartition components groups list.items) }
    ensures even { IfOk result (λ list. AreEven groups list.items) }
{
    let mut group_of = blocks(alloc, components, groups)?;
    bisect(alloc, beside, groups, &mut group_of)?;
    Ok(group_of)
}

fn from_neighbours(
    alloc: Global,
    beside: &[Vec<u16>],
    components: u16,
    groups: u16,
) -> Result<Vec<u16>, NoMemory>
    requires few { groups ≤ components }
    requires some { 0 < components → 0 < groups }
    ensures partition { IfOk result (λ list. IsPartition components groups list.items) }
    ensures even { IfOk result (λ list. AreEven groups list.items) }
{
    let mut group_of = blocks(alloc, components, groups)?;
    let order = breadth_first(alloc, beside, components)?;
    deal(alloc, order.as_slice(), &mut group_of)?;
    bisect(alloc, beside, groups, &mut group_of)?;
    Ok(group_of)
}
