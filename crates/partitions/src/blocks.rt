//! Groups of components with consecutive numbers.
ghost use Rattle.std.specs.Prelude.{◌≡◌, ◌<◌, ◌≤◌, ◌^◌, ◌++◌, IfOk, OnOk, min, max, replicate};
ghost use Rattle.partitions.specs.Partitions.{IsPartition, AreEven, block_size};

use std::alloc::Global;
use terms::NoMemory;

/// How many groups are made where so many are asked for: no more than components, and one at least where there are any.
pub(crate) fn count_groups(components: u16, asked: u16) -> u16
    ensures count { result ≡ min (max asked 1) components }
    ensures few { result ≤ components }
    ensures some { 0 < components → 0 < result }
{
    asked.max(1).min(components)
}

/// So many components in so many groups, by their numbers. The first groups have one member more where it doesn't come out even.
pub(crate) fn blocks(alloc: Global, components: u16, groups: u16) -> Result<Vec<u16>, NoMemory>
    requires few { groups ≤ components }
    requires some { 0 < components → 0 < groups }
    ensures partition { IfOk result (λ list. IsPartition components groups list.items) }
    ensures even { IfOk result (λ list. AreEven groups list.items) }
{
    if groups == 0 {
        return Ok(Vec::new(alloc));
    }
    deal_out(alloc, components, groups)
}

fn deal_out(alloc: Global, components: u16, groups: u16) -> Result<Vec<u16>, NoMemory>
    requires few { groups ≤ components }
    requires some { 0 < groups }
    ensures partition { IfOk result (λ list. IsPartition components groups list.items) }
    ensures even { IfOk result (λ list. AreEven groups list.items) }
{
    let mut group_of = Vec::with_capacity(alloc, usize::from(components))?;
    let least = components / groups;
    let greater = components % groups;
    for group in 0..groups {
        add_block(&mut group_of, group, block_size(least, greater, group))?;
    }
    Ok(group_of)
}

fn block_size(least: u16, greater: u16, group: u16) -> u32
    ensures { result ≡ block_size least greater group }
{
    let least = u32::from(least);
    if group < greater { least + 1 } else { least }
}

fn add_block(group_of: &mut Vec<u16>, group: u16, size: u32) -> Result<(), NoMemory>
    ensures { OnOk result (group_of.new.items ≡ group_of.old.items ++ replicate size group) }
{
    for _ in 0..size {
        group_of.push(group)?;
    }
    Ok(())
}
