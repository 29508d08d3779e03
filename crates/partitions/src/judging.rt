//! Whether a list is a partition, the components that are groups of their own, and the members of a group.
ghost use Rattle.std.specs.Prelude.{◌≡◌, ◌<◌, ◌≤◌, ◌^◌, ◌==◌, ◌++◌, ◌∷◌, [], ℕ, IfErr, IfOk, IfSome, IfNone, OnOk, All, cond, length, slice_index};
ghost use Rattle.std.specs.List.{range_with_len};
ghost use Rattle.partitions.specs.Faults.{IsFault};
ghost use Rattle.partitions.specs.Partitions.{IsPartition, members_of, size_of};

use crate::fault::PartitionFault;
use std::alloc::Global;
use terms::NoMemory;

/// Whether a list is a partition of so many components into so many groups; the fault that it has, if not.
pub(crate) fn judge(
    alloc: Global,
    group_of: &[u16],
    components: u16,
    groups: u16,
) -> Result<(), PartitionFault>
    ensures ok { OnOk result (IsPartition components groups group_of.now) }
    ensures err { IfErr result (IsFault components groups group_of.now) }
{
    if group_of.len() != usize::from(components) {
        return Err(PartitionFault::WrongLength(group_of.len()));
    }
    match first_outside(group_of, groups) {
        Some(i) => Err(PartitionFault::NoSuchGroup(i)),
        None => judge_sizes(alloc, group_of, components, groups),
    }
}

// Whether each group has a member.
fn judge_sizes(
    alloc: Global,
    group_of: &[u16],
    components: u16,
    groups: u16,
) -> Result<(), PartitionFault>
    requires every { length group_of.now ≡ components }
    requires below { All (λ g. g < groups) group_of.now }
    ensures ok { OnOk result (IsPartition components groups group_of.now) }
    ensures err { IfErr result (IsFault components groups group_of.now) }
{
    let _components = components;
    let Ok(sizes) = sizes(alloc, group_of, groups) else {
        return Err(PartitionFault::NoMemory);
    };
    match first_empty(sizes.as_slice(), groups) {
        Some(group) => Err(PartitionFault::EmptyGroup(group)),
        None => Ok(()),
    }
}

fn first_outside(group_of: &[u16], groups: u16) -> Option<usize>
    ensures some { IfSome result (λ i. (i < length group_of.now)
        × (groups ≤ slice_index group_of.now i)) }
    ensures none { IfNone result (All (λ g. g < groups) group_of.now) }
{
    for (i, group) in group_of.iter().enumerate() {
        if *group >= groups {
            return Some(i);
        }
    }
    None
}

// How many members each group has.
fn sizes(alloc: Global, group_of: &[u16], groups: u16) -> Result<Vec<usize>, NoMemory>
    requires { All (λ g. g < groups) group_of.now }
    ensures length { IfOk result (λ sizes. length sizes.items ≡ groups) }
    ensures sizes { IfOk result (λ sizes. (g : ℕ) → g < groups
        → slice_index sizes.items g ≡ size_of group_of.now g) }
{
    let mut sizes = vec![in alloc; 0usize; usize::from(groups)]?;
    for group in group_of {
        sizes[usize::from(*group)] += 1;
    }
    Ok(sizes)
}

fn first_empty(sizes: &[usize], groups: u16) -> Option<u16>
    requires { length sizes.now ≡ groups }
    ensures some { IfSome result (λ g. (g < groups) × (slice_index sizes.now g ≡ 0)) }
    ensures none { IfNone result ((g : ℕ) → g < groups → 0 < slice_index sizes.now g) }
{
    for group in 0..groups {
        if sizes[usize::from(group)] == 0 {
            return Some(group);
        }
    }
    None
}

/// So many numbers, from 0 on.
pub(crate) fn numbers(alloc: Global, components: u16) -> Result<Vec<u16>, NoMemory>
    ensures numbers { IfOk result (λ numbers. numbers.items ≡ range_with_len 0 components) }
    ensures partition { IfOk result (λ numbers. IsPartition components components numbers.items) }
{
    let mut numbers = Vec::with_capacity(alloc, usize::from(components))?;
    for i in 0..components {
        numbers.push(i)?;
    }
    Ok(numbers)
}

/// The members of a group, in order.
pub(crate) fn members(
    alloc: Global,
    group_of: &[u16],
    components: u16,
    group: u16,
) -> Result<Vec<u16>, NoMemory>
    requires { length group_of.now ≡ components }
    ensures { IfOk result (λ members. members.items ≡ members_of group_of.now group) }
{
    let mut members = Vec::new(alloc);
    for i in 0..components {
        push_if(&mut members, is_in(group_of, i, group), i)?;
    }
    Ok(members)
}

fn is_in(group_of: &[u16], i: u16, group: u16) -> bool
    requires { i < length group_of.now }
    ensures { result ≡ (slice_index group_of.now i == group) }
{
    group_of[usize::from(i)] == group
}

fn push_if(numbers: &mut Vec<u16>, test: bool, number: u16) -> Result<(), NoMemory>
    ensures { OnOk result (numbers.new.items ≡ numbers.old.items ++ cond test (number ∷ []) []) }
{
    if test {
        numbers.push(number)?;
    }
    Ok(())
}
