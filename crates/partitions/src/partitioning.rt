//! Partitions of so many components.
ghost use Rattle.std.specs.Prelude.{◌≡◌, IfErr, IfOk, min, max};
ghost use Rattle.std.specs.List.{range_with_len};
ghost use Rattle.partitions.specs.Faults.{IsFault};
ghost use Rattle.partitions.specs.Groups.{groups_of, group_count};
ghost use Rattle.partitions.specs.Partitions.{IsPartition, AreEven};

use crate::blocks::count_groups;
use crate::cut::{Cut, count_cut};
use crate::dividing::divide;
use crate::fault::PartitionFault;
use crate::judging::{judge, numbers};
use crate::partition::Partition;
use std::alloc::Global;
use terms::NoMemory;

impl Partition {
    /// So many groups as are asked for, but one at least and no more than components; none of no components. Groups are even, and few
    /// edges lead from one to another, as far as is found in time that grows with components and edges. `sent` has for each component those to
    /// which it can send.
    pub fn of(
        alloc: Global,
        components: u16,
        sent: &[Vec<u16>],
        groups: u16,
    ) -> Result<Partition, NoMemory>
        ensures partition { IfOk result (λ partition. IsPartition components
            (group_count partition) (groups_of partition)) }
        ensures even { IfOk result (λ partition. AreEven (group_count partition)
            (groups_of partition)) }
        ensures count { IfOk result (λ partition. group_count partition
            ≡ min (max groups 1) components) }
    {
        let groups = count_groups(components, groups);
        let group_of = divide(alloc, sent, components, groups)?;
        Ok(Partition::made(components, group_of, groups))
    }

    /// Each component is a group of its own, of its number.
    pub fn ones(alloc: Global, components: u16) -> Result<Partition, NoMemory>
        ensures partition { IfOk result (λ partition. IsPartition components
            (group_count partition) (groups_of partition)) }
        ensures alone { IfOk result (λ partition. groups_of partition
            ≡ range_with_len 0 components) }
    {
        let group_of = numbers(alloc, components)?;
        Ok(Partition::made(components, group_of, components))
    }

    /// The partition that is given: of each component the number of its group.
    ///
    /// # Errors
    ///
    /// `WrongLength`, `NoSuchGroup` or `EmptyGroup` where it is none of so many components into so many groups, and `NoMemory`.
    pub fn of_list(
        alloc: Global,
        components: u16,
        group_of: Vec<u16>,
        groups: u16,
    ) -> Result<Partition, PartitionFault>
        ensures partition { IfOk result (λ partition. IsPartition components
            (group_count partition) (groups_of partition)) }
        ensures given { IfOk result (λ partition. groups_of partition ≡ group_of.items) }
        ensures count { IfOk result (λ partition. group_count partition ≡ groups) }
        ensures refused { IfErr result (IsFault components groups group_of.items) }
    {
        match judge(alloc, group_of.as_slice(), components, groups) {
            Ok(()) => Ok(Partition::made(components, group_of, groups)),
            Err(fault) => Err(fault),
        }
    }

    /// How many edges there are, and how many of them lead from one group to another.
    pub fn cut(&self, sent: &[Vec<u16>]) -> Cut {
        count_cut(sent, self.group_of())
    }
}
