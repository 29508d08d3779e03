//! Partitions of the components of a composition.
ghost use Rattle.std.specs.Prelude.{◌≡◌, ◌<◌, ◌^◌, IfOk, length};
ghost use Rattle.partitions.specs.Partitions.{IsPartition};

use crate::judging::members;
use std::alloc::Global;
use terms::NoMemory;

/// A partition of the components of a composition: of each the number of its group. Groups are numbered from 0, and each has a
/// member.
#[derive(Drop)]
pub struct Partition {
    group_of: Vec<u16>,
    groups: u16,
    ghost few: { length group_of.items < 2 ^ 16 },
    ghost parts: { IsPartition (length group_of.items) groups group_of.items },
}

impl Partition {
    ghost use Rattle.partitions.specs.Groups.{groups_of, group_count};
    ghost use Rattle.partitions.specs.Partitions.{members_of};

    /// The partition of so many components that a list is.
    pub(crate) fn made(components: u16, group_of: Vec<u16>, groups: u16) -> Partition
        requires { IsPartition components groups group_of.items }
        ensures list { groups_of result ≡ group_of.items }
        ensures count { group_count result ≡ groups }
    {
        let _components = components;
        Partition { group_of, groups }
    }

    /// Of each component the number of its group.
    pub fn group_of(&self) -> &[u16]
        ensures list { result.now ≡ groups_of self.now }
        ensures partition { IsPartition (length result.now) (group_count self.now) result.now }
    {
        self.group_of.as_slice()
    }

    /// The number of groups.
    pub fn groups(&self) -> u16
        ensures { result ≡ group_count self.now }
    {
        self.groups
    }

    /// The components of a group, in order; none where there is no such group.
    pub fn members(&self, alloc: Global, group: u16) -> Result<Vec<u16>, NoMemory>
        ensures { IfOk result (λ members. members.items ≡ members_of (groups_of self.now) group) }
    {
        let group_of = self.group_of.as_slice();
        members(alloc, group_of, group_of.len() as u16, group)
    }
}
