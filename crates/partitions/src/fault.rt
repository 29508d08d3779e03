//! Why a partition that is given is refused.
use thiserror::Error;

/// Why a partition is refused. Components and groups are counted from 0.
#[derive(Clone, Copy, Debug, PartialEq, Eq, Error)]
pub enum PartitionFault {
    #[error("out of memory")]
    NoMemory,
    /// The list has not one place for each component. The number is its length.
    #[error("a partition of {0} components is given")]
    WrongLength(usize),
    /// The group of a component isn't below the number of groups.
    #[error("the group of component {0} isn't below the number of groups")]
    NoSuchGroup(usize),
    /// A group has no member.
    #[error("group {0} has no member")]
    EmptyGroup(u16),
}
