//! Which components of a composition form a group, for a run in which each worker holds a group of them.
//!
//! What is proved is that each component stands in one group, that no group is empty, and that groups are as even as can be. How few
//! edges lead from one group to another is a matter of time alone, and no clause speaks of it.
#![tactic(auto)]

mod bisection;
mod blocks;
mod cut;
mod dividing;
mod fault;
mod judging;
mod order;
mod partition;
mod partitioning;
mod pass;
mod swap;

pub use cut::Cut;
pub use fault::PartitionFault;
pub use partition::Partition;
