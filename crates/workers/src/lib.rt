//! Workers that hold groups of components: each thread keeps its group, runs it ahead and shares what it did, while the calling thread writes what is
//! committed. Where one group has all components, one thread draws its turns and another takes them, while the calling thread writes them.
#![tactic(auto)]

mod activity;
mod alone;
mod batches;
mod crew;
mod desk;
mod drawing;
pub mod fault;
pub mod gate;
mod portions;
pub mod running;
mod running_alone;
mod shared;
mod taking;
mod trial;
mod visiting;
mod working;
mod writing;

pub use fault::RunFault;
pub use gate::{Gate, Unheld};
pub use group_exchange::{Lease, Window};
pub use groups::{Ran, Stop};
pub use lone_group::{LoneGroup, Rest, Took};
pub use running::{Job, Summary, run, run_with_stats};
pub use steering::Stats;
pub use trial::groups_by_trial;
