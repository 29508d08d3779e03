//! The engines of all subcommands of the program `warp` but `run`, from what files say to the text that goes out, over files and writers of any
//! kind; and what the program reports.
#![tactic(auto)]

pub mod checking;
mod counts;
pub mod diagrams;
pub mod driving;
pub mod explaining;
pub mod fault;
pub mod files;
pub mod formatting;
mod given;
pub mod hunting;
pub mod laws;
pub mod over_bytes;
pub mod over_files;
pub mod printing;
pub mod reading;
pub mod reasons;
pub mod report;
pub mod setups;
pub mod simulating;
pub mod writing;

pub use checking::check_trace;
pub use driving::{RefusedStep, drive};
pub use fault::{CheckFault, DriveFault, PrintFault, SimulateFault};
pub use files::{FileFault, Files};
pub use given::GivenTurns;
pub use hunt::{Looks, Unwatched};
pub use simulating::simulate;
