//! Groups of components whose turns are all sure: each is taken once all is known that comes before it, without marks, and is never taken back.
#![tactic(auto)]

mod bags;
mod giving;
pub mod group;
mod hearing;
pub mod input;
mod member;
mod members;
pub mod packet;
mod passing;

pub use group::{Place, Step, SureGroup};
pub use input::Input;
pub use packet::{Packet, Unheard};
