//! What terms and effects come to: a term has its value in a scope and a state, and an effect leads from one whole state to the
//! next.
//!
//! Nothing here judges types: a term that isn't well typed has some value.
#![tactic(auto)]

mod assign;
pub mod evaluate;
mod glance;
mod look;
mod number;
pub mod parts;
mod perform;
mod plain;
mod seen;
mod turning;
mod typed;
mod unary;

pub use evaluate::eval;
pub use perform::run;
