//! The phrases of sources, read from the front of tokens: types, values, terms and statements, the blocks of automata, and whole
//! sources.
#![tactic(auto)]

mod automata;
mod blocks;
mod build;
mod components;
mod definitions;
mod entries;
mod front;
mod lists;
mod names;
mod source;
mod statements;
mod stop;
mod term;
mod transitions;
mod types;
mod values;

pub use source::read_source;
pub use stop::Stop;
