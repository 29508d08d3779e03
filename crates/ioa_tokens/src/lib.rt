//! The tokens of a source of composed I/O automata, and their layout: bytes become tokens with their places, and tokens
//! become text.
#![tactic(auto)]

mod fault;
mod find;
pub mod laws;
mod layout;
mod page;
mod reading;
mod reserved;
mod spelling;
mod token;
mod word;

pub use fault::TokensError;
pub use page::Page;
pub use reading::tokens;
pub use token::{Kind, Token};
pub use word::Word;
