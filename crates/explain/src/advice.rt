//! Advice on refused sources.

mod brackets;
mod components;
mod entries;
mod names;
mod near;
mod reading;
mod saying;
mod types;

use crate::outline::{Declared, outline};
pub(crate) use components::advise_component;
use ioa_tokens::Token;
pub(crate) use reading::advise_bytes;
pub(crate) use saying::Advice;
use terms::NoMemory;

/// The advice on a source that is refused at a token.
pub(crate) fn advise_token(
    source: &[u8],
    tokens: &[Token],
    number: u8,
    at: Option<usize>,
    advice: &mut Advice,
) -> Result<(), NoMemory> {
    let Some(at) = at else {
        return Ok(());
    };
    let declared = outline(advice.alloc, tokens)?;
    advise_at(source, tokens, declared.as_slice(), number, at, advice)
}

fn advise_at(
    source: &[u8],
    tokens: &[Token],
    declared: &[Declared],
    number: u8,
    at: usize,
    advice: &mut Advice,
) -> Result<(), NoMemory> {
    match number {
        10 => names::advise_unknown(tokens, declared, at, advice),
        11 => names::advise_double(source, tokens, declared, at, advice),
        12 => types::advise_type(tokens, declared, at, advice),
        16 => entries::advise_tasks(source, tokens, declared, at, advice),
        17 => entries::advise_limit(tokens, at, advice),
        _ => entries::advise_entry(source, tokens, number, at, advice),
    }
}
