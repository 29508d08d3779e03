//! What a case says of bytes.

use serde_json::Value;
use std::alloc::{AllocError, Global};

// A text, or the texts of a list one after another. Of these a number and a text are that text so often, with the number of the time for each `#`,
// from 1, and the number before it for each `@`.
pub(crate) fn content_of(alloc: Global, content: &Value) -> Result<Vec<u8>, AllocError> {
    let mut bytes = Vec::new(alloc);
    push_text(alloc, content, &mut bytes)?;
    let Some(pieces) = content.as_array() else {
        return Ok(bytes);
    };
    let mut times = 1;
    for piece in pieces {
        match piece.as_u64() {
            Some(number) => times = number,
            None => {
                push_times(alloc, piece, times, &mut bytes)?;
                times = 1;
            }
        }
    }
    Ok(bytes)
}

fn push_text(alloc: Global, piece: &Value, bytes: &mut Vec<u8>) -> Result<(), AllocError> {
    if let Some(text) = piece.as_str() {
        bytes.extend_from_slice(bytes_of(alloc, text)?.as_slice())?;
    }
    Ok(())
}

fn push_times(
    alloc: Global,
    piece: &Value,
    times: u64,
    bytes: &mut Vec<u8>,
) -> Result<(), AllocError> {
    if times == 1 {
        return push_text(alloc, piece, bytes);
    }
    let text = piece.as_str().unwrap_or("");
    for time in 0..times {
        push_numbered(alloc, text, time, bytes)?;
    }
    Ok(())
}

fn push_numbered(
    alloc: Global,
    text: &str,
    before: u64,
    bytes: &mut Vec<u8>,
) -> Result<(), AllocError> {
    for byte in text.as_bytes() {
        match *byte {
            b'#' => push_number(alloc, before.saturating_add(1), bytes)?,
            b'@' => push_number(alloc, before, bytes)?,
            other => bytes.push(other)?,
        }
    }
    Ok(())
}

fn push_number(alloc: Global, number: u64, bytes: &mut Vec<u8>) -> Result<(), AllocError> {
    let text = format!(in alloc; "{number}")?;
    bytes.extend_from_slice(text.as_bytes())
}

// A character is one byte; one above 255 stands for none.
pub(crate) fn bytes_of(alloc: Global, content: &str) -> Result<Vec<u8>, AllocError> {
    let mut bytes = Vec::new(alloc);
    for character in content.chars() {
        bytes.push(u8::try_from(u32::from(character)).unwrap_or(b'?'))?;
    }
    Ok(bytes)
}
