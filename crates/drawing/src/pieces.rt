//! Pieces of text, one behind the other.
ghost use Rattle.std.specs.Prelude.{◌≡◌, ◌++◌, OnOk, decimal};
ghost use Rattle.drawing.specs.Elements.{attribute_text, escaped, escaped_byte};

use itoa::Buffer;
use std::alloc::AllocError;

/// Adds a text.
pub(crate) fn put(text: &mut Vec<u8>, piece: &[u8]) -> Result<(), AllocError>
    ensures { OnOk result (text.new.items ≡ text.old.items ++ piece.now) }
{
    text.extend_from_slice(piece)
}

/// Adds a number.
pub(crate) fn put_number(text: &mut Vec<u8>, number: u64) -> Result<(), AllocError>
    ensures { OnOk result (text.new.items ≡ text.old.items ++ decimal number) }
{
    text.extend_from_slice(Buffer::new().format(number).as_bytes())
}

/// Adds an attribute, which begins with a space, its name and a sign of equality, and whose value is a number.
#[tactic(auto, using(std::proofs::lemmas::List::append_assoc))]
pub(crate) fn put_attribute(text: &mut Vec<u8>, name: &[u8], number: u64) -> Result<(), AllocError>
    ensures { OnOk result (text.new.items ≡ text.old.items ++ attribute_text name.now number) }
{
    put(text, name)?;
    put(text, b"\"")?;
    put_number(text, number)?;
    put(text, b"\"")
}

// Adds a byte of a text.
fn put_byte(text: &mut Vec<u8>, byte: u8) -> Result<(), AllocError>
    ensures { OnOk result (text.new.items ≡ text.old.items ++ escaped_byte byte) }
{
    match byte {
        b'&' => put(text, b"&amp;"),
        b'<' => put(text, b"&lt;"),
        b'>' => put(text, b"&gt;"),
        _ => {
            text.push(byte)?;
            Ok(())
        }
    }
}

/// Adds a text in which `&`, `<` and `>` are written by their names.
pub(crate) fn put_escaped(text: &mut Vec<u8>, words: &[u8]) -> Result<(), AllocError>
    ensures { OnOk result (text.new.items ≡ text.old.items ++ escaped words.now) }
{
    let mut rest = words;
    while let Some((byte, later)) = rest.split_first() {
        put_byte(text, *byte)?;
        rest = later;
    }
    Ok(())
}
