//! Lines that are put together in place, from their end to their start: so digits are made, and no
//! piece is copied twice.
ghost use Rattle.std.specs.Prelude.{◌≡◌, ◌+◌, ◌≤◌, [], ◌∷◌, ◌++◌, codes, length};
ghost use Rattle.std.specs.Prelude.{IfOk, IfErr, IfSome};
ghost use Rattle.std.specs.Fmt.{signed_decimal};
ghost use Rattle.trace.specs.Fronts.{IsBefore};
ghost use Rattle.trace.specs.Lines.{key_text, number_text};
ghost use Rattle.trace.specs.Puts.{Puts, Stops};

use crate::counted::Counted;
use crate::fault::WriteFault;
use event_keys::Key;
use itoa::write_digits;
use std::io::Write;

/// The most bytes that a key takes: its three numbers have up to 20 digits, and a space each.
pub(crate) const KEY_ROOM: usize = 63;

// The line of an idle turn ends here.
const IDLE_END: usize = KEY_ROOM + 5;

// A whole number has a sign, and up to 19 digits.
const WHOLE_ROOM: usize = 20;

// Writes a number and its space so that they end at a place, and answers where they start.
#[inline(always)]
fn write_number(number: u64, bytes: &mut [u8], end: usize) -> usize
    requires { (21 ≤ end) × (end ≤ length bytes.old) }
    ensures short { end ≤ result + 21 }
    ensures written { IsBefore bytes.old bytes.new end (number_text number) result }
{
    bytes[end - 1] = b' ';
    write_digits(number, bytes, end - 1)
}

/// Writes a key so that it ends at a place, and answers where it starts.
#[inline(always)]
#[tactic(auto, using(crate::proofs::Before::before))]
pub(crate) fn write_key(key: Key, bytes: &mut [u8], end: usize) -> usize
    requires { (KEY_ROOM ≤ end) × (end ≤ length bytes.old) }
    ensures { IsBefore bytes.old bytes.new end (key_text key) result }
{
    let start = write_number(key.number, bytes, end);
    let start = write_number(key.component as u64, bytes, start);
    write_number(key.tick, bytes, start)
}

/// Writes a byte before a place, if there is room, and answers where it is.
#[inline(always)]
pub(crate) fn write_byte(byte: u8, bytes: &mut [u8], end: usize) -> Option<usize>
    requires { end ≤ length bytes.old }
    ensures { IfSome result (IsBefore bytes.old bytes.new end (byte ∷ [])) }
{
    let start = end.checked_sub(1)?;
    bytes[start] = byte;
    Some(start)
}

/// Writes a text before a place, if there is room, and answers where it starts.
#[inline(always)]
pub(crate) fn write_text(text: &str, bytes: &mut [u8], end: usize) -> Option<usize>
    requires { end ≤ length bytes.old }
    ensures { IfSome result (IsBefore bytes.old bytes.new end text.now) }
{
    let start = end.checked_sub(text.len())?;
    bytes[start..end].copy_from_slice(text.as_bytes());
    Some(start)
}

/// Writes a whole number before a place, if there is room for any, and answers where it starts.
#[inline(always)]
#[tactic(auto, using(crate::proofs::Before::before))]
pub(crate) fn write_whole(number: i64, bytes: &mut [u8], end: usize) -> Option<usize>
    requires { end ≤ length bytes.old }
    ensures { IfSome result (IsBefore bytes.old bytes.new end (signed_decimal number)) }
{
    if end < WHOLE_ROOM {
        return None;
    }
    let start = write_digits(number.unsigned_abs(), bytes, end);
    if number >= 0 {
        return Some(start);
    }
    write_byte(b'-', bytes, start)
}

/// Writes bytes, up to the first write that fails.
#[inline]
pub(crate) fn put_bytes<W: Write>(
    out: &mut Counted<W>,
    bytes: &[u8],
    before: u64,
) -> Result<u64, WriteFault>
    ensures ok { IfOk result (λ after. Puts W.contents out.old out.new before after bytes.now) }
    ensures err { IfErr result (λ fault. Stops W.contents out.old out.new before bytes.now fault) }
{
    match out.write_piece(bytes) {
        Ok(()) => Ok(before.saturating_add(bytes.len() as u64)),
        Err(part) => Err(WriteFault::WriteFailed(before.saturating_add(part as u64))),
    }
}

/// Writes the line of an idle turn.
#[inline(always)]
pub(crate) fn put_idle<W: Write>(
    out: &mut Counted<W>,
    key: Key,
    before: u64,
) -> Result<u64, WriteFault>
    ensures ok { IfOk result (λ after. Puts W.contents out.old out.new
        before after (key_text key ++ (codes "idle" ++ 10 ∷ []))) }
    ensures err { IfErr result (λ fault. Stops W.contents out.old out.new
        before (key_text key ++ (codes "idle" ++ 10 ∷ [])) fault) }
{
    let mut bytes = [0; IDLE_END];
    bytes[KEY_ROOM..].copy_from_slice(b"idle\n");
    let start = write_key(key, &mut bytes, KEY_ROOM);
    put_bytes(out, &bytes[start..], before)
}
