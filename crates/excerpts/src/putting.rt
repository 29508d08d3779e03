//! Pieces that are put behind a text.
ghost use Rattle.std.specs.Prelude.{◌≡◌, ◌++◌, OnOk, codes, decimal, map, replicate};
ghost use Rattle.ioa_tokens.specs.Bytes.{is_blank};
ghost use Rattle.excerpts.specs.Excerpts.{shown};

use itoa::Buffer;
use terms::NoMemory;

pub(crate) fn put(out: &mut Vec<u8>, piece: &[u8]) -> Result<(), NoMemory>
    ensures { OnOk result (out.new.items ≡ out.old.items ++ piece.now) }
{
    Ok(out.extend_from_slice(piece)?)
}

/// A piece with a line feed behind.
pub(crate) fn put_line(out: &mut Vec<u8>, piece: &[u8]) -> Result<(), NoMemory>
    ensures { OnOk result (out.new.items ≡ out.old.items ++ (piece.now ++ codes "\n")) }
{
    put(out, piece)?;
    put(out, b"\n")
}

/// A label and a number.
pub(crate) fn put_number(out: &mut Vec<u8>, label: &[u8], number: u64) -> Result<(), NoMemory>
    ensures { OnOk result (out.new.items ≡ out.old.items ++ (label.now ++ decimal number)) }
{
    put(out, label)?;
    put(out, Buffer::new().format(number).as_bytes())
}

/// A byte so many times.
pub(crate) fn put_times(out: &mut Vec<u8>, byte: u8, times: usize) -> Result<(), NoMemory>
    ensures { OnOk result (out.new.items ≡ out.old.items ++ replicate times byte) }
{
    for done in 0..times {
        out.push(byte)?;
    }
    Ok(())
}

fn is_blank(byte: u8) -> bool
    ensures { result ≡ is_blank byte }
{
    byte == b' ' || byte == b'\t' || byte == b'\n' || byte == b'\r'
}

fn shown(byte: u8) -> u8
    ensures { result ≡ shown byte }
{
    if is_blank(byte) {
        return b' ';
    }
    if 33 <= byte && byte <= 126 {
        byte
    } else {
        b'?'
    }
}

/// A line as it is shown.
pub(crate) fn put_shown(out: &mut Vec<u8>, line: &[u8]) -> Result<(), NoMemory>
    ensures { OnOk result (out.new.items ≡ out.old.items ++ map shown line.now) }
{
    for byte in line {
        out.push(shown(*byte))?;
    }
    Ok(())
}
