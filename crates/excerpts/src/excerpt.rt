//! What people are told of a refused text.
ghost use Rattle.std.specs.Prelude.{◌≡◌, ◌≤◌, ◌++◌, IfOk, OnOk, codes, length};
ghost use Rattle.excerpts.specs.Excerpts.{address, carets, closing, explanation, placed, quoted, reason};

use crate::places::{before_in_line, column_at, line_at, line_of};
use crate::putting::{put, put_line, put_number, put_shown, put_times};
use std::alloc::Global;
use terms::NoMemory;

/// The bytes of a text that are marked.
#[derive(Clone, Copy, PartialEq, Eq)]
pub struct Mark {
    /// The first one, counted from 0.
    pub at: usize,
    /// How many carets stand below them.
    pub width: usize,
}

/// What is told of a refusal beside its place.
#[derive(Clone, Copy)]
pub struct Told<'a> {
    pub number: u8,
    pub sentence: &'a str,
    pub advice: &'a [u8],
}

fn put_address(out: &mut Vec<u8>, text: &[u8], at: usize) -> Result<(), NoMemory>
    requires { at ≤ length text.now }
    ensures { OnOk result (out.new.items ≡ out.old.items ++ address text.now at) }
{
    put_number(out, b":", line_at(text, at) as u64)?;
    put_number(out, b":", column_at(text, at) as u64)
}

fn put_sentence(out: &mut Vec<u8>, sentence: &str) -> Result<(), NoMemory>
    ensures { OnOk result (out.new.items ≡ out.old.items
        ++ (codes ": " ++ (sentence.now ++ codes "\n"))) }
{
    put(out, b": ")?;
    put_line(out, sentence.as_bytes())
}

fn put_reason(out: &mut Vec<u8>, told: Told) -> Result<(), NoMemory>
    ensures { OnOk result (out.new.items ≡ out.old.items ++ reason told.entry) }
{
    put_number(out, b": refused ", u64::from(told.number))?;
    put_sentence(out, told.sentence)
}

fn put_quoted(out: &mut Vec<u8>, text: &[u8], at: usize) -> Result<(), NoMemory>
    requires { at ≤ length text.now }
    ensures { OnOk result (out.new.items ≡ out.old.items ++ quoted text.now at) }
{
    put_shown(out, line_of(text, at))?;
    put(out, b"\n")
}

fn put_carets(out: &mut Vec<u8>, text: &[u8], at: usize, width: usize) -> Result<(), NoMemory>
    requires { at ≤ length text.now }
    ensures { OnOk result (out.new.items ≡ out.old.items ++ carets text.now at width) }
{
    put_times(out, b' ', before_in_line(text, at))?;
    put_times(out, b'^', width)?;
    put(out, b"\n")
}

fn put_excerpt(
    out: &mut Vec<u8>,
    text: &[u8],
    at: usize,
    width: usize,
    advice: &[u8],
) -> Result<(), NoMemory>
    requires { at ≤ length text.now }
    ensures { OnOk result (out.new.items ≡ out.old.items
        ++ ((quoted text.now at ++ carets text.now at width) ++ (advice.now ++ codes "\n"))) }
{
    put_quoted(out, text, at)?;
    put_carets(out, text, at, width)?;
    put_line(out, advice)
}

fn put_placed(
    out: &mut Vec<u8>,
    text: &[u8],
    at: usize,
    width: usize,
    told: Told,
) -> Result<(), NoMemory>
    requires { at ≤ length text.now }
    ensures { OnOk result (out.new.items ≡ out.old.items ++ placed text.now at width told.entry) }
{
    put_address(out, text, at)?;
    put_reason(out, told)?;
    put_excerpt(out, text, at, width, told.advice)
}

// What is told where no place is known.
fn put_bare(out: &mut Vec<u8>, told: Told) -> Result<(), NoMemory>
    ensures { OnOk result (out.new.items ≡ out.old.items
        ++ (reason told.entry ++ closing told.entry)) }
{
    put_reason(out, told)?;
    put_line(out, told.advice)
}

/// What people are told of a refused text that has this name: `NAME:LINE:COLUMN: refused NUMBER: SENTENCE`, the line, a line with
/// carets below what is marked, and the advice. Where nothing is marked, address, line and carets are left out. A mark behind the
/// text's end is taken for one at its end.
pub fn explanation(
    alloc: Global,
    name: &str,
    text: &[u8],
    mark: Option<Mark>,
    told: Told,
) -> Result<Vec<u8>, NoMemory>
    ensures { IfOk result (λ out. out.items ≡ explanation name.now text.now mark told.entry) }
{
    let mut out = Vec::new(alloc);
    put(&mut out, name.as_bytes())?;
    match mark {
        Some(mark) => put_placed(&mut out, text, mark.at.min(text.len()), mark.width, told)?,
        None => put_bare(&mut out, told)?,
    }
    Ok(out)
}
