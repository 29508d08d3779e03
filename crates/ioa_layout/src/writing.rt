//! The text of items and of what stands between them.
ghost use Rattle.std.specs.Prelude.{◌≡◌, ◌++◌, ◌∷◌, [], IfOk, OnOk};
ghost use Rattle.ioa_layout.specs.Ink.{part_of, parts_of};
ghost use Rattle.ioa_layout.specs.Gaps.{blanks, following, gap_text, laid, line_text};

use crate::gap::{Gap, Line};
use crate::item::Item;
use std::alloc::Global;
use terms::NoMemory;

fn put(text: &mut Vec<u8>, piece: &[u8]) -> Result<(), NoMemory>
    ensures { OnOk result (text.new.items ≡ text.old.items ++ piece.now) }
{
    Ok(text.extend_from_slice(piece)?)
}

fn put_blanks(text: &mut Vec<u8>, count: usize) -> Result<(), NoMemory>
    ensures { OnOk result (text.new.items ≡ text.old.items ++ blanks count) }
{
    for _done in 0..count {
        text.push(b' ')?;
    }
    Ok(())
}

// Ends a line, and indents the next.
fn put_line(text: &mut Vec<u8>, line: Line) -> Result<(), NoMemory>
    ensures { OnOk result (text.new.items ≡ text.old.items ++ line_text line) }
{
    put(text, b"\n")?;
    if line.apart {
        put(text, b"\n")?;
    }
    put_blanks(text, line.indent)
}

fn put_gap(text: &mut Vec<u8>, gap: Gap) -> Result<(), NoMemory>
    ensures { OnOk result (text.new.items ≡ text.old.items ++ gap_text gap) }
{
    match gap {
        Gap::Nothing => Ok(()),
        Gap::Space => put(text, b" "),
        Gap::Margin => put(text, b"  "),
        Gap::Line(line) => put_line(text, line),
    }
}

// Writes a gap and what follows it.
fn put_next(text: &mut Vec<u8>, gap: Gap, item: &Item<'_>) -> Result<(), NoMemory>
    ensures { OnOk result (text.new.items
        ≡ text.old.items ++ (gap_text gap ++ (part_of item.now).text)) }
{
    put_gap(text, gap)?;
    put(text, item.text)
}

// Writes what follows the first item.
fn put_others(text: &mut Vec<u8>, items: &[Item<'_>], gaps: &[Gap]) -> Result<(), NoMemory>
    ensures { OnOk result (text.new.items
        ≡ text.old.items ++ following (parts_of items.now) gaps.now) }
{
    let mut left = gaps;
    for item in items {
        let Some((gap, later)) = left.split_first() else {
            return put(text, b"\n");
        };
        put_next(text, *gap, item)?;
        left = later;
    }
    put(text, b"\n")
}

/// The text of the items, with the gaps between them, and a line feed.
pub(crate) fn written(alloc: Global, items: &[Item<'_>], gaps: &[Gap]) -> Result<Vec<u8>, NoMemory>
    ensures { IfOk result (λ text. text.items ≡ laid (parts_of items.now) gaps.now) }
{
    let mut text = Vec::new(alloc);
    let Some((first, others)) = items.split_first() else {
        put(&mut text, b"\n")?;
        return Ok(text);
    };
    put(&mut text, first.text)?;
    put_others(&mut text, others, gaps)?;
    Ok(text)
}
