//! Gaps that may stand between two neighbours.
ghost use Rattle.std.specs.Prelude.{◌≡◌, ◌≤◌, ◌*◌, ◌++◌, ◌⊎◌, true, false, IfNone, IfSome, length};
ghost use Rattle.ioa_tokens.specs.Bytes.{Text, is_word_byte};
ghost use Rattle.ioa_tokens.specs.Tokens.{Tok};
ghost use Rattle.ioa_tokens.specs.Cutting.{Mark, ends};
ghost use Rattle.ioa_layout.specs.Ink.{part_of, piece_of};
ghost use Rattle.ioa_layout.specs.Lines.{is_below};
ghost use Rattle.ioa_layout.specs.Gaps.{IsGap, begins, ends_itself, gap_text, indent_of, is_comment, is_free, is_line, level_of, room_after};

use crate::gap::{Gap, Line, MOST_INDENT};
use crate::item::{Below, Ink, Item};
use crate::joint::{begins_line, level};
use ioa_tokens::{Kind, Word};

// The byte goes on with a name, a reserved word or a number.
fn is_word_byte(byte: u8) -> bool
    ensures { result ≡ is_word_byte byte }
{
    byte.is_ascii_alphanumeric() || byte == b'_'
}

// No token goes on with the byte.
fn ends_token(first: u8) -> bool
    ensures { result ≡ is_free first }
{
    !is_word_byte(first) && first != b'='
}

// What follows the sign directly is never taken for a part of it.
fn ends_itself(word: Word) -> bool
    ensures { result ≡ ends_itself word }
{
    match word {
        Word::Open | Word::OpenBracket | Word::DotDot | Word::Minus => true,
        _ => false,
    }
}

// The text begins with a byte that no token goes on with.
fn is_free(next: &[u8]) -> bool
    ensures { result ≡ true → (t : Tok) → ends (Mark t) next.now ≡ true }
{
    match next.first() {
        Some(first) => ends_token(*first),
        None => true,
    }
}

// The two may stand with nothing between them.
fn may_touch(before: Ink<'_>, next: &[u8]) -> bool
    ensures { result ≡ true → ends (piece_of before.entry) next.now ≡ true }
{
    match before {
        Ink::Comment => false,
        Ink::Token(Kind::Word(word)) => ends_itself(word) || is_free(next),
        Ink::Token(_) => is_free(next),
    }
}

// The indent of a line that begins with it, where it has to begin one.
fn begun_at(ink: Ink<'_>) -> Option<usize>
    ensures none { IfNone result (begins (piece_of ink.entry) ≡ false) }
    ensures some { IfSome result (λ indent. indent ≡ 2 * level_of (piece_of ink.entry)) }
    ensures low { IfSome result (λ indent. indent ≤ 60) }
{
    match ink {
        Ink::Token(Kind::Word(word)) if begins_line(word) => Some(2 * level(word)),
        _ => None,
    }
}

fn is_comment(ink: Ink<'_>) -> bool
    ensures { result ≡ is_comment (piece_of ink.entry) }
{
    match ink {
        Ink::Comment => true,
        Ink::Token(_) => false,
    }
}

// What stands before the gap ends there.
fn keeps_apart(gap: Gap, before: Ink<'_>, next: &[u8]) -> bool
    ensures { result ≡ true → ends (piece_of before.entry) (gap_text gap ++ next.now) ≡ true }
{
    match gap {
        Gap::Nothing => may_touch(before, next),
        Gap::Space => !is_comment(before),
        Gap::Margin => !is_comment(before),
        Gap::Line(_) => true,
    }
}

// What has to begin a line begins one, at its level.
fn begins_well(gap: Gap, ink: Ink<'_>) -> bool
    ensures { result ≡ true → begins (piece_of ink.entry) ≡ true
        → (is_line gap ≡ true) × (indent_of gap ≡ 2 * level_of (piece_of ink.entry)) }
{
    let Some(indent) = begun_at(ink) else {
        return true;
    };
    match gap {
        Gap::Line(line) => line.indent == indent,
        Gap::Nothing => false,
        Gap::Space => false,
        Gap::Margin => false,
    }
}

// The indent of a line before the item: its own level's, or the one that is wanted.
fn line_indent(ink: Ink<'_>, wanted: usize) -> usize
    ensures begun { begins (piece_of ink.entry) ≡ true → result ≡ 2 * level_of (piece_of ink.entry) }
    ensures low { result ≤ 60 }
{
    match begun_at(ink) {
        Some(indent) => indent,
        None => wanted.min(MOST_INDENT),
    }
}

// The item ends within the columns, where so many are left before the gap, or it may pass them.
fn ends_within(gap: Gap, item: &Item<'_>, room: usize) -> bool
    ensures { result ≡ true → is_comment (piece_of item.now.ink) ≡ true
        ⊎ (is_line gap ≡ true ⊎ length item.now.text.now ≤ room_after gap room) }
{
    if is_comment(item.ink) || gap.is_line() {
        return true;
    }
    item.text.len() <= gap.room_after(room)
}

fn is_low(gap: Gap) -> bool
    ensures { result ≡ true → indent_of gap ≤ 60 }
{
    match gap {
        Gap::Line(line) => line.indent <= MOST_INDENT,
        Gap::Nothing => true,
        Gap::Space => true,
        Gap::Margin => true,
    }
}

// The gap may stand between the two, where so many columns are left before it.
fn may_stand(gap: Gap, before: &Item<'_>, item: &Item<'_>, room: usize) -> bool
    ensures { result ≡ true → IsGap room (part_of before.now) gap (part_of item.now) }
{
    let apart = keeps_apart(gap, before.ink, item.text);
    let begun = begins_well(gap, item.ink);
    let within = ends_within(gap, item, room);
    let low = is_low(gap);
    apart && begun && within && low
}

fn is_below(below: Below) -> bool
    ensures { result ≡ is_below below }
{
    match below {
        Below::SameLine => false,
        Below::LineEnds => true,
        Below::NextLine => true,
        Below::Further => true,
    }
}

// The line that is wanted, or one with such an indent.
fn line_of(wanted: Gap, indent: usize) -> Line
    ensures { result.indent ≤ 60 }
{
    match wanted {
        Gap::Line(line) => Line {
            apart: line.apart,
            indent: line.indent.min(MOST_INDENT),
        },
        _ => Line {
            apart: false,
            indent: indent.min(MOST_INDENT),
        },
    }
}

// The gap before a comment: a line where it stands in a line of its own, or behind another comment.
fn comment_gap(wanted: Gap, indent: usize, before: Ink<'_>, below: Below) -> Gap
    ensures apart { (rest : Text) → ends (piece_of before.entry) (gap_text result ++ rest) ≡ true }
    ensures lines { is_comment (piece_of before.entry) ≡ false → is_line result ≡ is_below below }
    ensures low { indent_of result ≤ 60 }
{
    if is_comment(before) {
        return Gap::Line(line_of(wanted, indent));
    }
    if is_below(below) {
        return Gap::Line(line_of(wanted, indent));
    }
    Gap::Margin
}

/// The gap that is wanted before an item, if it may stand there: else a blank, or the end of a line and such an indent. A
/// comment in a line of its own stays in one.
pub(crate) fn settled(
    wanted: Gap,
    indent: usize,
    before: &Item<'_>,
    item: &Item<'_>,
    room: usize,
) -> Gap
    ensures gap { IsGap room (part_of before.now) result (part_of item.now) }
    ensures lines { is_comment (piece_of item.now.ink) ≡ true
        → is_comment (piece_of before.now.ink) ≡ false → is_line result ≡ is_below item.now.below }
{
    if is_comment(item.ink) {
        return comment_gap(wanted, indent, before.ink, item.below);
    }
    if may_stand(wanted, before, item, room) {
        return wanted;
    }
    if may_stand(Gap::Space, before, item, room) {
        return Gap::Space;
    }
    Gap::Line(Line {
        apart: false,
        indent: line_indent(item.ink, indent),
    })
}
