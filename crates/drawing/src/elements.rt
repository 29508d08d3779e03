//! The elements of a diagram.
ghost use Rattle.std.specs.Prelude.{◌≡◌, ◌<◌, ◌^◌, ◌+◌, ◌++◌, OnOk};
ghost use Rattle.drawing.specs.Elements.{arrow_text, component_text, day_text, full_dot, head_text, hollow_dot, label_text, line_text, margin_text, marker_text, night_text, text_at};

use crate::pieces::{put, put_attribute, put_escaped};
use std::alloc::AllocError;

#[tactic(auto, using(std::proofs::lemmas::List::append_assoc))]
fn put_line(text: &mut Vec<u8>, x1: u64, y1: u64, x2: u64, y2: u64) -> Result<(), AllocError>
    ensures { OnOk result (text.new.items ≡ text.old.items ++ line_text x1 y1 x2 y2) }
{
    put_attribute(text, b" x1=", x1)?;
    put_attribute(text, b" y1=", y1)?;
    put_attribute(text, b" x2=", x2)?;
    put_attribute(text, b" y2=", y2)?;
    put(text, b"/>\n")
}

#[tactic(auto, using(std::proofs::lemmas::List::append_assoc))]
fn put_text_at(text: &mut Vec<u8>, x: u64, y: u64, words: &[u8]) -> Result<(), AllocError>
    ensures { OnOk result (text.new.items ≡ text.old.items ++ text_at x y words.now) }
{
    put_attribute(text, b" x=", x)?;
    put_attribute(text, b" y=", y)?;
    put(text, b">")?;
    put_escaped(text, words)?;
    put(text, b"</text>\n")
}

/// A component's name, and its line down to a place.
#[tactic(auto, using(std::proofs::lemmas::List::append_assoc))]
pub(crate) fn put_component(
    text: &mut Vec<u8>,
    x: u64,
    bottom: u64,
    name: &[u8],
) -> Result<(), AllocError>
    ensures { OnOk result (text.new.items ≡ text.old.items ++ component_text x bottom name.now) }
{
    put(text, b"<text class=\"n\"")?;
    put_text_at(text, x, 30, name)?;
    put(text, b"<line")?;
    put_line(text, x, 40, x, bottom)
}

/// An arrow at a height.
#[tactic(auto, using(std::proofs::lemmas::List::append_assoc))]
pub(crate) fn put_arrow(text: &mut Vec<u8>, y: u64, from: u64, to: u64) -> Result<(), AllocError>
    ensures { OnOk result (text.new.items ≡ text.old.items ++ arrow_text y from to) }
{
    put(text, b"<line class=\"a\"")?;
    put_line(text, from, y, to, y)
}

/// A hollow dot.
#[tactic(auto, using(std::proofs::lemmas::List::append_assoc))]
pub(crate) fn put_hollow_dot(text: &mut Vec<u8>, x: u64, y: u64) -> Result<(), AllocError>
    ensures { OnOk result (text.new.items ≡ text.old.items ++ hollow_dot x y) }
{
    put(text, b"<circle class=\"i\"")?;
    put_attribute(text, b" cx=", x)?;
    put_attribute(text, b" cy=", y)?;
    put(text, b" r=\"4\"/>\n")
}

/// A full dot.
#[tactic(auto, using(std::proofs::lemmas::List::append_assoc))]
pub(crate) fn put_full_dot(text: &mut Vec<u8>, x: u64, y: u64) -> Result<(), AllocError>
    ensures { OnOk result (text.new.items ≡ text.old.items ++ full_dot x y) }
{
    put(text, b"<circle")?;
    put_attribute(text, b" cx=", x)?;
    put_attribute(text, b" cy=", y)?;
    put(text, b" r=\"4\"/>\n")
}

/// A label beside a dot.
#[tactic(auto, using(std::proofs::lemmas::List::append_assoc))]
pub(crate) fn put_label(text: &mut Vec<u8>, x: u64, y: u64, label: &[u8]) -> Result<(), AllocError>
    requires { x < 2 ^ 63 }
    ensures { OnOk result (text.new.items ≡ text.old.items ++ label_text x y label.now) }
{
    put(text, b"<text")?;
    put_text_at(text, x + 8, y, label)
}

/// A tick, or a remark, at the left.
#[tactic(auto, using(std::proofs::lemmas::List::append_assoc))]
pub(crate) fn put_margin(text: &mut Vec<u8>, y: u64, words: &[u8]) -> Result<(), AllocError>
    ensures { OnOk result (text.new.items ≡ text.old.items ++ margin_text y words.now) }
{
    put(text, b"<text class=\"t\"")?;
    put_text_at(text, 8, y, words)
}

fn put_day(text: &mut Vec<u8>) -> Result<(), AllocError>
    ensures { OnOk result (text.new.items ≡ text.old.items ++ day_text) }
{
    put(
        text,
        b"<style>svg{background:#fff}text{fill:#111;stroke:#fff;stroke-width:3;paint-order:stroke}\n",
    )?;
    put(
        text,
        b".n{text-anchor:middle}.t{fill:#666}line{stroke:#ccc}.a{stroke:#36c;marker-end:url(#m)}\n",
    )?;
    put(
        text,
        b"circle{fill:#111;stroke:#111}.i{fill:#fff}path{fill:#36c}\n",
    )
}

fn put_night(text: &mut Vec<u8>) -> Result<(), AllocError>
    ensures { OnOk result (text.new.items ≡ text.old.items ++ night_text) }
{
    put(
        text,
        b"@media(prefers-color-scheme:dark){svg{background:#111}text{fill:#eee;stroke:#111}\n",
    )?;
    put(
        text,
        b".t{fill:#999}line{stroke:#444}.a{stroke:#8af}circle{fill:#eee;stroke:#eee}\n",
    )?;
    put(text, b".i{fill:#111}path{fill:#8af}}</style>\n")
}

#[tactic(auto, using(std::proofs::lemmas::List::append_assoc))]
fn put_marker(text: &mut Vec<u8>) -> Result<(), AllocError>
    ensures { OnOk result (text.new.items ≡ text.old.items ++ marker_text) }
{
    put(
        text,
        b"<defs><marker id=\"m\" refX=\"8\" refY=\"4\" markerWidth=\"8\" markerHeight=\"8\"",
    )?;
    put(
        text,
        b" markerUnits=\"userSpaceOnUse\" orient=\"auto\"><path d=\"M0 0L8 4L0 8z\"/></marker></defs>\n",
    )
}

/// What a diagram of this size begins with.
pub(crate) fn put_head(text: &mut Vec<u8>, width: u64, height: u64) -> Result<(), AllocError>
    ensures { OnOk result (text.new.items ≡ text.old.items ++ head_text width height) }
{
    put(text, b"<svg xmlns=\"http://www.w3.org/2000/svg\"")?;
    put_attribute(text, b" width=", width)?;
    put_attribute(text, b" height=", height)?;
    put(text, b" font-family=\"monospace\" font-size=\"11\">\n")?;
    put_day(text)?;
    put_night(text)?;
    put_marker(text)
}
