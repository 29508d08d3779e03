//! Kinds that are parts of others, taken apart once, without memory of their own.
ghost use Rattle.std.specs.Prelude.{◌≡◌};
ghost use Rattle.ioa_trees.specs.Kinds as rule;
ghost use Rattle.ioa_typing.specs.KindViews.{kind_tree, shape_tree};

use crate::kind::{Kind, is_same};

/// The kind of a term: a part of a declared one, or one without parts.
#[derive(Clone, Copy)]
pub enum Shape<'a> {
    Truth,
    Whole,
    Range(i64, i64),
    Enumeration(u16, u16),
    Seq(&'a Kind, u64),
    Array(&'a Kind, &'a Kind),
}

/// A kind, taken apart once.
pub fn shape_of(kind: &Kind) -> Shape<'_>
    ensures { shape_tree result ≡ kind_tree kind.now }
{
    match kind {
        Kind::Truth => Shape::Truth,
        Kind::Whole => Shape::Whole,
        Kind::Range(low, high) => Shape::Range(*low, *high),
        Kind::Enumeration(first, count) => Shape::Enumeration(*first, *count),
        Kind::Seq(item, most) => Shape::Seq(item, *most),
        Kind::Array(index, item) => Shape::Array(index, item),
    }
}

/// Whether the values are whole numbers.
pub fn is_whole(shape: Shape<'_>) -> bool
    ensures { result ≡ rule.is_whole (shape_tree shape.entry) }
{
    match shape {
        Shape::Whole => true,
        Shape::Range(_, _) => true,
        Shape::Truth => false,
        Shape::Enumeration(_, _) => false,
        Shape::Seq(_, _) => false,
        Shape::Array(_, _) => false,
    }
}

/// Whether the values are truth values.
pub fn is_truth(shape: Shape<'_>) -> bool
    ensures { result ≡ rule.is_truth (shape_tree shape.entry) }
{
    match shape {
        Shape::Truth => true,
        Shape::Whole => false,
        Shape::Range(_, _) => false,
        Shape::Enumeration(_, _) => false,
        Shape::Seq(_, _) => false,
        Shape::Array(_, _) => false,
    }
}

/// Whether the values are sequences.
pub fn is_seq(shape: Shape<'_>) -> bool
    ensures { result ≡ rule.is_seq (shape_tree shape.entry) }
{
    match shape {
        Shape::Seq(_, _) => true,
        Shape::Truth => false,
        Shape::Whole => false,
        Shape::Range(_, _) => false,
        Shape::Enumeration(_, _) => false,
        Shape::Array(_, _) => false,
    }
}

/// Whether the values are arrays.
pub fn is_array(shape: Shape<'_>) -> bool
    ensures { result ≡ rule.is_array (shape_tree shape.entry) }
{
    match shape {
        Shape::Array(_, _) => true,
        Shape::Truth => false,
        Shape::Whole => false,
        Shape::Range(_, _) => false,
        Shape::Enumeration(_, _) => false,
        Shape::Seq(_, _) => false,
    }
}

fn is_same_shape(a: Shape<'_>, b: Shape<'_>) -> bool
    ensures { result ≡ rule.same (shape_tree a.entry) (shape_tree b.entry) }
{
    match a {
        Shape::Truth => is_truth(b),
        Shape::Whole => matches!(b, Shape::Whole),
        Shape::Range(low, high) => match b {
            Shape::Range(least, greatest) => low == least && high == greatest,
            Shape::Truth => false,
            Shape::Whole => false,
            Shape::Enumeration(_, _) => false,
            Shape::Seq(_, _) => false,
            Shape::Array(_, _) => false,
        },
        Shape::Enumeration(first, count) => match b {
            Shape::Enumeration(other, many) => first == other && count == many,
            Shape::Truth => false,
            Shape::Whole => false,
            Shape::Range(_, _) => false,
            Shape::Seq(_, _) => false,
            Shape::Array(_, _) => false,
        },
        Shape::Seq(item, most) => match b {
            Shape::Seq(other, many) => is_same(item, other) && most == many,
            Shape::Truth => false,
            Shape::Whole => false,
            Shape::Range(_, _) => false,
            Shape::Enumeration(_, _) => false,
            Shape::Array(_, _) => false,
        },
        Shape::Array(index, item) => match b {
            Shape::Array(by, other) => is_same(index, by) && is_same(item, other),
            Shape::Truth => false,
            Shape::Whole => false,
            Shape::Range(_, _) => false,
            Shape::Enumeration(_, _) => false,
            Shape::Seq(_, _) => false,
        },
    }
}

/// Whether a value of the second can be put in a place of the first.
pub fn fits(place: Shape<'_>, shape: Shape<'_>) -> bool
    ensures { result ≡ rule.fits (shape_tree place.entry) (shape_tree shape.entry) }
{
    if is_whole(place) {
        is_whole(shape)
    } else {
        is_same_shape(place, shape)
    }
}
