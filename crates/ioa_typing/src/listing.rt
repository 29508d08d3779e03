//! Kinds as terms and effects have them.
ghost use Rattle.std.specs.Prelude.{◌≡◌, IfOk};
ghost use Rattle.terms.specs.ShapeTree.{shape_tree};
ghost use Rattle.ioa_typing.specs.KindViews.{kind_tree};
ghost use Rattle.ioa_trees.specs.Kinds as kinds;

use crate::kind::{Kind, count};
use std::alloc::{AllocError, Global};
use terms::{Listed, Shape};

/// How many members a kind has that can be listed, as far as 65,535.
pub fn small_count(kind: &Kind) -> u16
    ensures { result ≡ kinds.small (kinds.count (kind_tree kind.now)) }
{
    count(kind).min(65_535) as u16
}

/// A kind whose members are listed.
pub fn listed_of(kind: &Kind) -> Listed
    ensures { result ≡ kinds.listed_of (kind_tree kind.now) }
{
    match kind {
        Kind::Range(low, _) => Listed::Range {
            low: *low,
            count: small_count(kind),
        },
        Kind::Enumeration(first, count) => Listed::Enumeration {
            first: *first,
            count: *count,
        },
        Kind::Truth => Listed::Bool,
        Kind::Whole => Listed::Bool,
        Kind::Seq(_, _) => Listed::Bool,
        Kind::Array(_, _) => Listed::Bool,
    }
}

/// A kind, as the values of a sequence's items have it.
pub fn item_shape(alloc: Global, kind: &Kind) -> Result<Shape, AllocError>
    ensures { IfOk result (λ s. shape_tree s ≡ kinds.shape_of (kind_tree kind.now)) }
{
    match kind {
        Kind::Whole => Ok(Shape::Int),
        Kind::Range(low, high) => {
            if count(kind) > 65_535 {
                Ok(Shape::Range(*low, *high))
            } else {
                Ok(Shape::Listed(listed_of(kind)))
            }
        }
        Kind::Seq(item, most) => {
            let item = Box::new(alloc, item_shape(alloc, item)?)?;
            Ok(Shape::Seq(item, (*most).min(65_535) as u32))
        }
        Kind::Array(index, item) => {
            let item = Box::new(alloc, item_shape(alloc, item)?)?;
            Ok(Shape::Array(listed_of(index), item))
        }
        Kind::Truth => Ok(Shape::Listed(Listed::Bool)),
        Kind::Enumeration(_, _) => Ok(Shape::Listed(listed_of(kind))),
    }
}
