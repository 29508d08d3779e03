//! Kinds.
ghost use Rattle.std.specs.Prelude.{◌≡◌, ◌≤◌, ◌*◌, nat_lt, IfOk};
ghost use Rattle.ioa_trees.specs.Kinds as rule;
ghost use Rattle.ioa_typing.specs.KindViews.{capped, kind_tree};

use std::alloc::{AllocError, Global};

/// What a type means. The members of all enumerations are numbered from 0: an enumeration has the number of its first member, and how
/// many it has.
#[derive(Drop)]
pub enum Kind {
    Truth,
    Whole,
    /// Its least and its greatest number.
    Range(i64, i64),
    Enumeration(u16, u16),
    /// Its items, and how many there are at most.
    Seq(Box<Kind>, u64),
    /// Its index type and its items.
    Array(Box<Kind>, Box<Kind>),
}

fn is_range(kind: &Kind, low: i64, high: i64) -> bool
    ensures { result ≡ rule.same (rule.Range low high) (kind_tree kind.now) }
{
    match kind {
        Kind::Range(least, greatest) => low == *least && high == *greatest,
        Kind::Truth => false,
        Kind::Whole => false,
        Kind::Enumeration(_, _) => false,
        Kind::Seq(_, _) => false,
        Kind::Array(_, _) => false,
    }
}

fn is_enumeration(kind: &Kind, first: u16, count: u16) -> bool
    ensures { result ≡ rule.same (rule.Enum first count) (kind_tree kind.now) }
{
    match kind {
        Kind::Enumeration(other, many) => first == *other && count == *many,
        Kind::Truth => false,
        Kind::Whole => false,
        Kind::Range(_, _) => false,
        Kind::Seq(_, _) => false,
        Kind::Array(_, _) => false,
    }
}

/// Whether two kinds are one.
pub fn is_same(a: &Kind, b: &Kind) -> bool
    ensures { result ≡ rule.same (kind_tree a.now) (kind_tree b.now) }
{
    match a {
        Kind::Truth => matches!(b, Kind::Truth),
        Kind::Whole => matches!(b, Kind::Whole),
        Kind::Range(low, high) => is_range(b, *low, *high),
        Kind::Enumeration(first, count) => is_enumeration(b, *first, *count),
        Kind::Seq(item, most) => match b {
            Kind::Seq(other, many) => is_same(item, other) && most == many,
            Kind::Truth => false,
            Kind::Whole => false,
            Kind::Range(_, _) => false,
            Kind::Enumeration(_, _) => false,
            Kind::Array(_, _) => false,
        },
        Kind::Array(index, item) => match b {
            Kind::Array(by, other) => is_same(index, by) && is_same(item, other),
            Kind::Truth => false,
            Kind::Whole => false,
            Kind::Range(_, _) => false,
            Kind::Enumeration(_, _) => false,
            Kind::Seq(_, _) => false,
        },
    }
}

fn capped_product(a: u64, b: u64) -> u64
    requires left { a ≤ 65537 }
    requires right { b ≤ 65537 }
    ensures { result ≡ capped (a * b) }
{
    (a * b).min(65_537)
}

fn count_between(low: i64, high: i64) -> u64
    ensures { result ≡ capped (rule.count (rule.Range low high)) }
{
    if high < low {
        0
    } else {
        high.abs_diff(low).saturating_add(1).min(65_537)
    }
}

/// How many members a kind has that can be listed, as far as 65,537; 0 for the others.
pub fn count(kind: &Kind) -> u64
    ensures { result ≡ capped (rule.count (kind_tree kind.now)) }
{
    match kind {
        Kind::Truth => 2,
        Kind::Range(low, high) => count_between(*low, *high),
        Kind::Enumeration(_, count) => (*count as u64).min(65_537),
        Kind::Whole => 0,
        Kind::Seq(_, _) => 0,
        Kind::Array(_, _) => 0,
    }
}

/// The weight of a kind, the most scalars that a value has, as far as 65,537.
#[tactic(auto, using(crate::proofs::Capped::capped_times))]
pub fn weight(kind: &Kind) -> u64
    ensures { result ≡ capped (rule.weight (kind_tree kind.now)) }
{
    match kind {
        Kind::Seq(item, most) => capped_product((*most).min(65_537), weight(item)),
        Kind::Array(index, item) => capped_product(count(index), weight(item)),
        _ => 1,
    }
}

/// Whether the members of a kind can be listed.
pub fn can_be_listed(kind: &Kind) -> bool
    ensures { result ≡ rule.can_be_listed (kind_tree kind.now) }
{
    match kind {
        Kind::Truth => true,
        Kind::Range(..) => true,
        Kind::Enumeration(_, _) => true,
        Kind::Whole => false,
        Kind::Seq(_, _) => false,
        Kind::Array(_, _) => false,
    }
}

/// Whether the values of a kind have no parts.
pub fn is_scalar(kind: &Kind) -> bool
    ensures { result ≡ rule.is_scalar (kind_tree kind.now) }
{
    match kind {
        Kind::Truth => true,
        Kind::Whole => true,
        Kind::Range(_, _) => true,
        Kind::Enumeration(_, _) => true,
        Kind::Seq(_, _) => false,
        Kind::Array(_, _) => false,
    }
}

/// The same kind once more.
pub fn copy_kind(alloc: Global, kind: &Kind) -> Result<Kind, AllocError>
    ensures { IfOk result (λ k. kind_tree k ≡ kind_tree kind.now) }
{
    match kind {
        Kind::Truth => Ok(Kind::Truth),
        Kind::Whole => Ok(Kind::Whole),
        Kind::Range(low, high) => Ok(Kind::Range(*low, *high)),
        Kind::Enumeration(first, count) => Ok(Kind::Enumeration(*first, *count)),
        Kind::Seq(item, most) => {
            let item = Box::new(alloc, copy_kind(alloc, item)?)?;
            Ok(Kind::Seq(item, *most))
        }
        Kind::Array(index, item) => {
            let index = Box::new(alloc, copy_kind(alloc, index)?)?;
            let item = Box::new(alloc, copy_kind(alloc, item)?)?;
            Ok(Kind::Array(index, item))
        }
    }
}
