//! Members of types, and items of values.
ghost use Rattle.std.specs.Prelude.{◌≡◌, ◌<◌, IfOk, get_or, drop, replicate, [], length, neg_ℤ, not};
ghost use Rattle.terms.specs.Datum.{Datum, Just, pack, items_of, scalar_of};
ghost use Rattle.terms.specs.Shapes.{count, member, place, default, whole, nearest};
ghost use Rattle.terms.specs.Meaning.{number, truth, appended, cell, slot};
ghost use Rattle.evaluation.specs.Seen.{seen};
ghost use Rattle.terms.specs.ShapeTree.{shape_tree};
ghost use Rattle.terms.specs.Shapes.{place_of};
ghost use Rattle.terms.specs.declared.scalar.Scalar.TheVariants.{Int, Bool};
ghost use Rattle.std.specs.Prelude.{pos};

use crate::number;
use crate::seen::Seen;
use std::alloc::Global;
use terms::reading::{number_in, truth_in};
use terms::{Listed, NoMemory, Scalar, Shape, Value, value};

/// How many members a type has.
pub fn count_of(listed: Listed) -> u16
    ensures { result ≡ count listed }
{
    match listed {
        Listed::Bool => 2,
        Listed::Range { low: _, count } => count,
        Listed::Enumeration { first: _, count } => count,
    }
}

/// The member of a type at a place, counted from 0, which is below the number of the type's members.
pub fn member_at(listed: Listed, at: u16) -> Scalar
    ensures { result ≡ member listed at }
{
    match listed {
        Listed::Bool => Scalar::Bool(at > 0),
        Listed::Range { low, count: _ } => Scalar::Int(number::sum(low, at as i64)),
        Listed::Enumeration { first, count: _ } => Scalar::Member(first.wrapping_add(at)),
    }
}

fn own_place(scalar: Scalar) -> u16
    ensures { result ≡ place_of scalar }
{
    match scalar {
        Scalar::Int(_) => 0,
        Scalar::Bool(truth) => if truth { 1 } else { 0 },
        Scalar::Member(at) => at,
    }
}

/// The place of the nearest member of a type: a whole number below a range's least has place 0, one above its greatest the
/// last place. So any scalar is put into the type.
pub fn place_in(listed: Listed, scalar: Scalar) -> usize
    ensures { result ≡ place listed scalar }
{
    match listed {
        Listed::Bool => own_place(scalar) as usize,
        Listed::Range { low, count } => {
            let number = number_in(scalar);
            if number < low {
                return 0;
            }
            let last = if count > 0 { count - 1 } else { 0 };
            number.abs_diff(low).min(last as u64) as usize
        }
        Listed::Enumeration { first, count } => {
            let last = if count > 0 { count - 1 } else { 0 };
            own_place(scalar).saturating_sub(first).min(last) as usize
        }
    }
}

/// So many copies.
pub(crate) fn repeated(alloc: Global, value: &Value, count: u16) -> Result<Vec<Value>, NoMemory>
    ensures { IfOk result (λ v. v.items ≡ replicate count value.now) }
{
    let mut copies = Vec::with_capacity(alloc, count as usize)?;
    for _k in 0..count {
        copies.push(value::copy(alloc, value)?)?;
    }
    Ok(copies)
}

/// The value that stands where there is none.
pub(crate) fn default_of(alloc: Global, shape: &Shape) -> Result<Value, NoMemory>
    ensures { IfOk result (λ v. v ≡ default (shape_tree shape.now)) }
{
    match shape {
        Shape::Int => Ok(Value::of_scalar(Scalar::Int(0))),
        Shape::Range(low, _) => Ok(Value::of_scalar(Scalar::Int(*low))),
        Shape::Listed(listed) => Ok(Value::of_scalar(member_at(*listed, 0))),
        Shape::Seq(_, _) => Ok(Value::of_items(Vec::new(alloc))),
        Shape::Array(listed, item) => {
            let item = default_of(alloc, item)?;
            let items = repeated(alloc, &item, count_of(*listed));
            drop(item);
            Ok(Value::of_items(items?))
        }
    }
}

/// The item at a place.
pub(crate) fn item<'a>(
    alloc: Global,
    list: Result<Seen<'a>, NoMemory>,
    at: usize,
) -> Result<Seen<'a>, NoMemory>
    ensures { (d : Datum) → IfOk list.entry (λ v. seen v ≡ d)
        → IfOk result (λ v. seen v ≡ get_or (items_of d) at (Just (Int (pos 0)))) }
{
    Ok(item_of(alloc, list?, at))
}

fn item_of<'a>(alloc: Global, list: Seen<'a>, at: usize) -> Seen<'a>
    ensures { seen result ≡ get_or (items_of (seen list.entry)) at (Just (Int (pos 0))) }
{
    match list {
        Seen::Lent(value) => match value.items().get(at) {
            Some(item) => Seen::Lent(item),
            None => Seen::of_scalar(Scalar::Int(0)),
        },
        Seen::Own(value) => {
            let mut items = value.into_items(alloc);
            if at < items.len() {
                Seen::Own(items.swap_remove(at))
            } else {
                Seen::of_scalar(Scalar::Int(0))
            }
        }
    }
}

/// The first item.
pub(crate) fn head<'a>(
    alloc: Global,
    list: Result<Seen<'a>, NoMemory>,
    shape: &Shape,
) -> Result<Seen<'a>, NoMemory>
    ensures { (d : Datum) → IfOk list.entry (λ v. seen v ≡ d)
        → IfOk result (λ v. seen v ≡ get_or (items_of d) 0 (default (shape_tree shape.now))) }
{
    let list = list?;
    if list.value().items().is_empty() {
        drop(list);
        return Ok(Seen::Own(default_of(alloc, shape)?));
    }
    Ok(item_of(alloc, list, 0))
}

/// All items but the first.
pub(crate) fn tail<'a>(
    alloc: Global,
    list: Result<Seen<'_>, NoMemory>,
) -> Result<Seen<'a>, NoMemory>
    ensures { (d : Datum) → IfOk list.entry (λ v. seen v ≡ d)
        → IfOk result (λ v. seen v ≡ pack (drop 1 (items_of d))) }
{
    match list? {
        Seen::Lent(value) => match value.items().split_first() {
            Some((_, rest)) => Ok(Seen::of_items(value::copy_all(alloc, rest)?)),
            None => Ok(Seen::of_items(Vec::new(alloc))),
        },
        Seen::Own(value) => {
            let mut items = value.into_items(alloc);
            if !items.is_empty() {
                drop(items.remove(0));
            }
            Ok(Seen::of_items(items))
        }
    }
}

/// How many items there are.
pub(crate) fn length<'a>(list: Result<Seen<'_>, NoMemory>) -> Result<Seen<'a>, NoMemory>
    ensures { (d : Datum) → IfOk list.entry (λ v. seen v ≡ d)
        → IfOk result (λ v. seen v ≡ Just (Int (pos (length (items_of d))))) }
{
    let list = list?;
    let length = list.length();
    drop(list);
    Ok(Seen::of_scalar(Scalar::Int(length)))
}

/// An array of so many copies.
pub(crate) fn filled<'a>(
    alloc: Global,
    item: Result<Seen<'_>, NoMemory>,
    count: u16,
) -> Result<Seen<'a>, NoMemory>
    ensures { (d : Datum) → IfOk item.entry (λ v. seen v ≡ d)
        → IfOk result (λ v. seen v ≡ pack (replicate count d)) }
{
    let item = item?;
    let items = repeated(alloc, item.value(), count);
    drop(item);
    Ok(Seen::of_items(items?))
}

/// With one more item, unless it is full.
pub(crate) fn append<'a>(
    alloc: Global,
    list: Value,
    item: Result<Seen<'_>, NoMemory>,
    room: usize,
) -> Result<Seen<'a>, NoMemory>
    ensures { (d : Datum) → IfOk item.entry (λ v. seen v ≡ d)
        → IfOk result (λ v. seen v ≡ appended room list d) }
{
    let mut items = list.into_items(alloc);
    let item = item?;
    if items.len() < room {
        items.push(item.into_value(alloc)?)?;
    } else {
        drop(item);
    }
    Ok(Seen::of_items(items))
}

/// A value of its own.
pub(crate) fn owned(alloc: Global, value: Result<Seen<'_>, NoMemory>) -> Result<Value, NoMemory>
    ensures { (d : Datum) → IfOk value.entry (λ v. seen v ≡ d) → IfOk result (λ v. v ≡ d) }
{
    value?.into_value(alloc)
}

/// The place of the nearest member of a type.
pub(crate) fn place_seen(
    listed: Listed,
    value: Result<Seen<'_>, NoMemory>,
) -> Result<usize, NoMemory>
    ensures { (d : Datum) → IfOk value.entry (λ v. seen v ≡ d)
        → IfOk result (λ at. at ≡ place listed (scalar_of d)) }
{
    Ok(place_in(listed, value?.into_scalar()))
}

pub(crate) fn inverse<'a>(value: Result<Seen<'_>, NoMemory>) -> Result<Seen<'a>, NoMemory>
    ensures { (d : Datum) → IfOk value.entry (λ v. seen v ≡ d)
        → IfOk result (λ v. seen v ≡ Just (Bool (not (truth d)))) }
{
    Ok(Seen::of_scalar(Scalar::Bool(!truth_in(value?.into_scalar()))))
}

pub(crate) fn negative<'a>(value: Result<Seen<'_>, NoMemory>) -> Result<Seen<'a>, NoMemory>
    ensures { (d : Datum) → IfOk value.entry (λ v. seen v ≡ d)
        → IfOk result (λ v. seen v ≡ Just (Int (whole (neg_ℤ (number d))))) }
{
    Ok(Seen::of_scalar(Scalar::Int(number::negative(value?.into_number()))))
}

/// The nearest number from low to high.
pub(crate) fn clamped<'a>(value: Seen<'_>, low: i64, high: i64) -> Seen<'a>
    ensures { seen result ≡ Just (Int (nearest low high (number (seen value.entry)))) }
{
    Seen::of_scalar(Scalar::Int(number::clamped(value.into_number(), low, high)))
}
