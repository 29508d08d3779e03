//! What operators of one operand make of what was found of it, and what stands in a place that was found; `None` where
//! nothing was.
ghost use Rattle.std.specs.Prelude.{◌≡◌, IfSome, neg_ℤ, not, pos, length, get_or};
ghost use Rattle.terms.specs.Datum.{Datum, Just, items_of};
ghost use Rattle.terms.specs.Meaning.{number, truth};
ghost use Rattle.terms.specs.Shapes.{whole};

use crate::number;
use terms::reading::{number_in, truth_in};
use terms::{Scalar, Value};

#[inline(always)]
pub(crate) fn inverse(found: Option<Scalar>) -> Option<Scalar>
    ensures { (d : Datum) → IfSome found (λ s. d ≡ Just s)
        → IfSome result (λ s. Just (Scalar.Bool (not (truth d))) ≡ Just s) }
{
    Some(Scalar::Bool(!truth_in(found?)))
}

#[inline(always)]
pub(crate) fn negative(found: Option<Scalar>) -> Option<Scalar>
    ensures { (d : Datum) → IfSome found (λ s. d ≡ Just s)
        → IfSome result (λ s. Just (Scalar.Int (whole (neg_ℤ (number d)))) ≡ Just s) }
{
    Some(Scalar::Int(number::negative(number_in(found?))))
}

#[inline(always)]
pub(crate) fn inverse_truth(found: Option<bool>) -> Option<bool>
    ensures { (d : Datum) → IfSome found (λ t. d ≡ Just (Scalar.Bool t))
        → IfSome result (λ t. Just (Scalar.Bool (not (truth d))) ≡ Just (Scalar.Bool t)) }
{
    Some(!found?)
}

#[inline(always)]
pub(crate) fn negative_number(found: Option<i64>) -> Option<i64>
    ensures { (d : Datum) → IfSome found (λ n. d ≡ Just (Scalar.Int n))
        → IfSome result (λ n. Just (Scalar.Int (whole (neg_ℤ (number d)))) ≡ Just (Scalar.Int n)) }
{
    Some(number::negative(found?))
}

/// How many items there are.
#[inline(always)]
pub(crate) fn length_of(found: Option<&[Value]>) -> Option<i64>
    ensures { (d : Datum) → IfSome found.entry (λ items. items_of d ≡ items.now)
        → IfSome result (λ n. Just (Scalar.Int (pos (length (items_of d)))) ≡ Just (Scalar.Int n)) }
{
    Some(found?.len() as i64)
}

/// The item at a place.
#[inline(always)]
pub(crate) fn item_at(found: Option<&[Value]>, at: usize) -> Option<&Value>
    ensures { (d other : Datum) → IfSome found.entry (λ items. items_of d ≡ items.now)
        → IfSome result (λ v. get_or (items_of d) at other ≡ v.now) }
{
    found?.get(at)
}

#[inline(always)]
pub(crate) fn items_there(found: Option<&Value>) -> Option<&[Value]>
    ensures { (d : Datum) → IfSome found.entry (λ v. d ≡ v.now)
        → IfSome result (λ items. items_of d ≡ items.now) }
{
    Some(found?.items())
}

#[inline(always)]
pub(crate) fn scalar_there(found: Option<&Value>) -> Option<Scalar>
    ensures { (d : Datum) → IfSome found.entry (λ v. d ≡ v.now) → IfSome result (λ s. d ≡ Just s) }
{
    found?.as_scalar()
}

#[inline(always)]
pub(crate) fn number_there(found: Option<&Value>) -> Option<i64>
    ensures { (d : Datum) → IfSome found.entry (λ v. d ≡ v.now)
        → IfSome result (λ n. d ≡ Just (Scalar.Int n)) }
{
    found?.as_number()
}

#[inline(always)]
pub(crate) fn truth_there(found: Option<&Value>) -> Option<bool>
    ensures { (d : Datum) → IfSome found.entry (λ v. d ≡ v.now)
        → IfSome result (λ t. d ≡ Just (Scalar.Bool t)) }
{
    found?.as_truth()
}
