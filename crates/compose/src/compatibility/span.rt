//! Sets of neighbouring scalars.
ghost use Rattle.std.specs.Prelude.{◌≡◌, ◌&&◌, true, false};
ghost use Rattle.terms.specs.contracts.scalar.ScalarPartialEq.TheImpl as scalar_eq;
ghost use Rattle.terms.specs.declared.scalar.Scalar.{Scalar};
ghost use Rattle.io_automata.specs.Signatures.{fits_one, is_member};
ghost use Rattle.compose.specs.Spans.{is_in};

use io_automata::Param;
use terms::cells::slot_of;
use terms::{Listed, Scalar};

/// A set of neighbouring scalars of one sort.
#[derive(Clone, Copy, PartialEq, Eq)]
pub enum Span {
    /// Every whole number.
    Whole,
    /// The whole numbers from the first up to, but not with, the second.
    Numbers(i128, i128),
    /// False, where the first says so, and true, where the second does.
    Truths(bool, bool),
    /// The members of enumerations from the first up to, but not with, the second.
    Members(u32, u32),
}

/// The scalars that may stand for a parameter where formals have these values.
pub fn span_of(formals: &[Scalar], param: &Param) -> Span
    ensures { (value : Scalar) → is_in result value ≡ fits_one formals.now param.now value }
{
    match *param {
        Param::Const(number) => span_of_scalar(slot_of(formals, number)),
        Param::Member(listed) => span_of_listed(listed),
        Param::Between(low, high) => Span::Numbers(i128::from(low), i128::from(high) + 1),
        Param::Whole => Span::Whole,
    }
}

// One scalar alone.
fn span_of_scalar(scalar: Scalar) -> Span
    ensures { (value : Scalar) → is_in result value ≡ scalar_eq.ghosts.eq scalar value }
{
    match scalar {
        Scalar::Int(number) => Span::Numbers(i128::from(number), i128::from(number) + 1),
        Scalar::Bool(truth) => Span::Truths(!truth, truth),
        Scalar::Member(member) => Span::Members(u32::from(member), u32::from(member) + 1),
    }
}

// The members of a type that can be listed.
fn span_of_listed(listed: Listed) -> Span
    ensures { (value : Scalar) → is_in result value ≡ is_member listed value }
{
    match listed {
        Listed::Bool => Span::Truths(true, true),
        Listed::Range { low, count } => {
            let least = i128::from(low);
            Span::Numbers(least, least + i128::from(count))
        }
        Listed::Enumeration { first, count } => {
            let least = u32::from(first);
            Span::Members(least, least + u32::from(count))
        }
    }
}

/// Whether two sets have a scalar in common.
pub fn meet(a: Span, b: Span) -> bool
    ensures some { result ≡ true → (value : Scalar)
        × ((is_in a value ≡ true) × (is_in b value ≡ true)) }
    ensures none { result ≡ false → (value : Scalar) → is_in a value ≡ true → is_in b value ≡ true
        → ⊥ }
{
    !is_empty(intersection(a, b))
}

// The scalars of both sets.
fn intersection(a: Span, b: Span) -> Span
    ensures { (value : Scalar) → is_in result value ≡ (is_in a value && is_in b value) }
{
    match (a, b) {
        (Span::Whole, Span::Whole) => Span::Whole,
        (Span::Whole, Span::Numbers(least, end)) => Span::Numbers(least, end),
        (Span::Numbers(least, end), Span::Whole) => Span::Numbers(least, end),
        (Span::Numbers(least, end), Span::Numbers(other, other_end)) => {
            Span::Numbers(least.max(other), end.min(other_end))
        }
        (Span::Truths(low, high), Span::Truths(other_low, other_high)) => {
            Span::Truths(low && other_low, high && other_high)
        }
        (Span::Members(least, end), Span::Members(other, other_end)) => {
            Span::Members(least.max(other), end.min(other_end))
        }
        _ => Span::Truths(false, false),
    }
}

fn is_empty(span: Span) -> bool
    ensures some { result ≡ false → (value : Scalar) × (is_in span value ≡ true) }
    ensures none { result ≡ true → (value : Scalar) → is_in span value ≡ true → ⊥ }
{
    match span {
        Span::Whole => false,
        Span::Numbers(least, end) => end <= least,
        Span::Truths(low, high) => !low && !high,
        Span::Members(least, end) => end <= least,
    }
}
