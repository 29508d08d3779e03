//! What scalars are read as.
ghost use Rattle.std.specs.Prelude.{◌≡◌, IfSome, IfNone, false};
ghost use Rattle.terms.specs.Datum.{Just, is_number, is_truth};
ghost use Rattle.terms.specs.Shapes.{number_of, truth_of};

use crate::scalar::Scalar;

/// A scalar as a whole number; 0 where it is none.
pub fn number_in(scalar: Scalar) -> i64
    ensures { result ≡ number_of scalar }
{
    match scalar {
        Scalar::Int(number) => number,
        _ => 0,
    }
}

/// A scalar as a truth value; `false` where it is none.
pub fn truth_in(scalar: Scalar) -> bool
    ensures { result ≡ truth_of scalar }
{
    match scalar {
        Scalar::Bool(truth) => truth,
        _ => false,
    }
}

/// The whole number that a scalar is; `None` where it is none.
#[inline(always)]
pub fn as_number(scalar: Scalar) -> Option<i64>
    ensures some { IfSome result (λ n. scalar ≡ Scalar.Int n) }
    ensures none { IfNone result (is_number (Just scalar) ≡ false) }
{
    match scalar {
        Scalar::Int(number) => Some(number),
        _ => None,
    }
}

/// The truth value that a scalar is; `None` where it is none.
#[inline(always)]
pub fn as_truth(scalar: Scalar) -> Option<bool>
    ensures some { IfSome result (λ t. scalar ≡ Scalar.Bool t) }
    ensures none { IfNone result (is_truth (Just scalar) ≡ false) }
{
    match scalar {
        Scalar::Bool(truth) => Some(truth),
        _ => None,
    }
}
