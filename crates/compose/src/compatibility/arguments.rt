//! Whether two lists of parameters have arguments in common.
ghost use Rattle.std.specs.Prelude.{◌≡◌, true, false, List};
ghost use Rattle.terms.specs.declared.scalar.Scalar.{Scalar};
ghost use Rattle.io_automata.specs.Signatures.{fits, fits_one};

use crate::compatibility::span::{meet, span_of};
use io_automata::Param;
use terms::Scalar;
use terms::cells::slot_of;

// Whether some argument may stand for both parameters. Two values of formals are compared at once, since most entries of one name differ there.
#[tactic(auto, using(crate::proofs::Constants::constants_share, crate::proofs::Constants::constants_differ))]
fn agree(formals: &[Scalar], param: &Param, others: &[Scalar], other: &Param) -> bool
    ensures some { result ≡ true → (value : Scalar) × ((fits_one formals.now param.now value ≡ true)
        × (fits_one others.now other.now value ≡ true)) }
    ensures none { result ≡ false → (value : Scalar) → fits_one formals.now param.now value ≡ true
        → fits_one others.now other.now value ≡ true → ⊥ }
{
    if let Param::Const(first) = *param {
        if let Param::Const(second) = *other {
            return slot_of(formals, first) == slot_of(others, second);
        }
    }
    meet(span_of(formals, param), span_of(others, other))
}

/// Whether some arguments may stand for both lists of parameters, each with the values of its own formals.
pub fn overlap(
    formals: &[Scalar],
    params: &[Param],
    others: &[Scalar],
    other_params: &[Param],
) -> bool
    ensures some { result ≡ true → (args : List Scalar)
        × ((fits formals.now params.now args ≡ true)
        × (fits others.now other_params.now args ≡ true)) }
    ensures none { result ≡ false → (args : List Scalar) → fits formals.now params.now args ≡ true
        → fits others.now other_params.now args ≡ true → ⊥ }
{
    match (params.split_first(), other_params.split_first()) {
        (None, None) => true,
        (Some((param, params)), Some((other, other_params))) => {
            agree(formals, param, others, other) && overlap(formals, params, others, other_params)
        }
        (None, Some(_)) => false,
        (Some(_), None) => false,
    }
}
