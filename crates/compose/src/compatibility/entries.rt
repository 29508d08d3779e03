//! Whether two entries have an action in common.
ghost use Rattle.std.specs.Prelude.{◌≡◌, true, false};
ghost use Rattle.terms.specs.Named.{Named};
ghost use Rattle.io_automata.specs.Automata.{transition_of};
ghost use Rattle.io_automata.specs.Signatures.{has};

use crate::compatibility::arguments::overlap;
use io_automata::Entry;
use terms::Scalar;

/// Whether two entries stand for an action together, each with the values of its own formals.
pub fn is_shared(formals: &[Scalar], entry: &Entry, others: &[Scalar], other: &Entry) -> bool
    ensures some { result ≡ true → (action : Named)
        × ((has formals.now action (transition_of entry.now) ≡ true)
        × (has others.now action (transition_of other.now) ≡ true)) }
    ensures none { result ≡ false → (action : Named)
        → has formals.now action (transition_of entry.now) ≡ true
        → has others.now action (transition_of other.now) ≡ true → ⊥ }
{
    let (params, other_params) = (entry.params.as_slice(), other.params.as_slice());
    entry.name == other.name && overlap(formals, params, others, other_params)
}
