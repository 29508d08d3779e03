//! Two bounds compared.
ghost use Rattle.std.specs.Prelude.{◌≡◌, ◌≤◌, ◌⊎◌};
ghost use Rattle.event_keys.specs.Ranks.{rank_of_bound};

use crate::key::Bound;
use crate::laws::bound_rank_law;

/// The lesser of two bounds.
pub fn lesser(first: Bound, second: Bound) -> Bound
    ensures either { (result ≡ first) ⊎ (result ≡ second) }
    ensures first { rank_of_bound result ≤ rank_of_bound first }
    ensures second { rank_of_bound result ≤ rank_of_bound second }
{
    bound_rank_law(first, second);
    if first < second { first } else { second }
}
