//! The least of some bounds.
ghost use Rattle.std.specs.Prelude.{List};
ghost use Rattle.std.specs.Iterator.{IsFinite, Drains};
ghost use Rattle.event_keys.specs.declared.key.Bound.{Bound};
ghost use Rattle.gvt.specs.Least.{IsLeast};

use event_keys::{Bound, lesser};

/// The least of the bounds that an iterator gives up to its end, or `Bound::End` where it gives none. Its time grows with
/// their number, and it takes no memory.
#[tactic(auto, using(crate::proofs::Passed::least_so_far))]
pub fn least_bound<I: Iterator<Item = Bound> + Drop>(bounds: I) -> Bound
    requires can { I.can_next bounds }
    requires ends { IsFinite (I.remaining bounds) }
    ensures { (given : List Bound) × Drains I.next_gives bounds given × IsLeast given result }
{
    let mut least = Bound::End;
    for bound in bounds {
        least = lesser(least, bound);
    }
    least
}
