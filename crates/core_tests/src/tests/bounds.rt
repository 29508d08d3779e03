//! Least bounds, worked out by hand.
ghost use Rattle.gvt.specs.Least.{IsLeast};

use super::key;
use event_keys::Bound::{self, At, End};
use gvt::least_bound;

fn least_of(bounds: &[Bound]) -> Bound
    ensures { IsLeast bounds.now result }
{
    least_bound(bounds.iter().copied())
}

#[test]
fn least_of_some_bounds(rt: HostRuntime) {
    assert!(rt; least_of(&[]) == End);
    // some bounds, and the least of them
    let rows = [
        ([End, End, End], End),
        ([End, At(key(7, 1, 3)), End], At(key(7, 1, 3))),
        (
            [At(key(4, 1, 0)), At(key(3, 9, 5)), At(key(3, 8, 6))],
            At(key(3, 8, 6)),
        ),
        (
            [At(key(2, 1, 1)), At(key(2, 1, 0)), At(key(2, 2, 0))],
            At(key(2, 1, 0)),
        ),
    ];
    for (bounds, least) in rows {
        assert!(rt; least_of(&bounds) == least);
    }
}
