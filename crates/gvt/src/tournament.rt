//! A tournament of numbers, which tells the least of them.
ghost use Rattle.std.specs.Prelude.{◌≡◌, ◌+◌, ◌*◌, ◌<◌, ℕ, length, min, slice_set};
ghost use Rattle.gvt.specs.Tournaments.{IsTournament, node};

// The lesser of the numbers at the two nodes below comes to the node.
#[inline(always)]
fn settle(nodes: &mut [u64], at: usize)
    requires { 2 * at + 1 < length nodes.old }
    ensures { nodes.new ≡ slice_set nodes.old at
        (min (node nodes.old (2 * at)) (node nodes.old (2 * at + 1))) }
{
    let left = nodes[2 * at];
    let right = nodes[2 * at + 1];
    nodes[at] = left.min(right);
}

/// Puts a number in place of the one with this index. The steps are as many as its node has nodes above it.
#[inline]
pub fn put(nodes: &mut [u64], count: usize, index: usize, number: u64)
    requires within { index < count }
    requires tournament { IsTournament count nodes.old }
    ensures tournament { IsTournament count nodes.new }
    ensures many { length nodes.new ≡ length nodes.old }
    ensures own { node nodes.new (count + index) ≡ number }
    ensures others { (k : ℕ) → k < count → (k ≡ index → ⊥)
        → node nodes.new (count + k) ≡ node nodes.old (count + k) }
{
    let mut at = count + index;
    nodes[at] = number;
    while at > 1 {
        at /= 2;
        settle(nodes, at);
    }
}
