//! A tournament of the members of a group: who has the least to do next.
ghost use Rattle.std.specs.Prelude.{◌≡◌, ◌+◌, ◌*◌, ◌<◌, ◌^◌, ℕ, length, nat_lt, slice_set};
ghost use Rattle.event_keys.specs.Ranks.{rank_of_bound};
ghost use Rattle.groups.specs.Tournament.{IsTournament, earlier, empty, key_at, node};

use event_keys::{Bound, Key};

/// What the member with this place has to do next: tick and component of its key in one number, and the key's number, so that two seats are
/// compared by one comparison of numbers.
#[derive(Clone, Copy)]
pub(crate) struct Seat {
    pub(crate) front: u128,
    pub(crate) number: u64,
    pub(crate) place: u16,
}

// Above all ticks and components: nothing is next.
const NOTHING: u128 = 1_208_925_819_614_629_174_706_176;

/// A seat of nobody.
pub(crate) fn empty() -> Seat
    ensures { result ≡ empty }
{
    Seat {
        front: NOTHING,
        number: 0,
        place: 0,
    }
}

/// The seat of a member.
#[inline(always)]
pub(crate) fn seat_at(place: u16, next: Bound) -> Seat
    ensures place { result.place ≡ place }
    ensures key { key_at result ≡ rank_of_bound next }
{
    match next {
        Bound::End => Seat {
            front: NOTHING,
            number: 0,
            place,
        },
        Bound::At(key) => Seat {
            front: front(key),
            number: key.number,
            place,
        },
    }
}

#[inline(always)]
fn front(key: Key) -> u128
    ensures { result ≡ key.tick * 2 ^ 16 + key.component }
{
    u128::from(key.tick) * 65_536 + u128::from(key.component)
}

/// Whether something is next at a seat.
#[inline(always)]
pub(crate) fn has_next(seat: Seat) -> bool
    ensures { result ≡ nat_lt (key_at seat) (2 ^ 144) }
{
    seat.front < NOTHING
}

#[inline(always)]
fn is_before(a: Seat, b: Seat) -> bool
    ensures { result ≡ nat_lt (key_at a) (key_at b) }
{
    if a.front == b.front {
        return a.number < b.number;
    }
    a.front < b.front
}

// Of a node and the next one that which is next first, the first of them where both are next at once.
#[inline(always)]
fn earlier_at(nodes: &[Seat], left: usize) -> usize
    requires { left + 1 < length nodes.now }
    ensures within { result < length nodes.now }
    ensures earlier { node nodes.now result
        ≡ earlier (node nodes.now left) (node nodes.now (left + 1)) }
{
    if is_before(nodes[left + 1], nodes[left]) {
        left + 1
    } else {
        left
    }
}

// The earlier of the seats at the two nodes below comes to the node.
#[inline(always)]
fn settle(nodes: &mut [Seat], at: usize)
    requires { 2 * at + 1 < length nodes.old }
    ensures { nodes.new ≡ slice_set nodes.old at
        (earlier (node nodes.old (2 * at)) (node nodes.old (2 * at + 1))) }
{
    nodes[at] = nodes[earlier_at(nodes, 2 * at)];
}

/// Puts a seat in place of the one with this index. The steps are as many as its node has nodes above it.
pub(crate) fn put(nodes: &mut [Seat], count: usize, index: usize, seat: Seat)
    requires within { index < count }
    requires tournament { IsTournament count nodes.old }
    ensures tournament { IsTournament count nodes.new }
    ensures many { length nodes.new ≡ length nodes.old }
    ensures own { node nodes.new (count + index) ≡ seat }
    ensures others { (k : ℕ) → k < count → (k ≡ index → ⊥)
        → node nodes.new (count + k) ≡ node nodes.old (count + k) }
{
    let mut at = count + index;
    nodes[at] = seat;
    while at > 1 {
        at /= 2;
        settle(nodes, at);
    }
}
