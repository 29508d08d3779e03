//! What is dealt while turns are drawn.
ghost use Rattle.std.specs.Prelude.{◌≡◌, ◌<◌, ◌++◌, ◌∷◌, [], ℕ, IfOk, OnOk, length, map};
ghost use Rattle.shares.specs.Hands.{owns_at, share_of};

use crate::deal::Deal;
use crate::share::{Own, Share};
use event_keys::Key;
use lone_group::Drawn;
use reference::Due;
use std::alloc::Global;
use terms::NoMemory;

// The turns that were drawn from the key `from` on, and of each group those that are its own.
#[derive(Drop)]
pub(crate) struct Hand {
    pub(crate) from: Option<Key>,
    pub(crate) due: Vec<Due>,
    pub(crate) owns: Vec<Vec<Own>>,
}

/// Nothing is dealt to so many groups.
pub(crate) fn empty_hand(alloc: Global, from: Option<Key>, count: u16) -> Result<Hand, NoMemory>
    ensures from { IfOk result (λ hand. hand.from ≡ from) }
    ensures due { IfOk result (λ hand. hand.due.items ≡ []) }
    ensures many { IfOk result (λ hand. length hand.owns.items ≡ count) }
    ensures owns { IfOk result (λ hand. (group : ℕ) → owns_at hand.owns.items group ≡ []) }
{
    let owns = empty_lists(alloc, count)?;
    Ok(Hand {
        from,
        due: Vec::new(alloc),
        owns,
    })
}

fn empty_lists(alloc: Global, count: u16) -> Result<Vec<Vec<Own>>, NoMemory>
    ensures many { IfOk result (λ lists. length lists.items ≡ count) }
    ensures empty { IfOk result (λ lists. (group : ℕ) → owns_at lists.items group ≡ []) }
{
    let mut lists = Vec::with_capacity(alloc, usize::from(count))?;
    for _ in 0..count {
        lists.push(Vec::new(alloc))?;
    }
    Ok(lists)
}

/// One more turn is dealt, to this group.
pub(crate) fn put_own(hand: &mut Hand, group: u16, own: Own) -> Result<(), NoMemory>
    requires { group < length hand.old.owns.items }
    ensures from { OnOk result (hand.new.from ≡ hand.old.from) }
    ensures due { OnOk result (hand.new.due.items ≡ hand.old.due.items ++ own.due ∷ []) }
    ensures many { OnOk result (length hand.new.owns.items ≡ length hand.old.owns.items) }
    ensures added { OnOk result (owns_at hand.new.owns.items group
        ≡ owns_at hand.old.owns.items group ++ own ∷ []) }
    ensures others { OnOk result ((other : ℕ) → (other ≡ group → ⊥)
        → owns_at hand.new.owns.items other ≡ owns_at hand.old.owns.items other) }
{
    hand.due.push(own.due)?;
    hand.owns[usize::from(group)].push(own)?;
    Ok(())
}

/// What was dealt, up to the key that comes next.
pub(crate) fn gather(alloc: Global, hand: Hand, next: Option<Key>) -> Result<Deal, NoMemory>
    ensures due { IfOk result (λ deal. deal.drawn.due.items ≡ hand.due.items) }
    ensures from { IfOk result (λ deal. deal.drawn.from ≡ hand.from) }
    ensures next { IfOk result (λ deal. deal.drawn.next ≡ next) }
    ensures shares { IfOk result (λ deal. deal.shares.items
        ≡ map (share_of hand.from next) hand.owns.items) }
{
    let Hand { from, due, owns } = hand;
    let shares = shares_of(alloc, owns, from, next)?;
    Ok(Deal {
        drawn: Drawn { due, from, next },
        shares,
    })
}

fn shares_of(
    alloc: Global,
    owns: Vec<Vec<Own>>,
    from: Option<Key>,
    until: Option<Key>,
) -> Result<Vec<Share>, NoMemory>
    ensures { IfOk result (λ shares. shares.items ≡ map (share_of from until) owns.items) }
{
    let mut shares = Vec::with_capacity(alloc, owns.len())?;
    for own in owns {
        shares.push(Share { own, from, until })?;
    }
    Ok(shares)
}
