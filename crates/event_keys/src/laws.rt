//! The laws of the orders. Each function does nothing: its contract is the law.
ghost use Rattle.std.specs.Prelude.{◌≡◌, ◌<◌, ◌^◌};
ghost use Rattle.std.specs.declared.cmp.Ordering.TheVariants.{Equal};
ghost use Rattle.std.specs.Ordering.{nat_cmp};
ghost use Rattle.event_keys.specs.Orders.{key_order, bound_order, sign_order, action_order, message_order, signed_order, outcome_order, turned_order, entry_order};
ghost use Rattle.event_keys.specs.Ranks.{rank, rank_of_bound, owner_of};

use crate::entry::Entry;
use crate::key::{Bound, Key};
use crate::message::{Message, Sign, Signed};
use crate::outcome::{Outcome, Turned};
use terms::Action;

/// Keys are compared by tick, then component, then number.
pub fn key_law(a: Key, b: Key)
    ensures order { ⟦<Key as Ord>⟧.cmp a b ≡ key_order a b }
    ensures same { ⟦<Key as Ord>⟧.cmp a b ≡ Equal → a ≡ b }
{}

/// Bounds are compared as their keys, and the end is above every key.
pub fn bound_law(a: Bound, b: Bound)
    ensures order { ⟦<Bound as Ord>⟧.cmp a b ≡ bound_order a b }
    ensures same { ⟦<Bound as Ord>⟧.cmp a b ≡ Equal → a ≡ b }
{}

/// Plus is before minus.
pub fn sign_law(a: Sign, b: Sign)
    ensures order { ⟦<Sign as Ord>⟧.cmp a b ≡ sign_order a b }
    ensures same { ⟦<Sign as Ord>⟧.cmp a b ≡ Equal → a ≡ b }
{}

/// Actions are compared by name, then by their arguments from the left.
#[tactic(auto, using(crate::specs::Apart::action_apart))]
pub fn action_law(a: &Action, b: &Action)
    ensures order { ⟦<Action as Ord>⟧.cmp a.now b.now ≡ action_order a.now b.now }
    ensures same { ⟦<Action as Ord>⟧.cmp a.now b.now ≡ Equal → a.now ≡ b.now }
{}

/// Messages are compared by key, then action, then receiver.
#[tactic(auto, using(crate::specs::Apart::message_apart))]
pub fn message_law(a: &Message, b: &Message)
    ensures order { ⟦<Message as Ord>⟧.cmp a.now b.now ≡ message_order a.now b.now }
    ensures same { ⟦<Message as Ord>⟧.cmp a.now b.now ≡ Equal → a.now ≡ b.now }
{}

/// Signed messages are compared by message, then sign.
pub fn signed_law(a: &Signed, b: &Signed)
    ensures order { ⟦<Signed as Ord>⟧.cmp a.now b.now ≡ signed_order a.now b.now }
    ensures same { ⟦<Signed as Ord>⟧.cmp a.now b.now ≡ Equal → a.now ≡ b.now }
{}

/// Outcomes are compared by action, idle before any.
#[tactic(auto, using(crate::specs::Apart::outcome_apart))]
pub fn outcome_law(a: &Outcome, b: &Outcome)
    ensures order { ⟦<Outcome as Ord>⟧.cmp a.now b.now ≡ outcome_order a.now b.now }
    ensures same { ⟦<Outcome as Ord>⟧.cmp a.now b.now ≡ Equal → a.now ≡ b.now }
{}

/// Turns are compared by key, then outcome.
#[tactic(auto, using(crate::specs::Apart::turned_apart))]
pub fn turned_law(a: &Turned, b: &Turned)
    ensures order { ⟦<Turned as Ord>⟧.cmp a.now b.now ≡ turned_order a.now b.now }
    ensures same { ⟦<Turned as Ord>⟧.cmp a.now b.now ≡ Equal → a.now ≡ b.now }
{}

/// Entries are compared by key, then action, then an own turn before an input, then receiver.
pub fn entry_law(a: &Entry, b: &Entry)
    ensures order { ⟦<Entry as Ord>⟧.cmp a.now b.now ≡ entry_order a.now b.now }
    ensures same { ⟦<Entry as Ord>⟧.cmp a.now b.now ≡ Equal → a.now ≡ b.now }
{}

/// A key's rank tells its component, and is below 2^144.
pub fn rank_law(key: Key)
    ensures owner { owner_of (rank key) ≡ key.component }
    ensures below { rank key < 2 ^ 144 }
{}

/// Keys are compared as their ranks.
pub fn key_rank_law(a: Key, b: Key)
    ensures { ⟦<Key as Ord>⟧.cmp a b ≡ nat_cmp (rank a) (rank b) }
{}

/// Bounds are compared as their ranks.
pub fn bound_rank_law(a: Bound, b: Bound)
    ensures { ⟦<Bound as Ord>⟧.cmp a b ≡ nat_cmp (rank_of_bound a) (rank_of_bound b) }
{}
