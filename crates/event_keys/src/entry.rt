//! The events that a component has processed.
ghost use Rattle.std.specs.Prelude.{◌≡◌, option_copied, refl};
ghost use Rattle.std.proofs.Common.{rules};
ghost use Rattle.std.specs.Cmp.Rules.{comparing};
ghost use Rattle.std.specs.Ordering.{nat_cmp, as_partial_cmp, eq_by_cmp};
ghost use Rattle.event_keys.specs.contracts.key.KeyOrd.TheImpl.Laws.{total-law as key_total};
ghost use Rattle.event_keys.specs.contracts.outcome.OutcomeOrd.TheImpl.Laws.{total-law as outcome_total};
ghost use Rattle.event_keys.specs.Entries.{entry_cmp, entry_key, entry_outcome, entry_place, action_of};

use crate::key::Key;
use crate::message::Message;
use crate::outcome::{Outcome, Turned};
use std::cmp::Ordering;
use terms::Action;

/// An event of a component: an own turn, or an input that another component's turn sent. It is compared by key, then
/// action (an idle turn before any), then an own turn before an input, then receiver.
#[derive(Clone, Drop)]
pub enum Entry {
    Own(Turned),
    Input(Message),
}

impl Entry {
    /// The virtual time at which it is processed: an own turn's key, or the key of the turn that sent the input.
    pub fn key(&self) -> Key
        ensures { result ≡ entry_key self.now }
    {
        match self {
            Entry::Own(turned) => turned.key,
            Entry::Input(message) => message.key,
        }
    }
}

fn action_of(entry: &Entry) -> Option<&Action>
    ensures { option_copied result ≡ action_of (entry_outcome entry.now) }
{
    match entry {
        Entry::Own(turned) => match &turned.outcome {
            Outcome::Idle => None,
            Outcome::Did(action) => Some(action),
        },
        Entry::Input(message) => Some(&message.action),
    }
}

fn compare_actions(a: &Entry, b: &Entry) -> Ordering
    ensures { result ≡ ⟦<Outcome as Ord>⟧.cmp (entry_outcome a.now) (entry_outcome b.now) }
{
    match (action_of(a), action_of(b)) {
        (None, None) => Ordering::Equal,
        (None, Some(_)) => Ordering::Less,
        (Some(_), None) => Ordering::Greater,
        (Some(first), Some(second)) => first.cmp(second),
    }
}

fn compare_places(a: &Entry, b: &Entry) -> Ordering
    ensures { result ≡ nat_cmp (entry_place a.now) (entry_place b.now) }
{
    match (a, b) {
        (Entry::Own(_), Entry::Own(_)) => Ordering::Equal,
        (Entry::Own(_), Entry::Input(_)) => Ordering::Less,
        (Entry::Input(_), Entry::Own(_)) => Ordering::Greater,
        (Entry::Input(first), Entry::Input(second)) => first.to.cmp(&second.to),
    }
}

impl PartialEq for Entry {
    ghost eq = { eq_by_cmp (entry_cmp ⟦<Key as Ord>⟧.cmp ⟦<Outcome as Ord>⟧.cmp) };

    ghost laws = { Prim.search (comparing, rules, key_total, outcome_total) depth 9 };

    fn eq(&self, other: &Entry) -> bool {
        self.cmp(other).is_eq()
    }
}

impl Eq for Entry {
    ghost laws = { Prim.search (comparing, rules, key_total, outcome_total) depth 9 };
}

impl Ord for Entry {
    ghost cmp = { entry_cmp ⟦<Key as Ord>⟧.cmp ⟦<Outcome as Ord>⟧.cmp };

    ghost total = { Prim.search (comparing, rules, key_total, outcome_total) depth 9 };

    ghost matches_partial_cmp = { λ a b. refl };

    ghost matches_eq = { λ a b. refl };

    fn cmp(&self, other: &Entry) -> Ordering {
        let by_key = self.key().cmp(&other.key());
        if !by_key.is_eq() {
            return by_key;
        }
        let by_action = compare_actions(self, other);
        if !by_action.is_eq() {
            return by_action;
        }
        compare_places(self, other)
    }
}

impl PartialOrd for Entry {
    ghost partial_cmp = { as_partial_cmp (entry_cmp ⟦<Key as Ord>⟧.cmp ⟦<Outcome as Ord>⟧.cmp) };

    ghost laws = { Prim.search (comparing, rules, key_total, outcome_total) depth 9 };

    fn partial_cmp(&self, other: &Entry) -> Option<Ordering> {
        Some(self.cmp(other))
    }
}
