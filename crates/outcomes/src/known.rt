//! What is known of the entries of an automaton before the first turn.
ghost use Rattle.std.specs.Prelude.{◌≡◌, IfOk, Some, map, option_copied, slice_get, true};
ghost use Rattle.std.specs.Option.{option_map};
ghost use Rattle.io_automata.specs.Automata.{Transition, transition_of};
ghost use Rattle.io_automata.specs.Signatures.{same_kind};
ghost use Rattle.io_automata.specs.declared.automaton.Kind.TheVariants.{Input};
ghost use Rattle.outcomes.specs.Alike.{alike, number_or_none, IsLike, AreFirsts};
ghost use Rattle.outcomes.specs.Tasks.{AreSolved, IsKnown};
ghost use Rattle.terms.specs.TermTree.{term_tree};

use crate::task::Known;
use crate::tuples::count_all;
use conditions::Condition;
use io_automata::{Entry, Kind};
use std::alloc::Global;
use terms::NoMemory;
use terms::mentions::mentions_parameter;

impl Known {
    /// What is known of these entries.
    pub fn of(alloc: Global, entries: &[Entry]) -> Result<Known, NoMemory>
        ensures { IfOk result (λ known. IsKnown (map transition_of entries.now) known) }
    {
        let numbers = alike_in(alloc, entries)?;
        let firsts = firsts_in(alloc, entries)?;
        let conditions = conditions_in(alloc, entries)?;
        Ok(Known {
            numbers,
            firsts,
            conditions,
        })
    }
}

fn conditions_in(alloc: Global, entries: &[Entry]) -> Result<Vec<Condition>, NoMemory>
    ensures { IfOk result (λ conditions. AreSolved (map transition_of entries.now)
        conditions.items) }
{
    let mut conditions = Vec::with_capacity(alloc, entries.len())?;
    for entry in entries {
        conditions.push(Condition::of(alloc, &entry.pre)?)?;
    }
    Ok(conditions)
}

fn alike_in(alloc: Global, entries: &[Entry]) -> Result<Vec<usize>, NoMemory>
    ensures { IfOk result (λ numbers. numbers.items ≡ map alike (map transition_of entries.now)) }
{
    let mut numbers = Vec::with_capacity(alloc, entries.len())?;
    for entry in entries {
        numbers.push(alike(entry)?)?;
    }
    Ok(numbers)
}

// 0 for an input, which stands in no task, and where the condition is to be asked for each tuple.
fn alike(entry: &Entry) -> Result<usize, NoMemory>
    ensures { IfOk result (λ number. number ≡ alike (transition_of entry.now)) }
{
    if is_input(entry.kind) {
        return Ok(0);
    }
    if mentions_parameter(&entry.pre) {
        return Ok(0);
    }
    count_all(entry.params.as_slice())
}

fn is_input(kind: Kind) -> bool
    ensures { result ≡ same_kind Input kind }
{
    match kind {
        Kind::Input => true,
        Kind::Output => false,
        Kind::Internal => false,
    }
}

/// The number at a place; 0 where there is none.
#[inline(always)]
pub(crate) fn number_at(numbers: &[usize], place: usize) -> usize
    ensures { result ≡ number_or_none (slice_get numbers.now place) }
{
    match numbers.get(place) {
        Some(number) => *number,
        None => 0,
    }
}

/// The entry at a place.
#[inline(always)]
pub(crate) fn entry_among(entries: &[Entry], place: usize) -> Option<&Entry>
    ensures { option_map transition_of (option_copied result) ≡ slice_get
        (map transition_of entries.now) place }
{
    entries.get(place)
}

/// The condition at a place.
#[inline(always)]
pub(crate) fn condition_among(conditions: &[Condition], place: usize) -> Option<&Condition>
    ensures { option_copied result ≡ slice_get conditions.now place }
{
    conditions.get(place)
}

// Of each entry the place of the first one with the same condition, so that what stands twice is asked once.
fn firsts_in(alloc: Global, entries: &[Entry]) -> Result<Vec<usize>, NoMemory>
    ensures { IfOk result (λ firsts. AreFirsts (map transition_of entries.now) firsts.items) }
{
    let mut firsts = Vec::with_capacity(alloc, entries.len())?;
    for place in 0..entries.len() {
        firsts.push(first_like(entries, place))?;
    }
    Ok(firsts)
}

fn first_like(entries: &[Entry], place: usize) -> usize
    ensures { IsLike (map transition_of entries.now) place result }
{
    let Some(entry) = entry_among(entries, place) else {
        return place;
    };
    for at in 0..place {
        if has_condition_of(entry_among(entries, at), entry) {
            return at;
        }
    }
    place
}

fn has_condition_of(other: Option<&Entry>, entry: &Entry) -> bool
    ensures { result ≡ true → option_map (λ (t : Transition). t.precondition)
        (option_map transition_of (option_copied other.entry)) ≡ Some (term_tree entry.now.pre) }
{
    match other {
        Some(other) => other.pre == entry.pre,
        None => false,
    }
}

/// The place of an entry with a condition that holds as that of the entry at a place.
#[inline(always)]
pub(crate) fn first_at(entries: &[Entry], firsts: &[usize], place: usize) -> usize
    requires { AreFirsts (map transition_of entries.now) firsts.now }
    ensures { IsLike (map transition_of entries.now) place result }
{
    let _ = entries;
    match firsts.get(place) {
        Some(first) => *first,
        None => place,
    }
}
