//! The entries so far, by their names.
ghost use Rattle.std.specs.Prelude.{◌≡◌, ◌<◌, ◌++◌, ◌∷◌, [], ℕ, true, false, cond, length, map, nat_eq, OnOk};
ghost use Rattle.compose.specs.Standings.{stood, seen_at, is_input_of, is_control_of, Has, Clash, ClashesAsInput};
ghost use Rattle.io_automata.specs.Signatures.{same_kind};
ghost use Rattle.io_automata.specs.declared.automaton.Kind.TheVariants.{Input};

use crate::compatibility::rule::{Rule, suits_all, suits_inputs};
use crate::compatibility::standing::{Standing, clash};
use io_automata::Kind;
use std::alloc::Global;
use terms::NoMemory;

// Makes a list for the name and each name below it.
fn make_room(alloc: Global, seen: &mut Vec<Vec<Standing>>, name: u16) -> Result<(), NoMemory>
    ensures same { OnOk result ((n : ℕ) → seen_at seen.new.items n ≡ seen_at seen.old.items n) }
    ensures room { OnOk result (name < length seen.new.items) }
{
    while seen.len() <= name as usize {
        seen.push(Vec::new(alloc))?;
    }
    Ok(())
}

// Adds an entry to those of its name.
fn push<'a>(
    alloc: Global,
    seen: &mut Vec<Vec<Standing<'a>>>,
    standing: Standing<'a>,
) -> Result<(), NoMemory>
    ensures { OnOk result ((n : ℕ)
        → seen_at seen.new.items n ≡ seen_at seen.old.items n
        ++ cond (nat_eq (stood standing.entry).entry.name n) (stood standing.entry ∷ []) []) }
{
    let name = standing.entry.name;
    make_room(alloc, seen, name)?;
    match seen.get_mut(name as usize) {
        Some(standings) => {
            standings.push(standing)?;
            Ok(())
        }
        None => Ok(()),
    }
}

// Whether one of these entries and the given one break a rule.
fn clash_with(rule: Rule, earlier: &[Standing], standing: &Standing) -> bool
    ensures some { result ≡ true
        → Has (λ a. Clash rule a (stood standing.now)) (map stood earlier.now) }
    ensures none { result ≡ false
        → Has (λ a. Clash rule a (stood standing.now)) (map stood earlier.now) → ⊥ }
{
    for other in earlier {
        if clash(rule, other, standing) {
            return true;
        }
    }
    false
}

/// Whether one of the entries so far and the given one break a rule.
pub(crate) fn is_clash(rule: Rule, seen: &[Vec<Standing>], standing: &Standing) -> bool
    ensures some { result ≡ true
        → Has (λ a. Clash rule a (stood standing.now))
        (seen_at seen.now (stood standing.now).entry.name) }
    ensures none { result ≡ false
        → Has (λ a. Clash rule a (stood standing.now))
        (seen_at seen.now (stood standing.now).entry.name) → ⊥ }
{
    if suits_all(rule, standing.entry.kind) {
        return false;
    }
    match seen.get(standing.entry.name as usize) {
        Some(earlier) => clash_with(rule, earlier.as_slice(), standing),
        None => false,
    }
}

/// Adds an entry to those of its name, inputs apart from the others.
pub(crate) fn push_by_kind<'a>(
    alloc: Global,
    inputs: &mut Vec<Vec<Standing<'a>>>,
    controls: &mut Vec<Vec<Standing<'a>>>,
    standing: Standing<'a>,
) -> Result<(), NoMemory>
    ensures inputs { OnOk result ((n : ℕ)
        → seen_at inputs.new.items n ≡ seen_at inputs.old.items n
        ++ cond (is_input_of n (stood standing.entry)) (stood standing.entry ∷ []) []) }
    ensures controls { OnOk result ((n : ℕ)
        → seen_at controls.new.items n ≡ seen_at controls.old.items n
        ++ cond (is_control_of n (stood standing.entry)) (stood standing.entry ∷ []) []) }
{
    if is_input(standing.entry.kind) {
        return push(alloc, inputs, standing);
    }
    push(alloc, controls, standing)
}

fn is_input(kind: Kind) -> bool
    ensures { result ≡ same_kind Input kind }
{
    match kind {
        Kind::Input => true,
        Kind::Output => false,
        Kind::Internal => false,
    }
}

/// Whether one of the inputs so far and the given entry break a rule. They aren't compared where no input and an entry of this kind do.
pub(crate) fn is_clash_with_input(rule: Rule, inputs: &[Vec<Standing>], standing: &Standing) -> bool
    ensures some { result ≡ true
        → Has (λ a. Clash rule a (stood standing.now))
        (seen_at inputs.now (stood standing.now).entry.name) }
    ensures none { result ≡ false
        → Has (λ a. ClashesAsInput rule a (stood standing.now))
        (seen_at inputs.now (stood standing.now).entry.name) → ⊥ }
{
    if suits_inputs(rule, standing.entry.kind) {
        return false;
    }
    is_clash(rule, inputs, standing)
}
