//! Entries with the numbers of their names.
ghost use Rattle.std.specs.Prelude.{◌≡◌, ◌<◌, ◌^◌, Some, map, length, IfOk};
ghost use Rattle.io_automata.specs.Automata.{transition_of};
ghost use Rattle.plans.specs.Plans.{text_of};
ghost use Rattle.ioa_check.specs.Resolutions.{transition_meaning};
ghost use Rattle.ioa_entries.specs.EntryViews.{slot_tree};
ghost use Rattle.ioa_typing.specs.KindViews.{kind_tree};
ghost use Rattle.compose.specs.Instances.{is_short, kind_as, param_in, param_of, transition};
ghost use Rattle.compose.specs.Names.{IsRising};

use crate::instances::actions::number_of;
use io_automata::{ActionName, Entry, Param};
use ioa_check::Transition;
use ioa_entries::Slot;
use ioa_trees::tree::EntryKind;
use ioa_typing::Kind;
use ioa_typing::listing::listed_of;
use std::alloc::{AllocError, Global};
use terms::Listed;

fn action_kind(kind: EntryKind) -> io_automata::Kind
    ensures { result ≡ kind_as kind }
{
    match kind {
        EntryKind::Input => io_automata::Kind::Input,
        EntryKind::Output => io_automata::Kind::Output,
        EntryKind::Internal => io_automata::Kind::Internal,
    }
}

// Whether a range has 1 to 65,535 numbers.
fn is_short(low: i64, high: i64) -> bool
    ensures { result ≡ is_short low high }
{
    low <= high && high.abs_diff(low) < 65_535
}

// What a parameter of a kind takes.
fn kind_param(kind: &Kind) -> Param
    ensures { result ≡ param_in (kind_tree kind.now) }
{
    match kind {
        Kind::Truth => Param::Member(Listed::Bool),
        Kind::Whole => Param::Whole,
        Kind::Range(low, high) => {
            if is_short(*low, *high) {
                Param::Member(listed_of(kind))
            } else {
                Param::Between(*low, *high)
            }
        }
        Kind::Enumeration(_, _) => Param::Member(listed_of(kind)),
        Kind::Seq(_, _) => Param::Whole,
        Kind::Array(_, _) => Param::Whole,
    }
}

fn param(slot: &Slot) -> Param
    ensures { result ≡ param_of (slot_tree (Some slot.now)) }
{
    match slot {
        Slot::Fixed(number) => Param::Const(*number),
        Slot::Free(kind) => kind_param(kind),
    }
}

fn params(alloc: Global, slots: &[Slot]) -> Result<Vec<Param>, AllocError>
    ensures { IfOk result (λ ps. ps.items
        ≡ map param_of (map (λ p. slot_tree (Some p)) slots.now)) }
{
    let mut found = Vec::new(alloc);
    for slot in slots {
        found.push(param(slot))?;
    }
    Ok(found)
}

fn entry(alloc: Global, actions: &[ActionName], one: Transition) -> Result<Entry, AllocError>
    requires few { length actions.now < 2 ^ 16 }
    requires rising { IsRising (map text_of actions.now) }
    ensures { IfOk result (λ e. transition_of e
        ≡ transition (map text_of actions.now) (transition_meaning one)) }
{
    let name = number_of(actions, one.name.as_str());
    let params = match params(alloc, one.parameters.as_slice()) {
        Ok(params) => params,
        Err(refused) => {
            drop(one);
            return Err(refused);
        }
    };
    Ok(Entry {
        name,
        kind: action_kind(one.kind),
        params,
        pre: one.pre,
        effect: one.effect,
    })
}

/// The entries of an automaton.
pub fn entries(
    alloc: Global,
    actions: &[ActionName],
    transitions: Vec<Transition>,
) -> Result<Vec<Entry>, AllocError>
    requires few { length actions.now < 2 ^ 16 }
    requires rising { IsRising (map text_of actions.now) }
    ensures { IfOk result (λ es. map transition_of es.items
        ≡ map (transition (map text_of actions.now)) (map transition_meaning transitions.items)) }
{
    let mut found = Vec::new(alloc);
    for one in transitions {
        found.push(entry(alloc, actions, one)?)?;
    }
    Ok(found)
}
