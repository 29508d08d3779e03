//! Reading a trace file of version 2: turns, one a line, in the order of their keys.
ghost use Rattle.std.specs.Prelude.{◌≡◌, ◌++◌, codes, List, ℕ, Decides, IfSome, IfNone, IfOk, IfErr, OnOk};
ghost use Rattle.event_keys.specs.declared.key.Key.{Key as Time};
ghost use Rattle.task_seed.specs.Table.{lines_of};
ghost use Rattle.trace.specs.Actions.{IsForeign, IsNoAction};
ghost use Rattle.trace.specs.Lines.{key_text, outcome_text};
ghost use Rattle.trace.specs.NextTurns.{IsNextFault};
ghost use Rattle.trace.specs.OrderedFile.{GivesInOrder, IsAfter, IsForeignTurn, IsKeyOf, IsNoTurn, IsOrderedFault, SaysTurn};
ghost use Rattle.trace.specs.TraceFile.{Blames};
ghost use Rattle.trace.specs.Versions.{IsVersionTwo};
ghost use Rattle.trace.specs.WrittenTurns.{IsOutcome, actions_of};

use crate::fault::TraceError;
use crate::line_fault::LineFault;
use crate::reading::{fault_at, read_action};
use crate::steps::key_before;
use event_keys::laws::key_law;
use event_keys::{Key, Outcome, Turned};
use plans::Plan;
use std::alloc::{AllocFailed, Global};
use std::str;
use task_seed::lines::split_line;
use terms::Action;

// The key at the front, if its component exists, and the text after it.
fn key_in<'a>(plan: &Plan, text: &'a str) -> Option<(Key, &'a str)>
    ensures some { IfSome result (λ r. IsKeyOf plan.now r.0
        × (text.now ≡ key_text r.0 ++ r.1.now)) }
    ensures none { IfNone result ((key : Time) (rest : List ℕ) → IsKeyOf plan.now key
        → text.now ≡ key_text key ++ rest → ⊥) }
{
    let components = plan.components();
    let (key, rest) = key_before(text)?;
    if key.component < components {
        Some((key, rest))
    } else {
        None
    }
}

// The outcome that the text says.
fn outcome_in(alloc: Global, plan: &Plan, text: &str) -> Result<Outcome, LineFault>
    ensures ok { IfOk result (λ outcome. IsOutcome plan.now outcome
        × (text.now ≡ outcome_text plan.now outcome)) }
    ensures err { IfErr result (λ fault. Blames
        ((text.now ≡ codes "idle" → ⊥) × IsNoAction plan.now text.now)
        (IsForeign plan.now text.now) fault) }
{
    if text == "idle" {
        Ok(Outcome::Idle)
    } else {
        Ok(Outcome::Did(read_action(alloc, plan, text)?))
    }
}

fn turn_in(alloc: Global, plan: &Plan, text: &str) -> Result<Turned, LineFault>
    ensures ok { IfOk result (λ turned. SaysTurn plan.now text.now turned) }
    ensures err { IfErr result (λ fault. Blames
        (IsNoTurn plan.now text.now) (IsForeignTurn plan.now text.now) fault) }
{
    let Some((key, rest)) = key_in(plan, text) else {
        return Err(LineFault::Bad);
    };
    let outcome = outcome_in(alloc, plan, rest)?;
    Ok(Turned { key, outcome })
}

// The turn of a line.
fn read_turn(alloc: Global, plan: &Plan, line: &[u8]) -> Result<Turned, LineFault>
    ensures ok { IfOk result (λ turned. SaysTurn plan.now line.now turned) }
    ensures err { IfErr result (λ fault. Blames
        (IsNoTurn plan.now line.now) (IsForeignTurn plan.now line.now) fault) }
{
    match str::from_utf8(line) {
        Ok(text) => turn_in(alloc, plan, text),
        Err(_) => Err(LineFault::Bad),
    }
}

fn is_after(last: Option<Key>, key: Key) -> bool
    ensures { Decides result (IsAfter last key) }
{
    match last {
        Some(last) => {
            key_law(last, key);
            last < key
        }
        None => true,
    }
}

// The turn of the line with this number, if its key is above the last one.
fn next_turn(
    alloc: Global,
    plan: &Plan,
    last: Option<Key>,
    text: &[u8],
    line: usize,
) -> Result<Turned, TraceError>
    ensures ok { IfOk result (λ turned. SaysTurn plan.now text.now turned
        × IsAfter last turned.key) }
    ensures err { IfErr result (λ error. IsNextFault plan.now last text.now line error) }
{
    let turned = match read_turn(alloc, plan, text) {
        Ok(turned) => turned,
        Err(fault) => return Err(fault_at(fault, line)),
    };
    if is_after(last, turned.key) {
        Ok(turned)
    } else {
        Err(TraceError::NotInOrder(line))
    }
}

// Keeps the action of a turn, if it did one.
fn keep(actions: &mut Vec<Action>, outcome: Outcome) -> Result<(), AllocFailed<Action>>
    ensures { OnOk result (actions.new.items ≡ actions.old.items ++ actions_of outcome) }
{
    match outcome {
        Outcome::Idle => Ok(()),
        Outcome::Did(action) => actions.push(action),
    }
}

/// Reads a file of version 2: the actions of its turns.
pub(crate) fn read_in_order(
    alloc: Global,
    plan: &Plan,
    bytes: &[u8],
) -> Result<Vec<Action>, TraceError>
    requires { IsVersionTwo bytes.now }
    ensures ok { IfOk result (λ actions. GivesInOrder plan.now (lines_of bytes.now) actions.items) }
    ensures err { IfErr result (λ error. IsOrderedFault plan.now bytes.now error) }
{
    let mut actions = Vec::new(alloc);
    let mut last: Option<Key> = None;
    let mut line = 1;
    let (_, turns) = split_line(bytes);
    let mut rest = turns;
    while !rest.is_empty() {
        let (text, later) = split_line(rest);
        line += 1;
        let Turned { key, outcome } = next_turn(alloc, plan, last, text, line)?;
        keep(&mut actions, outcome)?;
        last = Some(key);
        rest = later;
    }
    Ok(actions)
}
