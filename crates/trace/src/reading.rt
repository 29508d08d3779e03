//! Reading the lines of a trace file, in whichever order they stand.
ghost use Rattle.std.specs.Prelude.{◌≡◌, ◌++◌, option_to_list, IfOk, IfErr};
ghost use Rattle.event_keys.specs.declared.key.Key.{Key};
ghost use Rattle.task_seed.specs.Table.{lines_of};
ghost use Rattle.trace.specs.Actions.{IsAction, IsForeign, IsNoAction};
ghost use Rattle.trace.specs.Lines.{key_text};
ghost use Rattle.trace.specs.TraceFile.{Blames, Gives, IsBad, IsGiven, IsTraceFault, IsUnknown, fault_of};
ghost use Rattle.trace.specs.Written.{IsKey};

use crate::fault::TraceError;
use crate::known::action_of;
use crate::line_fault::LineFault;
use crate::written::{after_key, written};
use plans::Plan;
use std::alloc::Global;
use std::str;
use task_seed::lines::split_line;
use terms::Action;

// The action that is written in the text.
pub(crate) fn read_action(alloc: Global, plan: &Plan, text: &str) -> Result<Action, LineFault>
    ensures ok { IfOk result (λ action. IsAction plan.now text.now action) }
    ensures err { IfErr result
        (λ fault. Blames (IsNoAction plan.now text.now) (IsForeign plan.now text.now) fault) }
{
    let (name, args) = written(alloc, plan, text)?;
    action_of(plan, name, args)
}

// The action of a turn, and none of an idle one.
fn read_outcome(alloc: Global, plan: &Plan, text: &str) -> Result<Option<Action>, LineFault>
    ensures ok { IfOk result (λ action. (key : Key) → IsKey key
        → IsGiven plan.now (key_text key ++ text.now) (option_to_list action)) }
    ensures err { IfErr result
        (λ fault. Blames ((key : Key) → IsKey key → IsBad plan.now (key_text key ++ text.now))
        ((key : Key) → IsKey key → IsUnknown plan.now (key_text key ++ text.now)) fault) }
{
    if text == "idle" {
        Ok(None)
    } else {
        Ok(Some(read_action(alloc, plan, text)?))
    }
}

fn read_text(alloc: Global, plan: &Plan, text: &str) -> Result<Option<Action>, LineFault>
    ensures ok { IfOk result (λ action. IsGiven plan.now text.now (option_to_list action)) }
    ensures err { IfErr result
        (λ fault. Blames (IsBad plan.now text.now) (IsUnknown plan.now text.now) fault) }
{
    if !text.contains(' ') {
        return Ok(Some(read_action(alloc, plan, text)?));
    }
    match after_key(text) {
        Some(rest) => read_outcome(alloc, plan, rest),
        None => Err(LineFault::Bad),
    }
}

fn read_line(alloc: Global, plan: &Plan, line: &[u8]) -> Result<Option<Action>, LineFault>
    ensures ok { IfOk result (λ action. IsGiven plan.now line.now (option_to_list action)) }
    ensures err { IfErr result
        (λ fault. Blames (IsBad plan.now line.now) (IsUnknown plan.now line.now) fault) }
{
    match str::from_utf8(line) {
        Ok(text) => read_text(alloc, plan, text),
        Err(_) => Err(LineFault::Bad),
    }
}

pub(crate) fn fault_at(fault: LineFault, line: usize) -> TraceError
    ensures { result ≡ fault_of fault line }
{
    match fault {
        LineFault::NoMemory => TraceError::NoMemory,
        LineFault::Bad => TraceError::BadLine(line),
        LineFault::Unknown => TraceError::UnknownAction(line),
    }
}

/// Reads lines that may stand in any order: their actions, one after another.
pub(crate) fn read_lines(
    alloc: Global,
    plan: &Plan,
    bytes: &[u8],
) -> Result<Vec<Action>, TraceError>
    ensures ok { IfOk result (λ actions. Gives plan.now (lines_of bytes.now) actions.items) }
    ensures err { IfErr result (λ error. IsTraceFault plan.now bytes.now error) }
{
    let mut actions = Vec::new(alloc);
    let mut rest = bytes;
    let mut line = 0;
    while !rest.is_empty() {
        let (text, later) = split_line(rest);
        line += 1;
        match read_line(alloc, plan, text) {
            Ok(Some(action)) => actions.push(action)?,
            Ok(None) => {}
            Err(fault) => return Err(fault_at(fault, line)),
        }
        rest = later;
    }
    Ok(actions)
}
