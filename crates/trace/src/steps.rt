//! Reading a file of steps.
ghost use Rattle.std.specs.Prelude.{◌≡◌, ◌∷◌, ◌++◌, ℕ, ◌^◌, ◌<◌, List, IfSome, IfOk, IfErr, IsSomeAnd, Some};
ghost use Rattle.std.specs.Fmt.{decimal};
ghost use Rattle.event_keys.specs.declared.key.Bound.{Bound as Until};
ghost use Rattle.event_keys.specs.declared.key.Key.{Key as Time};
ghost use Rattle.event_keys.specs.declared.message.Sign.{Sign as Mark};
ghost use Rattle.task_seed.specs.Table.{lines_of};
ghost use Rattle.trace.specs.Lines.{key_text, number_text};
ghost use Rattle.trace.specs.StepFile.{GivesSteps, IsBadStep, SaysStep, IsStepsFault, IsUnknownStep};
ghost use Rattle.trace.specs.StepLines.{IsStepBound, IsStepKey, bound_text, sign_text};
ghost use Rattle.trace.specs.Messages.{IsForeignMessage, IsMessageText, IsNoMessage};
ghost use Rattle.trace.specs.TraceFile.{Blames};

use crate::fault::TraceError;
use crate::line_fault::LineFault;
use crate::reading::{fault_at, read_action};
use event_keys::{Bound, Key, Message, Sign, Signed, Step};
use plans::Plan;
use std::alloc::Global;
use std::str;
use task_seed::lines::{number, number_before, split_line};

fn component(word: &str) -> Option<u16>
    ensures some { IfSome result (λ n. (n < 2 ^ 16) × (word.now ≡ decimal n)) }
    ensures only { (n : ℕ) → n < 2 ^ 16 → word.now ≡ decimal n → result ≡ Some n }
{
    u16::try_from(number(word)?).ok()
}

// The component before the first space, and the text after it.
fn component_before(text: &str) -> Option<(u16, &str)>
    ensures some { IfSome result
        (λ r. (r.0 < 2 ^ 16) × (text.now ≡ decimal r.0 ++ (32 ∷ r.1.now))) }
    ensures only { (n : ℕ) (rest : List ℕ) → n < 2 ^ 16 → text.now ≡ decimal n ++ (32 ∷ rest)
        → IsSomeAnd result (λ r. (r.0 ≡ n) × (r.1.now ≡ rest)) }
{
    let (value, rest) = number_before(text)?;
    Some((u16::try_from(value).ok()?, rest))
}

// The key at the front, and the text after it.
pub(crate) fn key_before(text: &str) -> Option<(Key, &str)>
    ensures some { IfSome result (λ r. IsStepKey r.0 × (text.now ≡ key_text r.0 ++ r.1.now)) }
    ensures only { (key : Time) (rest : List ℕ) → IsStepKey key → text.now ≡ key_text key ++ rest
        → IsSomeAnd result (λ r. (r.0 ≡ key) × (r.1.now ≡ rest)) }
{
    let (tick, rest) = number_before(text)?;
    let (component, rest) = component_before(rest)?;
    let (number, rest) = number_before(rest)?;
    let key = Key {
        tick,
        component,
        number,
    };
    Some((key, rest))
}

fn last_key(text: &str) -> Option<Key>
    ensures some { IfSome result
        (λ key. IsStepKey key
        × (text.now ≡ number_text key.tick ++ (number_text key.component ++ decimal key.number))) }
    ensures only { (key : Time) → IsStepKey key
        → text.now ≡ number_text key.tick ++ (number_text key.component ++ decimal key.number)
        → result ≡ Some key }
{
    let (tick, rest) = number_before(text)?;
    let (component, rest) = component_before(rest)?;
    let number = number(rest)?;
    Some(Key {
        tick,
        component,
        number,
    })
}

fn bound(text: &str) -> Option<Bound>
    ensures some { IfSome result (λ bound. IsStepBound bound × (text.now ≡ bound_text bound)) }
    ensures only { (bound : Until) → IsStepBound bound → text.now ≡ bound_text bound
        → result ≡ Some bound }
{
    if text == "end" {
        Some(Bound::End)
    } else {
        Some(Bound::At(last_key(text)?))
    }
}

// The receiver and the key at the front, and the text after them.
fn address_before(text: &str) -> Option<(u16, Key, &str)>
    ensures some { IfSome result
        (λ r. (r.0 < 2 ^ 16) × IsStepKey r.1
        × (text.now ≡ number_text r.0 ++ (key_text r.1 ++ r.2.now))) }
    ensures only { (to : ℕ) (key : Time) (rest : List ℕ) → to < 2 ^ 16 → IsStepKey key
        → text.now ≡ number_text to ++ (key_text key ++ rest)
        → IsSomeAnd result (λ r. (r.0 ≡ to) × (r.1 ≡ key) × (r.2.now ≡ rest)) }
{
    let (to, rest) = component_before(text)?;
    let (key, rest) = key_before(rest)?;
    Some((to, key, rest))
}

fn message(alloc: Global, plan: &Plan, text: &str) -> Result<Message, LineFault>
    ensures ok { IfOk result (λ message. IsMessageText plan.now text.now message) }
    ensures err { IfErr result
        (λ fault. Blames (IsNoMessage plan.now text.now)
        (IsForeignMessage plan.now text.now) fault) }
{
    let (to, key, rest) = address_before(text).ok_or(LineFault::Bad)?;
    let action = read_action(alloc, plan, rest)?;
    Ok(Message { key, action, to })
}

// The sign at the front, and the text after it.
fn sign_before(text: &str) -> Option<(Sign, &str)>
    ensures some { IfSome result (λ r. text.now ≡ sign_text r.0 ++ r.1.now) }
    ensures only { (sign : Mark) (rest : List ℕ) → text.now ≡ sign_text sign ++ rest
        → IsSomeAnd result (λ r. (r.0 ≡ sign) × (r.1.now ≡ rest)) }
{
    let (word, rest) = text.split_once(' ')?;
    match word {
        "+" => Some((Sign::Plus, rest)),
        "-" => Some((Sign::Minus, rest)),
        _ => None,
    }
}

fn signed(alloc: Global, plan: &Plan, text: &str) -> Result<Signed, LineFault>
    ensures ok { IfOk result (λ signed. (rest : List ℕ) × (text.now ≡ sign_text signed.sign ++ rest)
        × IsMessageText plan.now rest signed.message) }
    ensures err { IfErr result
        (λ fault. Blames
        ((sign : Mark) (rest : List ℕ) → text.now ≡ sign_text sign ++ rest
        → IsNoMessage plan.now rest)
        ((sign : Mark) × (rest : List ℕ) × (text.now ≡ sign_text sign ++ rest)
        × IsForeignMessage plan.now rest) fault) }
{
    let (sign, rest) = sign_before(text).ok_or(LineFault::Bad)?;
    let message = message(alloc, plan, rest)?;
    Ok(Signed { message, sign })
}

fn read_text(alloc: Global, plan: &Plan, text: &str) -> Result<Step, LineFault>
    ensures ok { IfOk result (λ step. SaysStep plan.now text.now step) }
    ensures err { IfErr result
        (λ fault. Blames (IsBadStep plan.now text.now) (IsUnknownStep plan.now text.now) fault) }
{
    let (word, rest) = text.split_once(' ').ok_or(LineFault::Bad)?;
    match word {
        "process" => Ok(Step::Process(component(rest).ok_or(LineFault::Bad)?)),
        "deliver" => Ok(Step::Deliver(signed(alloc, plan, rest)?)),
        "meet" => Ok(Step::Meet(message(alloc, plan, rest)?)),
        "back" => Ok(Step::RollBack(component(rest).ok_or(LineFault::Bad)?)),
        "commit" => Ok(Step::Commit(bound(rest).ok_or(LineFault::Bad)?)),
        _ => Err(LineFault::Bad),
    }
}

fn read_line(alloc: Global, plan: &Plan, line: &[u8]) -> Result<Step, LineFault>
    ensures ok { IfOk result (λ step. SaysStep plan.now line.now step) }
    ensures err { IfErr result
        (λ fault. Blames (IsBadStep plan.now line.now) (IsUnknownStep plan.now line.now) fault) }
{
    match str::from_utf8(line) {
        Ok(text) => read_text(alloc, plan, text),
        Err(_) => Err(LineFault::Bad),
    }
}

/// Reads a file of steps: the steps of its lines, one a line, in order.
///
/// A line is `process I` or `back I`, where component I does its next entry or takes its last one back;
/// `deliver + TO TICK COMPONENT NUMBER ACTION`, where the message with that key and action comes to component TO, with `-`
/// for `+` its antimessage; `meet TO TICK COMPONENT NUMBER ACTION`, where the two annihilate; or
/// `commit TICK COMPONENT NUMBER` or `commit end`. Words are separated by one space, and a line ends with a line feed,
/// which the last one may lack. A number has no sign and no zeros in front; components are at most 65,535, ticks and
/// numbers at most the greatest `u64`. An action is written as in a file of actions ([`read_trace`](crate::read_trace)).
///
/// # Errors
///
/// Refused is the first line, counted from 1, that is no such line ([`TraceError::BadLine`]), or whose action the
/// composition doesn't have ([`TraceError::UnknownAction`]): no action has its name, or those have other parameters.
/// `NoMemory` where memory is refused.
pub fn read_steps(alloc: Global, plan: &Plan, bytes: &[u8]) -> Result<Vec<Step>, TraceError>
    ensures ok { IfOk result (λ steps. GivesSteps plan.now (lines_of bytes.now) steps.items) }
    ensures err { IfErr result (λ error. IsStepsFault plan.now bytes.now error) }
{
    let mut steps = Vec::new(alloc);
    let mut rest = bytes;
    let mut line = 0;
    while !rest.is_empty() {
        let (text, later) = split_line(rest);
        line += 1;
        match read_line(alloc, plan, text) {
            Ok(step) => steps.push(step)?,
            Err(fault) => return Err(fault_at(fault, line)),
        }
        rest = later;
    }
    Ok(steps)
}
