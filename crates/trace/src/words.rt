//! Names and arguments, and the line of an action that they make, put together from its end. An
//! answer is where the text starts, if there was room for it.
ghost use Rattle.std.specs.Prelude.{◌≡◌, ◌≤◌, [], ◌∷◌, ◌++◌, drop, length, IfSome};
ghost use Rattle.plans.specs.Plans.{action_texts, member_texts};
ghost use Rattle.trace.specs.Fronts.{IsBefore};
ghost use Rattle.trace.specs.Lines.{name_at, argument_text, other_text, others_text};
ghost use Rattle.trace.specs.Lines.{bracketed_text, arguments_text, action_text, key_text};

use crate::line::{KEY_ROOM, write_byte, write_key, write_text, write_whole};
use event_keys::Key;
use plans::Plan;
use terms::{Action, Scalar};

#[inline(always)]
pub(crate) fn name_of<'a>(plan: &'a Plan, action: &Action) -> &'a str
    ensures { result.now ≡ name_at (action_texts plan.now) action.now.name }
{
    match plan.action_name(action.name) {
        Some(name) => name.text.as_str(),
        None => "",
    }
}

pub(crate) fn member_of(plan: &Plan, member: u16) -> &str
    ensures { result.now ≡ name_at (member_texts plan.now) member }
{
    match plan.member_name(member) {
        Some(name) => name,
        None => "",
    }
}

#[inline(always)]
fn write_argument(plan: &Plan, argument: Scalar, bytes: &mut [u8], end: usize) -> Option<usize>
    requires { end ≤ length bytes.old }
    ensures { IfSome result
        (IsBefore bytes.old bytes.new end (argument_text plan.now argument)) }
{
    match argument {
        Scalar::Int(number) => write_whole(number, bytes, end),
        Scalar::Bool(true) => write_text("true", bytes, end),
        Scalar::Bool(false) => write_text("false", bytes, end),
        Scalar::Member(member) => write_text(member_of(plan, member), bytes, end),
    }
}

#[inline(always)]
#[tactic(auto, using(crate::proofs::Before::before))]
fn write_other(plan: &Plan, argument: Scalar, bytes: &mut [u8], end: usize) -> Option<usize>
    requires { end ≤ length bytes.old }
    ensures { IfSome result (IsBefore bytes.old bytes.new end (other_text plan.now argument)) }
{
    let start = write_argument(plan, argument, bytes, end)?;
    write_byte(b',', bytes, start)
}

// The last argument is written first.
#[inline(always)]
#[tactic(auto, using(crate::proofs::Before::before))]
fn write_others(plan: &Plan, arguments: &[Scalar], bytes: &mut [u8], end: usize) -> Option<usize>
    requires { end ≤ length bytes.old }
    ensures { IfSome result
        (IsBefore bytes.old bytes.new end (others_text plan.now arguments.now)) }
{
    let mut start = end;
    let mut left = arguments.len();
    while left > 0 {
        left -= 1;
        start = write_other(plan, arguments[left], bytes, start)?;
    }
    Some(start)
}

#[inline(always)]
#[tactic(auto, using(crate::proofs::Before::before))]
fn write_bracketed(
    plan: &Plan,
    first: &Scalar,
    others: &[Scalar],
    bytes: &mut [u8],
    end: usize,
) -> Option<usize>
    requires { end ≤ length bytes.old }
    ensures { IfSome result
        (IsBefore bytes.old bytes.new end (bracketed_text plan.now first.now others.now)) }
{
    let start = write_byte(b')', bytes, end)?;
    let start = write_others(plan, others, bytes, start)?;
    let start = write_argument(plan, *first, bytes, start)?;
    write_byte(b'(', bytes, start)
}

#[inline(always)]
#[tactic(auto, using(crate::proofs::Before::before))]
fn write_arguments(plan: &Plan, arguments: &[Scalar], bytes: &mut [u8], end: usize) -> Option<usize>
    requires { end ≤ length bytes.old }
    ensures { IfSome result
        (IsBefore bytes.old bytes.new end (arguments_text plan.now arguments.now)) }
{
    match arguments.split_first() {
        Some((first, others)) => write_bracketed(plan, first, others, bytes, end),
        None => Some(end),
    }
}

#[inline(always)]
#[tactic(auto, using(crate::proofs::Before::before))]
fn write_action(plan: &Plan, action: &Action, bytes: &mut [u8], end: usize) -> Option<usize>
    requires { end ≤ length bytes.old }
    ensures { IfSome result (IsBefore bytes.old bytes.new end (action_text plan.now action.now)) }
{
    let start = write_arguments(plan, action.args.as_slice(), bytes, end)?;
    write_text(name_of(plan, action), bytes, start)
}

/// Writes the line of a turn that took an action so that it ends where the bytes do.
#[inline(always)]
#[tactic(auto, using(crate::proofs::Before::before))]
pub(crate) fn write_line(plan: &Plan, key: &Key, action: &Action, bytes: &mut [u8]) -> Option<usize>
    ensures within { IfSome result (λ start. start ≤ length bytes.old) }
    ensures written { IfSome result (λ start.
        drop start bytes.new ≡ key_text key.now ++ (action_text plan.now action.now ++ 10 ∷ [])) }
{
    let start = write_byte(b'\n', bytes, bytes.len())?;
    let start = write_action(plan, action, bytes, start)?;
    if start < KEY_ROOM {
        return None;
    }
    Some(write_key(*key, bytes, start))
}
