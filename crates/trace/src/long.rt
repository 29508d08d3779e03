//! Actions, and lines that are too long to be put together: their pieces go out one after another. Every call is
//! given how many bytes went out before, and answers how many went out by its end.
ghost use Rattle.std.specs.Prelude.{◌≡◌, [], ◌∷◌, ◌++◌, IfOk, IfErr};
ghost use Rattle.trace.specs.Lines.{argument_text, other_text, others_text, bracketed_text};
ghost use Rattle.trace.specs.Lines.{arguments_text, action_text, key_text};
ghost use Rattle.trace.specs.Puts.{Puts, Stops};

use crate::counted::Counted;
use crate::fault::WriteFault;
use crate::line::{KEY_ROOM, put_bytes, write_key};
use crate::words::{member_of, name_of};
use event_keys::Key;
use itoa::Buffer;
use plans::Plan;
use std::io::Write;
use terms::{Action, Scalar};

fn put<W: Write>(out: &mut Counted<W>, piece: &str, before: u64) -> Result<u64, WriteFault>
    ensures ok { IfOk result (λ after. Puts W.contents out.old out.new before after piece.now) }
    ensures err { IfErr result (λ fault. Stops W.contents out.old out.new before piece.now fault) }
{
    put_bytes(out, piece.as_bytes(), before)
}

fn put_key<W: Write>(out: &mut Counted<W>, key: &Key, before: u64) -> Result<u64, WriteFault>
    ensures ok { IfOk result (λ after.
        Puts W.contents out.old out.new before after (key_text key.now)) }
    ensures err { IfErr result (λ fault.
        Stops W.contents out.old out.new before (key_text key.now) fault) }
{
    let mut bytes = [0; KEY_ROOM];
    let start = write_key(*key, &mut bytes, KEY_ROOM);
    put_bytes(out, &bytes[start..], before)
}

fn put_argument<W: Write>(
    out: &mut Counted<W>,
    plan: &Plan,
    argument: Scalar,
    before: u64,
) -> Result<u64, WriteFault>
    ensures ok { IfOk result (λ after.
        Puts W.contents out.old out.new before after (argument_text plan.now argument)) }
    ensures err { IfErr result (λ fault.
        Stops W.contents out.old out.new before (argument_text plan.now argument) fault) }
{
    match argument {
        Scalar::Int(number) => put(out, Buffer::new().format(number), before),
        Scalar::Bool(true) => put(out, "true", before),
        Scalar::Bool(false) => put(out, "false", before),
        Scalar::Member(member) => put(out, member_of(plan, member), before),
    }
}

#[tactic(auto, using(crate::proofs::Adding::steps))]
fn put_other<W: Write>(
    out: &mut Counted<W>,
    plan: &Plan,
    argument: Scalar,
    before: u64,
) -> Result<u64, WriteFault>
    ensures ok { IfOk result (λ after.
        Puts W.contents out.old out.new before after (other_text plan.now argument)) }
    ensures err { IfErr result (λ fault.
        Stops W.contents out.old out.new before (other_text plan.now argument) fault) }
{
    let written = put(out, ",", before)?;
    put_argument(out, plan, argument, written)
}

#[tactic(auto, using(crate::proofs::Adding::items))]
fn put_others<W: Write>(
    out: &mut Counted<W>,
    plan: &Plan,
    arguments: &[Scalar],
    before: u64,
) -> Result<u64, WriteFault>
    ensures ok { IfOk result (λ after.
        Puts W.contents out.old out.new before after (others_text plan.now arguments.now)) }
    ensures err { IfErr result (λ fault.
        Stops W.contents out.old out.new before (others_text plan.now arguments.now) fault) }
{
    let mut written = before;
    for argument in arguments {
        written = put_other(out, plan, *argument, written)?;
    }
    Ok(written)
}

#[tactic(auto, using(crate::proofs::Adding::steps))]
fn put_bracketed<W: Write>(
    out: &mut Counted<W>,
    plan: &Plan,
    first: Scalar,
    others: &[Scalar],
    before: u64,
) -> Result<u64, WriteFault>
    ensures ok { IfOk result (λ after.
        Puts W.contents out.old out.new before after (bracketed_text plan.now first others.now)) }
    ensures err { IfErr result (λ fault.
        Stops W.contents out.old out.new before (bracketed_text plan.now first others.now) fault) }
{
    let written = put(out, "(", before)?;
    let written = put_argument(out, plan, first, written)?;
    let written = put_others(out, plan, others, written)?;
    put(out, ")", written)
}

#[tactic(auto, using(crate::proofs::Adding::items))]
fn put_arguments<W: Write>(
    out: &mut Counted<W>,
    plan: &Plan,
    arguments: &[Scalar],
    before: u64,
) -> Result<u64, WriteFault>
    ensures ok { IfOk result (λ after.
        Puts W.contents out.old out.new before after (arguments_text plan.now arguments.now)) }
    ensures err { IfErr result (λ fault.
        Stops W.contents out.old out.new before (arguments_text plan.now arguments.now) fault) }
{
    match arguments.split_first() {
        Some((first, others)) => put_bracketed(out, plan, *first, others, before),
        None => Ok(before),
    }
}

/// Writes the text of an action.
#[tactic(auto, using(crate::proofs::Adding::steps))]
pub fn append_action<W: Write>(
    plan: &Plan,
    action: &Action,
    before: u64,
    out: &mut Counted<W>,
) -> Result<u64, WriteFault>
    ensures ok { IfOk result (λ after.
        Puts W.contents out.old out.new before after (action_text plan.now action.now)) }
    ensures err { IfErr result (λ fault.
        Stops W.contents out.old out.new before (action_text plan.now action.now) fault) }
{
    let written = put(out, name_of(plan, action), before)?;
    put_arguments(out, plan, action.args.as_slice(), written)
}

/// Writes the line of a turn that took an action.
#[cold]
#[inline(never)]
#[tactic(auto, using(crate::proofs::Adding::steps))]
pub(crate) fn put_long<W: Write>(
    out: &mut Counted<W>,
    plan: &Plan,
    key: &Key,
    action: &Action,
    before: u64,
) -> Result<u64, WriteFault>
    ensures ok { IfOk result (λ after. Puts W.contents out.old out.new
        before after (key_text key.now ++ (action_text plan.now action.now ++ 10 ∷ []))) }
    ensures err { IfErr result (λ fault. Stops W.contents out.old out.new
        before (key_text key.now ++ (action_text plan.now action.now ++ 10 ∷ [])) fault) }
{
    let written = put_key(out, key, before)?;
    let written = append_action(plan, action, written, out)?;
    put(out, "\n", written)
}
