//! Lines of turns.
ghost use Rattle.std.specs.Prelude.{◌≡◌, ◌∷◌, ◌++◌, [], List, option_copied};
ghost use Rattle.std.specs.Prelude.{IfOk, OnOk, IfErr, OnErr};
ghost use Rattle.std.specs.Borrow.{Bor};
ghost use Rattle.std.specs.Iterator.{IsFinite, Drains, Yields};
ghost use Rattle.std.specs.Io.KnownBytes.{Appends};
ghost use Rattle.event_keys.specs.declared.outcome.Turned.{Turned};
ghost use Rattle.task_seed.specs.Taken.{outcome_of, turned_of};
ghost use Rattle.trace.specs.Counts.{writer_of, failures_of, one_more};
ghost use Rattle.trace.specs.Lines.{action_text, did_external, is_shown, key_text, line_of, shown_text, text_of, turns_at};
ghost use Rattle.trace.specs.Puts.{Puts, Stops};

use crate::counted::Counted;
use crate::fault::WriteFault;
use crate::line::{put_bytes, put_idle};
use crate::long::put_long;
use crate::words::write_line;
use event_keys::{Key, Outcome, Turned};
use plans::Plan;
use std::io::Write;
use terms::Action;

// The room for a line that is put together.
const LINE_ROOM: usize = 128;

/// Which turns are written.
#[derive(Clone, Copy, PartialEq, Eq)]
pub enum Lines {
    /// Every turn.
    All,
    /// The turns that took an action that is external: an input or an output of the composition. A hidden output is neither.
    Trace,
}

/// Writes a line for each of the turns that are wanted: `tick component number action`, or `idle` for the action, the
/// numbers in decimal. An action is its name, with its arguments, if it has any, in brackets and with commas between them:
/// `send(true,-3)`. A name that the plan doesn't have is no text. It takes no memory, and its time grows with the text and
/// with what `Plan::is_external` costs for each turn.
///
/// The iterator may be any that ends. An error comes only
/// where a write fails: [`WriteFault::WriteFailed`] has the number of the text's bytes, from the front, that had gone out,
/// one more failure is counted, and no more turns are taken.
pub fn write_turns<'a, W: Write, I: Iterator<Item = &'a Turned> + Drop>(
    plan: &Plan,
    turns: I,
    lines: Lines,
    out: &mut Counted<W>,
) -> Result<(), WriteFault>
    requires can { I.can_next turns }
    requires ends { IsFinite (I.remaining turns) }
    ensures ok { OnOk result ((given : List (Bor Turned)) × Drains I.next_gives turns given
        × Appends (W.contents (writer_of out.old)) (W.contents (writer_of out.new))
        (text_of plan.now lines (turns_at given))) }
    ensures ok_failures { OnOk result (failures_of out.new ≡ failures_of out.old) }
    ensures err { IfErr result
        (λ fault. (given : List (Bor Turned)) × (rest : I) × Yields I.next_gives turns given rest
        × Stops W.contents out.old out.new 0 (text_of plan.now lines (turns_at given)) fault) }
    ensures err_failures { OnErr result (failures_of out.new ≡ one_more (failures_of out.old)) }
{
    match append_turns(plan, turns, lines, 0, out) {
        Ok(_) => Ok(()),
        Err(fault) => Err(fault),
    }
}

/// Writes the lines of further turns, as [`write_turns`] writes the first ones, where so many bytes went out before them. The answer is the
/// number of bytes from then on, up to the greatest `u64`; that of an error counts those before too.
#[tactic(auto, using(crate::proofs::Putting::turns))]
pub fn append_turns<'a, W: Write, I: Iterator<Item = &'a Turned> + Drop>(
    plan: &Plan,
    turns: I,
    lines: Lines,
    before: u64,
    out: &mut Counted<W>,
) -> Result<u64, WriteFault>
    requires can { I.can_next turns }
    requires ends { IsFinite (I.remaining turns) }
    ensures ok { IfOk result (λ after. (given : List (Bor Turned)) × Drains I.next_gives turns given
        × Puts W.contents out.old out.new before after (text_of plan.now lines (turns_at given))) }
    ensures err { IfErr result
        (λ fault. (given : List (Bor Turned)) × (rest : I) × Yields I.next_gives turns given rest
        × Stops W.contents out.old out.new before (text_of plan.now lines (turns_at given)) fault) }
{
    let mut written = before;
    for turned in turns {
        written = append_turn(plan, turned, lines, written, out)?;
    }
    Ok(written)
}

/// Writes the line of one more turn, if it is wanted, as [`append_turns`] does.
#[inline(always)]
pub fn append_turn<W: Write>(
    plan: &Plan,
    turned: &Turned,
    lines: Lines,
    before: u64,
    out: &mut Counted<W>,
) -> Result<u64, WriteFault>
    ensures ok { IfOk result (λ after. Puts W.contents out.old out.new before after
        (shown_text plan.now lines turned.now)) }
    ensures err { IfErr result
        (λ fault. Stops W.contents out.old out.new before
        (shown_text plan.now lines turned.now) fault) }
{
    let found = action_in(&turned.outcome);
    append_taken(plan, turned.key, found, lines, before, out)
}

/// As [`append_turn`], for the turn with this key that took this action, or none.
#[inline(always)]
pub fn append_taken<W: Write>(
    plan: &Plan,
    key: Key,
    found: Option<&Action>,
    lines: Lines,
    before: u64,
    out: &mut Counted<W>,
) -> Result<u64, WriteFault>
    ensures ok { IfOk result (λ after. Puts W.contents out.old out.new before after
        (shown_text plan.now lines (turned_of (option_copied found.entry) key))) }
    ensures err { IfErr result (λ fault. Stops W.contents out.old out.new before
        (shown_text plan.now lines (turned_of (option_copied found.entry) key)) fault) }
{
    if is_shown(plan, lines, found) {
        put_line(out, plan, key, found, before)
    } else {
        Ok(before)
    }
}

// The action of an outcome, if it is one.
#[inline(always)]
fn action_in(outcome: &Outcome) -> Option<&Action>
    ensures { outcome_of (option_copied result) ≡ outcome.now }
{
    match outcome {
        Outcome::Idle => None,
        Outcome::Did(action) => Some(action),
    }
}

#[inline(always)]
fn is_shown(plan: &Plan, lines: Lines, found: Option<&Action>) -> bool
    ensures { result ≡ is_shown plan.now lines (outcome_of (option_copied found.entry)) }
{
    match lines {
        Lines::All => true,
        Lines::Trace => did_external(plan, found),
    }
}

fn did_external(plan: &Plan, found: Option<&Action>) -> bool
    ensures { result ≡ did_external plan.now (outcome_of (option_copied found.entry)) }
{
    match found {
        Some(action) => plan.is_external(action),
        None => false,
    }
}

// Most turns are idle: their line takes a short way.
#[inline(always)]
fn put_line<W: Write>(
    out: &mut Counted<W>,
    plan: &Plan,
    key: Key,
    found: Option<&Action>,
    before: u64,
) -> Result<u64, WriteFault>
    ensures ok { IfOk result (λ after. Puts W.contents out.old out.new before after
        (line_of plan.now (turned_of (option_copied found.entry) key))) }
    ensures err { IfErr result (λ fault. Stops W.contents out.old out.new before
        (line_of plan.now (turned_of (option_copied found.entry) key)) fault) }
{
    match found {
        Some(action) => put_did(
            out,
            plan,
            key.tick,
            key.component,
            key.number,
            action,
            before,
        ),
        None => put_idle(out, key, before),
    }
}

// The line of a turn that took an action, in a frame of its own. The key comes as its numbers: a key that is handed on stands in memory, also on the
// way on which no call is made.
#[inline(never)]
fn put_did<W: Write>(
    out: &mut Counted<W>,
    plan: &Plan,
    tick: u64,
    component: u16,
    number: u64,
    action: &Action,
    before: u64,
) -> Result<u64, WriteFault>
    ensures ok { IfOk result (λ after. Puts W.contents out.old out.new before after
        (key_text (record { tick = tick; component = component; number = number })
        ++ (action_text plan.now action.now ++ 10 ∷ []))) }
    ensures err { IfErr result (λ fault. Stops W.contents out.old out.new before
        (key_text (record { tick = tick; component = component; number = number })
        ++ (action_text plan.now action.now ++ 10 ∷ [])) fault) }
{
    let key = Key {
        tick,
        component,
        number,
    };
    let mut bytes = [0; LINE_ROOM];
    match write_line(plan, &key, action, &mut bytes) {
        Some(start) => put_bytes(out, &bytes[start..], before),
        None => put_long(out, plan, &key, action, before),
    }
}
