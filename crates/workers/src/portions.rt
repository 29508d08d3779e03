//! Portions of the turns that are committed for good, and their lines.
ghost use Rattle.std.specs.Prelude.{◌≡◌, [], IfErr, IfOk, OnOk, map};
ghost use Rattle.lone_group.specs.Lone.{turned};
ghost use Rattle.schedules.specs.Schedules.{KeysFit};
ghost use Rattle.trace.specs.Lines.{text_of};
ghost use Rattle.trace.specs.Puts.{Puts};
ghost use Rattle.workers.specs.Portions.{IsStoppedIn};

use event_keys::Turned;
use lone_group::Slot;
use plans::Plan;
use raw_events::EventList;
use schedules::fits;
use std::io::Write;
use trace::{Counted, Lines, WriteFault, append_taken, append_turn};

/// Turns that no chunk has given before, how many were given before them and with them, and whether they are the last ones.
#[derive(Drop)]
pub struct Portion {
    pub turns: EventList<Turned>,
    pub first: u64,
    pub given: u64,
    pub is_last: bool,
}

/// The same of turns that aren't put together yet.
#[derive(Clone, Copy)]
pub struct Cut {
    pub first: u64,
    pub given: u64,
    pub is_last: bool,
}

/// Writes the lines of a portion's turns, where so many bytes went out before, and answers how many there are then. It stays a call, so that its loop
/// has the registers to itself.
#[inline(never)]
pub fn put_portion<W: Write>(
    plan: &Plan,
    turns: &EventList<Turned>,
    lines: Lines,
    before: u64,
    out: &mut Counted<W>,
) -> Result<u64, WriteFault>
    requires front { turns.now.before ≡ [] }
    ensures keys { OnOk result (KeysFit turns.now.after) }
    ensures ok { IfOk result (λ after. Puts W.contents out.old out.new before after
        (text_of plan.now lines turns.now.after)) }
    ensures err { IfErr result
        (IsStoppedIn W.contents plan.now lines out.old out.new before turns.now.after) }
{
    let mut written = before;
    for turned in turns.iter() {
        fits(turned.key);
        written = append_turn(plan, turned, lines, written, out)?;
    }
    Ok(written)
}

/// The same of turns in slots.
#[inline(never)]
pub fn put_slots<W: Write>(
    plan: &Plan,
    slots: &[Slot],
    lines: Lines,
    before: u64,
    out: &mut Counted<W>,
) -> Result<u64, WriteFault>
    ensures keys { OnOk result (KeysFit (map turned slots.now)) }
    ensures ok { IfOk result (λ after. Puts W.contents out.old out.new before after
        (text_of plan.now lines (map turned slots.now))) }
    ensures err { IfErr result (IsStoppedIn W.contents plan.now lines out.old out.new before
        (map turned slots.now)) }
{
    let mut written = before;
    for slot in slots {
        fits(slot.key);
        written = append_taken(plan, slot.key, slot.found.as_ref(), lines, written, out)?;
    }
    Ok(written)
}
