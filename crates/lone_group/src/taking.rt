//! Turns that are taken into slots.
ghost use Rattle.std.specs.Prelude.{◌≡◌, ◌≤◌, ◌+◌, ◌∷◌, ◌++◌, [], OnErr, OnOk, Some, length, vec_len};
ghost use Rattle.task_seed.specs.Machines.{machine};
ghost use Rattle.task_seed.specs.Setups.{system};
ghost use Rattle.reference.specs.Agendas.{IsDue};
ghost use Rattle.lone_group.specs.Lone.{turns_in};
ghost use Rattle.lone_group.specs.Taken.{IsIn};

use crate::batch::Slot;
use event_keys::Key;
use reference::{Due, Standing};
use std::alloc::Global;
use task_seed::Turns;
use terms::NoMemory;

// A slot that waits for a turn.
fn unused() -> Slot {
    Slot {
        key: Key {
            tick: 0,
            component: 0,
            number: 0,
        },
        found: None,
    }
}

// Takes the turn that comes next, behind which the one with the key `next` comes, into the first slot that isn't used.
#[inline(always)]
pub(crate) fn take_into<T: Turns>(
    alloc: Global,
    standing: &mut Standing<T>,
    due: Due,
    next: Option<Key>,
    slots: &mut Vec<Slot>,
    used: usize,
) -> Result<(), NoMemory>
    requires at { standing.old.next ≡ Some due.key }
    requires due { IsDue (system T.turn_of standing.old.setup) due next }
    requires within { used ≤ vec_len slots.old }
    ensures taken { OnOk result (standing.new ≡ record standing.old { next = next }) }
    ensures turn { OnOk result (IsIn (machine (system T.turn_of standing.old.setup)) due.key next
        used slots.old.items slots.new.items) }
    ensures err { OnErr result (standing.new ≡ standing.old) }
    ensures kept { OnErr result
        (turns_in used slots.new.items ≡ turns_in used slots.old.items) }
    ensures room { OnErr result (used ≤ length slots.new.items) }
{
    if used == slots.len() {
        slots.push(unused())?;
    }
    let slot = &mut slots[used];
    slot.key = due.key;
    standing.take(alloc, due, next, &mut slot.found)
}
