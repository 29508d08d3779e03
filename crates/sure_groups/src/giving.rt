//! What came of the turns of another group waits at the components of this one.
ghost use Rattle.std.specs.Prelude.{◌≡◌, ◌<◌, ◌≤◌, ℕ, None, Option, Some, IfOk, OnOk, length, slice_get};
ghost use Rattle.event_keys.specs.declared.key.Key.{Key as KeySeen};
ghost use Rattle.reference.specs.Queues.{rank_or_end};
ghost use Rattle.sure_groups.specs.Giving.{AreGiven};
ghost use Rattle.sure_groups.specs.Inputs.{IsOneOf};
ghost use Rattle.sure_groups.specs.declared.input.Input.{Input as Seen};

use crate::hearing::Hearing;
use crate::input::Input;
use crate::member::Member;
use crate::packet::{Packet, Unheard};
use crate::passing::put_input;
use event_keys::Key;
use event_keys::laws::{key_rank_law, rank_law};
use std::alloc::Global;
use terms::NoMemory;

// Of so many groups was heard up to one key.
pub(crate) fn all_at(
    alloc: Global,
    count: u16,
    first: Option<Key>,
) -> Result<Vec<Option<Key>>, NoMemory>
    ensures many { IfOk result (λ heard. length heard.items ≡ count) }
    ensures each { IfOk result (λ heard. (g : ℕ) (key : Option KeySeen)
        → slice_get heard.items g ≡ Some key → key ≡ first) }
{
    let mut heard = Vec::new(alloc);
    for _group in 0..count {
        heard.push(first)?;
    }
    Ok(heard)
}

// A packet is for this group and of another, begins where what was heard of that one ends, and doesn't end before.
pub(crate) fn check_next(hearing: &Hearing, packet: &Packet) -> Result<(), Unheard>
    ensures to { OnOk result (packet.now.to ≡ hearing.now.me) }
    ensures from { OnOk result (packet.now.from ≡ hearing.now.me → ⊥) }
    ensures since { OnOk result
        (slice_get hearing.now.heard.items packet.now.from ≡ Some packet.now.since) }
    ensures up { OnOk result
        (rank_or_end packet.now.since ≤ rank_or_end packet.now.until) }
{
    if packet.to != hearing.me {
        return Err(Unheard::OutOfPlace);
    }
    if packet.from == hearing.me {
        return Err(Unheard::OutOfPlace);
    }
    let Some(heard) = hearing.heard.get(usize::from(packet.from)) else {
        return Err(Unheard::OutOfPlace);
    };
    if *heard != packet.since {
        return Err(Unheard::OutOfPlace);
    }
    check_up(packet.since, packet.until)
}

// A key isn't behind another, where none is the end.
#[tactic(auto, using(crate::proofs::Written::below_end))]
fn check_up(since: Option<Key>, until: Option<Key>) -> Result<(), Unheard>
    ensures { OnOk result (rank_or_end since ≤ rank_or_end until) }
{
    let Some(until) = until else {
        check_end(since);
        return Ok(());
    };
    let Some(since) = since else {
        return Err(Unheard::OutOfPlace);
    };
    key_rank_law(since, until);
    if until < since {
        return Err(Unheard::OutOfPlace);
    }
    Ok(())
}

// No key is behind the end.
#[tactic(auto, using(crate::proofs::Written::below_end))]
fn check_end(key: Option<Key>)
    ensures { rank_or_end key ≤ rank_or_end None }
{
    if let Some(key) = key {
        rank_law(key);
    }
}

// Each input waits at its component.
pub(crate) fn put_inputs(members: &mut Vec<Member>, inputs: Vec<Input>) -> Result<(), NoMemory>
    requires { (x : Seen) → IsOneOf inputs.items x → x.to < length members.old.items }
    ensures { OnOk result (AreGiven inputs.items members.old.items members.new.items) }
{
    for input in inputs {
        let to = usize::from(input.to);
        put_input(&mut members[to].pending, input)?;
    }
    Ok(())
}
