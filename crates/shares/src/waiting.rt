//! Which turns of other groups a turn awaits.
ghost use Rattle.std.specs.Prelude.{◌≡◌, ◌≤◌, ℕ, IfOk, IsTrue, OnOk, All};
ghost use Rattle.event_keys.specs.Ranks.{rank};
ghost use Rattle.shares.specs.Waiting.{IsCovered, IsWaited};

use crate::share::Wait;
use event_keys::Key;
use event_keys::laws::key_rank_law;
use smallvec::SmallVec;
use std::alloc::Global;
use terms::NoMemory;

/// What a turn of a component of the group `own` awaits that may be sent to by these: of each other group the last turn of theirs.
pub(crate) fn await_turns(
    alloc: Global,
    among: &[u16],
    groups: &[u16],
    last: &[Option<Key>],
    own: u16,
) -> Result<SmallVec<Wait, 2>, NoMemory>
    ensures { IfOk result
        (λ waits. All (IsWaited groups.now last.now own waits.items) among.now) }
{
    let mut waits = SmallVec::new(alloc);
    for i in among {
        await_turn(&mut waits, usize::from(*i), groups, last, own)?;
    }
    Ok(waits)
}

// The last turn of component `i` is awaited too, if it had one and is of another group.
fn await_turn(
    waits: &mut SmallVec<Wait, 2>,
    i: usize,
    groups: &[u16],
    last: &[Option<Key>],
    own: u16,
) -> Result<(), NoMemory>
    ensures kept { OnOk result ((group r : ℕ) → IsCovered waits.old.items group r
        → IsCovered waits.new.items group r) }
    ensures waited { OnOk result (IsWaited groups.now last.now own waits.new.items i) }
{
    let Some(group) = groups.get(i) else {
        return Ok(());
    };
    if *group == own {
        return Ok(());
    }
    let Some(Some(key)) = last.get(i) else {
        return Ok(());
    };
    add_wait(waits, *group, *key)
}

// A turn of a group is awaited too.
fn add_wait(waits: &mut SmallVec<Wait, 2>, group: u16, last: Key) -> Result<(), NoMemory>
    ensures kept { OnOk result ((group r : ℕ) → IsCovered waits.old.items group r
        → IsCovered waits.new.items group r) }
    ensures covered { OnOk result (IsCovered waits.new.items group (rank last)) }
{
    if raise(waits.as_mut_slice(), group, last) {
        return Ok(());
    }
    waits.push(Wait { group, last })?;
    Ok(())
}

// Where a turn of the group is awaited already, the later one of the two is; whether there is one.
fn raise(waits: &mut [Wait], group: u16, last: Key) -> bool
    ensures kept { (group r : ℕ) → IsCovered waits.old group r → IsCovered waits.new group r }
    ensures covered { IsTrue result → IsCovered waits.new group (rank last) }
{
    for place in 0..waits.len() {
        let wait = waits[place];
        if wait.group == group {
            let last = later(wait.last, last);
            waits[place] = Wait { group, last };
            return true;
        }
    }
    false
}

fn later(a: Key, b: Key) -> Key
    ensures first { rank a ≤ rank result }
    ensures second { rank b ≤ rank result }
{
    key_rank_law(a, b);
    if a < b { b } else { a }
}
