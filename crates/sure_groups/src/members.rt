//! The members of a group.
ghost use Rattle.std.specs.Prelude.{◌≡◌, ◌<◌, ◌≤◌, [], ℕ, Some, IfOk, OnOk, length, slice_get};
ghost use Rattle.event_keys.specs.Ranks.{rank};
ghost use Rattle.io_automata.specs.Steps.{start_of};
ghost use Rattle.plans.specs.Memos.{IsBlank};
ghost use Rattle.plans.specs.Plans.{composition};
ghost use Rattle.shares.specs.Turns.{HasTurn, IsComing, group_at};
ghost use Rattle.task_seed.specs.Setups.{plan_of, system};
ghost use Rattle.sure_groups.specs.Inputs.{IsOneOf, Knows};
ghost use Rattle.sure_groups.specs.Sure.{AreMembers};
ghost use Rattle.sure_groups.specs.declared.input.Input.{Input as Seen};
ghost use Rattle.sure_groups.specs.declared.member.Member.{Member as MemberSeen};

use crate::hearing::Hearing;
use crate::member::{Member, find, take_in};
use plans::{Memo, Plan};
use reference::Due;
use std::alloc::Global;
use task_seed::{Setup, Turns};
use terms::{Action, NoMemory};
use undo_records::Store;

// Each component in its start state. Nothing waits.
pub(crate) fn start_members(alloc: Global, plan: &Plan) -> Result<Vec<Member>, NoMemory>
    ensures many { IfOk result (λ members. length members.items
        ≡ length (composition plan.now)) }
    ensures state { IfOk result (λ members. (j : ℕ) (member : MemberSeen)
        → slice_get members.items j ≡ Some member
        → member.state.current ≡ start_of (composition plan.now) j) }
    ensures plain { IfOk result (λ members. (j : ℕ) (member : MemberSeen)
        → slice_get members.items j ≡ Some member → member.state.below ≡ []) }
    ensures blank { IfOk result (λ members. (j : ℕ) (member : MemberSeen)
        → slice_get members.items j ≡ Some member → IsBlank member.memo) }
    ensures none { IfOk result (λ members. (j : ℕ) (member : MemberSeen)
        → slice_get members.items j ≡ Some member → member.pending.items ≡ []) }
{
    let mut members = Vec::new(alloc);
    for i in 0..plan.components() {
        members.push(Member {
            state: Store::new(alloc, plan.start(alloc, i)?)?,
            memo: Memo::new(alloc),
            pending: Vec::new(alloc),
        })?;
    }
    Ok(members)
}

// What comes before the turn that is due to its component is taken in there, and then it is known what comes of the turn.
pub(crate) fn come<T: Turns>(
    alloc: Global,
    setup: &Setup<T>,
    hearing: &Hearing,
    due: Due,
    members: &mut [Member],
) -> Result<Option<Action>, NoMemory>
    requires coming { IsComing (system T.turn_of setup.now) due }
    requires within { due.key.component < length members.old }
    requires own { group_at hearing.now.groups.items due.key.component ≡ hearing.now.me }
    requires members { AreMembers (system T.turn_of setup.now) hearing.now.groups.items
        hearing.now.heard.items hearing.now.me (rank due.key) members.old }
    requires known { Knows (system T.turn_of setup.now) hearing.now.groups.items
        hearing.now.heard.items due.key.component (rank due.key) }
    ensures found { IfOk result (HasTurn (system T.turn_of setup.now) (rank due.key)) }
    ensures members { OnOk result (AreMembers (system T.turn_of setup.now)
        hearing.now.groups.items hearing.now.heard.items hearing.now.me (rank due.key)
        members.new) }
    ensures none { OnOk result ((member : MemberSeen) (x : Seen)
        → slice_get members.new due.key.component ≡ Some member
        → IsOneOf member.pending.items x → rank due.key ≤ rank x.key) }
    ensures many { length members.new ≡ length members.old }
{
    let member = &mut members[usize::from(due.key.component)];
    take_in(alloc, setup, hearing, due.key, member)?;
    find(alloc, setup, hearing, due, member)
}
