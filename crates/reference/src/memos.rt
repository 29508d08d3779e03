//! What is known of the components' tasks in their present states.
ghost use Rattle.std.specs.Prelude.{◌≡◌, ◌⊎◌, ℕ, true, Some, IfOk, length, slice_get};
ghost use Rattle.io_automata.specs.Receivers.{IsIn};
ghost use Rattle.plans.specs.Plans.{composition};
ghost use Rattle.plans.specs.Memos.{IsBlank};
ghost use Rattle.plans.specs.declared.memo.Memo.{Memo as MemoSeen};
ghost use Rattle.reference.specs.Memos.{IsStill};

use plans::{Memo, Plan};
use std::alloc::Global;
use terms::NoMemory;
use undo_records::Store;

/// For each component what is known of it: nothing.
pub(crate) fn no_memos(alloc: Global, plan: &Plan) -> Result<Vec<Memo>, NoMemory>
    ensures many { IfOk result (λ memos. length memos.items ≡ length (composition plan.now)) }
    ensures blank { IfOk result (λ memos. (j : ℕ) (memo : MemoSeen)
        → slice_get memos.items j ≡ Some memo → IsBlank memo) }
{
    let mut memos = Vec::new(alloc);
    for _i in 0..plan.components() {
        memos.push(Memo::new(alloc))?;
    }
    Ok(memos)
}

/// Of component `i` and of these others, each whose state was written since its mark, nothing is known any more.
#[inline(always)]
pub(crate) fn forget_touched(i: u16, among: &[u16], states: &[Store], memos: &mut [Memo])
    ensures many { length memos.new ≡ length memos.old }
    ensures each { (j : ℕ) (memo : MemoSeen) → slice_get memos.new j ≡ Some memo
        → IsBlank memo ⊎ ((slice_get memos.old j ≡ Some memo)
        × ((j ≡ i) ⊎ (IsIn j among.now ≡ true) → IsStill states.now j)) }
{
    forget_if_touched(i, states, memos);
    for j in among {
        forget_if_touched(*j, states, memos);
    }
}

#[inline(always)]
fn forget_if_touched(i: u16, states: &[Store], memos: &mut [Memo])
    ensures many { length memos.new ≡ length memos.old }
    ensures each { (j : ℕ) (memo : MemoSeen) → slice_get memos.new j ≡ Some memo
        → IsBlank memo ⊎ ((slice_get memos.old j ≡ Some memo) × (j ≡ i → IsStill states.now j)) }
{
    let place = usize::from(i);
    if place >= states.len() || place >= memos.len() || states[place].is_untouched() {
        return;
    }
    memos[place].forget();
}
