//! What is known of a component's tasks in its present state.
//!
//! Mostly a component's state hasn't changed since its task was asked last, and what was found then is found again. The contracts say
//! that what is known is true of the present state. That it is kept until that changes is a matter of time alone, and no clause speaks
//! of it.
ghost use Rattle.std.specs.Prelude.{◌≡◌, ◌++◌, ◌∷◌, ◌⊎◌, [], ℕ, IfSome};
ghost use Rattle.plans.specs.Memos.{IsAmong, IsBlank};
ghost use Rattle.plans.specs.declared.memo.Kept.{Kept as KeptSeen};

use crate::resting::Resting;
use outcomes::spans::{Found, Founds};
use std::alloc::Global;

/// What is known of a component's tasks: which have nothing enabled, and what is enabled of those whose conditions mention parameters, as
/// far as they were asked.
#[derive(Drop)]
pub struct Memo {
    pub(crate) resting: Resting,
    pub(crate) kept: Vec<Kept>,
}

/// What was found of a task.
#[derive(Drop)]
pub(crate) struct Kept {
    pub task: u32,
    pub founds: Founds,
}

impl Memo {
    /// Nothing is known.
    pub fn new(alloc: Global) -> Memo
        ensures { IsBlank result }
    {
        Memo {
            resting: Resting::new(),
            kept: Vec::new(alloc),
        }
    }

    /// The component's state changed, so nothing is known any more.
    #[inline(always)]
    pub fn forget(&mut self)
        ensures { IsBlank self.new }
    {
        self.resting.wake();
        if !self.kept.is_empty() {
            forget_all(&mut self.kept);
        }
    }

    /// What was found of a task, if that is known.
    #[inline(always)]
    pub(crate) fn founds_of(&self, task: u32) -> Option<&[Found]>
        ensures { IfSome result (λ founds. IsAmong self.now.kept.items task founds.now) }
    {
        for kept in self.kept.as_slice() {
            if kept.task == task {
                return Some(kept.founds.as_slice());
            }
        }
        None
    }

    /// This was found of a task. Where there is no room for it, it will be asked again.
    pub(crate) fn keep(&mut self, task: u32, founds: Founds)
        ensures resting { self.new.resting ≡ self.old.resting }
        ensures kept { (self.new.kept.items ≡ self.old.kept.items)
            ⊎ ((one : KeptSeen) × (one.task ≡ task) × (one.founds.items ≡ founds.items)
            × (self.new.kept.items ≡ self.old.kept.items ++ one ∷ [])) }
    {
        let _ = self.kept.push(Kept { task, founds });
    }
}

#[inline(never)]
fn forget_all(kept: &mut Vec<Kept>)
    ensures { kept.new.items ≡ [] }
{
    kept.clear();
}
