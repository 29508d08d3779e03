//! The enabled actions of a task, and the one that a turn takes.
ghost use Rattle.std.specs.Prelude.{◌≡◌, ◌%◌, IfNone, IfOk, IfSome, OnOk, OnErr, [], None, length, slice_get};
ghost use Rattle.io_automata.specs.Outcomes.{task_of, enabled_of, outcome_of};
ghost use Rattle.plans.specs.Known.{IsTaskOf};
ghost use Rattle.plans.specs.Memos.{IsMemo};

use crate::memo::Memo;
use crate::plan::{Ask, Plan};
use outcomes::Task;
use outcomes::choose::{enabled, put_found, put_outcome, put_plain_outcome};
use outcomes::found::find;
use std::alloc::Global;
use terms::{Action, Cells, NoMemory};

impl Plan {
    ghost use Rattle.plans.specs.Plans.{composition};

    // A task of component `i`, if there is one.
    #[inline(always)]
    fn task_at(&self, i: u16, number: u32) -> Option<Task<'_>>
        ensures some { IfSome result (IsTaskOf (composition self.now) i number) }
        ensures none { IfNone result (task_of (composition self.now) i number ≡ []) }
    {
        let Some(component) = self.components.get(i as usize) else {
            return None;
        };
        let Some(automaton) = self.automata.get(component.automaton) else {
            return None;
        };
        let Some(known) = self.known.get(component.automaton) else {
            return None;
        };
        let Some(places) = automaton.tasks.get(number as usize) else {
            return None;
        };
        Some(Task {
            entries: automaton.entries.as_slice(),
            known,
            formals: component.formals.as_slice(),
            places: places.as_slice(),
        })
    }

    /// The enabled actions of a task of component `i`: by the task's entries in order, and within one by the tuples of its
    /// free parameters in type order, the first changing slowest.
    pub fn enabled<C: Cells>(
        &self,
        alloc: Global,
        i: u16,
        task: u32,
        cells: &C,
    ) -> Result<Vec<Action>, NoMemory>
        ensures { IfOk result (λ actions. actions.items
            ≡ enabled_of (composition self.now) i task (C.values cells.now)) }
    {
        match self.task_at(i, task) {
            Some(task) => enabled(alloc, &task, cells),
            None => Ok(Vec::new(alloc)),
        }
    }

    /// The action that a turn takes: the enabled one at `choice` modulo their number, or none (idle) where none is enabled.
    #[inline(always)]
    pub fn outcome<C: Cells>(
        &self,
        alloc: Global,
        i: u16,
        task: u32,
        choice: u32,
        cells: &C,
    ) -> Result<Option<Action>, NoMemory>
        ensures { IfOk result (λ outcome. outcome
            ≡ outcome_of (composition self.now) i task choice (C.values cells.now)) }
    {
        let mut found = None;
        self.outcome_into(alloc, i, task, choice, cells, &mut found)?;
        Ok(found)
    }

    /// The same, put in place of what was found before. A refusal leaves nothing there.
    #[inline(always)]
    pub fn outcome_into<C: Cells>(
        &self,
        alloc: Global,
        i: u16,
        task: u32,
        choice: u32,
        cells: &C,
        found: &mut Option<Action>,
    ) -> Result<(), NoMemory>
        ensures ok { OnOk result (found.new ≡ outcome_of (composition self.now) i task choice
            (C.values cells.now)) }
        ensures err { OnErr result (found.new ≡ None) }
    {
        put_none(found);
        match self.task_at(i, task) {
            Some(task) => put_outcome(alloc, &task, choice, cells, found),
            None => Ok(()),
        }
    }

    /// The same where something may be known of the component's present state. What is found is known from then on.
    #[inline(always)]
    pub fn outcome_known<C: Cells>(
        &self,
        alloc: Global,
        ask: Ask,
        cells: &C,
        memo: &mut Memo,
        found: &mut Option<Action>,
    ) -> Result<(), NoMemory>
        requires memo { IsMemo (composition self.now) ask.component (C.values cells.now) memo.old }
        ensures ok { OnOk result (found.new ≡ outcome_of (composition self.now) ask.component
            ask.task ask.choice (C.values cells.now)) }
        ensures err { OnErr result (found.new ≡ None) }
        ensures memo { IsMemo (composition self.now) ask.component (C.values cells.now) memo.new }
    {
        put_none(found);
        if memo.resting.is_resting(ask.task) {
            return Ok(());
        }
        let Some(task) = self.task_at(ask.component, ask.task) else {
            return Ok(());
        };
        if put_plain_outcome(alloc, &task, ask.choice, cells, found)? {
            if found.is_none() {
                memo.resting.note(ask.task);
            }
            return Ok(());
        }
        self.outcome_found(alloc, ask, cells, memo, found)
    }

    // The same where the task's conditions mention parameters.
    #[inline(never)]
    fn outcome_found<C: Cells>(
        &self,
        alloc: Global,
        ask: Ask,
        cells: &C,
        memo: &mut Memo,
        found: &mut Option<Action>,
    ) -> Result<(), NoMemory>
        requires memo { IsMemo (composition self.now) ask.component (C.values cells.now) memo.old }
        requires none { found.old ≡ None }
        ensures ok { OnOk result (found.new ≡ outcome_of (composition self.now) ask.component
            ask.task ask.choice (C.values cells.now)) }
        ensures err { OnErr result (found.new ≡ None) }
        ensures memo { IsMemo (composition self.now) ask.component (C.values cells.now) memo.new }
    {
        let Some(task) = self.task_at(ask.component, ask.task) else {
            return Ok(());
        };
        if let Some(founds) = memo.founds_of(ask.task) {
            return put_found(alloc, &task, founds, ask.choice, found);
        }
        let founds = find(alloc, &task, cells)?;
        put_found(alloc, &task, founds.as_slice(), ask.choice, found)?;
        if found.is_none() {
            memo.resting.note(ask.task);
        } else {
            memo.keep(ask.task, founds);
        }
        Ok(())
    }
}

// Nothing stands there any more. Most turns are idle, and then nothing stood there.
#[inline(always)]
fn put_none(found: &mut Option<Action>)
    ensures { found.new ≡ None }
{
    if found.is_some() {
        *found = None;
    }
}
