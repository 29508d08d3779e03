//! What is hunted for.
ghost use Rattle.std.specs.Prelude.{◌≡◌, ◌∷◌, [], ℕ, IfErr, IfNone, IfOk, IfSome};
ghost use Rattle.plans.specs.Plans.{action_texts};
ghost use Rattle.trace.specs.Written.{IsNumberOf};
ghost use Rattle.hunt.specs.Sightings.{does, saw};
ghost use Rattle.hunt.specs.Wanted.{IsUnwanted, IsWanted};

use event_keys::{Outcome, Turned};
use plans::Plan;
use std::alloc::Global;
use terms::Action;
use trace::{TraceError, read_trace};

/// What is hunted for.
#[derive(Drop)]
pub enum Wanted {
    /// Any action with the name of this number.
    Name(u16),
    /// This action.
    Only(Action),
}

impl Wanted {
    // Whether the action is one of those.
    fn does(&self, action: &Action) -> bool
        ensures { result ≡ does self.now action.now }
    {
        match self {
            Wanted::Name(number) => action.name == *number,
            Wanted::Only(wanted) => wanted.cmp(action).is_eq(),
        }
    }

    /// Whether the turn did one of those actions.
    pub fn saw(&self, turned: &Turned) -> bool
        ensures { result ≡ saw self.now turned.now }
    {
        match &turned.outcome {
            Outcome::Idle => false,
            Outcome::Did(action) => self.does(action),
        }
    }
}

// The number of the actions' name that is the text, if there is one.
fn name_number(plan: &Plan, text: &str) -> Option<u16>
    ensures some { IfSome result (IsNumberOf (action_texts plan.now) text.now) }
    ensures none { IfNone result
        ((number : ℕ) → IsNumberOf (action_texts plan.now) text.now number → ⊥) }
{
    let mut number: u16 = 0;
    while let Some(name) = plan.action_name(number) {
        if name.text.as_str() == text {
            return Some(number);
        }
        number = number.checked_add(1)?;
    }
    None
}

/// What a text names: all actions of a name, or one action, as a line of a trace has it.
///
/// # Errors
///
/// `BadLine` where the text is neither, `UnknownAction` where the composition has no such action,
/// both with the line as for a file that is this text, and `NoMemory`. Of more than one action the
/// line is 1.
pub fn read_wanted(alloc: Global, plan: &Plan, text: &str) -> Result<Wanted, TraceError>
    ensures ok { IfOk result (IsWanted plan.now text.now) }
    ensures err { IfErr result (IsUnwanted plan.now text.now) }
{
    if let Some(number) = name_number(plan, text) {
        return Ok(Wanted::Name(number));
    }
    let mut actions = match read_trace(alloc, plan, text.as_bytes()) {
        Ok(actions) => actions,
        Err(refused) => return Err(refused),
    };
    if actions.len() != 1 {
        return Err(TraceError::BadLine(1));
    }
    match actions.pop() {
        Some(action) => Ok(Wanted::Only(action)),
        None => Err(TraceError::BadLine(1)),
    }
}
