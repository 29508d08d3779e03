//! The laws of what is read back of written turns. Each function does nothing: its contract is the law.
ghost use Rattle.std.specs.Prelude.{ℕ, ◌++◌, List, None};
ghost use Rattle.std.specs.List.{AllByRecursion};
ghost use Rattle.event_keys.specs.declared.outcome.Turned.{Turned};
ghost use Rattle.virtual_time.specs.Reference.{IsReference};
ghost use Rattle.plans.specs.declared.plan.Plan.{Plan};
ghost use Rattle.compose.specs.Composed.{IsComposed};
ghost use Rattle.task_seed.specs.Machines.{machine};
ghost use Rattle.task_seed.specs.Setups.{plan_of, system};
ghost use Rattle.task_seed.specs.Table.{lines_of};
ghost use Rattle.task_seed.specs.Taken.{turns_of};
ghost use Rattle.schedules.specs.Schedules.{AreAllTurns, KeysFit};
ghost use Rattle.trace.specs.declared.lines.Lines.{Lines};
ghost use Rattle.trace.specs.declared.lines.Lines.TheVariants.{All};
ghost use Rattle.trace.specs.Heads.{head_text};
ghost use Rattle.trace.specs.Lines.{text_of};
ghost use Rattle.trace.specs.OrderedFile.{AreInOrder};
ghost use Rattle.trace.specs.TraceFile.{Gives};
ghost use Rattle.trace.specs.Versions.{GivesFile};
ghost use Rattle.trace.specs.WrittenTurns.{actions_done, shown_turns};
ghost use Rattle.reading_back.specs.Said.{IsSaid, SaysAll};

use compose::laws::formed_law;
use ioa_trees::laws::size_law;
use ioa_trees::meant::sources_meant_law;
use schedules::laws::turns_are_own;
use task_seed::laws::machine_is_lawful;
use task_seed::{Setup, Turns};
use terms::{Action, State};
use trace::laws::{head_law, read_back_law};
use virtual_time::reference::reference_is_complete;

/// The turns of the simulator below a bound are in order: their keys rise, and their components exist. So behind a head the text of all turns,
/// whichever are written, is a trace file that gives the actions of those that are written. Both hold where each action that is done is one of
/// the plan's names with arguments of its types; and that is so of all turns where it is so of each action that a turn of the plan takes.
pub fn order_law<T: Turns>(setup: &Setup<T>)
    ensures order { (turns : List Turned) (b : ℕ)
        → IsReference (machine (system T.turn_of setup.now)) b (turns_of turns) → KeysFit turns
        → AllByRecursion (IsSaid (plan_of setup.now)) turns
        → AreInOrder (plan_of setup.now) None turns }
    ensures reads { (lines : Lines) (turns : List Turned)
        → AreAllTurns (plan_of setup.now) (system T.turn_of setup.now) turns
        → AllByRecursion (IsSaid (plan_of setup.now)) turns
        → GivesFile (plan_of setup.now) (head_text ++ text_of (plan_of setup.now) lines turns)
        (actions_done (shown_turns (plan_of setup.now) lines turns)) }
    ensures said { (turns : List Turned) → SaysAll (plan_of setup.now)
        → AreAllTurns (plan_of setup.now) (system T.turn_of setup.now) turns
        → AllByRecursion (IsSaid (plan_of setup.now)) turns }
{
    machine_is_lawful(setup);
    reference_is_complete::<State, Action>();
    turns_are_own(setup);
    head_law();
}

/// Each action that a turn of the composition of a source takes is one of the plan's names with arguments of its types, so lines can say it.
pub fn said_law()
    ensures said { (source : List ℕ) (plan : Plan) → IsComposed source plan → SaysAll plan }
{
    size_law();
    sources_meant_law();
    formed_law();
}

/// So the text of all turns of the composition of a source is a trace that gives their actions, and behind a head it gives the actions of
/// those that are written, whichever they are.
pub fn written_law<T: Turns>(setup: &Setup<T>)
    ensures file { (source : List ℕ) → IsComposed source (plan_of setup.now)
        → (lines : Lines) (turns : List Turned)
        → AreAllTurns (plan_of setup.now) (system T.turn_of setup.now) turns
        → GivesFile (plan_of setup.now) (head_text ++ text_of (plan_of setup.now) lines turns)
        (actions_done (shown_turns (plan_of setup.now) lines turns)) }
    ensures all { (source : List ℕ) → IsComposed source (plan_of setup.now)
        → (turns : List Turned)
        → AreAllTurns (plan_of setup.now) (system T.turn_of setup.now) turns
        → Gives (plan_of setup.now) (lines_of (text_of (plan_of setup.now) All turns))
        (actions_done turns) }
{
    said_law();
    order_law(setup);
    turns_are_own(setup);
    read_back_law();
}
