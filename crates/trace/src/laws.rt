//! That a file of actions or of steps says one thing, and that what is written is read back.
ghost use Rattle.std.specs.Prelude.{◌≡◌, ◌≢◌, ◌++◌, ℕ, List, None};
ghost use Rattle.std.specs.List.{AllByRecursion};
ghost use Rattle.event_keys.specs.declared.outcome.Turned.{Turned};
ghost use Rattle.terms.specs.Named.{Named};
ghost use Rattle.plans.specs.declared.plan.Plan.{Plan};
ghost use Rattle.task_seed.specs.Table.{lines_of};
ghost use Rattle.event_keys.specs.declared.step.Step.{Step};
ghost use Rattle.trace.specs.declared.fault.TraceError.{TraceError};
ghost use Rattle.trace.specs.declared.fault.TraceError.TheVariants.{NoMemory};
ghost use Rattle.trace.specs.declared.lines.Lines.{Lines};
ghost use Rattle.trace.specs.declared.lines.Lines.TheVariants.{All};
ghost use Rattle.trace.specs.Heads.{head_text};
ghost use Rattle.trace.specs.Lines.{text_of};
ghost use Rattle.trace.specs.OrderedFile.{AreInOrder};
ghost use Rattle.trace.specs.StepFile.{GivesSteps, IsStepsFault};
ghost use Rattle.trace.specs.StepLines.{StepLine, step_text, IsStepLine};
ghost use Rattle.trace.specs.TraceFile.{Gives, IsTraceFault};
ghost use Rattle.trace.specs.Versions.{GivesFile, HasFault};
ghost use Rattle.trace.specs.Written.{Line, line_text, IsLine};
ghost use Rattle.trace.specs.WrittenTurns.{IsTurn, actions_done, shown_turns};

/// A text is that of one line, lines give one list of actions, a file that gives actions has no fault, and a file has one
/// fault at most, beside the want of memory.
pub fn one_reading_law()
    ensures line { (plan : Plan) (line other : Line) → IsLine plan line → IsLine plan other
        → line_text plan line ≡ line_text plan other → line ≡ other }
    ensures actions { (plan : Plan) (texts : List (List ℕ)) (actions others : List Named)
        → Gives plan texts actions → Gives plan texts others → actions ≡ others }
    ensures apart { (plan : Plan) (bytes : List ℕ) (actions : List Named) (error : TraceError)
        → Gives plan (lines_of bytes) actions → IsTraceFault plan bytes error → error ≡ NoMemory }
    ensures fault { (plan : Plan) (bytes : List ℕ) (error other : TraceError) → error ≢ NoMemory
        → other ≢ NoMemory → IsTraceFault plan bytes error → IsTraceFault plan bytes other
        → error ≡ other }
{}

/// A text is that of one line of steps, lines give one list of steps, a file that gives steps has no fault, and a file has
/// one fault at most, beside the want of memory.
pub fn one_step_reading_law()
    ensures line { (plan : Plan) (line other : StepLine) → IsStepLine plan line
        → IsStepLine plan other → step_text plan line ≡ step_text plan other → line ≡ other }
    ensures steps { (plan : Plan) (texts : List (List ℕ)) (steps others : List Step)
        → GivesSteps plan texts steps → GivesSteps plan texts others → steps ≡ others }
    ensures apart { (plan : Plan) (bytes : List ℕ) (steps : List Step) (error : TraceError)
        → GivesSteps plan (lines_of bytes) steps → IsStepsFault plan bytes error
        → error ≡ NoMemory }
    ensures fault { (plan : Plan) (bytes : List ℕ) (error other : TraceError) → error ≢ NoMemory
        → other ≢ NoMemory → IsStepsFault plan bytes error → IsStepsFault plan bytes other
        → error ≡ other }
{}

/// The text of turns, as [`write_turns`](crate::write_turns) writes all of them, is a trace that gives their actions.
pub fn read_back_law()
    ensures { (plan : Plan) (turns : List Turned) → AllByRecursion (IsTurn plan) turns
        → Gives plan (lines_of (text_of plan All turns)) (actions_done turns) }
{}

/// A trace file, of either version, gives one list of actions; one that gives actions has no fault; and one has one fault
/// at most, beside the want of memory. Lines that give actions in any order give them as a file.
pub fn one_file_law()
    ensures actions { (plan : Plan) (bytes : List ℕ) (actions others : List Named)
        → GivesFile plan bytes actions → GivesFile plan bytes others → actions ≡ others }
    ensures apart { (plan : Plan) (bytes : List ℕ) (actions : List Named) (error : TraceError)
        → GivesFile plan bytes actions → HasFault plan bytes error → error ≡ NoMemory }
    ensures fault { (plan : Plan) (bytes : List ℕ) (error other : TraceError)
        → error ≢ NoMemory → other ≢ NoMemory
        → HasFault plan bytes error → HasFault plan bytes other → error ≡ other }
    ensures any_order { (plan : Plan) (bytes : List ℕ) (actions : List Named)
        → Gives plan (lines_of bytes) actions → GivesFile plan bytes actions }
{}

/// The text of turns after a head, whichever of them are written, is a trace file that gives the actions of those that are
/// written, and so it has no fault, if their components exist and their keys rise.
pub fn head_law()
    ensures read_back { (plan : Plan) (lines : Lines) (turns : List Turned)
        → AreInOrder plan None turns
        → GivesFile plan (head_text ++ text_of plan lines turns)
        (actions_done (shown_turns plan lines turns)) }
    ensures in_order { (plan : Plan) (lines : Lines) (turns : List Turned) (error : TraceError)
        → AreInOrder plan None turns
        → HasFault plan (head_text ++ text_of plan lines turns) error → error ≡ NoMemory }
{}
