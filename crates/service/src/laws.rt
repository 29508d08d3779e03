//! The law of what `run` and `reference` write. Its function does nothing: its contract is the law.
ghost use Rattle.std.specs.Prelude.{ℕ, List};
ghost use Rattle.task_seed.specs.Setups.{plan_of, system};
ghost use Rattle.trace.specs.declared.counted.Counted.{Counted};
ghost use Rattle.trace.specs.Headed.{Behind};
ghost use Rattle.trace.specs.Went.{IsWritten};
ghost use Rattle.workers.specs.Runs.{WroteAllIn};
ghost use Rattle.commands.specs.Simulated.{IsSimulated};

use schedules::laws::turns_are_one;
use std::io::Write;
use task_seed::{Setup, Turns};
use trace::Form;

/// What workers write where they write all, and what the simulator on one thread writes, of one setup and in one form, is one text.
pub fn one_text_law<T: Turns, W: Write, V: Write>(setup: &Setup<T>, form: Form)
    ensures { (a b : Counted W) (c d : Counted V) (count : ℕ)
        → WroteAllIn T.turn_of W.contents setup.now form a b count
        → IsSimulated (plan_of setup.now) (system T.turn_of setup.now) form.lines
        (Behind form.head (IsWritten V.contents c d))
        → (text : List ℕ) × IsWritten W.contents a b text × IsWritten V.contents c d text }
{
    turns_are_one();
}
