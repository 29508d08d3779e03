//! The turns that a table gives.
ghost use Rattle.std.specs.Prelude.{◌≡◌, ◌≢◌, ℕ, ◌+◌, ◌≤◌, ◌<◌, ◌↔◌, Option, None, Some, List, length, map, filter, IfOk, IfErr, OnOk, IfSome, IfNone, IsTrue, All, slice_get, vec_len, [], ◌∷◌, ◌++◌};
ghost use Rattle.task_seed.specs.Gaps.{all_in_range};
ghost use Rattle.task_seed.specs.declared.table_turns.TableTurnsError.TheVariants.{NoMemory as OutOfMemory};

use crate::table::Row;
use crate::turns::{GREATEST_GAP, Turn, Turns};
use plans::Plan;
use std::alloc::{AllocError, AllocFailed, Global};
use std::marker::{Send, Sync};
use terms::{NoMemory, Refusal};
use thiserror::Error;

/// Why rows aren't turns: the first row with a fault, by the line on which it stands, and the fault
/// of the least number that it has.
#[derive(Clone, Copy, Debug, PartialEq, Eq, Error)]
pub enum TableTurnsError {
    #[error("out of memory")]
    NoMemory,
    /// The gap is above 65,535.
    #[error("line {0}: the gap is out of range")]
    GapOutOfRange(usize),
    /// The component hasn't the task.
    #[error("line {0}: the task is out of range")]
    TaskOutOfRange(usize),
    /// There is no such component.
    #[error("line {0}: there is no such component")]
    NoSuchComponent(usize),
}

impl Refusal for TableTurnsError {
    ghost use Rattle.task_seed.specs.Refusals.{table_turns_number, table_turns_place};

    ghost number_of = { table_turns_number };

    ghost place_of = { table_turns_place };

    fn number(&self) -> u8 {
        match self {
            TableTurnsError::NoMemory => 1,
            TableTurnsError::GapOutOfRange(_) => 27,
            TableTurnsError::TaskOutOfRange(_) => 28,
            TableTurnsError::NoSuchComponent(_) => 30,
        }
    }

    fn place(&self) -> Option<usize> {
        match self {
            TableTurnsError::NoMemory => None,
            TableTurnsError::GapOutOfRange(line)
            | TableTurnsError::TaskOutOfRange(line)
            | TableTurnsError::NoSuchComponent(line) => Some(*line),
        }
    }
}

impl From<NoMemory> for TableTurnsError {
    ghost from_gives = { λ _ e. e ≡ OutOfMemory };

    fn from(_refused: NoMemory) -> TableTurnsError {
        TableTurnsError::NoMemory
    }
}

impl From<AllocError> for TableTurnsError {
    ghost from_gives = { λ _ e. e ≡ OutOfMemory };

    fn from(_refused: AllocError) -> TableTurnsError {
        TableTurnsError::NoMemory
    }
}

impl<T: Drop> From<AllocFailed<T>> for TableTurnsError {
    ghost from_gives = { λ _ e. e ≡ OutOfMemory };

    fn from(_refused: AllocFailed<T>) -> TableTurnsError {
        TableTurnsError::NoMemory
    }
}

/// The turns of a table: those of a component are its rows, in their order.
#[derive(PartialEq, Eq, Drop)]
pub struct TableTurns {
    turns: Vec<Vec<Turn>>,
    ghost in_range: { IsTrue (all_in_range turns.items) },
}

ghost use Rattle.task_seed.specs.Faults.{HasFault, IsFirstFault};
ghost use Rattle.task_seed.specs.Refusals.{table_turns_number, table_turns_place};
ghost use Rattle.task_seed.specs.Rows.{turns_of, turns_at};
ghost use Rattle.plans.specs.Plans.{composition};

// The first fault of a row on a line, in the order of their numbers.
fn check_row(plan: &Plan, row: &Row, line: usize) -> Result<(), TableTurnsError>
    ensures ok { OnOk result ((number : ℕ) → HasFault (composition plan.now) row.now number → ⊥) }
    ensures err { IfErr result
        (λ e. (table_turns_place e ≡ Some line)
        × HasFault (composition plan.now) row.now (table_turns_number e)
        × ((number : ℕ) → HasFault (composition plan.now) row.now number
        → table_turns_number e ≤ number)) }
{
    if row.gap > GREATEST_GAP {
        return Err(TableTurnsError::GapOutOfRange(line));
    }
    let component = match u16::try_from(row.component) {
        Ok(component) if component < plan.components() => component,
        _ => return Err(TableTurnsError::NoSuchComponent(line)),
    };
    if row.task < plan.tasks(component).max(1) {
        Ok(())
    } else {
        Err(TableTurnsError::TaskOutOfRange(line))
    }
}

// The first fault of the rows, the first of which stands on line 1.
fn check_rows(plan: &Plan, rows: &[Row]) -> Result<(), TableTurnsError>
    ensures ok { OnOk result (All
        (λ row. (number : ℕ) → HasFault (composition plan.now) row number → ⊥) rows.now) }
    ensures err { IfErr result
        (λ e. IsFirstFault (composition plan.now) rows.now (table_turns_number e)
        (table_turns_place e)) }
{
    for (k, row) in rows.iter().enumerate() {
        check_row(plan, row, k + 1)?;
    }
    Ok(())
}

// One empty list for each of the components.
fn empty_lists(alloc: Global, count: u16) -> Result<Vec<Vec<Turn>>, AllocError>
    ensures len { IfOk result (λ lists. vec_len lists ≡ count) }
    ensures empty { IfOk result (λ lists. (i : ℕ) → turns_at lists.items i ≡ []) }
{
    let mut lists = Vec::with_capacity(alloc, usize::from(count))?;
    for _ in 0..count {
        lists.push(Vec::new(alloc))?;
    }
    Ok(lists)
}

// Puts the turn of a row at the end of its component's list.
fn add_turn(lists: &mut Vec<Vec<Turn>>, row: &Row) -> Result<(), AllocError>
    requires { row.now.component < vec_len lists.old }
    ensures len { vec_len lists.new ≡ vec_len lists.old }
    ensures added { OnOk result ((i : ℕ) → turns_at lists.new.items i
        ≡ turns_at lists.old.items i ++ turns_of (row.now ∷ []) i) }
{
    lists[row.component as usize].push(Turn {
        gap: row.gap,
        task: row.task,
        choice: row.choice,
    })?;
    Ok(())
}

impl TableTurns {
    ghost use Rattle.std.specs.Prelude.{◌≡◌, ◌≢◌, ℕ, ◌<◌, length, All, IfOk, IfErr, OnOk, slice_get};
    ghost use Rattle.task_seed.specs.declared.table_turns.TableTurnsError.TheVariants.{NoMemory as OutOfMemory};
    ghost use Rattle.plans.specs.Plans.{composition};
    ghost use Rattle.task_seed.specs.Faults.{HasFault, IsFirstFault};
    ghost use Rattle.task_seed.specs.Refusals.{table_turns_number, table_turns_place};
    ghost use Rattle.task_seed.specs.Rows.{turns_of};
    ghost use Rattle.task_seed.specs.Given.{table_turn};

    /// The turns that the rows give to the components of the plan; row `k` stands on line `k + 1`.
    pub fn new(alloc: Global, plan: &Plan, rows: &[Row]) -> Result<TableTurns, TableTurnsError>
        ensures turns { IfOk result (λ t. (i n : ℕ)
            → table_turn t i n ≡ slice_get (turns_of rows.now i) n) }
        ensures sound { OnOk result
            (All (λ row. (number : ℕ) → HasFault (composition plan.now) row number → ⊥) rows.now) }
        ensures refused { IfErr result
            (λ e. e ≢ TableTurnsError.NoMemory
            → IsFirstFault (composition plan.now) rows.now (table_turns_number e)
            (table_turns_place e)) }
    {
        check_rows(plan, rows)?;
        let mut turns = empty_lists(alloc, plan.components())?;
        for row in rows {
            add_turn(&mut turns, row)?;
        }
        Ok(TableTurns { turns })
    }
}

impl Turns for TableTurns {
    ghost use Rattle.task_seed.specs.Given.{table_turn};

    ghost turn_of = { table_turn };

    ghost use Rattle.task_seed.specs.GivenLaws.{table_gap_range, table_alike, table_ended};

    ghost gap_range = { table_gap_range };

    ghost alike = { table_alike };

    ghost ended = { table_ended };

    fn turn(&self, i: u16, n: u64) -> Option<Turn> {
        let turns = self.turns.get(usize::from(i))?;
        turns.get(n as usize).copied()
    }
}
