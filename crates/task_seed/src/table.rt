//! The rows of a table file.
ghost use Rattle.std.specs.Prelude.{◌≡◌, ℕ, map, IfOk, IfSome, IfNone, IsErrOf, Some, All};
ghost use Rattle.task_seed.specs.declared.table.ReadTableError.TheVariants.{NoMemory as OutOfMemory};

use crate::lines::{number, number_before, split_line};
use std::alloc::{AllocError, AllocFailed, Global};
use std::str;
use terms::{NoMemory, Refusal};
use thiserror::Error;

/// A turn of a component, as a line of a table says it.
#[derive(Clone, Copy, PartialEq, Eq)]
pub struct Row {
    pub component: u64,
    pub gap: u32,
    pub task: u32,
    pub choice: u32,
}

/// Why a table isn't read.
#[derive(Clone, Copy, Debug, PartialEq, Eq, Error)]
pub enum ReadTableError {
    #[error("out of memory")]
    NoMemory,
    /// The line, counted from 1, isn't a row.
    #[error("line {0} is no row of a table")]
    BadTable(usize),
}

impl Refusal for ReadTableError {
    ghost use Rattle.task_seed.specs.Refusals.{read_table_number, read_table_place};

    ghost number_of = { read_table_number };

    ghost place_of = { read_table_place };

    fn number(&self) -> u8 {
        match self {
            ReadTableError::NoMemory => 1,
            ReadTableError::BadTable(_) => 29,
        }
    }

    fn place(&self) -> Option<usize> {
        match self {
            ReadTableError::NoMemory => None,
            ReadTableError::BadTable(line) => Some(*line),
        }
    }
}

impl From<NoMemory> for ReadTableError {
    ghost from_gives = { λ _ e. e ≡ OutOfMemory };

    fn from(_refused: NoMemory) -> ReadTableError {
        ReadTableError::NoMemory
    }
}

impl From<AllocError> for ReadTableError {
    ghost from_gives = { λ _ e. e ≡ OutOfMemory };

    fn from(_refused: AllocError) -> ReadTableError {
        ReadTableError::NoMemory
    }
}

impl<T: Drop> From<AllocFailed<T>> for ReadTableError {
    ghost from_gives = { λ _ e. e ≡ OutOfMemory };

    fn from(_refused: AllocFailed<T>) -> ReadTableError {
        ReadTableError::NoMemory
    }
}

ghost use Rattle.task_seed.specs.Table.{lines_of, spelled, IsInRange, IsRow, IsFirstBadLine};

// The row that the text spells.
fn row_of(line: &str) -> Option<Row>
    ensures some { IfSome result (λ row. line.now ≡ spelled row) }
    ensures only { (row : Row) → IsInRange row → line.now ≡ spelled row → result ≡ Some row }
{
    let (component, rest) = number_before(line)?;
    let (gap, rest) = number_before(rest)?;
    let (task, rest) = number_before(rest)?;
    let choice = number(rest)?;
    Some(Row {
        component,
        gap: u32::try_from(gap).ok()?,
        task: u32::try_from(task).ok()?,
        choice: u32::try_from(choice).ok()?,
    })
}

// The row that the bytes spell.
fn read_row(line: &[u8]) -> Option<Row>
    ensures some { IfSome result (λ row. IsInRange row × (line.now ≡ spelled row)) }
    ensures none { IfNone result (IsRow line.now → ⊥) }
{
    match str::from_utf8(line) {
        Ok(text) => row_of(text),
        Err(_) => None,
    }
}

/// Reads a table file: a row a line, its four numbers as they print, one space between them and a
/// line feed after them, which the last line may lack.
pub fn read_table(alloc: Global, bytes: &[u8]) -> Result<Vec<Row>, ReadTableError>
    ensures ok { IfOk result (λ rows. lines_of bytes.now ≡ map spelled rows.items) }
    ensures in_range { IfOk result (λ rows. All IsInRange rows.items) }
    ensures refused { (line : ℕ) → IsErrOf result (ReadTableError.BadTable line)
        → IsFirstBadLine bytes.now line }
{
    let mut rows = Vec::new(alloc);
    let mut rest = bytes;
    while !rest.is_empty() {
        let (line, later) = split_line(rest);
        match read_row(line) {
            Some(row) => rows.push(row)?,
            None => return Err(ReadTableError::BadTable(rows.len() + 1)),
        }
        rest = later;
    }
    Ok(rows)
}
