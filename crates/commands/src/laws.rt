//! The law of tables. Its function does nothing: its contract is the law.
ghost use Rattle.std.specs.Prelude.{ℕ, List};
ghost use Rattle.task_seed.specs.Table.{IsFirstBadLine};
ghost use Rattle.task_seed.specs.declared.table.Row.{Row};
ghost use Rattle.commands.specs.Tables.{AreRows};

/// A table whose lines are rows has no bad line: none that is accepted, or refused for a row's fault, could be refused for a line.
pub fn table_law()
    ensures { (table : List ℕ) (rows : List Row) (line : ℕ)
        → AreRows table rows → IsFirstBadLine table line → ⊥ }
{}
