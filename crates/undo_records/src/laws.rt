//! What the definitions of this crate say. Each function does nothing: its contract is the law.
ghost use Rattle.std.specs.Prelude.{◌≡◌, List};
ghost use Rattle.std.specs.Bool.{Decides};
ghost use Rattle.terms.specs.Datum.{Datum};
ghost use Rattle.undo_records.specs.First.{same_state};

/// Where `same_state` holds, and only there, two states are the same.
pub fn same_state_law()
    ensures { (a b : List Datum) → Decides (same_state a b) (a ≡ b) }
{}
