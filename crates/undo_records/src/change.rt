//! What a write replaced.
ghost use Rattle.std.specs.Prelude.{◌≡◌, true, List, slice_set};
ghost use Rattle.terms.specs.Datum.{Datum};
ghost use Rattle.undo_records.specs.Changes.{covers, restored, unwound};

use terms::Value;

/// The old value of a variable, or of one item of it.
#[derive(Drop)]
pub(crate) enum Change {
    Cell(usize, Value),
    Item(usize, usize, Value),
}

// How many changes back a covered one is looked for: a loop writes few places in turn, and a write has to stay cheap.
const RECENT: usize = 8;

impl Change {
    // Whether it replaced all that a later change did.
    fn covers(&self, later: &Change) -> bool
        ensures { result ≡ covers self.now later.now }
    {
        match self {
            Change::Cell(at, _) => match later {
                Change::Cell(cell, _) => *at == *cell,
                Change::Item(cell, _, _) => *at == *cell,
            },
            Change::Item(at, place, _) => match later {
                Change::Cell(_, _) => false,
                Change::Item(cell, index, _) => *at == *cell && *place == *index,
            },
        }
    }

    // Whether it replaced a cell as a whole.
    #[inline(always)]
    fn covers_cell(&self, cell: usize) -> bool
        ensures { (old : Datum) → result ≡ covers self.now (Change.Cell cell old) }
    {
        match self {
            Change::Cell(at, _) => *at == cell,
            Change::Item(_, _, _) => false,
        }
    }

    /// Whether what it replaced is a sequence or an array.
    #[inline(always)]
    pub(crate) fn has_list(&self) -> bool {
        match self {
            Change::Cell(_, old) => old.is_list(),
            Change::Item(_, _, old) => old.is_list(),
        }
    }

    /// Whether one of the last few changes replaced all that this one did, so that it need not be kept: it is the same whether it
    /// is put back.
    pub(crate) fn is_covered(&self, earlier: &[Change]) -> bool
        ensures { result ≡ true → (state : List Datum)
            → unwound earlier.now (restored self.now state) ≡ unwound earlier.now state }
    {
        let count = earlier.len();
        for at in count.saturating_sub(RECENT)..count {
            if earlier[at].covers(self) {
                return true;
            }
        }
        false
    }
}

/// Whether one of the last few changes replaced a cell as a whole, so that going back needs nothing of what another write of it
/// replaces.
#[inline(always)]
pub(crate) fn is_cell_covered(cell: usize, earlier: &[Change]) -> bool
    ensures { result ≡ true → (old : Datum) (state : List Datum) →
        unwound earlier.now (slice_set state cell old) ≡ unwound earlier.now state }
{
    let count = earlier.len();
    if count == 0 {
        return false;
    }
    for at in count.saturating_sub(RECENT)..count {
        if earlier[at].covers_cell(cell) {
            return true;
        }
    }
    false
}
