//! The rule of a published word, and the two kinds of step that seats do on it.

use atomic_table::{Play, Split, TableRule};

// What a seat has published, and what it read last. No value of it is made.
pub struct Known {
    pub published: u64,
    pub read: u64,
}

// The word is the greatest that any seat has published, and no seat has read more.
pub struct Greatest;

impl TableRule<(), Known, ()> for Greatest {
    ghost use Rattle.gvt.specs.Counts.{known, IsKept};

    ghost holds = { λ _ s. IsKept s.words s.views };

    ghost first = { λ _. known 0 0 };
}

// A seat raises the word.
pub struct Raise;

impl Play<(), Known> for Raise {
    ghost use Rattle.gvt.specs.Counts.{Raises};

    ghost then = { λ s m _ n. Raises s.first m.0 n.0 };
}

// A seat loads the word.
pub struct Load;

impl Play<(), Known> for Load {
    ghost use Rattle.gvt.specs.Counts.{Loads};

    ghost then = { λ _ m found n. Loads found m.0 n.0 };
}

// A further seat, which knows nothing yet.
pub struct Newcomer;

impl Split<Known> for Newcomer {
    ghost use Rattle.gvt.specs.Counts.{known};

    ghost left = { λ v. v };

    ghost right = { λ _. known 0 0 };
}
