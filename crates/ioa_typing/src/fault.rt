//! Faults of sources.
ghost use Rattle.std.specs.Prelude.{◌≡◌};
ghost use Rattle.ioa_trees.specs.Faults as rule;
ghost use Rattle.ioa_typing.specs.FaultNumbers.{fault_number};
ghost use Rattle.ioa_typing.specs.TermViews.{fault_tree};

/// What is wrong with a source.
#[derive(Clone, Copy, PartialEq, Eq)]
pub enum FaultKind {
    /// A name that means nothing, or not what is asked for here; the head of a transition that no entry has.
    UnknownName,
    /// A name that was declared before.
    DoubleName,
    /// A term, type, argument or head that doesn't fit its place.
    WrongType,
    /// An entry of a signature without a transition.
    NoTransition,
    /// A second transition of one entry.
    DoubleTransition,
    /// A precondition of an input.
    InputWithPre,
    /// An output or internal without a task, or a name in a task that is none or stands in two.
    TasksNotAPartition,
    /// More than a limit allows.
    OverLimit,
}

impl FaultKind {
    /// Its number. Of two faults at one token the one with the lesser number comes first.
    pub fn number(self) -> u8
        ensures { result ≡ fault_number self }
    {
        match self {
            FaultKind::UnknownName => 10,
            FaultKind::DoubleName => 11,
            FaultKind::WrongType => 12,
            FaultKind::NoTransition => 13,
            FaultKind::DoubleTransition => 14,
            FaultKind::InputWithPre => 15,
            FaultKind::TasksNotAPartition => 16,
            FaultKind::OverLimit => 17,
        }
    }
}

/// A fault: the number of the token, and what is wrong there.
#[derive(Clone, Copy, PartialEq, Eq)]
pub struct Fault {
    pub place: u32,
    pub kind: FaultKind,
}

impl Fault {
    /// Whether this fault comes before the other one: at a lesser place, or at the same with a lesser number.
    pub fn is_before(self, other: Fault) -> bool
        ensures { result ≡ rule.is_before (fault_tree self) (fault_tree other) }
    {
        self.place < other.place
            || self.place == other.place && self.kind.number() < other.kind.number()
    }
}
