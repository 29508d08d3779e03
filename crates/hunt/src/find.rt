//! What a hunt finds.
ghost use Rattle.std.specs.Prelude.{◌≡◌, ◌≤◌, ℕ, true};
ghost use Rattle.hunt.specs.Hunts.{IsPart};
ghost use Rattle.hunt.specs.Seeds.{Hunted};

/// A seed whose schedule has the action.
#[derive(Drop)]
pub(crate) struct Find {
    pub(crate) seed: u64,
    /// The line of the seed, and those of its turns up to the first that did the action.
    pub(crate) text: Vec<u8>,
}

/// What is asked of a range of seeds.
#[derive(Clone, Copy)]
pub(crate) enum Aim {
    /// The least seed whose schedule has the action.
    Least,
    /// How many seeds have it.
    Count,
}

/// What a look at a range of seeds came to.
#[derive(Drop)]
pub(crate) enum Part {
    /// The least of them whose schedule has the action.
    Found(Find),
    /// None has it.
    Nothing,
    /// They weren't all looked at, since a lesser seed was found elsewhere.
    GivenUp,
    /// So many have it.
    Counted(u64),
}

/// A part of a range that a worker took, and what came of it.
#[derive(Drop)]
pub(crate) struct Taken {
    pub(crate) from: u64,
    pub(crate) end: u64,
    pub(crate) part: Part,
}

impl Aim {
    /// What comes of no seeds.
    pub(crate) fn of_none(self) -> Part
        ensures { (h : Hunted) (from end : ℕ) → end ≤ from → IsPart h from end result }
    {
        match self {
            Aim::Least => Part::Nothing,
            Aim::Count => Part::Counted(0),
        }
    }
}

impl Part {
    /// Whether greater seeds change nothing of it.
    pub(crate) fn is_over(&self) -> bool
        ensures { result ≡ true → (h : Hunted) (from middle end : ℕ) → middle ≤ end
            → IsPart h from middle self.now → IsPart h from end self.now }
    {
        match self {
            Part::Found(_) | Part::GivenUp => true,
            Part::Nothing | Part::Counted(_) => false,
        }
    }
}

// What came of two ranges of which so many have the action.
fn sum(low: u64, high: Part) -> Part
    ensures { (h : Hunted) (from middle end : ℕ) → from ≤ middle → middle ≤ end
        → IsPart h from middle (Part.Counted low) → IsPart h middle end high
        → IsPart h from end result }
{
    let Part::Counted(high) = high else {
        return Part::GivenUp;
    };
    match low.checked_add(high) {
        Some(count) => Part::Counted(count),
        None => Part::GivenUp,
    }
}

/// What came of two ranges, of which the second begins where the first ends. They were asked the same.
pub(crate) fn merged(low: Part, high: Part) -> Part
    ensures { (h : Hunted) (from middle end : ℕ) → from ≤ middle → middle ≤ end
        → IsPart h from middle low → IsPart h middle end high → IsPart h from end result }
{
    match low {
        Part::Found(find) => Part::Found(find),
        Part::Nothing => after_none(high),
        Part::GivenUp => Part::GivenUp,
        Part::Counted(count) => sum(count, high),
    }
}

// What came of a range behind one of which no seed has the action.
fn after_none(high: Part) -> Part
    ensures { (h : Hunted) (from middle end : ℕ) → from ≤ middle → middle ≤ end
        → IsPart h from middle Part.Nothing → IsPart h middle end high
        → IsPart h from end result }
{
    match high {
        Part::Counted(_) => Part::GivenUp,
        Part::Found(find) => Part::Found(find),
        Part::Nothing => Part::Nothing,
        Part::GivenUp => Part::GivenUp,
    }
}
