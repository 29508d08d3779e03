//! The plain simulator, which always takes the turn with the least key.
ghost use Rattle.std.specs.Prelude.{List, length, Option, Some, ◌+◌, ◌++◌, ◌<◌, ◌∷◌, ◌^◌, ◌↔◌, ◌≡◌, ◌≤◌, ◌⊎◌, ℕ};
ghost use Rattle.virtual_time.specs.Executions.{IsExecution, schedule};
ghost use Rattle.virtual_time.specs.Entries.{below, number};
ghost use Rattle.virtual_time.specs.Reference.{Falls, IsNext, IsReference, Turn, after, outcome_at, point, reference_below, turns_of};
ghost use Rattle.virtual_time.specs.Machine.{HasCount, Lawful, Machine};
ghost use Rattle.virtual_time.specs.Worlds.{same};

/// The simulator's turns below a bound are a beginning of those below a greater one; below one bound they are determined.
pub fn reference_is_one<S, A>()
    ensures begins { (machine : Machine S A) (b c : ℕ) (turns later_turns : List (Turn A)) → b ≤ c
        → IsReference machine b turns → IsReference machine c later_turns → (extra : List (Turn A))
        × (later_turns ≡ extra ++ turns) }
    ensures same { (machine : Machine S A) (b : ℕ) (turns later_turns : List (Turn A))
        → IsReference machine b turns → IsReference machine b later_turns → turns ≡ later_turns }
{}

/// The simulator has a list of turns below each bound up to the end. It stands in the order of keys, each turn of every component with a
/// key below the bound is in it exactly once and nothing else is, each turn is the one that the joint state before it makes next, and
/// its schedule is a schedule of an execution of joint steps.
pub fn reference_is_complete<S, A>()
    ensures exists { (machine : Machine S A) (b : ℕ) → Lawful machine → b ≤ machine.top
        → IsReference machine b (reference_below machine b) }
    ensures ordered { (machine : Machine S A) (b : ℕ) (turns : List (Turn A)) → Lawful machine
        → IsReference machine b turns → Falls turns }
    ensures all { (machine : Machine S A) (b i m : ℕ) (turns : List (Turn A)) → Lawful machine
        → IsReference machine b turns → b ≤ machine.top → machine.key i m < b → (outcome : Option A)
        × (outcome_at (machine.key i m) turns ≡ Some outcome) }
    ensures only { (machine : Machine S A) (b k : ℕ) (outcome : Option A) (turns : List (Turn A))
        → Lawful machine → IsReference machine b turns → outcome_at k turns ≡ Some outcome → (k < b)
        × ((m : ℕ) × (machine.key (machine.owner k) m ≡ k)) }
    ensures outcomes { (machine : Machine S A) (b : ℕ) (later_turns turns : List (Turn A))
        (turn : Turn A) → IsReference machine b (later_turns ++ turn ∷ turns)
        → IsNext machine (after machine turns) turn }
    ensures schedule { (machine : Machine S A) (b : ℕ) (turns : List (Turn A)) → Lawful machine
        → IsReference machine b turns
        → IsExecution machine (schedule turns) (after machine turns).state }
{}

/// The number of the reference's turns below a bound is the sum, over the components, of the number of the next turn; and that is, of each
/// component, the number of its turns with a key below the bound.
pub fn reference_is_counted<S, A>()
    ensures sum { (machine : Machine S A) (count b : ℕ) → Lawful machine → HasCount machine count
        → b ≤ machine.top → length (reference_below machine b) ≡ turns_of (point machine b) count }
    ensures before { (machine : Machine S A) (b i m : ℕ) → Lawful machine
        → m < (point machine b).next i → machine.key i m < b }
    ensures from { (machine : Machine S A) (b i m : ℕ) → Lawful machine → b ≤ machine.top
        → (point machine b).next i ≤ m → b ≤ machine.key i m }
{}
