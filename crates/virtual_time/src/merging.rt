//! Turns of two lists put together.
ghost use Rattle.std.specs.Prelude.{List, Option, None, Some, ◌≡◌, ℕ};
ghost use Rattle.std.specs.Option.{option_or};
ghost use Rattle.virtual_time.specs.Exchange.Merged.{put_turns};
ghost use Rattle.virtual_time.specs.Reference.{Falls, Turn, outcome_at};

/// Where keys fall in both lists, and no key is in both, they fall in the lists put together, and each key has the outcome that it had.
pub fn merging_law<A>()
    ensures falls { (turns held : List (Turn A)) → Falls turns → Falls held
        → ((k : ℕ) (outcome : Option A) → outcome_at k turns ≡ Some outcome
        → outcome_at k held ≡ None) → Falls (put_turns turns held) }
    ensures outcomes { (turns held : List (Turn A)) → Falls turns → Falls held
        → ((k : ℕ) (outcome : Option A) → outcome_at k turns ≡ Some outcome
        → outcome_at k held ≡ None) → (k : ℕ)
        → outcome_at k (put_turns turns held) ≡ option_or (outcome_at k turns) (outcome_at k held) }
{}
