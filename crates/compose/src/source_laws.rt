//! What holds of every source text.
ghost use Rattle.std.specs.Prelude.{◌≡◌, ◌≤◌, ◌⊎◌, ℕ, List, take};
ghost use Rattle.plans.specs.declared.plan.Plan.{Plan};
ghost use Rattle.compose.specs.declared.source_error.SourceError.{SourceError};
ghost use Rattle.compose.specs.Composed.{IsComposed, IsRefused, front_bytes};
ghost use Rattle.compose.specs.Refusals.{source_number};

/// Every refusal has the number 1, which is want of memory, or one from 2 to 25, or 36.
pub fn number_law()
    ensures { (e : SourceError) → (source_number e ≡ 1)
        ⊎ (((2 ≤ source_number e) × (source_number e ≤ 25)) ⊎ (source_number e ≡ 36)) }
{}

/// The first bytes of a source, one more than it may have, tell what all of it means, and why it is refused.
pub fn front_law()
    ensures composed { (source : List ℕ) (plan : Plan) → IsComposed (take front_bytes source) plan
        → IsComposed source plan }
    ensures refused { (source : List ℕ) (e : SourceError) → IsRefused (take front_bytes source) e
        → IsRefused source e }
{}
