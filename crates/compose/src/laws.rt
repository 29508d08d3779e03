//! What holds of compositions without faults.
ghost use Rattle.std.specs.Prelude.{◌≡◌, ◌≤◌, ◌^◌, ℕ, List, length};
ghost use Rattle.std.specs.List.{All};
ghost use Rattle.ioa_trees.specs.Trees.{Bytes};
ghost use Rattle.ioa_trees.specs.SourceRules.{MeantSource};
ghost use Rattle.compose.specs.Sound.{IsSoundAutomaton};
ghost use Rattle.io_automata.specs.WellFormed.{IsWellFormed};
ghost use Rattle.compose.specs.Rules.{Breaks};
ghost use Rattle.compose.specs.declared.compatibility.rule.Rule.TheVariants as rule;
ghost use Rattle.compose.specs.Instances.{instances};
ghost use Rattle.compose.specs.Names.{AreNames};

/// A source whose automata are sound, and of which no component has an action in two of its own sets, means a well-formed composition.
pub fn formed_law()
    ensures { (m : MeantSource) (names : List Bytes) → AreNames names m
        → All (IsSoundAutomaton (length m.members)) m.automata → length m.members ≤ 2 ^ 16
        → ((j : ℕ) → Breaks rule.Own (instances names m) j → ⊥)
        → IsWellFormed (instances names m) }
{}
