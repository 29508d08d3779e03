//! What holds of the rules.
ghost use Rattle.std.specs.Prelude.{◌≡◌, ℕ, Option, List};
ghost use Rattle.io_automata.specs.Automata.{Instance};
ghost use Rattle.io_automata.specs.Compatible.{IsCompatible};
ghost use Rattle.compose.specs.declared.compatibility.rule.Rule.{Rule as AnyRule};
ghost use Rattle.compose.specs.Rules.{Breaks, IsFirst};
ghost use Rattle.compose.specs.Standings.{stands, IsFirstClash};

/// Components are compatible exactly where none of the rules is broken.
pub fn compatible_law()
    ensures compatible { (composition : List Instance)
        → ((rule : AnyRule) (j : ℕ) → Breaks rule composition j → ⊥) → IsCompatible composition }
    ensures unbroken { (composition : List Instance) → IsCompatible composition
        → (rule : AnyRule) (j : ℕ) → Breaks rule composition j → ⊥ }
{}

/// The first entry that clashes with an earlier one stands in the first component up to which a rule is broken.
pub fn first_law()
    ensures { (rule : AnyRule) (composition : List Instance) (first : Option ℕ)
        → IsFirstClash rule (stands 0 composition) first → IsFirst (Breaks rule composition) first }
{}
