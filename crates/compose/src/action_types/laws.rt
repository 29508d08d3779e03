//! What the search finds.
ghost use Rattle.std.specs.Prelude.{[]};
ghost use Rattle.ioa_trees.specs.SourceRules.{MeantSource};
ghost use Rattle.compose.specs.TypedStandings.{stands, first_different};
ghost use Rattle.compose.specs.Types.{TypesDiffer, IsFirst};

/// The first entry with other types than the first of its name stands in the first component with which types differ.
pub fn first_law()
    ensures { (m : MeantSource)
        → IsFirst (TypesDiffer m) (first_different [] (stands m.automata 0 m.components)) }
{}
