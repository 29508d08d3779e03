//! What holds of the meaning of every source without faults, and how large that is at most.
ghost use Rattle.std.specs.Prelude.{◌≡◌, ◌<◌, ◌≤◌, ◌+◌, Bool, List, [], length};
ghost use Rattle.std.specs.List.{All};
ghost use Rattle.ioa_trees.specs.Spelling.{spell, IsSource};
ghost use Rattle.ioa_trees.specs.Trees.{PlainSource};
ghost use Rattle.ioa_trees.specs.SourceRules.{source_faults, source_meaning};
ghost use Rattle.compose.specs.Sound.{IsSoundAutomaton, entries_in};

use ioa_trees::laws::size_law;
use ioa_trees::meant::sources_meant_law;

/// In what a source without faults means, a name stands at most once as an input and at most once as an output or
/// internal action of an automaton; the tasks of an automaton are a partition of what it controls; the parameters of
/// actions are scalar, within the members of the source and within 64 bits with a sign, and those of what is controlled
/// can be listed.
pub fn sources_law()
    ensures sound { (x : PlainSource) → source_faults x ≡ []
        → All (IsSoundAutomaton (length (source_meaning x).members)) (source_meaning x).automata }
{
    sources_meant_law();
}

/// A source has at least as many tokens as it has members, and twice as many as its automata have entries; a source of the grammar has at least as many as one of its automata has tasks.
pub fn sizes_law()
    ensures members { (x : PlainSource) → 0 < length x.automata
        → length (source_meaning x).members ≤ length (spell x) }
    // a tree may hold tasks without names, which have no tokens; the grammar gives none
    ensures tasks { (limited : Bool) (x : PlainSource) → IsSource limited x → 0 < length x.automata
        → All (λ a. length a.tasks ≤ length (spell x)) (source_meaning x).automata }
    ensures entries { (x : PlainSource) → 0 < length x.automata
        → entries_in (source_meaning x).automata + entries_in (source_meaning x).automata
        ≤ length (spell x) }
{
    size_law();
}
