//! What has no fault has a meaning.
ghost use Rattle.std.specs.Prelude.{◌≡◌, ℕ, Bool, Some, IsSome, List, []};
ghost use Rattle.ioa_trees.specs.Trees.{PlainType, PlainTerm, PlainInit, PlainDeclared, PlainStatements, PlainParameter, PlainEntry, PlainTransition, PlainAutomaton, PlainSource};
ghost use Rattle.ioa_trees.specs.Kinds.{Kind};
ghost use Rattle.ioa_trees.specs.Scopes.{Scope};
ghost use Rattle.ioa_trees.specs.TypeRules.{kind_of, type_faults};
ghost use Rattle.ioa_trees.specs.TermRules.{judge, faults};
ghost use Rattle.ioa_trees.specs.ValueRules.{put, inner_faults, misfits};
ghost use Rattle.ioa_trees.specs.EffectRules.{in_loop, effects_of, statements_faults};
ghost use Rattle.ioa_trees.specs.EntryRules.{parameters_faults, with_parameters, slots, transition_faults, pre_of};
ghost use Rattle.ioa_trees.specs.AutomatonRules.{body_faults, meaning_of};
ghost use Rattle.ioa_trees.specs.SourceRules.{source_faults, source_meaning};
ghost use Rattle.ioa_trees.specs.Meant.{AllMeant, AllSome, IsWholeAutomaton, IsWholeSource};

/// A type without faults has a kind.
pub fn types_meant_law()
    ensures meant { (s : Scope) → AllMeant s → (at : ℕ) (t : PlainType) → type_faults s at t ≡ []
        → IsSome (kind_of s t) }
{}

/// A term without faults has a meaning, and one with a meaning has no fault.
pub fn terms_meant_law()
    ensures meant { (s : Scope) → AllMeant s → (at : ℕ) (t : PlainTerm) → faults s at t ≡ []
        → IsSome (judge s t) }
    ensures faultless { (s : Scope) (at : ℕ) (t : PlainTerm) → IsSome (judge s t)
        → faults s at t ≡ [] }
{}

/// A value without faults that fits its place has a meaning there.
pub fn values_meant_law()
    ensures meant { (s : Scope) → AllMeant s → (k : Kind) (at place : ℕ) (v : PlainInit)
        → inner_faults s at v ≡ [] → misfits s (Some k) place v ≡ [] → IsSome (put s k v) }
{}

/// Statements without faults have an effect; a scope stays meant in a loop whose type has a kind.
pub fn effects_meant_law()
    ensures scope { (s : Scope) (n : ℕ) (d : PlainDeclared) → AllMeant s → IsSome (kind_of s d.of)
        → AllMeant (in_loop s n d) }
    ensures meant { (s : Scope) → AllMeant s → (n at : ℕ) (ss : PlainStatements)
        → statements_faults s n at ss ≡ [] → IsSome (effects_of s n ss) }
{}

/// Parameters without faults have slots, and the scope stays meant with them; a transition without faults has a precondition and an effect.
pub fn entries_meant_law()
    ensures slots { (s : Scope) → AllMeant s → (c : Bool) (n at : ℕ) (ps : List PlainParameter)
        → parameters_faults s c n at ps ≡ [] → AllSome (slots s n ps) }
    ensures scope { (s : Scope) → AllMeant s → (c : Bool) (n at : ℕ) (ps : List PlainParameter)
        → parameters_faults s c n at ps ≡ [] → AllMeant (with_parameters s n ps) }
    ensures transition { (s : Scope) → AllMeant s
        → (entries : List PlainEntry) (before : List PlainTransition) (at : ℕ) (t : PlainTransition)
        → transition_faults s entries before at t ≡ [] → IsSome (pre_of s t.pre)
        × IsSome (effects_of s 0 t.eff) }
{}

/// Of the meaning of an automaton without faults no part is missing.
pub fn automata_meant_law()
    ensures meant { (s : Scope) → AllMeant s → (at : ℕ) (a : PlainAutomaton)
        → body_faults s at a ≡ [] → IsWholeAutomaton (meaning_of s a) }
{}

/// Of the meaning of a source without faults no part is missing, but for the automata of components that aren't known.
pub fn sources_meant_law()
    ensures meant { (x : PlainSource) → source_faults x ≡ [] → IsWholeSource (source_meaning x) }
{}
