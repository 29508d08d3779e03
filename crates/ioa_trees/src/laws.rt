//! What holds of the rules.
ghost use Rattle.std.specs.Prelude.{◌≡◌, ◌<◌, ◌+◌, ℕ, pos, neg_ℤ, if◌then◌else◌, Some, None, List, [], ◌∷◌, ◌++◌, length, take, drop};
ghost use Rattle.ioa_tokens.specs.declared.Word.TheVariants as w;
ghost use Rattle.ioa_tokens.specs.Tokens.{Name, Key};
ghost use Rattle.ioa_trees.specs.declared.tree.Signed.{Signed};
ghost use Rattle.ioa_trees.specs.Nodes.{yield, yields};
ghost use Rattle.ioa_trees.specs.Spelling.{type_node, node, init_node, statement_node, statements_node, formal_node, parameter_node, entry_node, variable_node, transition_node, task_node, basic_node, component_node, composed_nodes, type_definition_node, spell};
ghost use Rattle.ioa_trees.specs.Trees.{Bytes, PlainType, PlainTerm, PlainInit, PlainDeclared, PlainStatement, PlainParameter, PlainEntry, PlainVariable, PlainTransition, PlainAutomaton, PlainComponent, Same, Enumeration, PlainTypeDefinition, PlainSource};
ghost use Rattle.ioa_trees.specs.Faults.{Fault, IsLeast, keep};
ghost use Rattle.ioa_trees.specs.Kinds.{whole_number, number};
ghost use Rattle.ioa_trees.specs.Sizes.{type_size, size, init_size, name_size, declared_size, parameter_size, statement_size, statements_size, entry_size, variable_size, pre_size, transition_size, task_size, automaton_size, component_size, composed_size, definition_size, behind, row_size};
ghost use Rattle.ioa_trees.specs.Places.{automaton_tokens};
ghost use Rattle.ioa_trees.specs.AutomatonRules.{signature_at, states_at, transitions_at, tasks_at};
ghost use Rattle.ioa_trees.specs.SourceRules.{definitions_size, automata_size, composed_at, hidden_at};

/// A number below 2^63 is meant as it is written.
pub fn number_law()
    ensures plain { (n : ℕ) → n < 9223372036854775808 → whole_number n ≡ pos n }
    ensures signed { (s : Signed) → s.size < 9223372036854775808
        → number s ≡ (if s.is_negative then neg_ℤ (pos s.size) else pos s.size) }
{}

/// The least fault so far, kept over a list, is the least of the list; none is kept only where there is none.
pub fn least_law()
    ensures least { (fs : List Fault) (f : Fault) → keep None fs ≡ Some f → IsLeast f fs }
    ensures none { (fs : List Fault) → keep None fs ≡ None → fs ≡ [] }
{}

/// The sizes of parts are the numbers of their tokens.
pub fn size_law()
    ensures types { (t : PlainType) → length (yield (type_node t)) ≡ type_size t }
    ensures terms { (t : PlainTerm) → length (yield (node t)) ≡ size t }
    ensures values { (v : PlainInit) → length (yield (init_node v)) ≡ init_size v }
    ensures statements { (a : PlainStatement)
        → length (yield (statement_node a)) ≡ statement_size a }
    ensures entries { (e : PlainEntry) → length (yield (entry_node e)) ≡ entry_size e }
    ensures transitions { (t : PlainTransition)
        → length (yield (transition_node t)) ≡ transition_size t }
    // its word and its name stand before it
    ensures automata { (a : PlainAutomaton) → length (yield (basic_node a)) + 2 ≡ automaton_size a }
    ensures components { (c : PlainComponent)
        → length (yield (component_node c)) ≡ component_size c }
    ensures definitions { (d : PlainTypeDefinition)
        → length (yield (type_definition_node d)) ≡ definition_size d }
    // before the composed automaton stand as many tokens as its place says
    ensures whole { (x : PlainSource) → 0 < length x.automata
        → drop (composed_at x) (spell x)
        ≡ Key w.Automaton ∷ (Name x.composed.name ∷ yields (composed_nodes x.composed)) }
    ensures all { (x : PlainSource) → 0 < length x.automata
        → length (spell x) ≡ composed_at x + composed_size x.composed }
{}

/// The parts of a source stand at the places that their sizes give.
pub fn place_law()
    ensures definitions { (x : PlainSource) (before after : List PlainTypeDefinition)
        (d : PlainTypeDefinition) → x.types ≡ before ++ d ∷ after
        → take (definition_size d) (drop (definitions_size before) (spell x))
        ≡ yield (type_definition_node d) }
    ensures automata { (x : PlainSource) (before after : List PlainAutomaton) (a : PlainAutomaton)
        → x.automata ≡ before ++ a ∷ after
        → take (automaton_size a) (drop (definitions_size x.types + automata_size before) (spell x))
        ≡ automaton_tokens a }
    ensures components { (x : PlainSource) (before after : List PlainComponent) (c : PlainComponent)
        → 0 < length x.automata → x.composed.components ≡ before ++ c ∷ after
        → take (component_size c)
        (drop (composed_at x + 3 + behind component_size before) (spell x))
        ≡ yield (component_node c) }
    ensures hidden { (x : PlainSource) (before after : List Bytes) (q : Bytes)
        → 0 < length x.automata → x.composed.hidden ≡ before ++ q ∷ after
        → take 1 (drop (hidden_at (composed_at x) x.composed + behind name_size before) (spell x))
        ≡ Name q ∷ [] }
{}

/// The parts of an automaton stand at the places that the rules give them, from its word on.
pub fn inside_law()
    ensures formals { (a : PlainAutomaton) (before after : List PlainDeclared) (d : PlainDeclared)
        → a.formals ≡ before ++ d ∷ after
        → take (declared_size d) (drop (3 + behind declared_size before) (automaton_tokens a))
        ≡ yield (formal_node d) }
    ensures entries { (a : PlainAutomaton) (before after : List PlainEntry) (e : PlainEntry)
        → a.entries ≡ before ++ e ∷ after
        → take (entry_size e)
        (drop (signature_at 0 a + 1 + row_size entry_size before) (automaton_tokens a))
        ≡ yield (entry_node e) }
    ensures variables { (a : PlainAutomaton) (before after : List PlainVariable) (v : PlainVariable)
        → a.variables ≡ before ++ v ∷ after
        → take (variable_size v)
        (drop (states_at 0 a + 1 + behind variable_size before) (automaton_tokens a))
        ≡ yield (variable_node v) }
    ensures transitions { (a : PlainAutomaton) (before after : List PlainTransition)
        (t : PlainTransition) → a.transitions ≡ before ++ t ∷ after
        → take (transition_size t)
        (drop (transitions_at 0 a + 1 + row_size transition_size before) (automaton_tokens a))
        ≡ yield (transition_node t) }
    ensures tasks { (a : PlainAutomaton) (before after : List (List Bytes)) (t : List Bytes)
        → a.tasks ≡ before ++ t ∷ after
        → take (task_size t)
        (drop (tasks_at 0 a + 1 + row_size task_size before) (automaton_tokens a))
        ≡ yield (task_node t) }
{}

/// The parts of definitions, entries, variables, transitions and components stand at the places that the rules give them.
pub fn part_law()
    ensures same { (d : PlainTypeDefinition) (t : PlainType) → d.body ≡ Same t
        → drop 3 (yield (type_definition_node d)) ≡ yield (type_node t) }
    ensures members { (d : PlainTypeDefinition) (before after : List Bytes) (q : Bytes)
        → d.body ≡ Enumeration (before ++ q ∷ after)
        → take 1 (drop (5 + behind name_size before) (yield (type_definition_node d))) ≡ Name q
        ∷ [] }
    ensures parameters { (e : PlainEntry) (before after : List PlainParameter) (p : PlainParameter)
        → e.parameters ≡ before ++ p ∷ after
        → take (parameter_size p) (drop (3 + behind parameter_size before) (yield (entry_node e)))
        ≡ yield (parameter_node p) }
    ensures starts { (v : PlainVariable)
        → drop (type_size v.declared.of + 3) (yield (variable_node v)) ≡ yield (init_node v.start) }
    ensures preconditions { (t : PlainTransition) (p : PlainTerm) → t.pre ≡ Some p
        → take (size p) (drop (entry_size t.entry + 1) (yield (transition_node t)))
        ≡ yield (node p) }
    ensures effects { (t : PlainTransition)
        → take (statements_size t.eff)
        (drop (entry_size t.entry + pre_size t.pre + 1) (yield (transition_node t)))
        ≡ yield (statements_node t.eff) }
    ensures arguments { (c : PlainComponent) (before after : List PlainTerm) (t : PlainTerm)
        → c.arguments ≡ before ++ t ∷ after
        → take (size t) (drop (4 + behind size before) (yield (component_node c)))
        ≡ yield (node t) }
{}
