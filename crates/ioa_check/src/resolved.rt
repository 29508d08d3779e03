//! What a source means, without names: nothing has to be looked up any more, and nothing is missing.
use ioa_entries::Slot;
use ioa_trees::tree::EntryKind;
use ioa_typing::Kind;
use terms::{Effect, Term};

/// What an automaton does by an action. The parameters of its precondition and of its effect are numbered by their places.
#[derive(Drop)]
pub struct Transition {
    pub kind: EntryKind,
    pub name: String,
    pub parameters: Vec<Slot>,
    pub pre: Term,
    pub effect: Effect,
}

/// A state variable: its kind, and how it starts. A start value speaks of formals and members alone.
#[derive(Drop)]
pub struct Variable {
    pub kind: Kind,
    pub start: Term,
}

/// An automaton that isn't composed.
#[derive(Drop)]
pub struct Automaton {
    pub name: String,
    /// The kinds of its formals.
    pub formals: Vec<Kind>,
    pub transitions: Vec<Transition>,
    pub variables: Vec<Variable>,
    /// The places of the transitions of each task.
    pub tasks: Vec<Vec<usize>>,
}

/// A component of the composed automaton.
#[derive(Drop)]
pub struct Component {
    pub name: String,
    /// The number of its automaton, if there is one of that name.
    pub automaton: Option<usize>,
    /// What is put in each formal; none where the automaton isn't known.
    pub arguments: Vec<Term>,
}

/// What a source means.
#[derive(Drop)]
pub struct Resolved {
    /// The members of all enumerations, numbered from 0.
    pub members: Vec<String>,
    pub automata: Vec<Automaton>,
    pub components: Vec<Component>,
    /// The names of outputs to hide, as they stand in the source; none stands twice.
    pub hidden: Vec<String>,
}
