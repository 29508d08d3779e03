//! A task of a component, and what is known of an automaton's entries before the first turn.
use conditions::Condition;
use io_automata::Entry;
use terms::Scalar;

/// What is known of the entries of an automaton before the first turn, by their places.
#[derive(Drop)]
pub struct Known {
    /// How many tuples an entry has, where its condition mentions no parameter of the action; else 0, and for an input.
    pub numbers: Vec<usize>,
    /// The place of the first entry with the same condition.
    pub firsts: Vec<usize>,
    /// The condition solved.
    pub conditions: Vec<Condition>,
}

/// A task of a component: the entries of its automaton, the values of its formals, and the places of the task's entries.
#[derive(Clone, Copy)]
pub struct Task<'a> {
    pub entries: &'a [Entry],
    pub known: &'a Known,
    pub formals: &'a [Scalar],
    pub places: &'a [usize],
}
