//! Automata and components, their names resolved to numbers.
ghost use Rattle.std.specs.Prelude.{◌<◌, ◌^◌, vec_len};

mod equal;

use terms::{Effect, Listed, Scalar, Shape, Term};

/// What an automaton does with an action (Lynch, Distributed Algorithms, section 8.1).
#[derive(Clone, Copy, PartialEq, Eq)]
pub enum Kind {
    Input,
    Output,
    Internal,
}

/// A parameter of an entry: the value of a formal (by its number), a member of a type that can be listed, a whole number
/// of a range, or any whole number.
#[derive(Clone, Copy, PartialEq, Eq)]
pub enum Param {
    Const(usize),
    Member(Listed),
    Between(i64, i64),
    Whole,
}

/// An entry of a signature with its transition. It stands for the actions of its name whose arguments fit its parameters.
/// A missing precondition is the term `true`.
#[derive(Drop)]
pub struct Entry {
    pub name: u16,
    pub kind: Kind,
    pub params: Vec<Param>,
    pub pre: Term,
    pub effect: Effect,
}

/// An automaton: its entries, the start values of its variables, and its tasks. A task lists the places of entries, in order.
#[derive(Drop)]
pub struct Automaton {
    pub entries: Vec<Entry>,
    pub start: Vec<Term>,
    pub tasks: Vec<Vec<usize>>,
    ghost few: { vec_len tasks < 2 ^ 32 },
}

/// A component: the number of its automaton and the values of its formals.
#[derive(Drop)]
pub struct Component {
    pub automaton: usize,
    pub formals: Vec<Scalar>,
}

/// The name of an action and the types of its parameters, in which all entries of that name agree; and whether a composition hides
/// outputs of this name.
#[derive(Drop)]
pub struct ActionName {
    pub text: String,
    pub parameters: Vec<Shape>,
    pub is_hidden: bool,
}
