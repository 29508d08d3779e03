//! What a name may mean.

use crate::kind::Kind;

/// What a name may mean. A type, formal, variable, parameter or loop variable has a kind, unless its type means nothing.
#[derive(Drop)]
pub enum Meaning {
    Type(Option<Kind>),
    /// Its number among all members, the number of the first one of its enumeration, and how many that has.
    Member(u16, u16, u16),
    /// The number of an automaton.
    Automaton(usize),
    /// The number of a formal.
    Formal(usize, Option<Kind>),
    /// The number of a state variable.
    Variable(usize, Option<Kind>),
    /// The place among the parameters of the action.
    Parameter(usize, Option<Kind>),
    /// How many loops are around the loop.
    Loop(usize, Option<Kind>),
}
