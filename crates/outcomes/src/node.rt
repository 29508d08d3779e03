//! Where a walk over the tuples of an entry stands.
use conditions::Stage;
use io_automata::Param;

/// The first parameters have values, and the stages that they decide were asked.
#[derive(Clone, Copy)]
pub struct Node<'a> {
    /// All parameters of the entry, and how many of them have values.
    pub all: &'a [Param],
    pub known: usize,
    /// The stages to come, and which branches are left.
    pub stages: &'a [Stage],
    pub left: &'a [bool],
    /// The place of the first tuple with these values, and how many there are.
    pub from: usize,
    pub count: usize,
}

/// A node at which one branch is left, and its number.
#[derive(Clone, Copy)]
pub struct Lone<'a> {
    pub node: Node<'a>,
    pub branch: usize,
}

/// The values of a parameter that are worth a try, by their places.
#[derive(Clone, Copy)]
pub struct Range {
    pub low: usize,
    pub high: usize,
    /// Whether the tests of the one branch that was asked hold for each of them.
    pub sure: bool,
}
