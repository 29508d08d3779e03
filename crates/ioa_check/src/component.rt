//! What components mean.
use terms::Term;

/// What a component means. An argument that has a fault inside or doesn't fit isn't there.
#[derive(Drop)]
pub struct MeantComponent {
    pub name: String,
    /// The number of its automaton, if a name of one stands there.
    pub automaton: Option<usize>,
    /// What is put in each formal; none where the automaton isn't known.
    pub arguments: Vec<Option<Term>>,
}
