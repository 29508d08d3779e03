//! What automata and sources mean. What has a fault inside isn't there.
use crate::component::MeantComponent;
use crate::variables::Cell;
use ioa_entries::Meant;
use ioa_typing::Kind;

/// What an automaton means.
#[derive(Drop)]
pub struct MeantAutomaton {
    pub name: String,
    /// What the types of its formals mean.
    pub formals: Vec<Option<Kind>>,
    /// What it does by each action, in the order of its transitions.
    pub entries: Vec<Meant>,
    /// Its state variables.
    pub cells: Vec<Cell>,
    /// The places of the actions of each task.
    pub tasks: Vec<Vec<usize>>,
}

/// What the composed automaton means.
#[derive(Drop)]
pub struct MeantComposed {
    pub components: Vec<MeantComponent>,
    /// The names of outputs to hide, as they stand in the source.
    pub hidden: Vec<String>,
}

/// What a source means.
#[derive(Drop)]
pub(crate) struct MeantSource {
    pub(crate) members: Vec<String>,
    pub(crate) automata: Vec<MeantAutomaton>,
    pub(crate) components: Vec<MeantComponent>,
    pub(crate) hidden: Vec<String>,
}
