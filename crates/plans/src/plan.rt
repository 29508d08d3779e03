//! A compatible composition.
ghost use Rattle.std.specs.Prelude.{◌<◌, ◌^◌, true, false, vec_len};
ghost use Rattle.io_automata.specs.Automata.{composed};
ghost use Rattle.plans.specs.Known.{AreKnown};
ghost use Rattle.plans.specs.KnownLaws.{are_known_prop};
ghost use Rattle.io_automata.specs.Compatible.{IsCompatible};
ghost use Rattle.patterns.specs.Patterns.{IsIndexed};
ghost use Rattle.io_automata.specs.WellFormed.{IsWellFormed};

mod choose;
mod equal;
mod find;
mod names;
mod parts;
mod signature;
mod step;

use io_automata::{ActionName, Automaton, Component};
use outcomes::Known;
use patterns::Index;

/// A turn of a component: which task of it, and the number by which one of the enabled actions is chosen.
#[derive(Clone, Copy)]
pub struct Ask {
    pub component: u16,
    pub task: u32,
    pub choice: u32,
}

/// A composition of compatible automata. Components are numbered from 0; actions carry the numbers of their names, which
/// are given in the order of the names' bytes; the members of all enumerations are numbered in the order of declaration.
#[derive(Drop)]
pub struct Plan {
    automata: Vec<Automaton>,
    components: Vec<Component>,
    actions: Vec<ActionName>,
    members: Vec<String>,
    index: Box<Index>,
    entries: Box<Index>,
    known: Vec<Known>,
    ghost few: { vec_len components < 2 ^ 16 },
    ghost compatible: { IsCompatible (composed automata.items components.items) },
    ghost formed: { IsWellFormed (composed automata.items components.items) },
    ghost indexed: { ∥ IsIndexed false index.value (composed automata.items components.items) ∥₁ },
    ghost known_all: { AreKnown automata.items known.items } by { are_known_prop automata.items known.items },
    ghost entered: { ∥ IsIndexed true entries.value (composed automata.items components.items) ∥₁ },
}
