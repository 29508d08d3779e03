//! The parts of a component.
ghost use Rattle.std.specs.Prelude.{◌≡◌, map, length};
ghost use Rattle.io_automata.specs.Automata.{component_at, transition_of, items_in};

use crate::plan::Plan;
use io_automata::{Automaton, Entry};
use terms::{Scalar, Term};

#[tactic(auto, using(crate::specs::Plans::component_found))]
impl Plan {
    ghost use Rattle.std.specs.Prelude.{slice_get, option_copied};
    ghost use Rattle.std.specs.Option.{option_map};
    ghost use Rattle.plans.specs.Plans.{composition, automaton_in};
    ghost use Rattle.io_automata.specs.Outcomes.{task_count};
    ghost use Rattle.terms.specs.TermTree.{term_tree};

    fn automaton(&self, i: u16) -> Option<&Automaton>
        ensures { option_copied result
            ≡ automaton_in self.now.automata.items (slice_get self.now.components.items i) }
    {
        match self.components.get(i as usize) {
            Some(component) => self.automata.get(component.automaton),
            None => None,
        }
    }

    /// The entries of the signature of component `i`, with their transitions; none where there is no such component.
    pub fn entries(&self, i: u16) -> &[Entry]
        ensures { (component_at (composition self.now) i).entries ≡ map transition_of result.now }
    {
        match self.automaton(i) {
            Some(automaton) => automaton.entries.as_slice(),
            None => &[],
        }
    }

    /// The values of the formals of component `i`; none where there is no such component.
    pub fn formals(&self, i: u16) -> &[Scalar]
        ensures { (component_at (composition self.now) i).formals ≡ result.now }
    {
        match self.components.get(i as usize) {
            Some(component) => component.formals.as_slice(),
            None => &[],
        }
    }

    pub(super) fn start_terms(&self, i: u16) -> &[Term]
        ensures { (component_at (composition self.now) i).start ≡ map term_tree result.now }
    {
        match self.automaton(i) {
            Some(automaton) => automaton.start.as_slice(),
            None => &[],
        }
    }

    pub(super) fn task_list(&self, i: u16) -> &[Vec<usize>]
        ensures { (component_at (composition self.now) i).tasks ≡ map items_in result.now }
    {
        match self.automaton(i) {
            Some(automaton) => automaton.tasks.as_slice(),
            None => &[],
        }
    }

    /// The number of components.
    pub fn components(&self) -> u16
        ensures { result ≡ length (composition self.now) }
    {
        self.components.len() as u16
    }

    /// The number of tasks of component `i`.
    pub fn tasks(&self, i: u16) -> u32
        ensures { result ≡ task_count (composition self.now) i }
    {
        match self.automaton(i) {
            Some(automaton) => automaton.tasks.len() as u32,
            None => 0,
        }
    }
}
