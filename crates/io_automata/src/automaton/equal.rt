//! Entries are equal where their transitions are.
ghost use Rattle.std.specs.Cmp.{partial_equiv_from_equiv};
ghost use Rattle.io_automata.specs.SameCompositions.{same_entry};
ghost use Rattle.io_automata.specs.SameLaws.{same_entry_laws};

use crate::automaton::Entry;

impl PartialEq for Entry {
    ghost eq = { same_entry };

    ghost laws = { partial_equiv_from_equiv same_entry_laws };

    fn eq(&self, other: &Entry) -> bool {
        self.name == other.name
            && self.kind == other.kind
            && self.params == other.params
            && self.pre == other.pre
            && self.effect == other.effect
    }
}

impl Eq for Entry {
    ghost laws = { same_entry_laws };
}
