//! The texts of actions and members.
ghost use Rattle.std.specs.Prelude.{◌≡◌, slice_get, option_copied};

use crate::plan::Plan;
use io_automata::ActionName;

impl Plan {
    ghost use Rattle.std.specs.Option.{option_map};
    ghost use Rattle.plans.specs.Plans.{action_texts, action_types, hidden_marks, hides, mark_of, member_texts, text_of, types_of};

    /// The name of an action and the types of its parameters, by the name's number, and whether outputs of this name are hidden.
    pub fn action_name(&self, name: u16) -> Option<&ActionName>
        ensures text { option_map text_of (option_copied result)
            ≡ slice_get (action_texts self.now) name }
        ensures types { option_map types_of (option_copied result)
            ≡ slice_get (action_types self.now) name }
        ensures marks { option_map mark_of (option_copied result)
            ≡ slice_get (hidden_marks self.now) name }
    {
        self.actions.get(name as usize)
    }

    /// Whether outputs of a name are hidden, by its number; they aren't where no name has it.
    #[inline(always)]
    pub(super) fn hides(&self, name: u16) -> bool
        ensures { result ≡ hides self.now name }
    {
        match self.action_name(name) {
            Some(found) => found.is_hidden,
            None => false,
        }
    }

    /// The text of a member of an enumeration, by its number.
    pub fn member_name(&self, member: u16) -> Option<&str>
        ensures { option_copied result ≡ slice_get (member_texts self.now) member }
    {
        match self.members.get(member as usize) {
            Some(text) => Some(text.as_str()),
            None => None,
        }
    }
}
