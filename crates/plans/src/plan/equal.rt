//! Plans are equal where their compositions, their texts and their hidden names are.
ghost use Rattle.std.specs.Prelude.{◌≡◌, map, length};
ghost use Rattle.std.specs.List.{list_all, range_with_len, zip};
ghost use Rattle.std.specs.Cmp.{partial_equiv_from_equiv};
ghost use Rattle.terms.specs.SameTrees.{same_term};
ghost use Rattle.io_automata.specs.Automata.{component_at};
ghost use Rattle.plans.specs.Plans.{composition, action_texts, hidden_marks, member_texts, text_of};
ghost use Rattle.io_automata.specs.SameCompositions.{same_transition, same_instance, same_composition, same_texts, same_formals};
ghost use Rattle.plans.specs.SamePlans.{same_text_of, same_mark_of, same_marks, same_plan};
ghost use Rattle.plans.specs.SamePlanLaws.{same_plan_laws};
ghost use lib.Pointwise.{pointwise};

use crate::plan::Plan;
use io_automata::ActionName;

impl PartialEq for Plan {
    ghost eq = { same_plan };

    ghost laws = { partial_equiv_from_equiv same_plan_laws };

    fn eq(&self, other: &Plan) -> bool {
        self.has_components_of(other)
            && self.has_names_of(other)
            && self.has_members_of(other)
            && self.has_marks_of(other)
    }
}

impl Eq for Plan {
    ghost laws = { same_plan_laws };
}

impl Plan {
    fn has_components_of(&self, other: &Plan) -> bool
        ensures { result ≡ same_composition (composition self.now) (composition other.now) }
    {
        self.components() == other.components() && self.has_each_component_of(other)
    }

    fn has_each_component_of(&self, other: &Plan) -> bool
        ensures { result ≡ list_all
            (λ i. same_instance (component_at (composition self.now) i)
            (component_at (composition other.now) i))
            (range_with_len 0 (length (composition self.now))) }
    {
        (0..self.components()).all(|i| self.has_component_of(other, i))
    }

    fn has_component_of(&self, other: &Plan, i: u16) -> bool
        ensures { result ≡ same_instance (component_at (composition self.now) i)
            (component_at (composition other.now) i) }
    {
        self.has_entries_of(other, i)
            && self.has_start_of(other, i)
            && self.has_tasks_of(other, i)
            && self.has_formals_of(other, i)
    }

    fn has_entries_of(&self, other: &Plan, i: u16) -> bool
        ensures { result ≡ pointwise same_transition (component_at (composition self.now) i).entries
            (component_at (composition other.now) i).entries }
    {
        self.entries(i) == other.entries(i)
    }

    fn has_start_of(&self, other: &Plan, i: u16) -> bool
        ensures { result ≡ pointwise same_term (component_at (composition self.now) i).start
            (component_at (composition other.now) i).start }
    {
        self.start_terms(i) == other.start_terms(i)
    }

    fn has_tasks_of(&self, other: &Plan, i: u16) -> bool
        ensures { result ≡ same_texts (component_at (composition self.now) i).tasks
            (component_at (composition other.now) i).tasks }
    {
        self.task_list(i) == other.task_list(i)
    }

    fn has_formals_of(&self, other: &Plan, i: u16) -> bool
        ensures { result ≡ same_formals (component_at (composition self.now) i).formals
            (component_at (composition other.now) i).formals }
    {
        self.formals(i) == other.formals(i)
    }

    fn has_names_of(&self, other: &Plan) -> bool
        ensures { result ≡ same_texts (action_texts self.now) (action_texts other.now) }
    {
        self.actions.len() == other.actions.len()
            && have_same_texts(self.actions.as_slice(), other.actions.as_slice())
    }

    fn has_members_of(&self, other: &Plan) -> bool
        ensures { result ≡ same_texts (member_texts self.now) (member_texts other.now) }
    {
        self.members == other.members
    }

    fn has_marks_of(&self, other: &Plan) -> bool
        ensures { result ≡ same_marks (hidden_marks self.now) (hidden_marks other.now) }
    {
        self.actions.len() == other.actions.len()
            && have_same_marks(self.actions.as_slice(), other.actions.as_slice())
    }
}

fn have_same_texts(names: &[ActionName], others: &[ActionName]) -> bool
    ensures { result ≡ list_all (λ pair. same_text_of pair.0 pair.1) (zip names.now others.now) }
{
    names
        .iter()
        .zip(others.iter())
        .all(|(name, other)| name.text == other.text)
}

fn have_same_marks(names: &[ActionName], others: &[ActionName]) -> bool
    ensures { result ≡ list_all (λ pair. same_mark_of pair.0 pair.1) (zip names.now others.now) }
{
    names
        .iter()
        .zip(others.iter())
        .all(|(name, other)| name.is_hidden == other.is_hidden)
}
