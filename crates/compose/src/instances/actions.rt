//! The names of actions, and their numbers.
ghost use Rattle.std.specs.Prelude.{◌≡◌, ◌<◌, ◌^◌, map, length, string_bytes, IfOk, OnErr};
ghost use Rattle.plans.specs.Plans.{mark_of, text_of};
ghost use Rattle.ioa_check.specs.AutomatonViews.{used_names};
ghost use Rattle.ioa_check.specs.Sets.{AreNames};
ghost use Rattle.compose.specs.Instances.{place_in};
ghost use Rattle.compose.specs.Names.{IsRising, is_among};
ghost use Rattle.compose.specs.Tables.{action_signature, entry_signature, table};

use io_automata::ActionName;
use ioa_check::Used;
use std::alloc::{AllocError, Global};
use std::collections::BTreeMap;
use terms::Shape;

/// The set of these names.
pub fn names_in(alloc: Global, names: &[String]) -> Result<Used, AllocError>
    ensures { IfOk result (λ set. AreNames (used_names set) (map string_bytes names.now)) }
{
    let mut set = Used::new(alloc);
    for name in names {
        set.insert(name)?;
    }
    Ok(set)
}

fn action(text: String, parameters: Vec<Shape>, hidden: &Used) -> ActionName
    ensures signature { action_signature result ≡ entry_signature (text, parameters) }
    ensures mark { mark_of result ≡ is_among (used_names hidden.now) (text_of result) }
{
    let is_hidden = hidden.contains(text.as_str());
    ActionName {
        text,
        parameters,
        is_hidden,
    }
}

/// The names of a table, in the order of their numbers, where outputs of the names of a set are hidden.
pub fn actions_of(
    alloc: Global,
    names: BTreeMap<String, Vec<Shape>>,
    hidden: &Used,
) -> Result<Vec<ActionName>, AllocError>
    ensures signatures { IfOk result (λ xs. map action_signature xs.items ≡ table names) }
    ensures rising { IfOk result (λ xs. IsRising (map text_of xs.items)) }
    ensures marks { IfOk result (λ xs. map mark_of xs.items
        ≡ map (is_among (used_names hidden.now)) (map text_of xs.items)) }
{
    let mut actions = Vec::new(alloc);
    for (text, parameters) in names {
        actions.push(action(text, parameters, hidden))?;
    }
    Ok(actions)
}

fn place_of(actions: &[ActionName], name: &str) -> Result<usize, usize>
    requires { IsRising (map text_of actions.now) }
    ensures found { IfOk result (λ i. i ≡ place_in (map text_of actions.now) name.now) }
    ensures bound { IfOk result (λ i. i < length actions.now) }
    ensures absent { OnErr result
        (place_in (map text_of actions.now) name.now ≡ length actions.now) }
{
    actions.binary_search_by(|action| action.text.as_str().cmp(name))
}

/// The number of a name; that of the names where it isn't there.
pub fn number_of(actions: &[ActionName], name: &str) -> u16
    requires few { length actions.now < 2 ^ 16 }
    requires rising { IsRising (map text_of actions.now) }
    ensures { result ≡ place_in (map text_of actions.now) name.now }
{
    match place_of(actions, name) {
        Ok(number) => number as u16,
        Err(_) => actions.len() as u16,
    }
}
