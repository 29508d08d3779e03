//! The heads of entries and transitions: kind, name and parameters, compared token for token.
ghost use Rattle.std.specs.Prelude.{◌≡◌, bytes_eq, find, map, option_copied, option_map, string_bytes};
ghost use Rattle.std.specs.List.{list_any};
ghost use Rattle.ioa_trees.specs.Trees.{Named, Range};
ghost use Rattle.ioa_trees.specs.Views.{view_entry, view_parameter, view_transition, view_type};
ghost use Rattle.ioa_trees.specs.EntryRules as rule;
ghost use Rattle.ioa_entries.specs.TaskNames.{task_names};

use ioa_trees::tree::{Entry, EntryKind, Parameter, Signed, Transition, TypeTree};

/// Whether an action of this kind is an input.
pub fn is_input(kind: EntryKind) -> bool
    ensures { result ≡ rule.is_input kind }
{
    match kind {
        EntryKind::Input => true,
        EntryKind::Output => false,
        EntryKind::Internal => false,
    }
}

/// Whether the automaton controls actions of this kind.
pub fn is_controlled(kind: EntryKind) -> bool
    ensures { result ≡ rule.is_controlled kind }
{
    !is_input(kind)
}

/// Whether two kinds of actions are one.
pub fn same_kind(a: EntryKind, b: EntryKind) -> bool
    ensures { result ≡ rule.same_kind a b }
{
    match a {
        EntryKind::Input => matches!(b, EntryKind::Input),
        EntryKind::Output => matches!(b, EntryKind::Output),
        EntryKind::Internal => matches!(b, EntryKind::Internal),
    }
}

/// Whether two entries have one kind and one name.
pub fn agrees(a: &Entry, b: &Entry) -> bool
    ensures { result ≡ rule.agrees (view_entry a.now) (view_entry b.now) }
{
    same_kind(a.kind, b.kind) && a.name == b.name
}

/// Whether a name stands twice as an input, or twice as an output or internal.
pub fn clashes(a: &Entry, b: &Entry) -> bool
    ensures { result ≡ rule.clashes (view_entry a.now) (view_entry b.now) }
{
    a.name == b.name
        && (is_input(a.kind) && is_input(b.kind) || is_controlled(a.kind) && is_controlled(b.kind))
}

fn same_signed(a: Signed, b: Signed) -> bool
    ensures { result ≡ rule.same_signed a b }
{
    a.is_negative == b.is_negative && a.size == b.size
}

fn is_range(of: &TypeTree, low: Signed, high: Signed) -> bool
    ensures { result ≡ rule.same_type (Range low high) (view_type of.now) }
{
    match of {
        TypeTree::Range(least, greatest) => same_signed(low, *least)
            && same_signed(high, *greatest),
        TypeTree::Bool => false,
        TypeTree::Int => false,
        TypeTree::Named(_) => false,
        TypeTree::Seq(_, _) => false,
        TypeTree::Array(_, _) => false,
    }
}

fn is_named(of: &TypeTree, name: &String) -> bool
    ensures { result ≡ rule.same_type (Named (string_bytes name.now)) (view_type of.now) }
{
    match of {
        TypeTree::Named(other) => name == other,
        TypeTree::Bool => false,
        TypeTree::Int => false,
        TypeTree::Range(_, _) => false,
        TypeTree::Seq(_, _) => false,
        TypeTree::Array(_, _) => false,
    }
}

/// Whether two types have the same tokens.
pub fn same_type(a: &TypeTree, b: &TypeTree) -> bool
    ensures { result ≡ rule.same_type (view_type a.now) (view_type b.now) }
{
    match a {
        TypeTree::Bool => matches!(b, TypeTree::Bool),
        TypeTree::Int => matches!(b, TypeTree::Int),
        TypeTree::Range(low, high) => is_range(b, *low, *high),
        TypeTree::Named(name) => is_named(b, name),
        TypeTree::Seq(item, most) => match b {
            TypeTree::Seq(other, many) => same_type(item, other) && most == many,
            TypeTree::Bool => false,
            TypeTree::Int => false,
            TypeTree::Range(_, _) => false,
            TypeTree::Named(_) => false,
            TypeTree::Array(_, _) => false,
        },
        TypeTree::Array(index, item) => match b {
            TypeTree::Array(by, other) => same_type(index, by) && same_type(item, other),
            TypeTree::Bool => false,
            TypeTree::Int => false,
            TypeTree::Range(_, _) => false,
            TypeTree::Named(_) => false,
            TypeTree::Seq(_, _) => false,
        },
    }
}

/// Whether two parameters have the same tokens.
pub fn same_parameter(a: &Parameter, b: &Parameter) -> bool
    ensures { result ≡ rule.same_parameter (view_parameter a.now) (view_parameter b.now) }
{
    match a {
        Parameter::Constant(name) => match b {
            Parameter::Constant(other) => name == other,
            Parameter::Typed(_) => false,
        },
        Parameter::Typed(declared) => match b {
            Parameter::Typed(other) => {
                declared.name == other.name && same_type(&declared.of, &other.of)
            }
            Parameter::Constant(_) => false,
        },
    }
}

/// Whether two lists of parameters have the same tokens.
pub fn same_parameters(a: &[Parameter], b: &[Parameter]) -> bool
    ensures { result ≡ rule.same_parameters (map view_parameter a.now) (map view_parameter b.now) }
{
    match (a.split_first(), b.split_first()) {
        (None, None) => true,
        (Some((first, others)), Some((other, rest))) => {
            same_parameter(first, other) && same_parameters(others, rest)
        }
        _ => false,
    }
}

fn first_with<'a>(head: &Entry, entries: &'a [Entry]) -> Option<&'a Entry>
    ensures { option_copied result
        ≡ find (λ e. rule.agrees (view_entry head.now) (view_entry e)) entries.now }
{
    entries.iter().find(|entry| agrees(head, entry))
}

/// The first entry with the kind and the name of this one.
pub fn entry_for<'a>(head: &Entry, entries: &'a [Entry]) -> Option<&'a Entry>
    ensures { option_map view_entry (option_copied result)
        ≡ rule.entry_for (view_entry head.now) (map view_entry entries.now) }
{
    first_with(head, entries)
}

/// Whether a transition has the kind and the name of this entry.
pub fn has_transition(entry: &Entry, transitions: &[Transition]) -> bool
    ensures { result ≡ list_any
        (λ t. rule.agrees (view_entry entry.now) (view_entry t.entry)) transitions.now }
{
    transitions
        .iter()
        .any(|transition| agrees(entry, &transition.entry))
}

/// Whether an earlier entry of the same side has the name of this one.
pub fn clashes_before(entry: &Entry, before: &[Entry]) -> bool
    ensures { result ≡ list_any
        (λ e. rule.clashes (view_entry entry.now) (view_entry e)) before.now }
{
    before.iter().any(|other| clashes(entry, other))
}

fn has_name(task: &[String], name: &str) -> bool
    ensures { result ≡ list_any (λ q. bytes_eq name.now (string_bytes q)) task.now }
{
    task.iter().any(|other| name == other.as_str())
}

fn some_task(tasks: &[Vec<String>], name: &str) -> bool
    ensures { result ≡ list_any
        (λ t. list_any (λ q. bytes_eq name.now (string_bytes q)) t.items) tasks.now }
{
    tasks.iter().any(|task| has_name(task.as_slice(), name))
}

/// Whether one of the tasks has this name.
pub fn has_task(tasks: &[Vec<String>], name: &str) -> bool
    ensures { result ≡ rule.has_task (task_names tasks.now) name.now }
{
    some_task(tasks, name)
}
