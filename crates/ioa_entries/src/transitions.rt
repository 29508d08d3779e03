//! The checks of transitions.
ghost use Rattle.std.specs.Prelude.{◌≡◌, ◌+◌, ◌<◌, ◌^◌, ◌++◌, [], map, OnOk, IfOk};
ghost use Rattle.ioa_trees.specs.Views.{option_view, view, view_entry, view_parameter, view_statements, view_transition};
ghost use Rattle.ioa_trees.specs.EffectRules.{effects_of, statements_faults};
ghost use Rattle.ioa_trees.specs.EntryRules as rule;
ghost use Rattle.ioa_trees.specs.Kinds.{is_truth};
ghost use Rattle.ioa_trees.specs.Sizes.{bracketed_size, eff_size, entry_size, parameter_size, pre_size, row_size, size, transition_size};
ghost use Rattle.ioa_trees.specs.TermRules as term;
ghost use Rattle.ioa_entries.specs.EffectViews.{done_tree};
ghost use Rattle.ioa_typing.specs.NameViews.{names_tree};
ghost use Rattle.ioa_typing.specs.Noted.{AreNoted};
ghost use Rattle.ioa_typing.specs.TermViews.{core_tree};
ghost use Rattle.ioa_entries.specs.EntryParts as part;
ghost use Rattle.ioa_entries.specs.EntryViews.{meant_tree, slot_tree};

use crate::entries::bracket;
use crate::heads::{entry_for, has_transition, is_input, same_parameters};
use crate::slots::{Slot, declare_parameters};
use crate::statements::check_statements;
use ioa_trees::tree::{Entry, EntryKind, Parameter, Statement, Term as TermTree, Transition};
use ioa_typing::typed::{note_unless_truth, truth_of};
use ioa_typing::{FaultKind, Names, Progress, check_term};
use std::alloc::{AllocError, Global};
use terms::{Effect, Operand, Scalar, Term};

/// What a transition means, if no fault is inside: its head is that of its entry.
#[derive(Drop)]
pub struct Meant {
    pub kind: EntryKind,
    pub name: String,
    pub parameters: Vec<Option<Slot>>,
    pub pre: Option<Term>,
    pub effect: Option<Effect>,
}

// Notes a head that no entry has, and parameters that aren't those of the entry.
fn note_head(progress: &mut Progress, place: u32, entries: &[Entry], head: &Entry)
    ensures at { progress.new.at ≡ progress.old.at }
    ensures least { AreNoted progress.old progress.new
        (rule.head_faults (map view_entry entries.now) place (view_entry head.now)) }
{
    match entry_for(head, entries) {
        None => progress.note_if(true, place, FaultKind::UnknownName),
        Some(entry) => {
            let same = same_parameters(head.parameters.as_slice(), entry.parameters.as_slice());
            progress.note_if(!same, place, FaultKind::WrongType);
        }
    }
}

// Goes behind parameters and their parentheses, declares them, and says what each takes.
fn declare_bracketed(
    alloc: Global,
    names: &mut Names,
    parameters: &[Parameter],
    progress: &mut Progress,
) -> Result<Vec<Option<Slot>>, AllocError>
    requires room { progress.old.at
        + bracketed_size parameter_size (map view_parameter parameters.now) < 2 ^ 32 }
    ensures at { OnOk result (progress.new.at ≡ progress.old.at
        + bracketed_size parameter_size (map view_parameter parameters.now)) }
    ensures least { OnOk result (progress.new.least ≡ progress.old.least) }
    ensures names { OnOk result (names_tree names.new
        ≡ rule.with_parameters (names_tree names.old) 0 (map view_parameter parameters.now)) }
    ensures slots { IfOk result (λ ts. map slot_tree ts.items
        ≡ rule.slots (names_tree names.old) 0 (map view_parameter parameters.now)) }
{
    progress.at += bracket(parameters);
    let slots = declare_parameters(alloc, names, parameters, progress)?;
    progress.at += bracket(parameters);
    Ok(slots)
}

#[tactic(auto, using(ioa_typing::proofs::Keeps::keep_append))]
fn check_truth(
    alloc: Global,
    names: &Names,
    tree: &TermTree,
    progress: &mut Progress,
) -> Result<Option<Term>, AllocError>
    requires room { progress.old.at + size (view tree.now) < 2 ^ 32 }
    ensures at { OnOk result (progress.new.at ≡ progress.old.at + size (view tree.now)) }
    ensures faults { OnOk result (AreNoted progress.old progress.new
        (term.faults (names_tree names.now) progress.old.at (view tree.now)
        ++ term.wants is_truth progress.old.at
        (term.judge (names_tree names.now) (view tree.now)))) }
    ensures truth { IfOk result (λ t. core_tree t
        ≡ term.truth_of (term.judge (names_tree names.now) (view tree.now))) }
{
    let place = progress.at;
    let typed = check_term(alloc, names, tree, progress)?;
    note_unless_truth(progress, place, &typed);
    Ok(truth_of(typed))
}

// Checks what stands behind `pre`; where nothing stands, each state will do.
#[tactic(auto, using(ioa_typing::proofs::Keeps::keep_append))]
fn check_pre(
    alloc: Global,
    names: &Names,
    kind: EntryKind,
    pre: &Option<TermTree>,
    progress: &mut Progress,
) -> Result<Option<Term>, AllocError>
    requires room { progress.old.at + pre_size (option_view pre.now) < 2 ^ 32 }
    ensures at { OnOk result (progress.new.at ≡ progress.old.at + pre_size (option_view pre.now)) }
    ensures faults { OnOk result (AreNoted progress.old progress.new
        (rule.pre_faults (names_tree names.now) kind progress.old.at (option_view pre.now))) }
    ensures truth { IfOk result (λ t. core_tree t
        ≡ rule.pre_of (names_tree names.now) (option_view pre.now)) }
{
    match pre {
        None => Ok(Some(Term::of(alloc, Operand::Known(Scalar::Bool(true))))),
        Some(tree) => {
            progress.note_if(is_input(kind), progress.at, FaultKind::InputWithPre);
            progress.at += 1;
            let truth = check_truth(alloc, names, tree, progress)?;
            Ok(truth)
        }
    }
}

// The word `eff`, where statements stand behind it.
fn eff_word(statements: &[Statement]) -> u32
    ensures { result ≡ part.eff_word (view_statements statements.now) }
{
    match statements.first() {
        None => 0,
        Some(_) => 1,
    }
}

fn check_eff(
    alloc: Global,
    names: &mut Names,
    statements: &[Statement],
    progress: &mut Progress,
) -> Result<Option<Effect>, AllocError>
    requires room { progress.old.at + eff_size (view_statements statements.now) < 2 ^ 32 }
    ensures at { OnOk result (progress.new.at ≡ progress.old.at
        + eff_size (view_statements statements.now)) }
    ensures names { OnOk result (names_tree names.new ≡ names_tree names.old) }
    ensures faults { OnOk result (AreNoted progress.old progress.new
        (statements_faults (names_tree names.old) 0 (progress.old.at + 1)
        (view_statements statements.now))) }
    ensures effect { IfOk result (λ e. done_tree e
        ≡ effects_of (names_tree names.old) 0 (view_statements statements.now)) }
{
    progress.at += eff_word(statements);
    let effect = check_statements(alloc, names, 0, statements, progress)?;
    Ok(effect)
}

// Checks a transition but for its head, and declares its parameters.
fn check_inside(
    alloc: Global,
    names: &mut Names,
    transition: &Transition,
    progress: &mut Progress,
) -> Result<Meant, AllocError>
    requires room { progress.old.at + transition_size (view_transition transition.now) < 2 ^ 32 }
    ensures at { OnOk result (progress.new.at ≡ progress.old.at
        + transition_size (view_transition transition.now)) }
    ensures names { OnOk result (names_tree names.new
        ≡ rule.with_parameters (names_tree names.old) 0
        (view_transition transition.now).entry.parameters) }
    ensures faults { OnOk result (AreNoted progress.old progress.new
        (part.inside_faults
        (rule.with_parameters (names_tree names.old) 0
        (view_transition transition.now).entry.parameters) progress.old.at
        (view_transition transition.now))) }
    ensures meant { IfOk result (λ m. meant_tree m
        ≡ rule.meant_by (names_tree names.old) (view_transition transition.now)) }
{
    let entry = &transition.entry;
    progress.at += 2;
    let name = entry.name.clone()?;
    let parameters = declare_bracketed(alloc, names, entry.parameters.as_slice(), progress)?;
    let pre = check_pre(alloc, names, entry.kind, &transition.pre, progress)?;
    let effect = match check_eff(alloc, names, transition.eff.as_slice(), progress) {
        Ok(effect) => effect,
        Err(refused) => {
            drop(pre);
            return Err(refused);
        }
    };
    Ok(Meant {
        kind: entry.kind,
        name,
        parameters,
        pre,
        effect,
    })
}

fn check_transition(
    alloc: Global,
    names: &mut Names,
    entries: &[Entry],
    before: &[Transition],
    transition: &Transition,
    progress: &mut Progress,
) -> Result<Meant, AllocError>
    requires room { progress.old.at + transition_size (view_transition transition.now) < 2 ^ 32 }
    ensures at { OnOk result (progress.new.at ≡ progress.old.at
        + transition_size (view_transition transition.now)) }
    ensures names { OnOk result (names_tree names.new ≡ names_tree names.old) }
    ensures faults { OnOk result (AreNoted progress.old progress.new
        (rule.transition_faults
        (rule.with_parameters (names_tree names.old) 0
        (view_transition transition.now).entry.parameters) (map view_entry entries.now)
        (map view_transition before.now) progress.old.at (view_transition transition.now))) }
    ensures meant { IfOk result (λ m. meant_tree m
        ≡ rule.meant_by (names_tree names.old) (view_transition transition.now)) }
{
    let at = progress.at;
    note_head(progress, at + 1, entries, &transition.entry);
    progress.note_if(
        has_transition(&transition.entry, before),
        at,
        FaultKind::DoubleTransition,
    );
    let len = names.len();
    let meant = check_inside(alloc, names, transition, progress)?;
    names.truncate(len);
    Ok(meant)
}

/// Checks transitions: notes their faults, goes behind them, and says what each means, if no fault is inside.
pub fn check_transitions(
    alloc: Global,
    names: &mut Names,
    entries: &[Entry],
    transitions: &[Transition],
    progress: &mut Progress,
) -> Result<Vec<Meant>, AllocError>
    requires room { progress.old.at + row_size transition_size (map view_transition transitions.now)
        < 2 ^ 32 }
    ensures at { OnOk result (progress.new.at ≡ progress.old.at
        + row_size transition_size (map view_transition transitions.now)) }
    ensures names { OnOk result (names_tree names.new ≡ names_tree names.old) }
    ensures faults { OnOk result (AreNoted progress.old progress.new
        (rule.transitions_faults (names_tree names.old)
        (map view_entry entries.now) [] progress.old.at (map view_transition transitions.now))) }
    ensures meant { IfOk result (λ ms. map meant_tree ms.items
        ≡ map (rule.meant_by (names_tree names.old)) (map view_transition transitions.now)) }
{
    let mut meant = Vec::new(alloc);
    for (place, transition) in transitions.iter().enumerate() {
        let one = check_transition(
            alloc,
            names,
            entries,
            &transitions[..place],
            transition,
            progress,
        )?;
        meant.push(one)?;
    }
    Ok(meant)
}
