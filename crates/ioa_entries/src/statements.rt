//! The checks of statements.
ghost use Rattle.std.specs.Prelude.{◌≡◌, ◌+◌, ◌<◌, ◌≤◌, ◌^◌, OnOk, IfOk, map};
ghost use Rattle.ioa_trees.specs.Trees.{For, pack_branches};
ghost use Rattle.ioa_trees.specs.Views.{view_branch, view_declared, view_statement, view_statements, view_type};
ghost use Rattle.ioa_trees.specs.EffectRules as rule;
ghost use Rattle.ioa_trees.specs.Sizes.{branches_size, statement_size, statements_size, type_size};
ghost use Rattle.ioa_trees.specs.TypeRules.{kind_of};
ghost use Rattle.ioa_typing.specs.NameViews.{names_tree};
ghost use Rattle.ioa_typing.specs.Noted.{AreNoted};
ghost use Rattle.ioa_entries.specs.EffectLists.{arm_list, effect_list};
ghost use Rattle.ioa_entries.specs.StatementParts as part;
ghost use Rattle.ioa_entries.specs.EffectViews.{arm_tree, done_tree, members_of};

use crate::assignment::check_assignment;
use crate::between::between;
use crate::effects::{Arm, chain, choose, loop_of, members_of};
use ioa_trees::tree::{Branch, Declared, Statement};
use ioa_typing::typed::{note_unless_truth, truth_of};
use ioa_typing::types::note_unlisted;
use ioa_typing::{FaultKind, Meaning, Names, Progress, check_term, check_type};
use std::alloc::{AllocError, Global};
use terms::{Effect, Listed};

// Checks a loop up to its body, and declares its variable.
#[tactic(auto, using(ioa_typing::proofs::Keeps::keep_append))]
fn check_head(
    alloc: Global,
    names: &mut Names,
    loops: usize,
    declared: &Declared,
    progress: &mut Progress,
) -> Result<Option<Listed>, AllocError>
    requires room { progress.old.at + (type_size (view_type declared.now.of) + 4) < 2 ^ 32 }
    ensures at { OnOk result (progress.new.at ≡ progress.old.at
        + (type_size (view_type declared.now.of) + 4)) }
    ensures names { OnOk result (names_tree names.new
        ≡ rule.in_loop (names_tree names.old) loops (view_declared declared.now)) }
    ensures faults { OnOk result (AreNoted progress.old progress.new
        (part.head_faults (names_tree names.old) loops progress.old.at
        (view_declared declared.now))) }
    ensures members { IfOk result (λ m. m
        ≡ members_of (kind_of (names_tree names.old) (view_type declared.now.of))) }
{
    let at = progress.at;
    progress.note_if(loops >= 3, at, FaultKind::OverLimit);
    progress.note_if(
        names.get(declared.name.as_str()).is_some(),
        at + 1,
        FaultKind::DoubleName,
    );
    progress.at += 3;
    let kind = check_type(alloc, names, &declared.of, progress)?;
    note_unlisted(progress, at + 3, &kind);
    progress.at += 1;
    let members = members_of(&kind);
    names.declare(&declared.name, Meaning::Loop(loops, kind))?;
    Ok(members)
}

// The word `else`, where statements stand behind it.
fn else_word(others: &[Statement]) -> u32
    ensures { result ≡ part.else_word (view_statements others.now) }
{
    match others.first() {
        None => 0,
        Some(_) => 1,
    }
}

// The word that ends the branches.
fn end_word(branches: &[Branch]) -> u32
    ensures { result ≡ part.end_word (pack_branches (map view_branch branches.now)) }
{
    match branches.first() {
        None => 2,
        Some(_) => 1,
    }
}

#[cycle(checking_statements)]
fn check_statement(
    alloc: Global,
    names: &mut Names,
    loops: usize,
    statement: &Statement,
    progress: &mut Progress,
) -> Result<Option<Effect>, AllocError>
    requires room { progress.old.at + statement_size (view_statement statement.now) < 2 ^ 32 }
    requires loops { loops ≤ progress.old.at }
    ensures at { OnOk result (progress.new.at ≡ progress.old.at
        + statement_size (view_statement statement.now)) }
    ensures names { OnOk result (names_tree names.new ≡ names_tree names.old) }
    ensures faults { OnOk result (AreNoted progress.old progress.new
        (rule.statement_faults (names_tree names.old) loops progress.old.at
        (view_statement statement.now))) }
    ensures effect { IfOk result (λ e. done_tree e
        ≡ rule.effect_of (names_tree names.old) loops (view_statement statement.now)) }
{
    match statement {
        Statement::Assign(name, index, init) => {
            let effect = check_assignment(alloc, names, name.as_str(), index, init, progress)?;
            Ok(effect)
        }
        Statement::If(branches, others) => {
            let arms = check_branches(alloc, names, loops, branches.as_slice(), progress)?;
            progress.at += else_word(others.as_slice());
            let otherwise = check_statements(alloc, names, loops, others.as_slice(), progress)?;
            progress.at += end_word(branches.as_slice());
            let effect = choose(alloc, arms, otherwise)?;
            Ok(effect)
        }
        Statement::For(declared, body) => {
            let effect = check_loop(alloc, names, loops, declared, body.as_slice(), progress)?;
            Ok(effect)
        }
    }
}

#[cycle(checking_statements)]
fn check_loop(
    alloc: Global,
    names: &mut Names,
    loops: usize,
    declared: &Declared,
    body: &[Statement],
    progress: &mut Progress,
) -> Result<Option<Effect>, AllocError>
    requires room { progress.old.at
        + (type_size (view_type declared.now.of) + statements_size (view_statements body.now) + 5)
        < 2 ^ 32 }
    requires loops { loops ≤ progress.old.at }
    ensures at { OnOk result (progress.new.at ≡ progress.old.at
        + (type_size (view_type declared.now.of) + statements_size (view_statements body.now)
        + 5)) }
    ensures names { OnOk result (names_tree names.new ≡ names_tree names.old) }
    ensures faults { OnOk result (AreNoted progress.old progress.new
        (rule.statement_faults (names_tree names.old) loops progress.old.at
        (For (view_declared declared.now) (view_statements body.now)))) }
    ensures effect { IfOk result (λ e. done_tree e
        ≡ rule.effect_of (names_tree names.old) loops
        (For (view_declared declared.now) (view_statements body.now))) }
{
    let len = names.len();
    let members = check_head(alloc, names, loops, declared, progress)?;
    let inside = check_statements(alloc, names, loops + 1, body, progress)?;
    names.truncate(len);
    progress.at += 1;
    let effect = loop_of(alloc, loops, members, inside)?;
    Ok(effect)
}

/// Checks statements inside of so many loops: notes their faults, goes behind them, and says what they do, if no fault is inside.
#[cycle(checking_statements)]
#[tactic(auto, using(crate::proofs::Chained::chained_is))]
pub fn check_statements(
    alloc: Global,
    names: &mut Names,
    loops: usize,
    statements: &[Statement],
    progress: &mut Progress,
) -> Result<Option<Effect>, AllocError>
    requires room { progress.old.at + statements_size (view_statements statements.now) < 2 ^ 32 }
    requires loops { loops ≤ progress.old.at }
    ensures at { OnOk result (progress.new.at ≡ progress.old.at
        + statements_size (view_statements statements.now)) }
    ensures names { OnOk result (names_tree names.new ≡ names_tree names.old) }
    ensures faults { OnOk result (AreNoted progress.old progress.new
        (rule.statements_faults (names_tree names.old) loops progress.old.at
        (view_statements statements.now))) }
    ensures effect { IfOk result (λ e. done_tree e
        ≡ rule.effects_of (names_tree names.old) loops (view_statements statements.now)) }
{
    let effects = check_each(alloc, names, loops, statements, progress)?;
    let effect = chain(alloc, effects)?;
    Ok(effect)
}

// Each with what it does.
#[cycle(checking_statements)]
fn check_each(
    alloc: Global,
    names: &mut Names,
    loops: usize,
    statements: &[Statement],
    progress: &mut Progress,
) -> Result<Vec<Option<Effect>>, AllocError>
    requires room { progress.old.at + statements_size (view_statements statements.now) < 2 ^ 32 }
    requires loops { loops ≤ progress.old.at }
    ensures at { OnOk result (progress.new.at ≡ progress.old.at
        + statements_size (view_statements statements.now)) }
    ensures names { OnOk result (names_tree names.new ≡ names_tree names.old) }
    ensures faults { OnOk result (AreNoted progress.old progress.new
        (rule.statements_faults (names_tree names.old) loops progress.old.at
        (view_statements statements.now))) }
    ensures effects { IfOk result (λ es. map done_tree es.items
        ≡ effect_list (names_tree names.old) loops (view_statements statements.now)) }
{
    let mut effects = Vec::new(alloc);
    let mut is_first = true;
    for statement in statements {
        progress.at += between(is_first);
        is_first = false;
        let effect = check_statement(alloc, names, loops, statement, progress)?;
        effects.push(effect)?;
    }
    Ok(effects)
}

// Each branch with its condition and what it does.
#[cycle(checking_statements)]
fn check_branches(
    alloc: Global,
    names: &mut Names,
    loops: usize,
    branches: &[Branch],
    progress: &mut Progress,
) -> Result<Vec<Arm>, AllocError>
    requires room { progress.old.at + branches_size (pack_branches (map view_branch branches.now))
        < 2 ^ 32 }
    requires loops { loops ≤ progress.old.at }
    ensures at { OnOk result (progress.new.at ≡ progress.old.at
        + branches_size (pack_branches (map view_branch branches.now))) }
    ensures names { OnOk result (names_tree names.new ≡ names_tree names.old) }
    ensures faults { OnOk result (AreNoted progress.old progress.new
        (rule.branches_faults (names_tree names.old) loops progress.old.at
        (pack_branches (map view_branch branches.now)))) }
    ensures arms { IfOk result (λ as'. map arm_tree as'.items
        ≡ arm_list (names_tree names.old) loops (pack_branches (map view_branch branches.now))) }
{
    let mut arms = Vec::new(alloc);
    for branch in branches {
        let arm = check_branch(alloc, names, loops, branch, progress)?;
        arms.push(arm)?;
    }
    Ok(arms)
}

#[cycle(checking_statements)]
fn check_branch(
    alloc: Global,
    names: &mut Names,
    loops: usize,
    branch: &Branch,
    progress: &mut Progress,
) -> Result<Arm, AllocError>
    requires room { progress.old.at + part.branch_size (view_branch branch.now) < 2 ^ 32 }
    requires loops { loops ≤ progress.old.at }
    ensures at { OnOk result (progress.new.at ≡ progress.old.at
        + part.branch_size (view_branch branch.now)) }
    ensures names { OnOk result (names_tree names.new ≡ names_tree names.old) }
    ensures faults { OnOk result (AreNoted progress.old progress.new
        (part.branch_faults (names_tree names.old) loops progress.old.at
        (view_branch branch.now))) }
    ensures arm { IfOk result (λ a. arm_tree a
        ≡ part.arm_of (names_tree names.old) loops (view_branch branch.now)) }
{
    progress.at += 1;
    let place = progress.at;
    let typed = check_term(alloc, names, &branch.test, progress)?;
    note_unless_truth(progress, place, &typed);
    let test = truth_of(typed);
    progress.at += 1;
    let body = check_statements(alloc, names, loops, branch.body.as_slice(), progress)?;
    Ok(Arm { test, body })
}
