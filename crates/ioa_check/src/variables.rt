//! The checks of state variables.
ghost use Rattle.std.specs.Prelude.{◌≡◌, ◌+◌, ◌<◌, ◌^◌, ◌||◌, List, bytes_eq, get_or, None, map, string_bytes, OnOk, IfOk};
ghost use Rattle.std.specs.List.{list_any};
ghost use Rattle.std.specs.Option.{is_some};
ghost use Rattle.ioa_trees.specs.Trees.{Bytes};
ghost use Rattle.ioa_trees.specs.Views.{view_declared, view_init, view_type, view_variable};
ghost use Rattle.ioa_trees.specs.AutomatonRules as rule;
ghost use Rattle.ioa_trees.specs.Scopes.{Scope, named};
ghost use Rattle.ioa_trees.specs.Sizes.{declared_size, init_size, listed_size, variable_size};
ghost use Rattle.ioa_trees.specs.TypeRules.{kind_of};
ghost use Rattle.ioa_trees.specs.ValueRules.{put_in};
ghost use Rattle.ioa_typing.specs.KindViews.{capped, option_tree};
ghost use Rattle.ioa_typing.specs.NameViews.{names_tree};
ghost use Rattle.ioa_entries.specs.EffectViews.{misfit_faults, place_kind};
ghost use Rattle.ioa_typing.specs.Noted.{AreNoted};
ghost use Rattle.ioa_typing.specs.TermViews.{core_tree};
ghost use Rattle.ioa_check.specs.AutomatonParts as part;
ghost use Rattle.ioa_check.specs.Sets.{Adds, AreNames};
ghost use Rattle.ioa_check.specs.AutomatonViews.{cell_kind, cell_start, used_names};

use crate::formals::copy_option;
use crate::used::Used;
use ioa_entries::between::between;
use ioa_entries::check_init;
use ioa_trees::tree::{Declared, Init, Variable};
use ioa_typing::kind::weight;
use ioa_typing::shape::shape_of;
use ioa_typing::{FaultKind, Kind, Meaning, Names, Progress, Shape, check_type};
use std::alloc::{AllocError, Global};
use terms::Term;

/// A state variable: what its type means, and its start value. Each is there, if it has no fault.
#[derive(Drop)]
pub struct Cell {
    pub kind: Option<Kind>,
    pub start: Option<Term>,
}

// The weight of a type, as far as 65,537.
fn weight_of(kind: &Option<Kind>) -> u64
    ensures { result ≡ capped (rule.weight_of (option_tree kind.now)) }
{
    match kind {
        None => 0,
        Some(kind) => weight(kind),
    }
}

// The weight of two parts, each counted as far as 65,537.
fn joined_weight(a: u64, b: u64) -> u64
    ensures { result ≡ capped (a + b) }
{
    a.saturating_add(b).min(65_537)
}

// Whether a state that weighs so much goes over its weight by one more variable.
fn goes_over(before: u64, kind: &Option<Kind>) -> bool
    ensures { result ≡ rule.goes_over before (option_tree kind.now) }
{
    before <= 65_536 && before + weight_of(kind) > 65_536
}

// Whether a name stands in scope, or was used before.
pub(crate) fn is_taken(names: &Names, used: &Used, name: &str) -> bool
    ensures { result ≡ (is_some (named name.now (names_tree names.now))
        || list_any (bytes_eq name.now) (used_names used.now)) }
{
    names.get(name).is_some() || used.contains(name)
}

// Checks a state variable up to its start value.
#[tactic(auto, using(ioa_typing::proofs::Keeps::keep_append))]
fn check_head(
    alloc: Global,
    names: &Names,
    used: &mut Used,
    before: u64,
    declared: &Declared,
    progress: &mut Progress,
) -> Result<Option<Kind>, AllocError>
    requires room { progress.old.at + declared_size (view_declared declared.now) < 2 ^ 32 }
    ensures at { OnOk result (progress.new.at ≡ progress.old.at
        + declared_size (view_declared declared.now)) }
    ensures names { OnOk result ((q : Bytes)
        → list_any (bytes_eq q) (used_names used.new)
        ≡ (bytes_eq q (string_bytes declared.now.name)
        || list_any (bytes_eq q) (used_names used.old))) }
    ensures faults { OnOk result (AreNoted progress.old progress.new
        (part.head_faults (names_tree names.now) (used_names used.old) before progress.old.at
        (view_declared declared.now))) }
    ensures kind { IfOk result (λ k. option_tree k
        ≡ kind_of (names_tree names.now) (view_type declared.now.of)) }
{
    let at = progress.at;
    let taken = is_taken(names, used, declared.name.as_str());
    progress.note_if(taken, at, FaultKind::DoubleName);
    used.insert(&declared.name)?;
    progress.at += 2;
    let kind = check_type(alloc, names, &declared.of, progress)?;
    progress.note_if(goes_over(before, &kind), at + 2, FaultKind::OverLimit);
    Ok(kind)
}

// A kind, to put a value in its place.
fn place_of(kind: &Option<Kind>) -> Option<Shape<'_>>
    ensures { place_kind result ≡ option_tree kind.now }
{
    match kind {
        None => None,
        Some(kind) => Some(shape_of(kind)),
    }
}

fn note_misfit(progress: &mut Progress, misfit: Option<u32>)
    ensures at { progress.new.at ≡ progress.old.at }
    ensures least { AreNoted progress.old progress.new (misfit_faults misfit) }
{
    if let Some(place) = misfit {
        progress.note_if(true, place, FaultKind::WrongType);
    }
}

#[tactic(auto, using(ioa_typing::proofs::Keeps::keep_append))]
fn check_start(
    alloc: Global,
    names: &Names,
    kind: &Option<Kind>,
    start: &Init,
    progress: &mut Progress,
) -> Result<Option<Term>, AllocError>
    requires room { progress.old.at + init_size (view_init start.now) < 2 ^ 32 }
    ensures at { OnOk result (progress.new.at ≡ progress.old.at + init_size (view_init start.now)) }
    ensures faults { OnOk result (AreNoted progress.old progress.new
        (part.start_faults (names_tree names.now) (option_tree kind.now) progress.old.at
        (view_init start.now))) }
    ensures value { IfOk result (λ t. core_tree t
        ≡ put_in (names_tree names.now) (option_tree kind.now) (view_init start.now)) }
{
    let put = check_init(alloc, names, place_of(kind), start, progress)?;
    note_misfit(progress, put.misfit);
    Ok(put.value)
}

fn check_variable(
    alloc: Global,
    names: &Names,
    used: &mut Used,
    before: u64,
    variable: &Variable,
    progress: &mut Progress,
) -> Result<Cell, AllocError>
    requires room { progress.old.at + variable_size (view_variable variable.now) < 2 ^ 32 }
    ensures at { OnOk result (progress.new.at ≡ progress.old.at
        + variable_size (view_variable variable.now)) }
    ensures names { OnOk result ((q : Bytes)
        → list_any (bytes_eq q) (used_names used.new)
        ≡ (bytes_eq q (string_bytes variable.now.declared.name)
        || list_any (bytes_eq q) (used_names used.old))) }
    ensures faults { OnOk result (AreNoted progress.old progress.new
        (rule.variable_faults (names_tree names.now) (used_names used.old) before progress.old.at
        (view_variable variable.now))) }
    ensures kind { IfOk result (λ c. cell_kind c
        ≡ part.kind_in (names_tree names.now) (view_variable variable.now)) }
    ensures start { IfOk result (λ c. cell_start c
        ≡ part.start_in (names_tree names.now) (view_variable variable.now)) }
{
    let kind = check_head(alloc, names, used, before, &variable.declared, progress)?;
    progress.at += 1;
    let start = check_start(alloc, names, &kind, &variable.start, progress)?;
    Ok(Cell { kind, start })
}

/// Checks state variables whose names may not be among these: notes their faults, goes behind them, puts their names among them, and
/// says what their types mean and how they start. Types and start values see these names alone.
pub fn check_variables(
    alloc: Global,
    names: &Names,
    used: &mut Used,
    variables: &[Variable],
    progress: &mut Progress,
) -> Result<Vec<Cell>, AllocError>
    requires room { progress.old.at + listed_size variable_size (map view_variable variables.now)
        < 2 ^ 32 }
    ensures at { OnOk result (progress.new.at ≡ progress.old.at
        + listed_size variable_size (map view_variable variables.now)) }
    ensures names { OnOk result (Adds (used_names used.new)
        (part.variable_names (map view_variable variables.now)) (used_names used.old)) }
    ensures faults { OnOk result ((L : List Bytes) → AreNames (used_names used.old) L
        → AreNoted progress.old progress.new
        (rule.variables_faults (names_tree names.now) L 0 progress.old.at
        (map view_variable variables.now))) }
    ensures kinds { IfOk result (λ cs. map cell_kind cs.items
        ≡ map (part.kind_in (names_tree names.now)) (map view_variable variables.now)) }
    ensures starts { IfOk result (λ cs. map cell_start cs.items
        ≡ map (part.start_in (names_tree names.now)) (map view_variable variables.now)) }
{
    let mut cells = Vec::new(alloc);
    let mut total = 0;
    let mut is_first = true;
    for variable in variables {
        progress.at += between(is_first);
        is_first = false;
        let cell = check_variable(alloc, names, used, total, variable, progress)?;
        total = joined_weight(total, weight_of(&cell.kind));
        cells.push(cell)?;
    }
    Ok(cells)
}

// What the type of the cell at this place means.
fn kind_at(alloc: Global, cells: &[Cell], place: usize) -> Result<Option<Kind>, AllocError>
    ensures { IfOk result (λ k. option_tree k ≡ get_or (map cell_kind cells.now) place None) }
{
    match cells.get(place) {
        None => Ok(None),
        Some(cell) => {
            let kind = copy_option(alloc, &cell.kind)?;
            Ok(kind)
        }
    }
}

/// Declares state variables, each with the kind of its cell.
pub fn declare_variables(
    alloc: Global,
    names: &mut Names,
    variables: &[Variable],
    cells: &[Cell],
) -> Result<(), AllocError>
    ensures { OnOk result ((s : Scope)
        → map cell_kind cells.now ≡ map (part.kind_in s) (map view_variable variables.now)
        → names_tree names.new
        ≡ rule.with_variables s (names_tree names.old) 0 (map view_variable variables.now)) }
{
    for (place, variable) in variables.iter().enumerate() {
        let kind = kind_at(alloc, cells, place)?;
        names.declare(&variable.declared.name, Meaning::Variable(place, kind))?;
    }
    Ok(())
}
