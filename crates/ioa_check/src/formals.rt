//! The checks of formals.
ghost use Rattle.std.specs.Prelude.{◌≡◌, ◌+◌, ◌<◌, ◌^◌, OnOk, IfOk, map};
ghost use Rattle.ioa_trees.specs.Views.{view_declared, view_type};
ghost use Rattle.ioa_trees.specs.AutomatonRules as rule;
ghost use Rattle.ioa_trees.specs.Sizes.{declared_size, listed_size};
ghost use Rattle.ioa_trees.specs.TypeRules.{kind_of};
ghost use Rattle.ioa_typing.specs.KindViews.{option_tree};
ghost use Rattle.ioa_typing.specs.NameViews.{names_tree};
ghost use Rattle.ioa_typing.specs.Noted.{AreNoted};
ghost use Rattle.ioa_check.specs.AutomatonParts as part;

use ioa_entries::between::between;
use ioa_trees::tree::Declared;
use ioa_typing::kind::copy_kind;
use ioa_typing::types::note_unscalar;
use ioa_typing::{FaultKind, Kind, Meaning, Names, Progress, check_type};
use std::alloc::{AllocError, Global};

/// The same kind once more, where there is one.
pub(crate) fn copy_option(alloc: Global, kind: &Option<Kind>) -> Result<Option<Kind>, AllocError>
    ensures { IfOk result (λ k. option_tree k ≡ option_tree kind.now) }
{
    match kind {
        None => Ok(None),
        Some(kind) => {
            let kind = copy_kind(alloc, kind)?;
            Ok(Some(kind))
        }
    }
}

// Checks the formal of this number, and declares it.
#[tactic(auto, using(ioa_typing::proofs::Keeps::keep_append))]
fn check_formal(
    alloc: Global,
    names: &mut Names,
    number: usize,
    declared: &Declared,
    progress: &mut Progress,
) -> Result<Option<Kind>, AllocError>
    requires room { progress.old.at + declared_size (view_declared declared.now) < 2 ^ 32 }
    ensures at { OnOk result (progress.new.at ≡ progress.old.at
        + declared_size (view_declared declared.now)) }
    ensures names { OnOk result (names_tree names.new
        ≡ part.with_formal (names_tree names.old) number (view_declared declared.now)) }
    ensures faults { OnOk result (AreNoted progress.old progress.new
        (part.formal_faults (names_tree names.old) progress.old.at (view_declared declared.now))) }
    ensures kind { IfOk result (λ k. option_tree k
        ≡ kind_of (names_tree names.old) (view_type declared.now.of)) }
{
    let at = progress.at;
    progress.note_if(
        names.get(declared.name.as_str()).is_some(),
        at,
        FaultKind::DoubleName,
    );
    progress.at += 2;
    let kind = check_type(alloc, names, &declared.of, progress)?;
    note_unscalar(progress, at + 2, &kind);
    let kept = copy_option(alloc, &kind)?;
    names.declare(&declared.name, Meaning::Formal(number, kept))?;
    Ok(kind)
}

/// Checks formals: notes their faults, goes behind them, declares them, and says what their types mean.
pub fn check_formals(
    alloc: Global,
    names: &mut Names,
    formals: &[Declared],
    progress: &mut Progress,
) -> Result<Vec<Option<Kind>>, AllocError>
    requires room { progress.old.at + listed_size declared_size (map view_declared formals.now)
        < 2 ^ 32 }
    ensures at { OnOk result (progress.new.at ≡ progress.old.at
        + listed_size declared_size (map view_declared formals.now)) }
    ensures names { OnOk result (names_tree names.new
        ≡ rule.with_formals (names_tree names.old) 0 (map view_declared formals.now)) }
    ensures faults { OnOk result (AreNoted progress.old progress.new
        (rule.formals_faults (names_tree names.old) 0 progress.old.at
        (map view_declared formals.now))) }
    ensures kinds { IfOk result (λ ks. map option_tree ks.items
        ≡ rule.formal_kinds (names_tree names.old) 0 (map view_declared formals.now)) }
{
    let mut kinds = Vec::new(alloc);
    let mut is_first = true;
    for declared in formals {
        progress.at += between(is_first);
        is_first = false;
        let number = kinds.len();
        let kind = check_formal(alloc, names, number, declared, progress)?;
        kinds.push(kind)?;
    }
    Ok(kinds)
}
