//! The check of a source.
ghost use Rattle.std.specs.Prelude.{◌≡◌, ◌+◌, ◌≤◌, None, [], IfOk, IfErr};
ghost use Rattle.ioa_trees.specs.Views.{view_source};
ghost use Rattle.ioa_trees.specs.Faults.{keep};
ghost use Rattle.ioa_trees.specs.Sizes.{composed_size};
ghost use Rattle.ioa_trees.specs.SourceRules.{composed_at, source_faults, source_meaning};
ghost use Rattle.ioa_typing.specs.TermViews.{least_tree};
ghost use Rattle.ioa_check.specs.Refusals.{IsRefused};
ghost use Rattle.ioa_check.specs.Resolutions.{meaning};
ghost use Rattle.ioa_check.specs.SourceViews.{source_tree};

use crate::automata::check_automata;
use crate::checked::Checked;
use crate::composed::check_composed;
use crate::definitions::check_definitions;
use crate::fault::{CheckError, refusal};
use crate::meant::MeantSource;
use crate::resolving::resolve;
use crate::used::Used;
use ioa_front::Source;
use ioa_trees::laws::{least_law, size_law};
use ioa_trees::meant::sources_meant_law;
use ioa_trees::tree::SourceTree;
use ioa_typing::{Fault, Names, Progress};
use std::alloc::{AllocError, Global};

// What a tree means, and its least fault.
fn judge(alloc: Global, tree: &SourceTree) -> Result<(MeantSource, Option<Fault>), AllocError>
    requires room { composed_at (view_source tree.now)
        + composed_size (view_source tree.now).composed ≤ 65536 }
    ensures meant { IfOk result (λ x. source_tree x.0 ≡ source_meaning (view_source tree.now)) }
    ensures least { IfOk result (λ x. least_tree x.1
        ≡ keep None (source_faults (view_source tree.now))) }
{
    let mut names = Names::new(alloc);
    let mut used = Used::new(alloc);
    let mut progress = Progress { at: 0, least: None };
    let members = check_definitions(alloc, &mut names, tree.types.as_slice(), &mut progress)?;
    let automata = check_automata(
        alloc,
        &mut names,
        &mut used,
        tree.automata.as_slice(),
        &mut progress,
    )?;
    let composed = check_composed(
        alloc,
        &names,
        &used,
        automata.as_slice(),
        &tree.composed,
        &mut progress,
    )?;
    let meant = MeantSource {
        members,
        automata,
        components: composed.components,
        hidden: composed.hidden,
    };
    Ok((meant, progress.least))
}

/// Checks a source.
///
/// # Errors
///
/// The least fault: the one at the least token, and of two at one token the one with the lesser number. `NoMemory` may stand in its
/// place, or in place of an answer.
pub fn check(alloc: Global, source: Source) -> Result<Checked, CheckError>
    ensures faultless { IfOk result (λ c. source_faults (view_source source) ≡ []) }
    ensures meant { IfOk result (λ c. meaning c ≡ source_meaning (view_source source)) }
    ensures refused { IfErr result (λ e. IsRefused (view_source source) e) }
{
    least_law();
    size_law();
    sources_meant_law();
    let (meant, least) = judge(alloc, source.tree())?;
    match least {
        Some(fault) => {
            drop(meant);
            Err(refusal(fault))
        }
        None => {
            let resolved = resolve(alloc, meant)?;
            Ok(Checked { resolved })
        }
    }
}
