//! The check of the names of outputs to hide.
ghost use Rattle.std.specs.Prelude.{◌≡◌, ◌+◌, ◌<◌, ◌^◌, [], map, string_bytes, OnOk, IfOk};
ghost use Rattle.ioa_trees.specs.Sizes.{hidden_size};
ghost use Rattle.ioa_trees.specs.SourceRules.{hidden_faults};
ghost use Rattle.ioa_typing.specs.Noted.{AreNoted};

use crate::used::Used;
use ioa_typing::{FaultKind, Progress};
use std::alloc::{AllocError, Global};

/// Checks names of outputs to hide, each behind a word or a comma: notes those that stood before, goes behind them, and gives them all.
pub(crate) fn check_hidden(
    alloc: Global,
    hidden: &[String],
    progress: &mut Progress,
) -> Result<Vec<String>, AllocError>
    requires room { progress.old.at + hidden_size (map string_bytes hidden.now) < 2 ^ 32 }
    ensures at { OnOk result (progress.new.at ≡ progress.old.at
        + hidden_size (map string_bytes hidden.now)) }
    ensures faults { OnOk result (AreNoted progress.old progress.new
        (hidden_faults [] (progress.old.at + 1) (map string_bytes hidden.now))) }
    ensures meant { IfOk result (λ ns. map string_bytes ns.items ≡ map string_bytes hidden.now) }
{
    let mut meant = Vec::new(alloc);
    let mut used = Used::new(alloc);
    for name in hidden {
        progress.at += 1;
        let is_new = used.insert(name)?;
        progress.note_if(!is_new, progress.at, FaultKind::DoubleName);
        progress.at += 1;
        meant.push(name.clone()?)?;
    }
    Ok(meant)
}
