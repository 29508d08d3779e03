//! The first entry of each name so far.
ghost use Rattle.std.specs.Prelude.{◌≡◌, OnOk};
ghost use Rattle.ioa_trees.specs.Trees.{Bytes};
ghost use Rattle.compose.specs.TypedStandings.{stood, kept, differs, or_this};

use crate::action_types::kinds::are_same;
use crate::action_types::standing::Standing;
use indexmap::IndexMap;
use terms::NoMemory;

/// Whether an entry has other types than the first of its name.
pub(crate) fn differs(seen: &IndexMap<String, Standing>, standing: &Standing) -> bool
    ensures { result ≡ differs (kept (stood standing.now).name seen.now.entries)
        (stood standing.now) }
{
    match seen.get(standing.entry.name.as_str()) {
        Some(first) => !are_same(first, standing),
        None => false,
    }
}

/// Keeps an entry, unless one of its name is kept.
pub(crate) fn keep<'a>(
    seen: &mut IndexMap<String, Standing<'a>>,
    standing: Standing<'a>,
) -> Result<(), NoMemory>
    ensures { OnOk result ((q : Bytes)
        → kept q seen.new.entries ≡ or_this (kept q seen.old.entries) q (stood standing.entry)) }
{
    let name = &standing.entry.name;
    if !seen.contains_key(name.as_str()) {
        seen.insert(name.clone()?, standing)?;
    }
    Ok(())
}
