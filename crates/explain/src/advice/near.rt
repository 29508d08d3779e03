//! Names by how near they are to another.

use std::alloc::Global;
use strsim::levenshtein;
use terms::NoMemory;

/// How many names are told.
const MOST_NAMES: usize = 8;

/// The names that are nearest to one, by the number of letters to insert, leave out or change; at most eight. Those that are equally
/// near stay in their order.
pub(crate) fn nearest<'a>(
    alloc: Global,
    wanted: &str,
    names: &[&'a str],
) -> Result<Vec<&'a str>, NoMemory> {
    let near = places_by_nearness(alloc, wanted, names)?;
    let mut nearest = Vec::new(alloc);
    for (_, place) in near.iter().take(MOST_NAMES) {
        if let Some(name) = names.get(*place) {
            nearest.push(*name)?;
        }
    }
    Ok(nearest)
}

// The names' places behind the number of edits that lead to each, in order.
fn places_by_nearness(
    alloc: Global,
    wanted: &str,
    names: &[&str],
) -> Result<Vec<(usize, usize)>, NoMemory> {
    let mut near = Vec::new(alloc);
    for (place, name) in names.iter().enumerate() {
        near.push((levenshtein(alloc, wanted, *name)?, place))?;
    }
    near.sort()?;
    Ok(near)
}
