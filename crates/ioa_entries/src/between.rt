//! What stands between the items of a list.
ghost use Rattle.std.specs.Prelude.{◌≡◌};
ghost use Rattle.ioa_entries.specs.Between.{between};

/// The token between two items.
pub fn between(is_first: bool) -> u32
    ensures { result ≡ between is_first }
{
    if is_first { 0 } else { 1 }
}
