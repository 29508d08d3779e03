//! Swaps of groups: components change, and sizes stay.
ghost use Rattle.std.specs.Prelude.{IsPermutation};

/// Two components change their groups, if there are both.
pub(crate) fn swap_groups(group_of: &mut Vec<u16>, a: usize, b: usize)
    ensures { IsPermutation group_of.old.items group_of.new.items }
{
    if a < group_of.len() && b < group_of.len() {
        group_of.swap(a, b);
    }
}

/// Undoes all swaps but the first `kept`, the last first.
pub(crate) fn undo(group_of: &mut Vec<u16>, swaps: &[(u16, u16)], kept: usize)
    ensures { IsPermutation group_of.old.items group_of.new.items }
{
    for place in (kept..swaps.len()).rev() {
        let (a, b) = swaps[place];
        swap_groups(group_of, usize::from(a), usize::from(b));
    }
}
