//! Whether later stages mention the last parameter of an earlier one.
ghost use Rattle.std.specs.Prelude.{◌≡◌, false};
ghost use Rattle.conditions.specs.Conditions.{AreBranchesWithout, AreTestsWithout, AreWithout};
ghost use Rattle.conditions.specs.Conditions.{IsApart};

use crate::condition::{Branch, Stage, Test};
use crate::mentions::mentions;

/// Whether the first k parameters have a last one, and no later stage mentions it.
pub(crate) fn is_apart(later: &[Stage], k: usize) -> bool
    ensures { IsApart k result later.now }
{
    if k == 0 {
        return false;
    }
    !stages_mention(later, k - 1)
}

fn stages_mention(stages: &[Stage], p: usize) -> bool
    ensures { result ≡ false → AreWithout p stages.now }
{
    for stage in stages {
        if branches_mention(stage.branches.as_slice(), p) {
            return true;
        }
    }
    false
}

fn branches_mention(branches: &[Branch], p: usize) -> bool
    ensures { result ≡ false → AreBranchesWithout p branches.now }
{
    for branch in branches {
        if tests_mention(branch.tests.as_slice(), p) {
            return true;
        }
    }
    false
}

fn tests_mention(tests: &[Test], p: usize) -> bool
    ensures { result ≡ false → AreTestsWithout p tests.now }
{
    for test in tests {
        if mentions(&test.term, p) {
            return true;
        }
    }
    false
}
