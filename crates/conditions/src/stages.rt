//! The tests of branches, each at the first stage at which it can be asked.
ghost use Rattle.std.specs.Prelude.{◌≡◌, ◌≤◌, ◌&&◌, suc, true, if◌then◌else◌, nat_eq};
ghost use Rattle.std.specs.Prelude.{length, List, replicate, IfOk, OnOk};
ghost use Rattle.conditions.specs.Conditions.{AreApart, AreBranches, AreStages, AreWithin};
ghost use Rattle.conditions.specs.Conditions.{Binds, IsApart};
ghost use Rattle.conditions.specs.Conditions.{left_after_all, test_holds, tests_hold};
ghost use Rattle.conditions.specs.Held.{AreAllWithin, each_asked, each_at, each_below, hold_at};
ghost use Rattle.conditions.specs.Reach.{reach};
ghost use Rattle.terms.specs.Datum.{Datum};
ghost use Rattle.terms.specs.Meaning.{Scope};
ghost use Rattle.terms.specs.TermTree.{term_tree};

use crate::apart::is_apart;
use crate::bounds::bound_of;
use crate::branches::test_copy;
use crate::condition::{Branch, Stage, Test};
use crate::reach::{highest, reach_of};
use std::alloc::Global;
use terms::NoMemory;

/// The stage at which the last test of some branches can be asked.
pub(crate) fn last_stage(branches: &[Vec<Test>]) -> Result<usize, NoMemory>
    ensures { IfOk result (λ last. AreAllWithin last branches.now) }
{
    let mut last = 0;
    for tests in branches {
        last = highest(last, last_of(tests.as_slice())?);
    }
    Ok(last)
}

fn last_of(tests: &[Test]) -> Result<usize, NoMemory>
    ensures { IfOk result (λ last. AreWithin last tests.now) }
{
    let mut last = 0;
    for test in tests {
        last = highest(last, reach_of(&test.term)?);
    }
    Ok(last)
}

/// The stages up to the last. The later ones are made first, since an earlier one says whether they
/// mention its last parameter.
pub(crate) fn stages_of(
    alloc: Global,
    branches: &[Vec<Test>],
    last: usize,
) -> Result<Vec<Stage>, NoMemory>
    ensures are { IfOk result (λ stages. AreStages (length branches.now) 0 stages.items) }
    ensures held { IfOk result (λ stages. (scope : Scope) (state : List Datum)
        → left_after_all scope state stages.items (replicate (length branches.now) true)
        ≡ each_below scope state (suc last) branches.now) }
    ensures apart { IfOk result (λ stages. AreApart 0 stages.items) }
{
    let mut stages = Vec::new(alloc);
    while stages.len() <= last {
        let k = last - stages.len();
        let stage = stage_at(alloc, branches, k, stages.as_slice())?;
        stages.insert(0, stage)?;
    }
    Ok(stages)
}

// The stage after the first k parameters.
fn stage_at(
    alloc: Global,
    branches: &[Vec<Test>],
    k: usize,
    later: &[Stage],
) -> Result<Stage, NoMemory>
    ensures are { IfOk result (λ stage. AreBranches k stage.branches.items) }
    ensures held { IfOk result (λ stage. (scope : Scope) (state : List Datum)
        → each_asked scope state stage.branches.items ≡ each_at scope state k branches.now) }
    ensures many { IfOk result (λ stage. length stage.branches.items ≡ length branches.now) }
    ensures apart { IfOk result (λ stage. IsApart k stage.apart later.now) }
{
    let mut at = Vec::new(alloc);
    for tests in branches {
        at.push(branch_at(alloc, tests.as_slice(), k)?)?;
    }
    Ok(Stage {
        branches: at,
        apart: is_apart(later, k),
    })
}

// What a branch asks after the first k parameters.
fn branch_at(alloc: Global, tests: &[Test], k: usize) -> Result<Branch, NoMemory>
    ensures within { IfOk result (λ branch. AreWithin k branch.tests.items) }
    ensures binds { IfOk result (λ branch. Binds k branch.tests.items branch.bound) }
    ensures held { IfOk result (λ branch. (scope : Scope) (state : List Datum)
        → tests_hold scope state branch.tests.items ≡ hold_at scope state k tests.now) }
{
    let tests = tests_at(alloc, tests, k)?;
    let bound = bound_of(alloc, tests.as_slice(), k)?;
    Ok(Branch { tests, bound })
}

fn tests_at(alloc: Global, tests: &[Test], k: usize) -> Result<Vec<Test>, NoMemory>
    ensures within { IfOk result (λ at. AreWithin k at.items) }
    ensures held { IfOk result (λ at. (scope : Scope) (state : List Datum)
        → tests_hold scope state at.items ≡ hold_at scope state k tests.now) }
{
    let mut at = Vec::new(alloc);
    for test in tests {
        add_at(alloc, &mut at, test, k)?;
    }
    Ok(at)
}

// Adds a copy of a test that can be asked after the first k parameters, and not earlier.
fn add_at(alloc: Global, at: &mut Vec<Test>, test: &Test, k: usize) -> Result<(), NoMemory>
    ensures within { OnOk result (AreWithin k at.old.items → AreWithin k at.new.items) }
    ensures held { OnOk result ((scope : Scope) (state : List Datum)
        → tests_hold scope state at.new.items ≡ tests_hold scope state at.old.items
        && (if nat_eq (reach (term_tree test.now.term)) k
        then test_holds scope state test.now else true)) }
{
    if reach_of(&test.term)? == k {
        at.push(test_copy(alloc, test)?)?;
    }
    Ok(())
}
