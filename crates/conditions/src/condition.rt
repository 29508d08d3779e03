//! Preconditions solved.
ghost use Rattle.std.specs.Prelude.{IfOk};
ghost use Rattle.conditions.specs.Conditions.{IsSolved};
ghost use Rattle.terms.specs.TermTree.{term_tree};

use crate::branches::branches_of;
use crate::stages::{last_stage, stages_of};
use std::alloc::Global;
use terms::{NoMemory, Term};

/// A term that has to be true, or has to be false.
#[derive(Drop)]
pub struct Test {
    pub term: Term,
    pub is: bool,
}

/// What one branch asks at a stage. `bound`: the value that the last of the parameters known by
/// then must have.
#[derive(Drop)]
pub struct Branch {
    pub tests: Vec<Test>,
    pub bound: Option<Term>,
}

/// Stage k is asked once the first k parameters have values; it has for each branch its tests.
/// `apart`: there is a last one of these parameters, and no later stage mentions it.
#[derive(Drop)]
pub struct Stage {
    pub branches: Vec<Branch>,
    pub apart: bool,
}

/// A precondition solved: one of its branches has to hold, and a branch holds if its tests at all
/// stages do.
#[derive(Drop)]
pub struct Condition {
    pub stages: Vec<Stage>,
    pub branches: usize,
}

impl Condition {
    /// The precondition solved. Its last stage is that of the highest parameter that it mentions.
    pub fn of(alloc: Global, pre: &Term) -> Result<Condition, NoMemory>
        ensures { IfOk result (λ condition. IsSolved (term_tree pre.now) condition) }
    {
        let branches = branches_of(alloc, pre, true)?;
        let lists = branches.as_slice();
        let last = last_stage(lists)?;
        let stages = stages_of(alloc, lists, last)?;
        let number = branches.len();
        Ok(Condition {
            stages,
            branches: number,
        })
    }
}
