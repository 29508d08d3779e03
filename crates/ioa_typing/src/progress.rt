//! How far a check has come, and the least fault so far.
ghost use Rattle.std.specs.Prelude.{◌≡◌, Bool};
ghost use Rattle.ioa_trees.specs.Faults as rule;
ghost use Rattle.ioa_typing.specs.FaultNumbers.{fault_number};
ghost use Rattle.ioa_typing.specs.Noted.{AreNoted};
ghost use Rattle.ioa_typing.specs.TermViews.{least_tree};

use crate::fault::{Fault, FaultKind};

/// The number of the next token, and the least fault so far.
#[derive(Clone, Copy)]
pub struct Progress {
    pub at: u32,
    pub least: Option<Fault>,
}

impl Progress {
    /// Notes a fault, if it comes before the least so far.
    pub fn note(&mut self, place: u32, kind: FaultKind)
        ensures at { self.new.at ≡ self.old.at }
        ensures least { least_tree self.new.least
            ≡ rule.note (record { place = place; number = fault_number kind })
            (least_tree self.old.least) }
    {
        let fault = Fault { place, kind };
        match self.least {
            Some(other) => {
                if fault.is_before(other) {
                    self.least = Some(fault);
                }
            }
            None => self.least = Some(fault),
        }
    }

    /// Notes a fault where something is wrong.
    pub fn note_if(&mut self, wrong: bool, place: u32, kind: FaultKind)
        ensures at { self.new.at ≡ self.old.at }
        ensures least { AreNoted self.old self.new
            (rule.where_wrong wrong place (fault_number kind)) }
    {
        if wrong {
            self.note(place, kind);
        }
    }
}
