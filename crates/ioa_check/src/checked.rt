//! A source that was checked.
ghost use Rattle.std.specs.Prelude.{◌≡◌};
ghost use Rattle.ioa_check.specs.Refusals.{IsMeant};
ghost use Rattle.ioa_check.specs.Resolutions.{meaning};

use crate::resolved::Resolved;
use std::marker::Model;

/// A source that was checked: what a readable source without faults means. Only `check` makes one.
#[derive(Drop)]
pub struct Checked {
    pub(crate) resolved: Resolved,
}

impl Model for Checked {
    ghost use Rattle.std.specs.Coded.{codes};
    ghost use Rattle.ioa_check.specs.declared.resolved.Resolved.{Resolved};
    ghost use Rattle.ioa_check.specs.Refusals.{IsMeant};
    ghost use Rattle.ioa_check.specs.Resolutions.{meaning};
    ghost use Rattle.ioa_typing.specs.contracts.kind.Kind as kind;
    ghost use Rattle.terms.specs.contracts.term.Term as term;
    ghost use Rattle.terms.specs.contracts.effect.Effect as effect;

    ghost Value = { Resolved };

    ghost coded = { Prim.hlevel
        (codes, kind.the_row.coded, term.the_row.coded, effect.the_row.coded) };

    ghost view = { λ c. c.resolved };

    ghost invariant = { λ c. IsMeant (meaning c.resolved) };
}

impl Checked {
    /// What the source means, without names.
    pub fn resolved(&self) -> &Resolved
        ensures same { result.now ≡ self.now }
        ensures meant { IsMeant (meaning self.now) }
    {
        &self.resolved
    }

    /// What the source means alone.
    pub fn into_resolved(self) -> Resolved
        ensures same { result ≡ self }
        ensures meant { IsMeant (meaning self) }
    {
        self.resolved
    }
}
