//! Actions and their order.
ghost use Rattle.std.specs.Prelude.{◌≡◌, refl, IfOk};
ghost use Rattle.std.proofs.Common.{rules};
ghost use Rattle.std.specs.Cmp.Rules.{comparing};
ghost use Rattle.std.specs.Ordering.{as_partial_cmp, eq_by_cmp};
ghost use Rattle.terms.specs.contracts.scalar.ScalarOrd.TheImpl.Laws.{total-law as scalar_total};
ghost use Rattle.terms.specs.Orders.{action_cmp};

use crate::scalar::Scalar;
use smallvec::SmallVec;
use std::alloc::{AllocError, Global};
use std::cmp::Ordering;
use std::marker::Model;

/// An action: a name with arguments. Actions are ordered by name, then by their arguments from the left; a comparison
/// takes no memory.
#[derive(Drop)]
pub struct Action {
    /// The number of the name, from 0, where all action names are numbered in the order of their bytes.
    pub name: u16,
    /// The arguments, one for each parameter of the name. Up to two stand here; more take memory.
    pub args: SmallVec<Scalar, 2>,
}

impl Action {
    ghost use Rattle.terms.specs.Named.{Named};

    /// The action of this name with these arguments.
    pub fn new(name: u16, args: Vec<Scalar>) -> Action
        ensures { result ≡ record { name = name; args = args.items } }
    {
        Action {
            name,
            args: SmallVec::from_vec(args),
        }
    }

    /// The same, its arguments copied from where they stand.
    pub fn of_slice(alloc: Global, name: u16, args: &[Scalar]) -> Result<Action, AllocError>
        ensures { IfOk result (λ action. action ≡ record { name = name; args = args.now }) }
    {
        Ok(Action {
            name,
            args: SmallVec::from_slice(alloc, args)?,
        })
    }
}

impl Model for Action {
    ghost use Rattle.terms.specs.Named.{Named};

    ghost Value = { Named };

    ghost view = { λ a. record { name = a.name; args = a.args.items } };
}

impl Clone for Action {
    ghost is_clone = { λ a b. b ≡ a };

    fn clone(&self) -> Result<Action, AllocError> {
        Ok(Action {
            name: self.name,
            args: SmallVec::from_slice(*self.args.allocator(), self.args.as_slice())?,
        })
    }
}

impl PartialEq for Action {
    ghost eq = { eq_by_cmp (action_cmp ⟦<Scalar as Ord>⟧.cmp) };

    ghost laws = { Prim.search (comparing, rules, scalar_total) };

    fn eq(&self, other: &Action) -> bool {
        self.cmp(other).is_eq()
    }
}

impl Eq for Action {
    ghost laws = { Prim.search (comparing, rules, scalar_total) };
}

impl Ord for Action {
    ghost cmp = { action_cmp ⟦<Scalar as Ord>⟧.cmp };

    ghost total = { Prim.search (comparing, rules, scalar_total) };

    ghost matches_partial_cmp = { λ a b. refl };

    ghost matches_eq = { λ a b. refl };

    fn cmp(&self, other: &Action) -> Ordering {
        let by_name = self.name.cmp(&other.name);
        if by_name.is_eq() {
            return self.args.cmp(&other.args);
        }
        by_name
    }
}

impl PartialOrd for Action {
    ghost partial_cmp = { as_partial_cmp (action_cmp ⟦<Scalar as Ord>⟧.cmp) };

    ghost laws = { Prim.search (comparing, rules, scalar_total) };

    fn partial_cmp(&self, other: &Action) -> Option<Ordering> {
        Some(self.cmp(other))
    }
}
