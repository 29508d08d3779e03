//! What equality tells of two worlds. The function does nothing: its contract is the law.
ghost use Rattle.std.specs.Prelude.{◌≡◌, true};
ghost use Rattle.world.specs.Same.{HaveEqualParts};

use crate::world::World;
use rollback::Component;
use task_seed::{Setup, Turns};

/// Two worlds are equal exactly where their setups are, and their components one by one, and what is in flight, their bounds and their
/// committed turns are the same. Every world is equal to itself.
pub fn equal_world_law<T: Turns>(a: &World<T>, b: &World<T>)
    ensures parts { ⟦<World<T> as PartialEq>⟧.eq a.now b.now ≡ true →
        HaveEqualParts ⟦<Setup<T> as PartialEq>⟧.eq ⟦<Component<T> as PartialEq>⟧.eq a.now b.now }
    ensures equal { HaveEqualParts ⟦<Setup<T> as PartialEq>⟧.eq ⟦<Component<T> as PartialEq>⟧.eq
        a.now b.now → ⟦<World<T> as PartialEq>⟧.eq a.now b.now ≡ true }
    ensures same { a.now ≡ b.now → ⟦<World<T> as PartialEq>⟧.eq a.now b.now ≡ true }
{}
