//! Values behind pointers of their own.
ghost use Rattle.std.specs.Prelude.{◌≡◌, IfOk};

use std::alloc::{AllocError, Global};

/// Both values behind pointers. Want of memory leaves neither.
pub fn boxed_pair<A: Drop, B: Drop>(
    alloc: Global,
    first: A,
    second: B,
) -> Result<(Box<A>, Box<B>), AllocError>
    ensures first { IfOk result (λ x. x.0.value ≡ first) }
    ensures second { IfOk result (λ x. x.1.value ≡ second) }
{
    let first = Box::new(alloc, first)?;
    let second = Box::new(alloc, second)?;
    Ok((first, second))
}
