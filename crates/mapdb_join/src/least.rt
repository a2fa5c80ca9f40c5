//! The least upper bound of two values, as a program can have it.

ghost use Rattle.std.specs.Prelude.{IfOk, IfSome, MatchOption, OnErr};
ghost use Rattle.mapdb_join.specs.Atoms.{IsLeastUpperBound, Clashes};

use crate::merge::Merge;
use std::alloc::AllocError;

/// The least value that covers both, or `None` where no value does. The only error is out of
/// memory, and it comes only where the two do not clash.
pub fn least_above<T: Merge>(a: &T, b: &T) -> Result<Option<T>, AllocError>
    ensures bound { IfOk result (λ o. IfSome o (λ c. IsLeastUpperBound T.has a.now b.now c)) }
    ensures none { IfOk result (λ o. MatchOption o
        (Clashes T.has T.excludes a.now b.now)
        (λ _. Clashes T.has T.excludes a.now b.now → ⊥)) }
    ensures err { OnErr result (Clashes T.has T.excludes a.now b.now → ⊥) }
{
    if let Some(_) = a.clash(b) {
        return Ok(None);
    }
    let mut bound = a.copy()?;
    match bound.merge(b) {
        Ok(()) => Ok(Some(bound)),
        Err(fault) => Err(fault.refusal()),
    }
}
