//! Reading the operations of a batch of C's.

ghost use Rattle.std.specs.Prelude.{◌≡◌, ◌⊎◌, Ok, Err, IfOk, IfErr};
ghost use Rattle.mapdb_c.specs.Reading.{KeepsSome, operation_at, operations_from, unread_status};
ghost use Rattle.mapdb_c.specs.declared.reading.Unread.TheVariants.{Memory};

use crate::operations::{RawOperation, operation_of};
use crate::statuses::Status;
use mapdb_facts::Op;
use std::alloc::{AllocFailed, Global};

/// Why the operations of a batch are not read.
#[derive(Clone, Copy)]
pub enum Unread {
    /// The one at this place of the batch is none, for this. It is the first.
    Bad(Status, usize),
    /// Memory ran out.
    Memory,
}

impl Unread {
    /// The status of the batch.
    pub fn status(self) -> Status
        ensures { result ≡ unread_status self }
    {
        match self {
            Unread::Bad(why, _) => why,
            Unread::Memory => Status::Memory,
        }
    }
}

impl<T: Drop> From<AllocFailed<T>> for Unread {
    ghost use Rattle.std.specs.Prelude.{◌≡◌};
    ghost use Rattle.mapdb_c.specs.declared.reading.Unread.TheVariants.{Memory};

    ghost from_gives = { λ _ e. e ≡ Memory };

    fn from(_refused: AllocFailed<T>) -> Unread {
        Unread::Memory
    }
}

/// The operation at a place of the batch, or why it is none.
fn operation_at(raw: &RawOperation, place: usize) -> Result<Op, Unread>
    ensures { result ≡ operation_at place raw.now }
{
    operation_of(raw).map_err(|why| Unread::Bad(why, place))
}

/// The operations that those of C's say, or the first that is none. Memory may run out in place
/// of either, but only where an operation was read.
pub fn operations_of(alloc: Global, raws: &[RawOperation]) -> Result<Vec<Op>, Unread>
    ensures read { IfOk result (λ ops. operations_from 0 raws.now ≡ Ok ops.items) }
    ensures err { IfErr result (λ unread. ((unread ≡ Memory)
        × KeepsSome (operations_from 0 raws.now))
        ⊎ (operations_from 0 raws.now ≡ Err unread)) }
{
    let mut ops = Vec::new(alloc);
    for (place, raw) in raws.iter().enumerate() {
        let op = operation_at(raw, place)?;
        ops.push(op)?;
    }
    Ok(ops)
}
