//! Why nothing is told of a snapshot.

use mapdb_replica::TakeFault;
use mapdb_snapshot::SnapshotFault;
use std::alloc::AllocError;

/// Why a text is no snapshot that a copy can hold. They are looked for in this order.
#[derive(Clone, Copy, Debug, PartialEq, Eq)]
pub enum LoadFault {
    /// The text is no snapshot. Running out of memory is never told so.
    Snapshot(SnapshotFault),
    /// A copy cannot take what the snapshot says: an operation is not well-formed, two different
    /// records have one name, or there are too many operations. Running out of memory is never
    /// told so.
    Take(TakeFault),
    /// Memory ran out. This can come in place of any other.
    Memory,
}

impl From<AllocError> for LoadFault {
    ghost use Rattle.std.specs.Prelude.{◌≡◌};
    ghost use Rattle.mapdb_picture.specs.declared.faults.LoadFault.TheVariants.{Memory};

    ghost from_gives = { λ _ fault. fault ≡ Memory };

    fn from(_refused: AllocError) -> LoadFault {
        LoadFault::Memory
    }
}

impl From<SnapshotFault> for LoadFault {
    ghost use Rattle.std.specs.Prelude.{◌≡◌};
    ghost use Rattle.mapdb_picture.specs.Loading.{of_snapshot_fault};

    ghost from_gives = { λ cause fault. fault ≡ of_snapshot_fault cause };

    fn from(cause: SnapshotFault) -> LoadFault {
        match cause {
            SnapshotFault::Memory => LoadFault::Memory,
            _ => LoadFault::Snapshot(cause),
        }
    }
}

impl From<TakeFault> for LoadFault {
    ghost use Rattle.std.specs.Prelude.{◌≡◌};
    ghost use Rattle.mapdb_picture.specs.Loading.{of_take_fault};

    ghost from_gives = { λ cause fault. fault ≡ of_take_fault cause };

    fn from(cause: TakeFault) -> LoadFault {
        match cause {
            TakeFault::Memory { .. } => LoadFault::Memory,
            _ => LoadFault::Take(cause),
        }
    }
}
