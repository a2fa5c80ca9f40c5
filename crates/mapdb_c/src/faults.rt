//! The statuses of faults.

ghost use Rattle.std.specs.Prelude.{◌≡◌};
ghost use Rattle.mapdb_c.specs.FaultStatuses.{issue_status, item_status, op_status, place_status};
ghost use Rattle.mapdb_c.specs.FaultStatuses.{word_status};

use crate::statuses::Status;
use mapdb_facts::OpFault;
use mapdb_fpage::{FpageFault, ItemFault, WordFault};
use mapdb_replica::IssueFault;

/// The status of a place that is none.
pub fn place_status(fault: FpageFault) -> Status
    ensures { result ≡ place_status fault }
{
    match fault {
        FpageFault::TooSmall => Status::TooSmall,
        FpageFault::TooLarge => Status::TooLarge,
        FpageFault::OutOfSpace => Status::OutOfSpace,
        FpageFault::Unaligned => Status::Unaligned,
    }
}

/// The status of a word that is none.
pub fn word_status(fault: WordFault) -> Status
    ensures { result ≡ word_status fault }
{
    match fault {
        WordFault::ReservedBit => Status::ReservedBit,
        WordFault::Page(fault) => place_status(fault),
    }
}

/// The status of words that are no map item.
pub fn item_status(fault: ItemFault) -> Status
    ensures { result ≡ item_status fault }
{
    match fault {
        ItemFault::Grant => Status::Grant,
        ItemFault::NotMapItem => Status::NotMapItem,
        ItemFault::ReservedBits => Status::ReservedBits,
        ItemFault::Word(fault) => word_status(fault),
    }
}

/// The status of an operation that is not well-formed.
pub fn op_status(fault: OpFault) -> Status
    ensures { result ≡ op_status fault }
{
    match fault {
        OpFault::BadNumber => Status::BadNumber,
        OpFault::BadProcessor => Status::BadProcessor,
        OpFault::ParentNotBefore => Status::ParentNotBefore,
        OpFault::SourceUnaligned => Status::SourceUnaligned,
        OpFault::RootSpace => Status::RootSpace,
        OpFault::PageOutOfSpace => Status::PageOutOfSpace,
    }
}

/// The status of a command that is refused.
pub fn issue_status(fault: IssueFault) -> Status
    ensures { result ≡ issue_status fault }
{
    match fault {
        IssueFault::SpaceEnded(_) => Status::SpaceEnded,
        IssueFault::RootSpace => Status::RootSpace,
        IssueFault::NumbersSpent => Status::NumbersSpent,
        IssueFault::Full => Status::Full,
        IssueFault::Memory { issued: _ } => Status::Memory,
    }
}
