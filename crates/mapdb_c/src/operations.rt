//! Operations as C has them.

ghost use Rattle.std.specs.Prelude.{◌≡◌, ◌<◌};
ghost use Rattle.std.specs.declared.result.Result.TheVariants.{Ok};
ghost use Rattle.mapdb_facts.specs.declared.operations.Op.TheVariants.{Born, Closed, Cut};
ghost use Rattle.mapdb_c.specs.RawOperations.{HasProcessors, end_given, name_given, operation_of};
ghost use Rattle.mapdb_c.specs.RawOperations.{record_given, revocation_of, written_end};
ghost use Rattle.mapdb_c.specs.RawOperations.{written_operation, written_record};
ghost use Rattle.mapdb_c.specs.RawOperations.{written_revocation};

use crate::filling::ToRaw;
use crate::raw_places::{RawSpace, place_of, raw_space, rights_of, space_of};
use crate::statuses::Status;
use mapdb_facts::{Op, PROCESSOR_LIMIT, Record, RecordId, Revocation, Space};
use mapdb_fpage::PAGE_BYTES;

/// The kind of a record.
const RECORD: u32 = 1;

/// The kind of a revocation.
const REVOCATION: u32 = 2;

/// The kind of the end of a space.
const END: u32 = 3;

/// An operation, 64 bytes, as kernels may send it as it stands. A field that the kind does not use
/// is not looked at, and is written as 0.
#[repr(C)]
#[derive(Clone, Copy)]
pub struct RawOperation {
    /// What it is: 1 a record, 2 a revocation, 3 the end of a space.
    pub kind: u32,
    /// The rights of a record, or those that a revocation takes: 4 to read, 2 to write, 1 to
    /// execute, added up.
    pub rights: u32,
    /// The number of the record, or of the one that loses rights.
    pub number: u64,
    /// The number of a record's parent.
    pub parent_number: u64,
    /// The byte address of the record's place, or of the part that loses rights.
    pub address: u64,
    /// The first page of a record's source, by its number.
    pub source: u64,
    /// The space of a record, or the one that ends.
    pub space: RawSpace,
    /// The processor of the record, or of the one that loses rights.
    pub processor: u32,
    /// The processor of a record's parent.
    pub parent_processor: u32,
    /// The order of the place or part, which has `2^order` bytes.
    pub order: u32,
    /// Nothing.
    pub reserved: u32,
}

/// The name of a record, unless the processor is none.
fn name_of(number: u64, processor: u32) -> Result<RecordId, Status>
    ensures { result ≡ name_given number processor }
{
    if processor >= PROCESSOR_LIMIT as u32 {
        return Err(Status::BadProcessor);
    }
    Ok(RecordId::saturating(number, processor as u8))
}

/// The record of an operation of this kind.
fn record_of(raw: &RawOperation) -> Result<Op, Status>
    ensures { result ≡ record_given raw.now }
{
    let id = name_of(raw.number, raw.processor)?;
    let space = space_of(raw.space)?;
    let place = place_of(raw.address, raw.order)?;
    let parent = name_of(raw.parent_number, raw.parent_processor)?;
    let rights = rights_of(raw.rights)?;
    Ok(Op::Born(Record {
        id,
        space,
        place,
        parent,
        source: raw.source,
        rights,
    }))
}

/// The revocation of an operation of this kind.
fn revocation_of(raw: &RawOperation) -> Result<Op, Status>
    ensures { result ≡ revocation_of raw.now }
{
    let target = name_of(raw.number, raw.processor)?;
    let part = place_of(raw.address, raw.order)?;
    let rights = rights_of(raw.rights)?;
    Ok(Op::Cut(Revocation {
        target,
        part,
        rights,
    }))
}

/// The end of an operation of this kind.
fn end_of(raw: &RawOperation) -> Result<Op, Status>
    ensures { result ≡ end_given raw.now }
{
    let space = space_of(raw.space)?;
    Ok(Op::Closed(space))
}

/// The operation, or why it is none.
pub fn operation_of(raw: &RawOperation) -> Result<Op, Status>
    ensures { result ≡ operation_of raw.now }
{
    match raw.kind {
        RECORD => record_of(raw),
        REVOCATION => revocation_of(raw),
        END => end_of(raw),
        _ => Err(Status::BadKind),
    }
}

/// The record as C has it. It is read again as it was.
#[tactic(auto, using(crate::proofs::ComingBack::record_back))]
fn written_record(mapping: &Record) -> RawOperation
    ensures written { result ≡ written_record mapping.now }
    ensures back { mapping.now.id.processor < PROCESSOR_LIMIT
        → mapping.now.parent.processor < PROCESSOR_LIMIT
        → record_given result ≡ Ok (Born mapping.now) }
{
    RawOperation {
        kind: RECORD,
        rights: mapping.rights.bits() as u32,
        number: mapping.id.number(),
        parent_number: mapping.parent.number(),
        address: mapping.place.first_page() * PAGE_BYTES,
        source: mapping.source,
        space: raw_space(mapping.space),
        processor: mapping.id.processor() as u32,
        parent_processor: mapping.parent.processor() as u32,
        order: mapping.place.order() as u32,
        reserved: 0,
    }
}

/// The revocation as C has it. It is read again as it was.
#[tactic(auto, using(crate::proofs::ComingBack::revocation_back))]
fn written_revocation(cut: &Revocation) -> RawOperation
    ensures written { result ≡ written_revocation cut.now }
    ensures back { cut.now.target.processor < PROCESSOR_LIMIT
        → revocation_of result ≡ Ok (Cut cut.now) }
{
    RawOperation {
        kind: REVOCATION,
        rights: cut.rights.bits() as u32,
        number: cut.target.number(),
        parent_number: 0,
        address: cut.part.first_page() * PAGE_BYTES,
        source: 0,
        space: raw_space(Space::FIRST),
        processor: cut.target.processor() as u32,
        parent_processor: 0,
        order: cut.part.order() as u32,
        reserved: 0,
    }
}

/// The end of a space as C has it. It is read again as it was.
#[tactic(auto, using(crate::proofs::ComingBack::end_back))]
fn written_end(space: Space) -> RawOperation
    ensures written { result ≡ written_end space }
    ensures back { end_given result ≡ Ok (Closed space) }
{
    RawOperation {
        kind: END,
        rights: 0,
        number: 0,
        parent_number: 0,
        address: 0,
        source: 0,
        space: raw_space(space),
        processor: 0,
        parent_processor: 0,
        order: 0,
        reserved: 0,
    }
}

impl ToRaw for Op {
    type Raw = RawOperation;

    ghost raw = { written_operation };

    /// The operation as C has it. Where its processors are below 64, as those of each well-formed
    /// operation are, it is read again as it was.
    fn to_raw(&self) -> RawOperation
        ensures written { result ≡ written_operation self.now }
        ensures back { HasProcessors self.now → operation_of result ≡ Ok self.now }
    {
        match self {
            Op::Born(mapping) => written_record(mapping),
            Op::Cut(cut) => written_revocation(cut),
            Op::Closed(space) => written_end(*space),
        }
    }
}
