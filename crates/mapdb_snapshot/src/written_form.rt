//! Reading a snapshot in the form in which it is written: its text is looked at once, and no tree
//! of values is made of it.

ghost use Rattle.std.specs.Prelude.{◌≡◌, ◌∷◌, [], ◌++◌, true, All, IfOk, IfSome, Ok, OnOk};
ghost use Rattle.std.specs.Prelude.{drop, map, if◌then◌else◌};
ghost use Rattle.mapdb_facts.specs.Values.{IsSpace};
ghost use Rattle.mapdb_facts.specs.declared.operations.Op.TheVariants.{Born, Closed, Cut};
ghost use Rattle.mapdb_snapshot.specs.ComingBack.{FitsRow, IsRevocation};
ghost use Rattle.mapdb_snapshot.specs.Reading.{snapshot_of};
ghost use Rattle.mapdb_snapshot.specs.Snapshot.{cut_row, ended_row, list_of, record_row};
ghost use Rattle.mapdb_snapshot.specs.Snapshot.{snapshot_object};
ghost use Rattle.serde_json.specs.Written.{comma_if, compact_text};

use crate::faults::SNAPSHOT_VERSION;
use crate::scanned_rows::{cut_scanned, end_scanned, record_scanned};
use crate::scanning::{byte, bytes, number_before};
use mapdb_facts::{Op, Record, Revocation, Space};
use std::alloc::{AllocError, AllocFailed, Global};

/// Why a text was not read in this way.
#[derive(Clone, Copy, Debug, PartialEq, Eq)]
pub(crate) enum Unread {
    /// It has another form. It may be a snapshot all the same.
    OtherForm,
    /// Memory ran out.
    Memory,
}

impl From<AllocError> for Unread {
    ghost use Rattle.mapdb_snapshot.specs.declared.written_form.Unread.TheVariants as variant;

    ghost from_gives = { λ _ unread. unread ≡ variant.Memory };

    fn from(_refused: AllocError) -> Unread {
        Unread::Memory
    }
}

impl<T: Drop> From<AllocFailed<T>> for Unread {
    ghost use Rattle.mapdb_snapshot.specs.declared.written_form.Unread.TheVariants as variant;

    ghost from_gives = { λ _ unread. unread ≡ variant.Memory };

    fn from(_refused: AllocFailed<T>) -> Unread {
        Unread::Memory
    }
}

/// The three lists of a snapshot.
#[derive(Drop)]
struct Lists {
    /// What is revoked.
    cuts: Vec<Revocation>,
    /// The spaces that have ended.
    ended: Vec<Space>,
    /// The records.
    records: Vec<Record>,
}

/// Whether a row of the open list comes next: passes the comma before it, unless it is the first,
/// or the bracket that closes the list.
fn row_follows(text: &[u8], at: &mut usize, later: &mut bool) -> Option<bool>
    ensures text { IfSome result (λ follows. drop at.old text.now
        ≡ (if follows then comma_if later.old else 93 ∷ []) ++ drop at.new text.now) }
    ensures later { later.new ≡ true }
{
    let behind = *later;
    *later = true;
    if byte(text, at, b']').is_some() {
        return Some(false);
    }
    if behind {
        byte(text, at, b',')?;
    }
    Some(true)
}

/// The list of revocations that stands there.
fn cuts_scanned(alloc: Global, text: &[u8], at: &mut usize) -> Result<Vec<Revocation>, Unread>
    ensures list { IfOk result (λ cuts. drop at.old text.now
        ≡ compact_text (list_of (map cut_row cuts.items)) ++ drop at.new text.now) }
    ensures fits { IfOk result (λ cuts. All IsRevocation cuts.items) }
{
    let mut cuts = Vec::new(alloc);
    let mut later = false;
    byte(text, at, b'[').ok_or(Unread::OtherForm)?;
    'rows: while row_follows(text, at, &mut later).ok_or(Unread::OtherForm)? {
        cuts.push(cut_scanned(text, at).ok_or(Unread::OtherForm)?)?;
    }
    Ok(cuts)
}

/// The list of spaces that have ended that stands there.
fn ended_scanned(alloc: Global, text: &[u8], at: &mut usize) -> Result<Vec<Space>, Unread>
    ensures list { IfOk result (λ ended. drop at.old text.now
        ≡ compact_text (list_of (map ended_row ended.items)) ++ drop at.new text.now) }
    ensures fits { IfOk result (λ ended. All IsSpace ended.items) }
{
    let mut ended = Vec::new(alloc);
    let mut later = false;
    byte(text, at, b'[').ok_or(Unread::OtherForm)?;
    'rows: while row_follows(text, at, &mut later).ok_or(Unread::OtherForm)? {
        ended.push(end_scanned(text, at).ok_or(Unread::OtherForm)?)?;
    }
    Ok(ended)
}

/// The list of records that stands there.
fn records_scanned(alloc: Global, text: &[u8], at: &mut usize) -> Result<Vec<Record>, Unread>
    ensures list { IfOk result (λ records. drop at.old text.now
        ≡ compact_text (list_of (map record_row records.items)) ++ drop at.new text.now) }
    ensures fits { IfOk result (λ records. All FitsRow records.items) }
{
    let mut records = Vec::new(alloc);
    let mut later = false;
    byte(text, at, b'[').ok_or(Unread::OtherForm)?;
    'rows: while row_follows(text, at, &mut later).ok_or(Unread::OtherForm)? {
        records.push(record_scanned(text, at).ok_or(Unread::OtherForm)?)?;
    }
    Ok(records)
}

/// The lists of a text that has just the form in which snapshots are written.
fn lists_scanned(alloc: Global, text: &[u8]) -> Result<Lists, Unread>
    ensures text { IfOk result (λ lists. text.now
        ≡ compact_text (snapshot_object lists.cuts.items lists.ended.items lists.records.items)) }
    ensures cuts { IfOk result (λ lists. All IsRevocation lists.cuts.items) }
    ensures ended { IfOk result (λ lists. All IsSpace lists.ended.items) }
    ensures records { IfOk result (λ lists. All FitsRow lists.records.items) }
{
    let mut at = 0;
    bytes(text, &mut at, b"{\"cuts\":").ok_or(Unread::OtherForm)?;
    let cuts = cuts_scanned(alloc, text, &mut at)?;
    bytes(text, &mut at, b",\"ended\":").ok_or(Unread::OtherForm)?;
    let ended = ended_scanned(alloc, text, &mut at)?;
    bytes(text, &mut at, b",\"records\":").ok_or(Unread::OtherForm)?;
    let records = records_scanned(alloc, text, &mut at)?;
    bytes(text, &mut at, b",\"version\":").ok_or(Unread::OtherForm)?;
    let version = number_before(text, &mut at, u64::MAX, b'}').ok_or(Unread::OtherForm)?;
    if version != SNAPSHOT_VERSION || at != text.len() {
        return Err(Unread::OtherForm);
    }
    Ok(Lists {
        cuts,
        ended,
        records,
    })
}

impl Lists {
    /// The operations: the records, then the revocations, then the ends.
    fn ops(&self, alloc: Global) -> Result<Vec<Op>, AllocError>
        ensures { IfOk result (λ ops. ops.items ≡ map Born self.now.records.items
            ++ map Cut self.now.cuts.items ++ map Closed self.now.ended.items) }
    {
        let mut ops = Vec::new(alloc);
        push_born(&self.records, &mut ops)?;
        push_cut(&self.cuts, &mut ops)?;
        push_closed(&self.ended, &mut ops)?;
        Ok(ops)
    }
}

/// Adds the records to the operations.
fn push_born(records: &[Record], ops: &mut Vec<Op>) -> Result<(), AllocError>
    ensures { OnOk result (ops.new.items ≡ ops.old.items ++ map Born records.now) }
{
    for mapping in records {
        ops.push(Op::Born(*mapping))?;
    }
    Ok(())
}

/// Adds the revocations to the operations.
fn push_cut(cuts: &[Revocation], ops: &mut Vec<Op>) -> Result<(), AllocError>
    ensures { OnOk result (ops.new.items ≡ ops.old.items ++ map Cut cuts.now) }
{
    for cut in cuts {
        ops.push(Op::Cut(*cut))?;
    }
    Ok(())
}

/// Adds the ends of these spaces to the operations.
fn push_closed(ended: &[Space], ops: &mut Vec<Op>) -> Result<(), AllocError>
    ensures { OnOk result (ops.new.items ≡ ops.old.items ++ map Closed ended.now) }
{
    for space in ended {
        ops.push(Op::Closed(*space))?;
    }
    Ok(())
}

/// What a text says that has just the form in which snapshots are written.
pub(crate) fn written_read(alloc: Global, text: &[u8]) -> Result<Vec<Op>, Unread>
    ensures { IfOk result (λ ops. snapshot_of text.now ≡ Ok ops.items) }
{
    let lists = lists_scanned(alloc, text)?;
    Ok(lists.ops(alloc)?)
}
