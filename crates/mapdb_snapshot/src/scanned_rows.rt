//! The rows of a snapshot, in the form in which they are written.

ghost use Rattle.std.specs.Prelude.{◌≡◌, ◌∷◌, ◌++◌, IfSome, decimal, drop};
ghost use Rattle.mapdb_fpage.specs.Place.{IsPlace};
ghost use Rattle.mapdb_fpage.specs.RightSets.{bits_of};
ghost use Rattle.mapdb_facts.specs.Values.{IsId, IsSpace};
ghost use Rattle.mapdb_snapshot.specs.ComingBack.{FitsRow, IsRevocation};
ghost use Rattle.mapdb_snapshot.specs.Snapshot.{cut_row, ended_row, record_row};
ghost use Rattle.serde_json.specs.Written.{compact_text};

use crate::scanning::{byte, number_before};
use mapdb_facts::{NAME_NUMBERS, Record, RecordId, Revocation, Space};
use mapdb_fpage::{Fpage, PAGE_BYTES, PAGE_LIMIT, Rights};

/// The name that stands there, with a comma behind it.
fn name(text: &[u8], at: &mut usize) -> Option<RecordId>
    ensures name { IfSome result (λ id. drop at.old text.now
        ≡ decimal id.number ++ 44 ∷ (decimal id.processor ++ 44 ∷ drop at.new text.now)) }
    ensures is { IfSome result IsId }
{
    let number = number_before(text, at, NAME_NUMBERS - 1, b',')?;
    let processor = number_before(text, at, u64::from(u8::MAX), b',')?;
    Some(RecordId::new(number, processor as u8))
}

/// The space that stands there, with this byte behind it.
fn space(text: &[u8], at: &mut usize, behind: u8) -> Option<Space>
    ensures space { IfSome result (λ space. drop at.old text.now
        ≡ decimal space.number ++ 44 ∷ (decimal space.version ++ behind ∷ drop at.new text.now)) }
    ensures is { IfSome result IsSpace }
{
    let number = number_before(text, at, u64::from(u16::MAX), b',')?;
    let version = number_before(text, at, u64::from(u32::MAX), behind)?;
    Some(Space {
        number: number as u16,
        version: version as u32,
    })
}

/// The place that stands there by its first page and its order, with a comma behind it.
fn place(text: &[u8], at: &mut usize) -> Option<Fpage>
    ensures place { IfSome result (λ place. drop at.old text.now
        ≡ decimal place.first_page ++ 44 ∷ (decimal place.order ++ 44 ∷ drop at.new text.now)) }
    ensures is { IfSome result IsPlace }
{
    let page = number_before(text, at, PAGE_LIMIT - 1, b',')?;
    let order = number_before(text, at, u64::from(u8::MAX), b',')?;
    Fpage::new(page * PAGE_BYTES, order as u8).ok()
}

/// The rights that stand there, with a row's closing bracket behind them.
fn rights(text: &[u8], at: &mut usize) -> Option<Rights>
    ensures { IfSome result (λ rights. drop at.old text.now
        ≡ decimal (bits_of rights) ++ 93 ∷ drop at.new text.now) }
{
    let bits = number_before(text, at, 7, b']')?;
    Rights::from_bits(bits as u8)
}

/// The record whose row stands there.
pub(crate) fn record_scanned(text: &[u8], at: &mut usize) -> Option<Record>
    ensures row { IfSome result (λ mapping. drop at.old text.now
        ≡ compact_text (record_row mapping) ++ drop at.new text.now) }
    ensures fits { IfSome result FitsRow }
{
    byte(text, at, b'[')?;
    let id = name(text, at)?;
    let space = space(text, at, b',')?;
    let place = place(text, at)?;
    let parent = name(text, at)?;
    let source = number_before(text, at, PAGE_LIMIT - 1, b',')?;
    let rights = rights(text, at)?;
    Some(Record {
        id,
        space,
        place,
        parent,
        source,
        rights,
    })
}

/// The revocation whose row stands there.
pub(crate) fn cut_scanned(text: &[u8], at: &mut usize) -> Option<Revocation>
    ensures row { IfSome result (λ cut. drop at.old text.now
        ≡ compact_text (cut_row cut) ++ drop at.new text.now) }
    ensures fits { IfSome result IsRevocation }
{
    byte(text, at, b'[')?;
    let target = name(text, at)?;
    let part = place(text, at)?;
    let rights = rights(text, at)?;
    Some(Revocation {
        target,
        part,
        rights,
    })
}

/// The space that has ended whose row stands there.
pub(crate) fn end_scanned(text: &[u8], at: &mut usize) -> Option<Space>
    ensures row { IfSome result (λ space. drop at.old text.now
        ≡ compact_text (ended_row space) ++ drop at.new text.now) }
    ensures fits { IfSome result IsSpace }
{
    byte(text, at, b'[')?;
    space(text, at, b']')
}
