//! What is told of a snapshot that a reader has.

ghost use Rattle.std.specs.Prelude.{◌≡◌, ◌≤◌, ◌⊎◌, ℕ, List, Ok, Err, false, true, IfOk, IfErr};
ghost use Rattle.std.specs.Prelude.{OnOk, length, string_bytes};
ghost use Rattle.std.specs.Io.KnownBytes.{Appends, Consumes};
ghost use Rattle.mapdb_lines.specs.Limits.{line_limit};
ghost use Rattle.mapdb_lines.specs.Streams.{HasEnded};
ghost use Rattle.mapdb_program.specs.Snapshots.{IsFront, IsUnread, TellsSnapshot, answer_told};
ghost use Rattle.mapdb_program.specs.Statuses.{Blames};

use mapdb_facts::Space;
use mapdb_lines::{MOST_LINE_BYTES, READ_AHEAD, Sink, Source, write_all};
use mapdb_picture::{LoadFault, snapshot_explanation, snapshot_picture};
use std::alloc::{AllocError, Global};

/// What is asked of a snapshot.
#[derive(Clone, Copy, Debug, PartialEq, Eq)]
pub enum Asked {
    /// Its picture.
    Picture,
    /// Why a page of a space has what it has.
    Page {
        /// The space.
        space: Space,
        /// The number of the page.
        page: u64,
    },
}

/// Why nothing was told, or not all.
#[derive(Clone, Copy, Debug, PartialEq, Eq)]
pub enum TellFault {
    /// The reader failed.
    Read,
    /// The writer failed. A prefix of the text may stand.
    Write,
    /// The reader has more bytes than a line of a script may have.
    TooLong,
    /// What was read is no snapshot that a copy can hold, or memory ran out.
    Load(LoadFault),
}

impl From<AllocError> for TellFault {
    ghost use Rattle.std.specs.Prelude.{◌≡◌};
    ghost use Rattle.mapdb_program.specs.Snapshots.{tell_out_of_memory};

    ghost from_gives = { λ _ fault. fault ≡ tell_out_of_memory };

    fn from(_refused: AllocError) -> TellFault {
        TellFault::Load(LoadFault::Memory)
    }
}

impl From<LoadFault> for TellFault {
    ghost use Rattle.std.specs.Prelude.{◌≡◌};
    ghost use Rattle.mapdb_program.specs.declared.snapshots.TellFault.TheVariants.{Load};

    ghost from_gives = { λ cause fault. fault ≡ Load cause };

    fn from(cause: LoadFault) -> TellFault {
        TellFault::Load(cause)
    }
}

/// Reads all that is left, which may be as long as a line of a script. It stops where there is
/// more, and asks a reader that has ended no more.
fn read_all<R: Source>(alloc: Global, reader: &mut R) -> Result<Vec<u8>, TellFault>
    requires { R.has_failed reader.old ≡ false }
    ensures read { (input : List ℕ) × Consumes (R.left reader.old) (R.left reader.new) input
        × IfOk result (λ bytes. bytes.items ≡ input) × IfErr result (λ why. IsUnread why input) }
    ensures over { OnOk result (HasEnded (R.has_ended reader.new) (R.left reader.new)) }
    ensures short { IfOk result (λ bytes. length bytes.items ≤ line_limit) }
    ensures failed { result ≡ Err TellFault.Read → R.has_failed reader.new ≡ true }
    ensures works { (result ≡ Err TellFault.Read) ⊎ (R.has_failed reader.new ≡ false) }
    ensures once { R.has_failed reader.new ≡ true
        → R.has_ended reader.new ≡ R.has_ended reader.old }
{
    let mut piece = vec![in alloc; 0; READ_AHEAD]?;
    let mut input = Vec::new(alloc);
    'pieces: while input.len() <= MOST_LINE_BYTES {
        let count = match reader.read(piece.as_mut_slice()) {
            Ok(count) => count,
            Err(_) => return Err(TellFault::Read),
        };
        if count == 0 {
            return Ok(input);
        }
        input.extend_from_slice(&piece[..count])?;
    }
    Err(TellFault::TooLong)
}

/// What is asked of a snapshot's text, or why nothing is told.
fn told_text(alloc: Global, asked: Asked, bytes: &[u8]) -> Result<String, LoadFault>
    ensures text { IfOk result (λ text. answer_told asked bytes.now ≡ Ok (string_bytes text)) }
    ensures err { IfErr result (λ fault. (fault ≡ LoadFault.Memory)
        ⊎ (answer_told asked bytes.now ≡ Err fault)) }
{
    match asked {
        Asked::Picture => snapshot_picture(alloc, bytes),
        Asked::Page { space, page } => snapshot_explanation(alloc, bytes, space, page),
    }
}

/// Writes a text.
fn write_text<W: Sink>(writer: &mut W, text: &str) -> Result<(), TellFault>
    ensures told { (front : List ℕ) × Appends (W.written writer.old) (W.written writer.new) front
        × IsFront result text.now front }
    ensures write { result ≡ Err TellFault.Write → W.has_failed writer.new ≡ true }
    ensures works { (result ≡ Err TellFault.Write)
        ⊎ (W.has_failed writer.new ≡ W.has_failed writer.old) }
{
    write_all(writer, text.as_bytes()).map_err(|_| TellFault::Write)
}

/// Reads a snapshot, and writes what is asked of it. At Ok all was read and written. Where the text
/// is no snapshot that a copy can hold, or is too long, nothing is written.
pub fn tell_snapshot<R: Source, W: Sink>(
    alloc: Global,
    asked: Asked,
    reader: &mut R,
    writer: &mut W,
) -> Result<(), TellFault>
    requires reader_works { R.has_failed reader.old ≡ false }
    requires writer_works { W.has_failed writer.old ≡ false }
    ensures told { (input text : List ℕ) × Consumes (R.left reader.old) (R.left reader.new) input
        × Appends (W.written writer.old) (W.written writer.new) text
        × TellsSnapshot asked result input text
        (HasEnded (R.has_ended reader.new) (R.left reader.new)) }
    ensures blames { Blames TellFault.Read TellFault.Write result (R.has_failed reader.new)
        (W.has_failed writer.new) }
    ensures once { R.has_failed reader.new ≡ true
        → R.has_ended reader.new ≡ R.has_ended reader.old }
{
    let input = read_all(alloc, reader)?;
    let text = told_text(alloc, asked, input.as_slice())?;
    write_text(writer, text.as_str())
}
