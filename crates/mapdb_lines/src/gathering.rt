//! The bytes that were read ahead, and a line that is gathered from one piece after the other.

ghost use Rattle.std.specs.Prelude.{◌≡◌, ◌≤◌, ◌<◌, ◌++◌, [], ℕ, List, true};
ghost use Rattle.std.specs.Prelude.{vec_len, IfErr, IfOk, OnErr, OnOk, Ok, ◌⊎◌, drop};
ghost use Rattle.std.specs.Prelude.{IsErrOf, length, slice_range};
ghost use Rattle.std.specs.Io.KnownBytes.{Consumes, IsAtEnd};
ghost use Rattle.mapdb_lines.specs.Limits.{read_ahead};
ghost use Rattle.mapdb_lines.specs.Lines.{IsLineEnd, before, beyond};
ghost use Rattle.mapdb_lines.specs.Words.{is_filled};

use crate::limits::{MOST_LINE_BYTES, READ_AHEAD};
use crate::reading::{Progress, ReadFault};
use crate::streams::{Failed, Source};
use memchr::memchr;
use std::alloc::{AllocError, Global};

/// How many bytes stand before the first end of a line: all, where there is none. A line is long
/// enough for a search of many bytes at once, and a word is not.
#[tactic(auto, using(crate::proofs::LineLemmas::cut_at))]
fn len_of_line(bytes: &[u8]) -> usize
    ensures { IsLineEnd bytes.now result }
{
    memchr(b'\n', bytes).unwrap_or(bytes.len())
}

/// Where a line stands in a piece: its first byte, and one past its last.
#[derive(Clone, Copy, Debug)]
pub struct Span {
    first: usize,
    end: usize,
    ghost ordered: { first ≤ end },
    ghost within: { end ≤ read_ahead },
}

/// A line that is gathered from one piece after the other, and the bytes that were read ahead of
/// it, `piece[start..end]`.
#[derive(Drop)]
pub struct Gathering {
    line: Vec<u8>,
    piece: Vec<u8>,
    start: usize,
    end: usize,
    /// How many of the bytes ahead stand before the next end of a line: each end is looked for
    /// once.
    next: usize,
    ghost ordered: { start ≤ end },
    ghost within: { end ≤ vec_len piece },
    ghost room: { vec_len piece ≡ read_ahead },
    ghost ended: { IsLineEnd (slice_range piece.items start end) next },
}

impl Gathering {
    ghost use Rattle.mapdb_lines.specs.Gathering.{ahead_in, gathered, part_of};
    ghost use Rattle.mapdb_lines.specs.Reading.{IsNear, LeavesUnread, Reads};

    /// No line, and nothing ahead. The only error is that memory ran out.
    pub(crate) fn new(alloc: Global) -> Result<Self, AllocError>
        ensures { IfOk result (λ r. (ahead_in r ≡ []) × (gathered r ≡ [])) }
    {
        let piece = vec![in alloc; 0; READ_AHEAD]?;
        Ok(Gathering {
            line: Vec::new(alloc),
            piece,
            start: 0,
            end: 0,
            next: 0,
        })
    }

    /// The line that was gathered last.
    pub(crate) fn line(&self) -> &[u8]
        ensures { result.now ≡ gathered self.now }
    {
        self.line.as_slice()
    }

    /// Whether the end of the next line was read already: then the line is there without a read.
    pub(crate) fn has_line(&self) -> bool
        ensures { result ≡ is_filled (beyond 10 (ahead_in self.now)) }
    {
        self.next < self.end - self.start
    }

    /// What stands in the piece at a span.
    pub(crate) fn part(&self, span: Span) -> &[u8]
        ensures { result.now ≡ part_of self.now span }
    {
        &self.piece[span.first..span.end]
    }

    /// Passes the next line, whose end was read already, and tells where it stands: it is not
    /// moved.
    pub(crate) fn pass_line(&mut self) -> Span
        requires { is_filled (beyond 10 (ahead_in self.old)) ≡ true }
        ensures line { part_of self.new result ≡ before 10 (ahead_in self.old) }
        ensures ahead { ahead_in self.new ≡ drop 1 (beyond 10 (ahead_in self.old)) }
    {
        let first = self.start;
        let end = first + self.next;
        self.start = end + 1;
        self.next = len_of_line(&self.piece[self.start..self.end]);
        Span { first, end }
    }

    /// Moves the bytes ahead into the line, up to the line's end, and says whether it was there.
    /// Where memory runs out, none are moved.
    #[cold]
    #[tactic(auto, using(crate::proofs::LineLemmas::dropped))]
    fn take_ahead(&mut self) -> Result<bool, AllocError>
        ensures line { OnOk result (gathered self.new
            ≡ gathered self.old ++ before 10 (ahead_in self.old)) }
        ensures ahead { OnOk result (ahead_in self.new ≡ drop 1 (beyond 10 (ahead_in self.old))) }
        ensures found { IfOk result (λ found. found ≡ is_filled (beyond 10 (ahead_in self.old))) }
        ensures kept { OnErr result (ahead_in self.new ≡ ahead_in self.old) }
        ensures line_kept { OnErr result (gathered self.new ≡ gathered self.old) }
    {
        let len = self.next;
        let ahead = &self.piece[self.start..self.end];
        self.line.extend_from_slice(&ahead[..len])?;
        let found = len < ahead.len();
        self.start += if found { len + 1 } else { len };
        self.next = len_of_line(&self.piece[self.start..self.end]);
        Ok(found)
    }

    /// Reads the next piece, once nothing is ahead, and says how many bytes it has.
    #[cold]
    fn refill<R: Source>(&mut self, reader: &mut R) -> Result<usize, Failed>
        requires { ahead_in self.old ≡ [] }
        ensures line { gathered self.new ≡ gathered self.old }
        ensures bytes { OnOk result (Consumes (R.left reader.old) (R.left reader.new)
            (ahead_in self.new)) }
        ensures count { IfOk result (λ n. n ≡ length (ahead_in self.new)) }
        ensures ended { result ≡ Ok 0 → R.has_ended reader.new ≡ true }
        ensures over { result ≡ Ok 0 → IsAtEnd (R.left reader.new) }
        ensures failed { OnErr result (R.has_failed reader.new ≡ true) }
        ensures kept { OnErr result (Consumes (R.left reader.old) (R.left reader.new) []) }
        ensures works { OnOk result (R.has_failed reader.new ≡ R.has_failed reader.old) }
        ensures some { IfOk result (λ n. 0 < n → R.has_ended reader.new ≡ R.has_ended reader.old) }
        ensures once { OnErr result (R.has_ended reader.new ≡ R.has_ended reader.old) }
    {
        let count = reader.read(self.piece.as_mut_slice())?;
        self.start = 0;
        self.end = count;
        self.next = len_of_line(&self.piece[..count]);
        Ok(count)
    }

    /// Gathers the next line, which [`Gathering::line`] then has, as [`Reading::advance`] does.
    #[cold]
    pub(crate) fn gather<R: Source>(&mut self, reader: &mut R) -> Result<Progress, ReadFault>
        ensures bytes { (more : List ℕ) × Consumes (R.left reader.old) (R.left reader.new) more
            × IfOk result (λ p. Reads (ahead_in self.old
            ++ more) p (gathered self.new) (ahead_in self.new)
            × IsNear (ahead_in self.old ++ more) p (gathered self.new) (ahead_in self.new))
            × IfErr result (λ fault. LeavesUnread fault (ahead_in self.old ++ more)) }
        ensures ended { IfOk result (λ p. (p ≡ Progress.Last ⊎ p ≡ Progress.Nothing)
            → R.has_ended reader.new ≡ true) }
        ensures over { IfOk result (λ p. (p ≡ Progress.Last ⊎ p ≡ Progress.Nothing)
            → IsAtEnd (R.left reader.new)) }
        ensures failed { IsErrOf result ReadFault.Failed → R.has_failed reader.new ≡ true }
        ensures goes_on { IfOk result (λ p. (p ≡ Progress.Whole ⊎ p ≡ Progress.TooLong)
            → R.has_ended reader.new ≡ R.has_ended reader.old) }
        ensures once { OnErr result (R.has_ended reader.new ≡ R.has_ended reader.old) }
        ensures works { IsErrOf result ReadFault.Failed
            ⊎ R.has_failed reader.new ≡ R.has_failed reader.old }
    {
        self.line.clear();
        loop {
            let found = self.take_ahead()?;
            if self.line.len() > MOST_LINE_BYTES {
                return Ok(Progress::TooLong);
            }
            if found {
                return Ok(Progress::Whole);
            }
            if self.refill(reader)? == 0 {
                return Ok(if self.line.is_empty() {
                    Progress::Nothing
                } else {
                    Progress::Last
                });
            }
        }
    }
}
