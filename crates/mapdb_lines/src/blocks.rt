//! Replies that wait until there is a block of them.

ghost use Rattle.std.specs.Prelude.{◌≡◌, ◌≤◌, ◌+◌, ◌++◌, [], ℕ, List, true, length, vec_len, IfOk};
ghost use Rattle.std.specs.Prelude.{OnOk, OnErr};
ghost use Rattle.mapdb_lines.specs.Fronts.{BeginsWith};
ghost use Rattle.mapdb_lines.specs.declared.limits.TheConstants.{BLOCK_BYTES};

use crate::limits::BLOCK_BYTES;
use crate::streams::{Failed, Sink};
use crate::writing::write_all;
use std::alloc::{AllocError, Global};

/// Bytes that wait to be written, `piece[start..end]`: a writer is asked once for many replies.
#[derive(Drop)]
pub struct Block {
    piece: Vec<u8>,
    start: usize,
    end: usize,
    ghost ordered: { start ≤ end },
    ghost within: { end ≤ vec_len piece },
    ghost room: { vec_len piece ≡ BLOCK_BYTES },
}

impl Block {
    ghost use Rattle.mapdb_lines.specs.Blocks.{Passes, waiting};

    /// Nothing waits. The only error is that memory ran out.
    pub fn new(alloc: Global) -> Result<Self, AllocError>
        ensures { IfOk result (λ block. waiting block ≡ []) }
    {
        let piece = vec![in alloc; 0; BLOCK_BYTES]?;
        Ok(Block {
            piece,
            start: 0,
            end: 0,
        })
    }

    /// Writes all that waits, or fails with a prefix of it written; the rest waits then.
    #[cold]
    pub fn flush<W: Sink>(&mut self, writer: &mut W) -> Result<(), Failed>
        ensures told { Passes (W.written writer.old) (W.written writer.new) (waiting self.old)
            (waiting self.new) [] }
        ensures empty { OnOk result (waiting self.new ≡ []) }
        ensures room { OnOk result (self.new.end ≡ 0) }
        ensures kept { OnOk result (W.has_failed writer.new ≡ W.has_failed writer.old) }
        ensures failed { OnErr result (W.has_failed writer.new ≡ true) }
        ensures asked { OnErr result (waiting self.old ≡ [] → ⊥) }
    {
        while self.start < self.end {
            self.start += writer.write(&self.piece[self.start..self.end])?;
        }
        self.start = 0;
        self.end = 0;
        Ok(())
    }

    /// Has the text wait, for which there is room.
    fn add(&mut self, text: &[u8])
        requires room { self.old.end + length text.now ≤ BLOCK_BYTES }
        ensures { waiting self.new ≡ waiting self.old ++ text.now }
    {
        let end = self.end + text.len();
        self.piece[self.end..end].copy_from_slice(text);
        self.end = end;
    }

    /// Has the text wait behind what waits already, or writes both. It fails with a prefix of them
    /// written.
    pub fn put<W: Sink>(&mut self, writer: &mut W, text: &[u8]) -> Result<(), Failed>
        ensures ok { OnOk result (Passes (W.written writer.old) (W.written writer.new)
            (waiting self.old) (waiting self.new) text.now) }
        ensures kept { OnOk result (W.has_failed writer.new ≡ W.has_failed writer.old) }
        ensures err { OnErr result ((part : List ℕ) × BeginsWith text.now part
            × Passes (W.written writer.old) (W.written writer.new) (waiting self.old)
            (waiting self.new) part) }
        ensures failed { OnErr result (W.has_failed writer.new ≡ true) }
    {
        if text.len() > BLOCK_BYTES - self.end {
            self.flush(writer)?;
            if text.len() > BLOCK_BYTES {
                return write_all(writer, text);
            }
        }
        self.add(text);
        Ok(())
    }
}
