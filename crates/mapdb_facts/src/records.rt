//! The records that are held, one by one.

ghost use Rattle.std.specs.Iterator.{YieldsFirst, item_count};

use crate::holding::Facts;
use crate::names::RecordId;
use crate::operations::Record;
use std::iter::{FusedIterator, Iterator};
use std::marker::Model;

/// The records that facts hold, in ascending order of name, seen as the list of those that are
/// left.
#[derive(Drop)]
pub struct Records<'a> {
    /// Where they are held.
    pub(crate) facts: &'a Facts,
    /// The name of the last one that was given.
    pub(crate) after: Option<RecordId>,
}

impl<'a> Model for Records<'a> {
    ghost use Rattle.std.specs.Prelude.{List};
    ghost use Rattle.mapdb_facts.specs.Facts.{records_of_facts};
    ghost use Rattle.mapdb_facts.specs.Records.{behind};
    ghost use Rattle.mapdb_facts.specs.declared.operations.Record.{Record};

    ghost Value = { List Record };

    ghost view = { λ it. behind it.after (records_of_facts it.facts.now) };
}

impl<'a> Iterator for Records<'a> {
    type Item = Record;

    ghost next_gives = { YieldsFirst (λ rest. rest) };

    ghost remaining = { item_count (λ rest. rest) };

    fn next(&mut self) -> Option<Record> {
        let mapping = self.facts.next_record(self.after)?;
        self.after = Some(mapping.id);
        Some(mapping)
    }
}

impl<'a> FusedIterator for Records<'a> {}
