//! What may not follow from its parent any more.

ghost use Rattle.std.specs.Prelude.{◌≤◌, ◌<◌};
ghost use Rattle.mapdb_fpage.specs.Bounds.{page_limit};
ghost use Rattle.mapdb_facts.specs.Names.{number_limit};

use mapdb_facts::RecordId;

/// Pages of a record, from the first up to before the end, whose cached rights may not follow from
/// its parent's any more.
#[derive(Clone, Copy, Debug)]
pub struct Stale {
    /// The name of the record.
    pub id: RecordId,
    /// The first of the pages.
    pub first: u64,
    /// One past the last.
    pub end: u64,
    ghost limit: { end ≤ page_limit },
    ghost named: { id.number < number_limit },
}

/// No pages of the root. What a list has room for holds it.
impl Default for Stale {
    fn default() -> Stale {
        Stale {
            id: RecordId::ROOT,
            first: 0,
            end: 0,
        }
    }
}
