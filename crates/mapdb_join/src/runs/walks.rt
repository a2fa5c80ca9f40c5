//! Walks over the runs of one list.
ghost use Rattle.std.specs.Prelude.{IsTrue, ◌↔◌, OnOk, OnErr};
ghost use Rattle.mapdb_join.specs.Runs.{CoversAll, IsBothOf};
ghost use Rattle.mapdb_join.specs.Runs.{IsPartlyBoth, IsRuns};

use crate::runs::bounds::{BITS_LIMIT, RUN_LIMIT};
use crate::runs::regions::{add_region, has_over};
use crate::runs::starts::{Start, Starts, bits_before, starts_below};
use std::alloc::{AllocError, Global};

/// Whether each page has, of the first list, all bits that it has of the second.
pub(crate) fn covers_all(mine: &[Start], theirs: &[Start]) -> bool
    requires runs { IsRuns mine.now }
    requires others { IsRuns theirs.now }
    ensures { IsTrue result ↔ CoversAll mine.now theirs.now }
{
    for index in 1..theirs.len() {
        let start = theirs[index - 1];
        if !has_over(mine, start.page, theirs[index].page, start.bits) {
            return false;
        }
    }
    true
}

/// Adds all runs of the second list to the first. The only error is that memory ran out, and then
/// each page has its old bits, or those of both.
pub(crate) fn merge_all(
    mine: &mut Starts,
    alloc: Global,
    theirs: &[Start],
) -> Result<(), AllocError>
    requires runs { IsRuns mine.old.items }
    requires others { IsRuns theirs.now }
    ensures runs { IsRuns mine.new.items }
    ensures ok { OnOk result (IsBothOf mine.old.items theirs.now mine.new.items) }
    ensures err { OnErr result (IsPartlyBoth mine.old.items theirs.now mine.new.items) }
{
    for index in 1..theirs.len() {
        let start = theirs[index - 1];
        let _ = add_region(mine, alloc, start.page, theirs[index].page, start.bits)?;
    }
    Ok(())
}
