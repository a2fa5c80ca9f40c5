//! Lists of places where the bits of pages change.
ghost use Rattle.std.specs.Prelude.{◌≡◌, ◌+◌, ◌≤◌, ◌<◌, length, take, IfNone, IfOk, IfSome};
ghost use Rattle.mapdb_join.specs.Runs.{Ascends, HasNothingFrom, IsLeastRun, IsRunAt, IsRuns};
ghost use Rattle.mapdb_join.specs.Runs.{bits_after, count_below, last_bits};

use crate::runs::bounds::RUN_LIMIT;
use smallvec::SmallVec;
use std::alloc::{AllocError, Global};

/// Starts of runs: those of one run take no memory besides.
pub(crate) type Starts = SmallVec<Start, 2>;

/// The first page of a run, and the bits of each page from there to the next start.
#[derive(Clone, Copy, Debug, Default, PartialEq, Eq, Drop)]
pub(crate) struct Start {
    /// The first page.
    pub(crate) page: u64,
    /// The bits of each page.
    pub(crate) bits: u8,
}

/// How many starts are below the page.
pub(crate) fn starts_below(starts: &[Start], page: u64) -> usize
    requires { Ascends 0 starts.now }
    ensures count { result ≡ count_below starts.now page }
    ensures bound { result ≤ length starts.now }
{
    starts.partition_point(|start| start.page < page)
}

/// The bits of the start in front of an index, and those given in front of all.
pub(crate) fn bits_before(before: u8, starts: &[Start], index: usize) -> u8
    requires { index ≤ length starts.now }
    ensures { result ≡ last_bits before (take index starts.now) }
{
    if index == 0 {
        before
    } else {
        starts[index - 1].bits
    }
}

/// The bits of the page.
pub(crate) fn bits_at(starts: &[Start], page: u64) -> u8
    requires { IsRuns starts.now }
    ensures { result ≡ bits_after 0 starts.now page }
{
    if page >= RUN_LIMIT {
        return 0;
    }
    bits_before(0, starts, starts_below(starts, page + 1))
}

/// Where the least run begins whose last page is not below a page.
pub(crate) fn run_index(starts: &[Start], page: u64) -> Option<usize>
    requires { IsRuns starts.now }
    ensures none { IfNone result (HasNothingFrom page starts.now) }
    ensures bound { IfSome result (λ index. index + 1 < length starts.now) }
    ensures some { IfSome result (λ index. IsRunAt starts.now page index) }
{
    if page >= RUN_LIMIT {
        return None;
    }
    let index = starts_below(starts, page + 1);
    if bits_before(0, starts, index) != 0 {
        return Some(index - 1);
    }
    if index < starts.len() {
        return Some(index);
    }
    None
}

/// The least run whose last page is not below a page: its first page, how many pages it has, and
/// their bits.
pub(crate) fn least_run(starts: &[Start], page: u64) -> Option<(u64, u64, u8)>
    requires { IsRuns starts.now }
    ensures none { IfNone result (HasNothingFrom page starts.now) }
    ensures some { IfSome result (λ run. IsLeastRun starts.now page run.0 run.1 run.2) }
{
    let index = run_index(starts, page)?;
    let start = starts[index];
    let end = starts[index + 1].page;
    Some((start.page, end - start.page, start.bits))
}

/// The same starts.
pub(crate) fn copy_of(alloc: Global, starts: &[Start]) -> Result<Starts, AllocError>
    ensures { IfOk result (λ copy. copy.items ≡ starts.now) }
{
    SmallVec::from_slice(alloc, starts)
}
