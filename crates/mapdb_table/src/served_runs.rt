//! Runs of pages that are served alike, among the steady pages of a space.

ghost use Rattle.std.specs.Prelude.{◌≡◌, ◌<◌, ◌-◌, ℕ, Option, drop, length};
ghost use Rattle.mapdb_fpage.specs.Bounds.{page_limit};
ghost use Rattle.mapdb_replica.specs.Pairs.{Pair};
ghost use Rattle.mapdb_replica.specs.Running.{IsRunEnd, IsSteadyPart, continues};
ghost use Rattle.mapdb_rights.specs.ShownSpaces.{CoverPages};

use mapdb_replica::continues;
use mapdb_rights::SteadyPages;

/// Where a run of pages ends.
#[derive(Clone, Copy, Debug)]
pub struct RunEnd {
    /// One past the last page of the run.
    pub end: u64,
    /// The index of the first part behind it; the number of parts where there is none.
    pub behind: usize,
}

/// Whether what the first pages are served from, which goes on up to an end, goes on in those from
/// there on.
fn goes_on(first: &SteadyPages, end: u64, next: &SteadyPages) -> bool
    ensures { result ≡ continues first.now.served (end - first.now.page) next.now.served }
{
    continues(first.served, end.saturating_sub(first.page), next.served)
}

/// The run that begins with one of the parts, as far as the next ones go on in it. The parts go on
/// up to the end of the space.
pub fn run_from(parts: &[SteadyPages], place: usize) -> RunEnd
    requires { place < length parts.now }
    ensures fewer { place < result.behind }
    ensures run { (f : ℕ → Option Pair) (page : ℕ)
        → CoverPages (IsSteadyPart f) page page_limit (drop place parts.now)
        → IsRunEnd f page result.end }
    ensures rest { (f : ℕ → Option Pair) (page : ℕ)
        → CoverPages (IsSteadyPart f) page page_limit (drop place parts.now)
        → CoverPages (IsSteadyPart f) result.end page_limit (drop result.behind parts.now) }
{
    let first = parts[place];
    let mut end = first.end;
    let mut behind = place + 1;
    'parts: while behind < parts.len() && goes_on(&first, end, &parts[behind]) {
        end = parts[behind].end;
        behind += 1;
    }
    RunEnd { end, behind }
}
