//! The theorem about every run of a cluster, each law the contract of a function that does nothing.

ghost use Rattle.mapdb_cluster.specs.Alone.{RunsAloneAreTrees};
ghost use Rattle.mapdb_cluster.specs.Honest.{HonestRuns};
ghost use Rattle.mapdb_cluster.specs.Laws.{CopiesAgree, CopyJoinIsLeast, NoEscalation};
ghost use Rattle.mapdb_cluster.specs.Laws.{SchedulesAreExact};
ghost use Rattle.mapdb_cluster.specs.Unmaps.{IssuersHaveTaken, UnmapsReach};

/// In every run, each copy holds exactly the atoms that it held before and those that it took, in
/// whatever order they came, and however often.
pub fn schedules_are_exact()
    ensures { SchedulesAreExact }
{}

/// Copies that took the same operations, in any order, repeated, or merged in any grouping, give
/// equal rights and are served from equal frames at every page of every space.
pub fn copies_agree()
    ensures { CopiesAgree }
{}

/// A copy that joins another one becomes the least that has what both held, and is refused as a
/// clash exactly where nothing sound has both.
pub fn join_is_least()
    ensures { CopyJoinIsLeast }
{}

/// No record of a copy has a right that its parent lacks at the source page.
pub fn no_escalation()
    ensures { NoEscalation }
{}

/// In every run without lists from outside, all that a copy holds and all that stands in a message
/// was issued by a copy of the run, a record by that of the processor in its name. No two different
/// records have one name, of one copy or of two; so no operation is refused as bad, nor for a
/// clash.
pub fn honest_runs()
    ensures { HonestRuns }
{}

/// Commands issued at one processor alone, into empty destinations, give exactly the manual's
/// sequential tree: each page of each space has the rights of the tree's node and no others, and is
/// served with them.
pub fn runs_alone_are_trees()
    ensures { RunsAloneAreTrees }
{}

/// In every run without lists from outside: once a copy has taken an Unmap, none of the named
/// rights is left there to what the issuer saw below the part as it issued, nor with a flush to the
/// space's own records there that it saw, nor to anything below, whether seen or not.
pub fn unmaps_reach()
    ensures { UnmapsReach }
{}

/// A copy that issues an Unmap has taken it.
pub fn issuers_have_taken()
    ensures { IssuersHaveTaken }
{}
