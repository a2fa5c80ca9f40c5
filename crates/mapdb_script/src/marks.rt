//! How much of each other's lists copies are known to hold. Lists only grow, and what is held stays
//! held: so what was found out of two copies stays true, and is not looked up again.

ghost use Rattle.std.specs.Prelude.{◌≡◌, ◌==◌, IfOk, List, length};
ghost use Rattle.mapdb_replica.specs.Agreement.{knows_all};
ghost use Rattle.mapdb_replica.specs.Replica.{Log};
ghost use Rattle.mapdb_script.specs.Marks.{AreMarks, HoldsFirst, IsMark, known_at};

use mapdb_facts::Op;
use mapdb_replica::Replica;
use std::alloc::{AllocError, Global};

/// A copy is known to hold so many first operations of another one's list.
#[derive(Clone, Copy, Debug)]
pub(crate) struct Mark {
    /// The place of the copy.
    pub(crate) at: usize,
    /// The place of the other one.
    pub(crate) other: usize,
    /// How many first operations of the other one's list the copy holds.
    pub(crate) known: usize,
}

/// Nothing is known of any two of so many copies: a row for each copy, with a number for each. An
/// error where memory ran out.
pub(crate) fn none_known(alloc: Global, count: usize) -> Result<Vec<Vec<usize>>, AllocError>
    ensures { IfOk result (λ rows. (copies : List Log) → AreMarks copies rows.items) }
{
    let mut rows = Vec::new(alloc);
    for _copy in 0..count {
        rows.push(vec![in alloc; 0; count]?)?;
    }
    Ok(rows)
}

/// How many first operations of another copy's list a copy is known to hold: none, where there is
/// no place for it. What is noted is a matter of speed alone.
pub(crate) fn known_of(rows: &[Vec<usize>], at: usize, other: usize) -> usize
    ensures { result ≡ known_at rows.now at other }
{
    let Some(row) = rows.get(at) else {
        return 0;
    };
    if other < row.len() { row[other] } else { 0 }
}

/// Notes a mark in place of what was noted of the two copies; or nothing, where there is no place
/// for it.
pub(crate) fn note(rows: &mut Vec<Vec<usize>>, mark: Mark)
    ensures { (copies : List Log) → AreMarks copies rows.old.items → IsMark copies mark
        → AreMarks copies rows.new.items }
{
    if mark.at >= rows.len() || mark.other >= rows[mark.at].len() {
        return;
    }
    rows[mark.at][mark.other] = mark.known;
}

/// How many first operations of the list the copy holds, which is known to hold so many of them:
/// all, or those in front of one that says something that is not held.
pub(crate) fn known_from(copy: &Replica, ops: &[Op], mark: usize) -> usize
    requires { HoldsFirst copy.now.ops mark ops.now }
    ensures known { HoldsFirst copy.now.ops result ops.now }
    ensures all { knows_all copy.now.ops ops.now ≡ (result == length ops.now) }
{
    let facts = copy.facts();
    let mut known = mark;
    'known: while known < ops.len() && !facts.is_new(&ops[known]) {
        known += 1;
    }
    known
}
