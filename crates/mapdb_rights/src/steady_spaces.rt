//! How far all records of a space go on from a page, found by going over all records.

ghost use Rattle.std.specs.Prelude.{◌≡◌, ◌≤◌, ◌<◌, true};
ghost use Rattle.mapdb_facts.specs.Facts.{state_of_facts};
ghost use Rattle.mapdb_facts.specs.Names.{is_first_space, root, same_space};
ghost use Rattle.mapdb_rights.specs.Live.{ShowUntil};
ghost use Rattle.mapdb_rights.specs.Steady.{IsSteady};

use crate::steady_pages::steady_until;
use mapdb_facts::{Facts, Record, RecordId, Space};
use mapdb_fpage::PAGE_LIMIT;

/// How far the root goes on, where it is of the space.
fn root_until(facts: &Facts, space: Space, page: u64) -> u64
    requires { page < PAGE_LIMIT }
    ensures above { page < result }
    ensures limit { result ≤ PAGE_LIMIT }
    ensures steady { is_first_space space ≡ true
        → IsSteady (state_of_facts facts.now) root page result }
{
    if space.is_first() {
        steady_until(facts, RecordId::ROOT, page)
    } else {
        PAGE_LIMIT
    }
}

/// How far a record goes on, where it is of the space.
fn record_until(facts: &Facts, space: Space, page: u64, mapping: &Record) -> u64
    requires { page < PAGE_LIMIT }
    ensures above { page < result }
    ensures limit { result ≤ PAGE_LIMIT }
    ensures steady { same_space mapping.now.space space ≡ true
        → IsSteady (state_of_facts facts.now) mapping.now.id page result }
{
    if mapping.space.is(space) {
        steady_until(facts, mapping.id, page)
    } else {
        PAGE_LIMIT
    }
}

/// The end of pages, from one on, over which each record of the space, in the first space the root
/// too, has equal rights, and where it has some, a frame that rises by one with each page. It takes
/// no memory, and goes over all records.
pub fn show_until(facts: &Facts, space: Space, page: u64) -> u64
    requires { page < PAGE_LIMIT }
    ensures above { page < result }
    ensures limit { result ≤ PAGE_LIMIT }
    ensures shown { ShowUntil (state_of_facts facts.now) space page result }
{
    let mut end = root_until(facts, space, page);
    for mapping in facts.records() {
        end = end.min(record_until(facts, space, page, &mapping));
    }
    end
}
