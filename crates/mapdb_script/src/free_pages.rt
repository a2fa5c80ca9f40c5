//! Whether a Map goes into pages that show nothing yet.

ghost use Rattle.std.specs.Prelude.{◌≡◌, ◌≤◌, ◌<◌, ◌+◌, ◌↔◌, ℕ, IsTrue, Some, false, true};
ghost use Rattle.mapdb_fpage.specs.Place.{page_total};
ghost use Rattle.mapdb_replica.specs.Served.{served};
ghost use Rattle.mapdb_script.specs.Standing.{IsFreeTarget, sent_page, shares};

use mapdb_facts::Space;
use mapdb_fpage::{PAGE_LIMIT, Rights, Transfer};
use mapdb_replica::Replica;

/// Whether what a page is served from shares a right with an item.
fn shares(found: Option<(u64, Rights)>, rights: Rights) -> bool
    ensures { result ≡ shares found rights }
{
    match found {
        Some((_, held)) => !held.meet(&rights).is_none(),
        None => false,
    }
}

/// The number of the sender's page that goes to this page of the target.
fn sent_page(carried: &Transfer, number: u64) -> u64
    requires order { carried.now.source.order ≡ carried.now.target.order }
    requires first { carried.now.target.first_page ≤ number }
    requires last { number < carried.now.target.first_page + page_total carried.now.target }
    ensures is { result ≡ sent_page carried.now number }
    ensures page { result < PAGE_LIMIT }
{
    let offset = number - carried.target.first_page();
    carried.source.first_page() + offset
}

/// Whether a Map would bring something to one of these pages of its target.
fn brings_some(copy: &Replica, sender: Space, carried: &Transfer, first: u64, end: u64) -> bool
    requires order { carried.now.source.order ≡ carried.now.target.order }
    requires first { carried.now.target.first_page ≤ first }
    requires end { end ≤ carried.now.target.first_page + page_total carried.now.target }
    requires limit { end ≤ PAGE_LIMIT }
    ensures some { result ≡ true → (number : ℕ) × (first ≤ number) × (number < end)
        × (shares (served copy.now.ops sender (sent_page carried.now number)) carried.now.rights
        ≡ true) }
    ensures none { result ≡ false → (number : ℕ) → first ≤ number → number < end
        → shares (served copy.now.ops sender (sent_page carried.now number)) carried.now.rights
        ≡ false }
{
    let mut page = first;
    'pages: while page < end {
        let from = sent_page(carried, page);
        let here = copy.steady_at(sender, from);
        if shares(here.served, carried.rights) {
            return true;
        }
        page += here.end - from;
    }
    false
}

/// Whether no page of the receiver that a Map would bring something to shows anything yet.
pub(crate) fn is_free(copy: &Replica, sender: Space, carried: &Transfer, receiver: Space) -> bool
    requires { carried.now.source.order ≡ carried.now.target.order }
    ensures { IsTrue result
        ↔ IsFreeTarget (served copy.now.ops) sender (Some carried.now) receiver }
{
    if copy.shows_nothing(receiver, &carried.target) {
        return true;
    }
    let end = carried.target.end();
    let mut page = carried.target.first_page();
    'pages: while page < end {
        let there = copy.steady_at(receiver, page);
        let next = there.end.min(end);
        if there.served.is_some() && brings_some(copy, sender, carried, page, next) {
            return false;
        }
        page = next;
    }
    true
}
