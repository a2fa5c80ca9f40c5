//! What an exchange reports, and the comparison of the histories of all processors.

ghost use Rattle.std.specs.Prelude.{◌≡◌, ◌<◌, ◌≢◌, ◌∷◌, ◌+◌, ℕ, true, not, IsTrue};
ghost use Rattle.std.specs.Prelude.{length, map, drop, slice_index_or, ◌==◌};
ghost use Rattle.std.specs.List.{list_all, list_any};
ghost use Rattle.mapdb_exchange.specs.Reports.{NoneTwice, AreParts, HoldSame, IsPartOfReport};
ghost use Rattle.mapdb_exchange.specs.Reports.{at_seat};
ghost use Rattle.mapdb_exchange.specs.Reports.{is_heard, issues_of, taken_from, takes_of};
ghost use Rattle.mapdb_exchange.specs.Reports.{ran_out_of_memory};

use mapdb_facts::Op;
use mapdb_node::{Entry, History, NodeEvent, NodeReply};
use mapdb_replica::{Command, IssueFault, Replica, TakeFault};

/// What one processor did in an exchange.
#[derive(Drop)]
pub struct Part {
    /// The processor.
    pub processor: u8,
    /// How many commands its script has.
    pub commands: usize,
    /// The numbers of its workers' seats: the issuing worker's, and then those of the receiving
    /// workers, ascending by the processor that each hears.
    pub seats: Vec<u32>,
    /// All calls at its node, and its copy.
    pub history: History,
}

/// What all processors did in an exchange.
#[derive(Drop)]
pub struct Report {
    /// One part for each script, in their order.
    pub parts: Vec<Part>,
}

/// Whether the histories show these scripts, and that each processor took what the others issued.
pub(crate) fn agrees(scripts: &[Vec<Command>], parts: &[Part]) -> bool
    ensures { IsTrue result → AreParts (map (λ v. v.items) scripts.now) parts.now }
{
    if parts.len() != scripts.len() {
        return false;
    }
    for processor in 0..parts.len() {
        if !is_part(parts, processor, scripts[processor].as_slice()) {
            return false;
        }
    }
    true
}

/// Where each processor took what the others issued, each copy holds what all issued, and nothing
/// else. This does nothing: it tells proofs so.
pub(crate) fn hold_same(scripts: &[Vec<Command>], parts: &[Part])
    requires { AreParts (map (λ v. v.items) scripts.now) parts.now }
    ensures { HoldSame parts.now }
{
    let _counts = (scripts.len(), parts.len());
}

/// Whether the part at a place is that of the processor of this number with this script.
fn is_part(parts: &[Part], processor: usize, script: &[Command]) -> bool
    requires { processor < length parts.now }
    ensures { IsTrue result → ((d : _) → IsPartOfReport parts.now processor script.now
        (slice_index_or parts.now processor d)) }
{
    let part = &parts[processor];
    let seats = part.seats.as_slice();
    let entries = part.history.entries();
    if part.processor as usize != processor
        || part.history.copy().processor() as usize != processor
    {
        return false;
    }
    if part.commands != script.len() || seats.len() != parts.len() || !are_apart(seats) {
        return false;
    }
    has_script(entries, seats[0], script)
        && hears_all(parts, processor, seats, entries)
        && are_heard(entries, &seats[1..])
        && had_memory(entries)
}

/// Whether no number stands twice.
fn are_apart(seats: &[u32]) -> bool
    ensures { IsTrue result → NoneTwice seats.now }
{
    let mut rest = seats;
    while let Some((seat, others)) = rest.split_first() {
        if is_among(others, *seat) {
            return false;
        }
        rest = others;
    }
    true
}

/// Whether the number stands among the seats.
fn is_among(seats: &[u32], number: u32) -> bool
    ensures { result ≡ list_any (λ s. s == number) seats.now }
{
    seats.iter().any(|seat| *seat == number)
}

/// Whether the commands among the entries are this script, all at this seat.
fn has_script(entries: &[Entry], seat: u32, script: &[Command]) -> bool
    ensures { IsTrue result → issues_of entries.now ≡ map (at_seat seat) script.now }
{
    let mut next = 0;
    for entry in entries {
        if let NodeEvent::Issue(_) = entry.event {
            if next == script.len()
                || entry.seat != seat
                || !entry.event.is(&NodeEvent::Issue(script[next]))
            {
                return false;
            }
            next += 1;
        }
    }
    next == script.len()
}

/// Whether each other processor's own operations are what was taken at the seat that hears it.
fn hears_all(parts: &[Part], processor: usize, seats: &[u32], entries: &[Entry]) -> bool
    requires { length seats.now ≡ length parts.now }
    ensures { IsTrue result → ((other : ℕ) (d : _) → other < length parts.now → other ≢ processor
        → taken_from seats.now processor other entries.now
        ≡ (slice_index_or parts.now other d).history.copy.own) }
{
    for other in 0..parts.len() {
        if other != processor {
            let place = if other < processor { other + 1 } else { other };
            if place >= seats.len() || !has_own(entries, seats[place], &parts[other]) {
                return false;
            }
        }
    }
    true
}

/// Whether what was taken at a seat is what a processor issued.
fn has_own(entries: &[Entry], seat: u32, part: &Part) -> bool
    ensures { IsTrue result → takes_of seat entries.now ≡ part.now.history.copy.own }
{
    has_taken(entries, seat, part.history.copy())
}

/// Whether the copy's own operations are what was taken at a seat, in order.
fn has_taken(entries: &[Entry], seat: u32, copy: &Replica) -> bool
    ensures { IsTrue result → takes_of seat entries.now ≡ copy.now.own }
{
    let count = copy.own_len();
    let mut next = 0;
    for entry in entries {
        let NodeEvent::Take(op) = entry.event else {
            continue;
        };
        if entry.seat == seat {
            if next == count || !is_own(copy, next, &op) {
                return false;
            }
            next += 1;
        }
    }
    next == count
}

/// Whether the copy's own operation at a place is this one.
fn is_own(copy: &Replica, place: u32, op: &Op) -> bool
    ensures { IsTrue result → drop place copy.now.own ≡ op.now ∷ drop (place + 1) copy.now.own }
{
    match copy.own_at(place) {
        Some(own) => is_same_op(&own, op),
        None => false,
    }
}

/// Whether both are one operation.
fn is_same_op(op: &Op, other: &Op) -> bool
    ensures { IsTrue result → op.now ≡ other.now }
{
    *op == *other
}

/// Whether each operation that was taken is held, and was taken at one of these seats.
fn are_heard(entries: &[Entry], seats: &[u32]) -> bool
    ensures { result ≡ list_all (λ e. is_heard seats.now e.seat e.event e.reply) entries.now }
{
    entries.iter().all(|entry| is_heard(entry, seats))
}

/// Whether the entry, where it takes an operation, does so at one of these seats, and the operation
/// is held.
fn is_heard(entry: &Entry, seats: &[u32]) -> bool
    ensures { result ≡ is_heard seats.now entry.now.seat entry.now.event entry.now.reply }
{
    match entry.event {
        NodeEvent::Take(_) => matches!(entry.reply, NodeReply::Taken(_))
            && is_among(seats, entry.seat),
        _ => true,
    }
}

/// Whether no event ran out of memory.
fn had_memory(entries: &[Entry]) -> bool
    ensures { result ≡ list_all (λ e. not (ran_out_of_memory e.reply)) entries.now }
{
    entries.iter().all(|entry| !ran_out_of_memory(&entry.reply))
}

/// Whether memory ran out inside the event.
fn ran_out_of_memory(reply: &NodeReply) -> bool
    ensures { result ≡ ran_out_of_memory reply.now }
{
    matches!(
        reply,
        NodeReply::IssueRefused(IssueFault::Memory { .. })
            | NodeReply::TakeRefused(TakeFault::Memory { .. })
    )
}
