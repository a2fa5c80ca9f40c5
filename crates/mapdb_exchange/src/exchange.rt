//! Processors that run their scripts side by side, and tell each other what they issue.

ghost use Rattle.std.specs.Prelude.{◌≡◌, [], ◌<◌, ◌≤◌, ◌↔◌, length, map, IsTrue, IfErr, IfOk};
ghost use Rattle.std.specs.Prelude.{OnOk};
ghost use Rattle.mapdb_exchange.specs.Counts.{IsCount};
ghost use Rattle.mapdb_exchange.specs.Faults.{IsSetupFault};
ghost use Rattle.mapdb_exchange.specs.Reports.{AreParts, HoldSame};

use crate::faults::{NodeFault, RunFault, WorkFault};
use crate::issuing::Issuing;
use crate::limits::{MOST_CAPACITY, MOST_SCRIPTS};
use crate::networks::{Inbox, inboxes_of, outboxes_of};
use crate::pool::{run_all, seats_of};
use crate::reports::{Part, Report, agrees, hold_same};
use crate::senders::BatchSender;
use crate::workers::{Job, Post, Receiving};
use mapdb_node::{Gate, History, Node, Seat};
use mapdb_replica::Command;
use std::alloc::{AllocError, Global};
use std::sync::Wait;
use std::thread::Threads;
use std::vec::IntoIter;

/// Runs each script at a processor of its own, all at the same time, over links that hold
/// `capacity` messages each. Each command passes the gate. Once all have ended, each copy holds
/// what all processors issued. It waits.
///
/// A command that is refused for another cause than memory is a reply in the history, and no fault
/// of the run.
pub fn run<R: Threads + Wait + Sync, G: Gate + Sync>(
    rt: &R,
    alloc: Global,
    scripts: Vec<Vec<Command>>,
    capacity: usize,
    gate: &G,
) -> Result<Report, RunFault>
    ensures parts { IfOk result (λ report. AreParts (map (λ v. v.items) scripts.items)
        report.parts.items) }
    ensures same { IfOk result (λ report. HoldSame report.parts.items) }
    ensures count { OnOk result (IsCount (length scripts.items) capacity) }
    ensures bad { IfErr result (λ fault. fault
        ≡ RunFault.BadCount ↔ (IsCount (length scripts.items) capacity → ⊥)) }
{
    if !is_count(scripts.len(), capacity) {
        return Err(RunFault::BadCount);
    }
    Ok(run_scripts(rt, alloc, scripts, capacity, gate)?)
}

/// Whether an exchange may have so many processors, and links of this capacity.
fn is_count(count: usize, capacity: usize) -> bool
    ensures { IsTrue result ↔ IsCount count capacity }
{
    1 <= count && count <= MOST_SCRIPTS && 1 <= capacity && capacity <= MOST_CAPACITY
}

/// Runs so many scripts as an exchange may have.
fn run_scripts<R: Threads + Wait + Sync, G: Gate + Sync>(
    rt: &R,
    alloc: Global,
    scripts: Vec<Vec<Command>>,
    capacity: usize,
    gate: &G,
) -> Result<Report, WorkFault>
    requires { IsCount (length scripts.items) capacity }
    ensures parts { IfOk result (λ report. AreParts (map (λ v. v.items) scripts.items)
        report.parts.items) }
    ensures same { IfOk result (λ report. HoldSame report.parts.items) }
{
    let nodes = nodes_of(alloc, scripts.len() as u8)?;
    let posts = posts_of(rt, alloc, nodes.as_slice(), scripts.as_slice(), capacity)?;
    let ends = run_all(rt, alloc, gate, posts)?;
    let seats = seats_of(alloc, ends)?;
    let parts = parts_of(alloc, nodes, scripts.as_slice(), seats)?;
    report_of(scripts.as_slice(), parts)
}

/// The nodes of so many processors.
fn nodes_of(alloc: Global, count: u8) -> Result<Vec<Node>, AllocError>
    requires { count ≤ MOST_SCRIPTS }
    ensures { IfOk result (λ nodes. length nodes.items ≡ count) }
{
    let mut nodes = Vec::new(alloc);
    for processor in 0..count {
        nodes.push(Node::new(alloc, processor))?;
    }
    Ok(nodes)
}

/// The posts of all processors, in order: the issuing worker's, and then the receiving workers'.
fn posts_of<'a, R: Wait>(
    rt: &R,
    alloc: Global,
    nodes: &'a [Node],
    scripts: &'a [Vec<Command>],
    capacity: usize,
) -> Result<Vec<Post<'a>>, WorkFault>
    requires count { length nodes.now ≤ MOST_SCRIPTS }
    requires some { 0 < capacity }
    requires most { capacity ≤ MOST_CAPACITY }
    ensures fault { IfErr result IsSetupFault }
{
    let count = nodes.len() as u8;
    let mut inboxes = inboxes_of(alloc, count)?;
    let outboxes = outboxes_of(rt, alloc, count, inboxes.as_mut_slice(), capacity)?;
    let mut posts = Vec::new(alloc);
    for ((node, script), (inbox, links)) in nodes
        .iter()
        .zip(scripts)
        .zip(inboxes.into_iter().zip(outboxes))
    {
        add_posts(rt, &mut posts, node, script.as_slice(), inbox, links)?;
    }
    Ok(posts)
}

/// Adds the posts of a processor: the issuing worker's, and then the receiving workers'.
fn add_posts<'a, R: Wait>(
    rt: &R,
    posts: &mut Vec<Post<'a>>,
    node: &'a Node,
    script: &'a [Command],
    inbox: Inbox,
    links: Vec<BatchSender>,
) -> Result<(), WorkFault>
    ensures fault { IfErr result IsSetupFault }
{
    let seat = seat_at(rt, node)?;
    let job = Job::Issue(Issuing {
        script,
        seat,
        links,
    });
    posts.push(Post { node, job })?;
    add_receiving(rt, posts, node, inbox)
}

/// Adds the posts of a processor's receiving workers.
fn add_receiving<'a, R: Wait>(
    rt: &R,
    posts: &mut Vec<Post<'a>>,
    node: &'a Node,
    inbox: Inbox,
) -> Result<(), WorkFault>
    ensures fault { IfErr result IsSetupFault }
{
    let Inbox {
        processor: _,
        links,
    } = inbox;
    for link in links {
        let seat = seat_at(rt, node)?;
        let job = Job::Receive(Receiving { seat, link });
        posts.push(Post { node, job })?;
    }
    Ok(())
}

/// A seat at a node.
fn seat_at<R: Wait>(rt: &R, node: &Node) -> Result<Seat, WorkFault>
    ensures new { IfOk result (λ seat. seat.calls ≡ []) }
    ensures fault { IfErr result (λ fault. fault ≡ WorkFault.Node NodeFault.Seats) }
{
    match node.seat(rt) {
        Ok(seat) => Ok(seat),
        Err(_) => Err(WorkFault::Node(NodeFault::Seats)),
    }
}

/// The parts of all processors. The seats come in the order of the posts.
fn parts_of(
    alloc: Global,
    nodes: Vec<Node>,
    scripts: &[Vec<Command>],
    seats: Vec<Seat>,
) -> Result<Vec<Part>, WorkFault>
    ensures fault { IfErr result IsSetupFault }
{
    let count = nodes.len();
    let mut seats = seats.into_iter();
    let mut parts = Vec::new(alloc);
    for (node, script) in nodes.into_iter().zip(scripts) {
        add_part(alloc, &mut parts, node, script.len(), &mut seats, count)?;
    }
    Ok(parts)
}

/// Adds the part of a processor, whose node is closed with its seats, the next so many.
fn add_part(
    alloc: Global,
    parts: &mut Vec<Part>,
    node: Node,
    commands: usize,
    seats: &mut IntoIter<Seat, Global>,
    count: usize,
) -> Result<(), WorkFault>
    ensures fault { IfErr result IsSetupFault }
{
    let own = next_seats(alloc, seats, count)?;
    parts.push(part_of(alloc, node, commands, own)?)?;
    Ok(())
}

/// The next so many seats.
fn next_seats(
    alloc: Global,
    seats: &mut IntoIter<Seat, Global>,
    count: usize,
) -> Result<Vec<Seat>, WorkFault>
    ensures fault { IfErr result IsSetupFault }
{
    let mut own = Vec::with_capacity(alloc, count)?;
    for _ in 0..count {
        let Some(seat) = seats.next() else {
            return Err(WorkFault::Node(NodeFault::Seats));
        };
        own.push_reserved(seat);
    }
    Ok(own)
}

/// Closes a node with its seats.
fn part_of(alloc: Global, node: Node, commands: usize, seats: Vec<Seat>) -> Result<Part, WorkFault>
    ensures processor { IfOk result (λ part. part.processor ≡ node) }
    ensures commands { IfOk result (λ part. part.commands ≡ commands) }
    ensures seats { IfOk result (λ part. part.seats.items ≡ map (λ s. s.number) seats.items) }
    ensures fault { IfErr result IsSetupFault }
{
    let numbers = numbers_of(alloc, seats.as_slice())?;
    let history = closed(node, seats)?;
    Ok(Part {
        processor: history.copy().processor(),
        commands,
        seats: numbers,
        history,
    })
}

/// The numbers of these seats.
fn numbers_of(alloc: Global, seats: &[Seat]) -> Result<Vec<u32>, AllocError>
    ensures { IfOk result (λ numbers. numbers.items ≡ map (λ s. s.number) seats.now) }
{
    let mut numbers = Vec::with_capacity(alloc, seats.len())?;
    for seat in seats {
        numbers.push_reserved(seat.number());
    }
    Ok(numbers)
}

/// The history of a node that is closed with its seats.
fn closed(node: Node, seats: Vec<Seat>) -> Result<History, WorkFault>
    ensures processor { IfOk result (λ history. history.copy.processor ≡ node) }
    ensures fault { IfErr result (λ fault. fault ≡ WorkFault.Node NodeFault.Seats) }
{
    match node.close(seats) {
        Ok(history) => Ok(history),
        Err(_) => Err(WorkFault::Node(NodeFault::Seats)),
    }
}

/// The report of these parts, where they show the scripts and that each processor took what the
/// others issued.
fn report_of(scripts: &[Vec<Command>], parts: Vec<Part>) -> Result<Report, WorkFault>
    ensures parts { IfOk result (λ report. AreParts (map (λ v. v.items) scripts.now)
        report.parts.items) }
    ensures same { IfOk result (λ report. HoldSame report.parts.items) }
    ensures fault { IfErr result (λ fault. fault ≡ WorkFault.Link) }
{
    if !agrees(scripts, parts.as_slice()) {
        return Err(WorkFault::Link);
    }
    hold_same(scripts, parts.as_slice());
    Ok(Report { parts })
}
