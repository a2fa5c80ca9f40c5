//! Calls of the libraries in which memory may be refused, and what is found then.
//!
//! Each case makes what it compares with first, and then calls. Where memory was refused in the
//! call, the case looks whether what stands is what the call told, makes the same call again, and
//! compares what it comes to with a run without a refusal. It tells that in a line, and where
//! something is not as the contract says, the program ends with status 3. Nothing here refuses
//! memory: who runs this does (tests/README.md).
#![tactic(auto)]

mod books;
mod clusters;
mod commands;
mod comparing;
mod exchanges;
mod found;
mod indexes;
mod issuing;
mod journals;
mod nodes;
mod pairs;
mod tables;
mod taking;
mod trees;

use found::{Again, Found};
use std::alloc::Global;
use std::io::{self, Eprint};
use std::process::{ExitCode, Termination};
use std::sync::Wait;
use std::thread::Threads;

/// How the program ends.
#[derive(Clone, Copy, Debug, PartialEq, Eq)]
enum Status {
    /// All cases are told, and all is as the contracts say.
    Right,
    /// A line could not be written.
    Unwritten,
    /// Something is not as a contract says.
    Wrong,
}

impl Termination for Status {
    fn report<R: Eprint>(self, _rt: &R) -> ExitCode {
        ExitCode::from(match self {
            Status::Right => 0,
            Status::Unwritten => 2,
            Status::Wrong => 3,
        })
    }
}

/// A case, and what is found of it.
#[derive(Clone, Copy, Debug, PartialEq, Eq)]
struct Case {
    name: &'static str,
    found: Found,
}

/// The case of this name, of which this is found.
fn named(name: &'static str, found: Found) -> Case {
    Case { name, found }
}

/// The cases of one copy, or of copies that no threads share.
fn alone(alloc: Global) -> [Case; 7] {
    [
        named("unmap", issuing::unmap(alloc)),
        named("map", issuing::map(alloc)),
        named("take", taking::take(alloc)),
        named("index", indexes::index(alloc)),
        named("tree", trees::tree(alloc)),
        named("cluster", clusters::run(alloc)),
        named("book", books::journal(alloc)),
    ]
}

/// The cases of nodes, tables and exchanges.
fn shared<R: Threads + Wait + Sync>(rt: &R, alloc: Global) -> [Case; 5] {
    [
        named("node", nodes::close(rt, alloc)),
        named("copy handed back", nodes::close_without_seats(rt, alloc)),
        named("table", tables::plain(alloc)),
        named("table in threads", tables::in_threads(rt, alloc)),
        named("exchange", exchanges::run_twice(rt, alloc)),
    ]
}

/// Writes what the same call came to.
fn tell_again(out: &impl Print, name: &str, parts: u64, again: Again) -> io::Result<()> {
    match again {
        Again::Whole => println!(out; "{name}: refused {parts}, again whole"),
        Again::Refused(more) => println!(out; "{name}: refused {parts}, again refused {more}"),
        Again::Failed => println!(out; "{name}: refused {parts}, again failed"),
    }
}

/// Writes the line of a case.
fn tell(out: &impl Print, case: &Case) -> io::Result<()> {
    let name = case.name;
    match case.found {
        Found::Whole => println!(out; "{name}: whole"),
        Found::Unmade => println!(out; "{name}: unmade"),
        Found::Refused { parts, again } => tell_again(out, name, parts, again),
        Found::Wrong => println!(out; "{name}: wrong"),
    }
}

/// Writes the lines of cases, and answers how the program ends if there are no others.
fn tell_all(out: &impl Print, cases: &[Case]) -> Status {
    let mut status = Status::Right;
    for case in cases {
        if tell(out, case).is_err() {
            return Status::Unwritten;
        }
        if case.found == Found::Wrong {
            status = Status::Wrong;
        }
    }
    status
}

fn main(rt: HostRuntime) -> Status {
    let out = rt.stdout();
    let alloc = rt.alloc();
    let first = tell_all(&out, &alone(alloc));
    let second = tell_all(&out, &shared(&rt, alloc));
    if first == Status::Right {
        second
    } else {
        first
    }
}
