//! A book, whose journal leads to its copy whatever was refused.

use crate::commands::{copy_after, one_page_there_and_back};
use crate::comparing::is_whole;
use crate::found::{Again, Found, refused, refused_again_if, whole_again_if, whole_if};
use crate::journals::{Asked, End, end_of, is_told};
use mapdb_node::{Book, BookFault, Entry, NodeEvent, NodeReply};
use mapdb_replica::{Command, IssueFault, Replica};
use std::alloc::Global;

/// Whether this is the place of the last entry.
fn is_last(book: &Book, place: u32) -> bool {
    book.journal().len().checked_sub(1) == Some(place as usize)
}

/// Does a command at a book.
fn ask(book: &mut Book, command: &Command) -> End {
    match book.apply(0, NodeEvent::Issue(*command)) {
        Ok(told) if is_last(book, told.place) => end_of(&told.reply),
        Err(BookFault::Memory) => End::Refused,
        _ => End::Strange,
    }
}

/// Does commands one after the other, up to the first that is not done.
fn ask_all(book: &mut Book, commands: &[Command]) -> Asked {
    for (done, command) in commands.iter().enumerate() {
        let end = ask(book, command);
        if end != End::Done {
            return Asked { done, end };
        }
    }
    Asked {
        done: commands.len(),
        end: End::Done,
    }
}

/// Asks another book what an entry says, unless it issued nothing because memory ran out.
fn ask_anew(other: &mut Book, entry: &Entry) -> End {
    match (entry.event, entry.reply) {
        (_, NodeReply::IssueRefused(IssueFault::Memory { issued: 0 })) => End::Done,
        (NodeEvent::Issue(command), _) => ask(other, &command),
        _ => End::Strange,
    }
}

/// Asks an empty book all that the journal says, and tells how that ended.
fn replay(other: &mut Book, entries: &[Entry]) -> End {
    for entry in entries {
        let end = ask_anew(other, entry);
        if end != End::Done {
            return end;
        }
    }
    End::Done
}

/// Whether the journal leads to the wanted copy once more, or None where memory was refused for
/// that.
fn replays(alloc: Global, book: &Book, wanted: &Replica) -> Option<bool> {
    let mut other = Book::new(alloc, 0);
    match replay(&mut other, book.journal()) {
        End::Done => Some(is_whole(other.copy(), wanted)),
        End::Refused => None,
        End::Strange => Some(false),
    }
}

/// Whether all is done, and told by the journal.
fn is_done(book: &Book, commands: &[Command], wanted: &Replica) -> bool {
    is_told(book.journal(), commands, book.copy(), wanted) && is_whole(book.copy(), wanted)
}

/// What is found of commands that are done.
fn found_whole(alloc: Global, book: &Book, commands: &[Command], wanted: &Replica) -> Found {
    match replays(alloc, book, wanted) {
        Some(is_same) => whole_if(is_same && is_done(book, commands, wanted)),
        None => Found::Unmade,
    }
}

/// What commands come to that are done in the end, by whether the journal replays to the copy.
fn whole_again(
    alloc: Global,
    book: &Book,
    commands: &[Command],
    wanted: &Replica,
) -> Option<Again> {
    let holds = is_done(book, commands, wanted);
    match replays(alloc, book, wanted) {
        Some(is_same) => whole_again_if(is_same && holds),
        None => refused_again_if(holds, 0),
    }
}

/// What the commands behind the first so many come to.
fn ask_again(
    alloc: Global,
    book: &mut Book,
    commands: &[Command],
    wanted: &Replica,
    done: usize,
) -> Option<Again> {
    let before = book.journal().len();
    let asked = ask_all(book, commands.get(done..)?);
    let more = book.journal().len().saturating_sub(before) as u64;
    match asked.end {
        End::Done => whole_again(alloc, book, commands, wanted),
        End::Refused => {
            let holds = is_told(book.journal(), commands, book.copy(), wanted);
            refused_again_if(holds, more)
        }
        End::Strange => None,
    }
}

/// What is found of these commands at a book.
fn found_of(alloc: Global, book: &mut Book, commands: &[Command], wanted: &Replica) -> Found {
    let asked = ask_all(book, commands);
    let holds = is_told(book.journal(), commands, book.copy(), wanted);
    let entries = book.journal().len() as u64;
    match asked.end {
        End::Done => found_whole(alloc, book, commands, wanted),
        End::Refused if holds => {
            refused(
                entries,
                ask_again(alloc, book, commands, wanted, asked.done),
            )
        }
        _ => Found::Wrong,
    }
}

/// What is found of these commands at an empty book.
fn found_at_book(alloc: Global, commands: &[Command], wanted: &Replica) -> Found {
    let mut book = Book::new(alloc, 0);
    found_of(alloc, &mut book, commands, wanted)
}

/// Commands at a book, in one of which memory may be refused.
pub fn journal(alloc: Global) -> Found {
    let commands = one_page_there_and_back();
    match copy_after(alloc, &commands, &[]) {
        Some(wanted) => found_at_book(alloc, &commands, &wanted),
        None => Found::Unmade,
    }
}
