//! What a space commands at a copy, by value or by the kernel's words.

ghost use Rattle.std.specs.Prelude.{◌≡◌};
ghost use Rattle.std.specs.declared.option.Option.TheVariants.{Some};
ghost use Rattle.std.specs.declared.result.Result.TheVariants.{Err, Ok};
ghost use Rattle.mapdb_replica.specs.declared.commands.Command.{Command};
ghost use Rattle.mapdb_c.specs.Issuing.{IssuesAs, IssuesFor, applied_told, issued_with};
ghost use Rattle.mapdb_c.specs.Issuing.{issue_fault_told};
ghost use Rattle.mapdb_c.specs.RawCommands.{end_command, map_command, unmap_command};
ghost use Rattle.mapdb_c.specs.RawCommands.{word_map_command, word_unmap_command};

use crate::commands::{
    end_command, map_command, unmap_command, word_map_command, word_unmap_command,
};
use crate::faults::issue_status;
use crate::handles::Handle;
use crate::raw_places::{RawFpage, RawSpace, raw_space};
use crate::statuses::Status;
use mapdb_facts::Space;
use mapdb_replica::{Applied, Command, IssueFault, Replica, first_number};
use std::alloc::Global;

/// What a command issued, 24 bytes.
#[repr(C)]
#[derive(Clone, Copy)]
pub struct Issued {
    /// The number of the first record that a Map issued, where it was done: the numbers rise by one
    /// from it, and the processor is the copy's. 0 where it issued none, and where memory ran out,
    /// though some records stand then.
    pub first: u64,
    /// How many operations were issued. Where memory ran out these stand, and are not all.
    pub count: u64,
    /// Where a space has ended, the one that has: of two, the sender is looked at first. Else 0.
    pub space: RawSpace,
}

/// Operations that were issued.
fn issued_with(first: u64, count: u64) -> Issued
    ensures { result ≡ issued_with first count }
{
    Issued {
        first,
        count,
        space: raw_space(Space::FIRST),
    }
}

/// What is told of a refusal.
fn issue_fault_told(fault: IssueFault) -> Issued
    ensures { result ≡ issue_fault_told fault }
{
    match fault {
        IssueFault::SpaceEnded(space) => Issued {
            first: 0,
            count: 0,
            space: raw_space(space),
        },
        IssueFault::Memory { issued } => issued_with(0, issued as u64),
        _ => issued_with(0, 0),
    }
}

/// What is told of a command that a copy applied.
fn applied_told(applied: &Applied) -> Issued
    ensures { result ≡ applied_told applied.now }
{
    match applied {
        Applied::Mapped(names) => {
            issued_with(first_number(names.as_slice()), names.len() as u64)
        }
        Applied::Revoked(count) => issued_with(0, *count as u64),
        Applied::Ended(_) => issued_with(0, 1),
    }
}

/// Does a command at a copy, and tells what became of it.
#[tactic(auto, using(crate::proofs::Telling::all_done, crate::proofs::Telling::not_done))]
fn issue_at(replica: &mut Replica, command: &Command, issued: &mut Issued) -> Status
    ensures { IssuesAs command.now result issued.new replica.old replica.new }
{
    match replica.apply(command) {
        Ok(applied) => {
            *issued = applied_told(&applied);
            Status::Done
        }
        Err(fault) => {
            *issued = issue_fault_told(fault);
            issue_status(fault)
        }
    }
}

/// Does a command at the copy of a handle, where the command is one and the handle has a copy.
#[tactic(auto, unfolding(crate::specs::Issuing::IssuesFor))]
fn issue(
    alloc: Global,
    handle: &mut Handle,
    command: Result<Command, Status>,
    issued: &mut Issued,
) -> u32
    ensures { IssuesFor command handle.old.held result issued.old issued.new handle.new.held }
{
    let command = match command {
        Ok(command) => command,
        Err(status) => return status.number(),
    };
    let Some(mut replica) = handle.take(alloc) else {
        return Status::NoCopy.number();
    };
    let status = issue_at(&mut *replica, &command, issued);
    handle.put(replica);
    status.number()
}

/// Maps what an item carries from the sender's space into a receive window of the receiver's space.
#[unsafe(no_mangle)]
pub extern "C" fn mapdb_map(
    alloc: Global,
    handle: &mut Handle,
    sender: RawSpace,
    send_base: u64,
    page: &RawFpage,
    receiver: RawSpace,
    window: &RawFpage,
    issued: &mut Issued,
) -> u32
    ensures { IssuesFor (map_command sender send_base page.now receiver window.now)
        handle.old.held result issued.old issued.new handle.new.held }
{
    let command = map_command(sender, send_base, page, receiver, window);
    issue(alloc, handle, command, issued)
}

/// Maps what the two words of a map item carry into the receive window of a word.
#[unsafe(no_mangle)]
pub extern "C" fn mapdb_map_words(
    alloc: Global,
    handle: &mut Handle,
    sender: RawSpace,
    first: u64,
    second: u64,
    receiver: RawSpace,
    window: u64,
    issued: &mut Issued,
) -> u32
    ensures { IssuesFor (word_map_command sender first second receiver window)
        handle.old.held result issued.old issued.new handle.new.held }
{
    let command = word_map_command(sender, first, second, receiver, window);
    issue(alloc, handle, command, issued)
}

/// Takes the rights of an fpage from all that came from the space's pages there, also where the
/// space received it itself, and with a flush that is not 0 from those pages too.
#[unsafe(no_mangle)]
pub extern "C" fn mapdb_unmap(
    alloc: Global,
    handle: &mut Handle,
    space: RawSpace,
    page: &RawFpage,
    flush: u32,
    issued: &mut Issued,
) -> u32
    ensures { IssuesFor (unmap_command space page.now flush)
        handle.old.held result issued.old issued.new handle.new.held }
{
    let command = unmap_command(space, page, flush);
    issue(alloc, handle, command, issued)
}

/// Takes the rights of an fpage word as [`mapdb_unmap`] does.
#[unsafe(no_mangle)]
pub extern "C" fn mapdb_unmap_word(
    alloc: Global,
    handle: &mut Handle,
    space: RawSpace,
    word: u64,
    flush: u32,
    issued: &mut Issued,
) -> u32
    ensures { IssuesFor (word_unmap_command space word flush)
        handle.old.held result issued.old issued.new handle.new.held }
{
    let command = word_unmap_command(space, word, flush);
    issue(alloc, handle, command, issued)
}

/// Ends a space, for good.
#[unsafe(no_mangle)]
pub extern "C" fn mapdb_end(
    alloc: Global,
    handle: &mut Handle,
    space: RawSpace,
    issued: &mut Issued,
) -> u32
    ensures { IssuesFor (end_command space) handle.old.held result issued.old issued.new
        handle.new.held }
{
    let command = end_command(space);
    issue(alloc, handle, command, issued)
}
