//! The program's work, over any reader and writers.

ghost use Rattle.std.specs.Prelude.{◌≡◌, ◌≢◌, false, true, map};
ghost use Rattle.std.specs.declared.io.ErrorKind.TheVariants as io_kind;
ghost use Rattle.clap.specs.Words.{kind_of};
ghost use Rattle.mapdb_program.specs.Commands.{job_in};
ghost use Rattle.mapdb_program.specs.Ends.{EndsFor, EndsRun, EndsTell, EndsThreads, reader_use};
ghost use Rattle.mapdb_program.specs.Ends.{writer_use};
ghost use Rattle.mapdb_program.specs.Snapshots.{snapshot_ending};
ghost use Rattle.mapdb_program.specs.Statuses.{IsTold, Refuses, TellsOutOfMemory, ending_of};
ghost use Rattle.mapdb_program.specs.Statuses.{fault_ending, words_message};
ghost use Rattle.mapdb_program.specs.Threaded.{threads_ending};

use crate::commands::{Job, job_of};
use crate::endings::Ending;
use crate::messages::{
    OUT_OF_MEMORY, WORDS_ARE_NO_TEXT, message, snapshot_message, tell, threads_message,
};
use crate::snapshots::{Asked, TellFault, tell_snapshot};
use crate::threaded::{ThreadsFault, run_threads};
use clap::Error;
use clap::error::ErrorKind;
use mapdb_exchange::RunFault;
use mapdb_picture::LoadFault;
use mapdb_script::{ScriptFault, Sink, Source, Summary, run_to_exit};
use std::alloc::Global;
use std::convert::AsStr;
use std::io;
use std::sync::Wait;
use std::thread::Threads;

/// How the program ends where a script has this fault.
fn fault_ending(fault: ScriptFault) -> Ending
    ensures { result ≡ fault_ending fault }
{
    match fault {
        ScriptFault::Line { .. } => Ending::Faulty,
        ScriptFault::Read | ScriptFault::Write => Ending::StreamFailed,
        ScriptFault::Memory => Ending::OutOfMemory,
    }
}

/// How the program ends, by the outcome of a run.
fn ending_of(outcome: &Result<Summary, ScriptFault>) -> Ending
    ensures { result ≡ ending_of outcome.now }
{
    match outcome {
        Ok(_) => Ending::Done,
        Err(fault) => fault_ending(*fault),
    }
}

/// Tells that memory ran out, and answers how the program ends.
fn tell_out_of_memory_to<E: Sink>(errors: &mut E) -> Ending
    ensures { TellsOutOfMemory result (E.written errors.old) (E.written errors.new)
        (E.has_failed errors.new) }
{
    tell(errors, OUT_OF_MEMORY);
    Ending::OutOfMemory
}

/// Tells why clap refuses the words, or the help that they call for (which text, is not said), and
/// answers how the program ends.
fn refuse<E: Sink>(alloc: Global, error: &Error, errors: &mut E) -> Ending
    ensures memory { kind_of error.now ≡ ErrorKind.OutOfMemory →
        TellsOutOfMemory result (E.written errors.old) (E.written errors.new)
        (E.has_failed errors.new) }
    ensures told { Refuses result (E.written errors.old) (E.written errors.new)
        (E.has_failed errors.new) }
{
    if let ErrorKind::OutOfMemory = error.kind() {
        return tell_out_of_memory_to(errors);
    }
    match format!(in alloc; "{error}") {
        Ok(text) => {
            tell(errors, text.as_bytes());
            Ending::Refused
        }
        Err(_) => tell_out_of_memory_to(errors),
    }
}

/// Tells why the words of the command line could not be had, and answers how the program ends:
/// memory ran out, or they are refused, since a word is no UTF-8.
pub fn refuse_unread<E: Sink>(kind: io::ErrorKind, errors: &mut E) -> Ending
    ensures memory { kind ≡ io_kind.OutOfMemory →
        TellsOutOfMemory result (E.written errors.old) (E.written errors.new)
        (E.has_failed errors.new) }
    ensures words { kind ≢ io_kind.OutOfMemory → (result ≡ Ending.Refused)
        × IsTold (E.written errors.old) (E.written errors.new) (E.has_failed errors.new)
        words_message }
    ensures told { Refuses result (E.written errors.old) (E.written errors.new)
        (E.has_failed errors.new) }
{
    if let io::ErrorKind::OutOfMemory = kind {
        return tell_out_of_memory_to(errors);
    }
    tell(errors, WORDS_ARE_NO_TEXT);
    Ending::Refused
}

/// How the program ends, by the outcome of a script in threads.
fn threads_ending(outcome: &Result<(), ThreadsFault>) -> Ending
    ensures { result ≡ threads_ending outcome.now }
{
    match outcome {
        Ok(()) => Ending::Done,
        Err(ThreadsFault::Script(fault)) => fault_ending(*fault),
        Err(ThreadsFault::Run(RunFault::Memory)) => Ending::OutOfMemory,
        Err(ThreadsFault::Run(_)) => Ending::Faulty,
    }
}

/// Runs a script, tells the errors how that ended, and answers how the program ends.
fn serve_script<R: Source, W: Sink, E: Sink>(
    alloc: Global,
    reader: &mut R,
    writer: &mut W,
    errors: &mut E,
) -> Ending
    requires reader_works { R.has_failed reader.old ≡ false }
    requires writer_works { W.has_failed writer.old ≡ false }
    ensures ends { EndsRun result
        (reader_use (R.left reader.old) (R.left reader.new) (R.has_ended reader.new)
        (R.has_failed reader.new))
        (writer_use (W.written writer.old) (W.written writer.new) (W.has_failed writer.new))
        (writer_use (E.written errors.old) (E.written errors.new) (E.has_failed errors.new)) }
    ensures once { R.has_failed reader.new ≡ true
        → R.has_ended reader.new ≡ R.has_ended reader.old }
{
    let outcome = run_to_exit(alloc, reader, writer);
    tell(errors, message(&outcome));
    ending_of(&outcome)
}

/// Runs a script in threads, tells the errors how that ended, and answers how the program ends. It
/// waits.
fn serve_threads<T: Threads + Wait + Sync, R: Source, W: Sink, E: Sink>(
    rt: &T,
    alloc: Global,
    capacity: usize,
    reader: &mut R,
    writer: &mut W,
    errors: &mut E,
) -> Ending
    requires reader_works { R.has_failed reader.old ≡ false }
    requires writer_works { W.has_failed writer.old ≡ false }
    ensures ends { EndsThreads capacity result
        (reader_use (R.left reader.old) (R.left reader.new) (R.has_ended reader.new)
        (R.has_failed reader.new))
        (writer_use (W.written writer.old) (W.written writer.new) (W.has_failed writer.new))
        (writer_use (E.written errors.old) (E.written errors.new) (E.has_failed errors.new)) }
    ensures once { R.has_failed reader.new ≡ true
        → R.has_ended reader.new ≡ R.has_ended reader.old }
{
    let outcome = run_threads(rt, alloc, capacity, reader, writer);
    tell(errors, threads_message(&outcome));
    threads_ending(&outcome)
}

/// How the program ends, by what came of reading a snapshot.
fn snapshot_ending(outcome: &Result<(), TellFault>) -> Ending
    ensures { result ≡ snapshot_ending outcome.now }
{
    match outcome {
        Ok(()) => Ending::Done,
        Err(TellFault::Read | TellFault::Write) => Ending::StreamFailed,
        Err(TellFault::Load(LoadFault::Memory)) => Ending::OutOfMemory,
        Err(TellFault::TooLong | TellFault::Load(_)) => Ending::Faulty,
    }
}

/// Tells what is asked of a snapshot, tells the errors how that ended, and answers how the program
/// ends.
fn serve_snapshot<R: Source, W: Sink, E: Sink>(
    alloc: Global,
    asked: Asked,
    reader: &mut R,
    writer: &mut W,
    errors: &mut E,
) -> Ending
    requires reader_works { R.has_failed reader.old ≡ false }
    requires writer_works { W.has_failed writer.old ≡ false }
    ensures ends { EndsTell asked result
        (reader_use (R.left reader.old) (R.left reader.new) (R.has_ended reader.new)
        (R.has_failed reader.new))
        (writer_use (W.written writer.old) (W.written writer.new) (W.has_failed writer.new))
        (writer_use (E.written errors.old) (E.written errors.new) (E.has_failed errors.new)) }
    ensures once { R.has_failed reader.new ≡ true
        → R.has_ended reader.new ≡ R.has_ended reader.old }
{
    let outcome = tell_snapshot(alloc, asked, reader, writer);
    tell(errors, snapshot_message(&outcome));
    snapshot_ending(&outcome)
}

/// Does what the words ask for, and answers how the program ends: done; faulty where a line of the
/// script is, which the writer is told, where a run in threads gave no report, or where a snapshot
/// is none; refused where clap refuses the words or they call for help; or because the reader or
/// the writer failed, or memory ran out. The errors are told why, but of a faulty line; that they
/// fail changes nothing. A reader that has ended is not asked again. It waits only for `threads`.
/// For `run`, what the script's copies hold is left to the end of the process.
pub fn serve<T: AllocGlobal + Threads + Wait + Sync, S: AsStr, R: Source, W: Sink, E: Sink>(
    rt: &T,
    words: &[S],
    reader: &mut R,
    writer: &mut W,
    errors: &mut E,
) -> Ending
    requires reader_works { R.has_failed reader.old ≡ false }
    requires writer_works { W.has_failed writer.old ≡ false }
    ensures ends { EndsFor (job_in (map S.text words.now)) result
        ((reader.new ≡ reader.old) × (writer.new ≡ writer.old))
        (reader_use (R.left reader.old) (R.left reader.new) (R.has_ended reader.new)
        (R.has_failed reader.new))
        (writer_use (W.written writer.old) (W.written writer.new) (W.has_failed writer.new))
        (writer_use (E.written errors.old) (E.written errors.new) (E.has_failed errors.new)) }
    ensures once { R.has_failed reader.new ≡ true
        → R.has_ended reader.new ≡ R.has_ended reader.old }
{
    let alloc = rt.alloc();
    match job_of(alloc, words) {
        Ok(Job::Run) => serve_script(alloc, reader, writer, errors),
        Ok(Job::Threads { capacity }) => serve_threads(rt, alloc, capacity, reader, writer, errors),
        Ok(Job::Tell(asked)) => serve_snapshot(alloc, asked, reader, writer, errors),
        Err(error) => refuse(alloc, &error, errors),
    }
}
