//! What the program tells on the errors.

ghost use Rattle.std.specs.Prelude.{◌≡◌};
ghost use Rattle.mapdb_program.specs.Snapshots.{bad_message, page_message, snapshot_message};
ghost use Rattle.mapdb_program.specs.Snapshots.{take_message};
ghost use Rattle.mapdb_program.specs.Snapshots.{text_message};
ghost use Rattle.mapdb_program.specs.Statuses.{IsTold, fault_message, message_of};
ghost use Rattle.mapdb_program.specs.Threaded.{node_message, run_message, threads_message};

use crate::snapshots::TellFault;
use crate::threaded::ThreadsFault;
use mapdb_exchange::{NodeFault, RunFault};
use mapdb_facts::OpFault;
use mapdb_fpage::FpageFault;
use mapdb_picture::LoadFault;
use mapdb_replica::TakeFault;
use mapdb_script::{ScriptFault, Sink, SnapshotFault, Summary, write_all};

/// Told where memory ran out.
pub const OUT_OF_MEMORY: &[u8] = b"l4map: out of memory\n";

/// Told where a word of the command line is no UTF-8.
pub const WORDS_ARE_NO_TEXT: &[u8] = b"l4map: the command line is not UTF-8\n";

/// Told where a read failed.
const READ_FAILED: &[u8] = b"l4map: read failed\n";

/// Told where a write failed.
const WRITE_FAILED: &[u8] = b"l4map: write failed\n";

/// What is told of a script's fault: nothing of a faulty line, which the output tells.
fn fault_message(fault: ScriptFault) -> &'static [u8]
    ensures { result.now ≡ fault_message fault }
{
    match fault {
        ScriptFault::Line { .. } => b"",
        ScriptFault::Read => READ_FAILED,
        ScriptFault::Write => WRITE_FAILED,
        ScriptFault::Memory => OUT_OF_MEMORY,
    }
}

/// What is told of a run.
pub fn message(outcome: &Result<Summary, ScriptFault>) -> &'static [u8]
    ensures { result.now ≡ message_of outcome.now }
{
    match outcome {
        Ok(_) => b"",
        Err(fault) => fault_message(*fault),
    }
}

/// What is told where a node did not do what a worker asked; a full journal and a full copy have
/// names of their own.
fn node_message(why: NodeFault) -> &'static [u8]
    ensures { result.now ≡ node_message why }
{
    match why {
        NodeFault::JournalFull => b"run fault journal-full\n",
        NodeFault::Refused(TakeFault::Full) => b"run fault full\n",
        _ => b"run fault node\n",
    }
}

/// What is told of a run in threads that gave no report.
fn run_message(why: RunFault) -> &'static [u8]
    ensures { result.now ≡ run_message why }
{
    match why {
        RunFault::BadCount => b"run fault count\n",
        RunFault::Memory => OUT_OF_MEMORY,
        RunFault::NoThread => b"run fault thread\n",
        RunFault::Node(why) => node_message(why),
        RunFault::Gate => b"run fault gate\n",
        RunFault::Link => b"run fault link\n",
    }
}

/// What is told of a script in threads: nothing of a faulty line, which the output tells.
pub fn threads_message(outcome: &Result<(), ThreadsFault>) -> &'static [u8]
    ensures { result.now ≡ threads_message outcome.now }
{
    match outcome {
        Ok(()) => b"",
        Err(ThreadsFault::Script(fault)) => fault_message(*fault),
        Err(ThreadsFault::Run(why)) => run_message(*why),
    }
}

/// What is told where an operation of a snapshot is not well-formed.
fn bad_message(why: OpFault) -> &'static [u8]
    ensures { result.now ≡ bad_message why }
{
    match why {
        OpFault::BadNumber => b"l4map: refused bad bad-number\n",
        OpFault::BadProcessor => b"l4map: refused bad bad-processor\n",
        OpFault::ParentNotBefore => b"l4map: refused bad parent-not-before\n",
        OpFault::SourceUnaligned => b"l4map: refused bad source-unaligned\n",
        OpFault::RootSpace => b"l4map: refused bad root-space\n",
        OpFault::PageOutOfSpace => b"l4map: refused bad page-out-of-space\n",
    }
}

/// What is told where a copy cannot take what a snapshot says.
fn take_message(why: TakeFault) -> &'static [u8]
    ensures { result.now ≡ take_message why }
{
    match why {
        TakeFault::Bad(_, why) => bad_message(why),
        TakeFault::Clash(_) => b"l4map: refused clash\n",
        TakeFault::Full => b"l4map: refused full\n",
        TakeFault::Memory { .. } => OUT_OF_MEMORY,
    }
}

/// What is told where a place of a snapshot is none.
fn page_message(why: FpageFault) -> &'static [u8]
    ensures { result.now ≡ page_message why }
{
    match why {
        FpageFault::TooSmall => b"l4map: refused snapshot too-small\n",
        FpageFault::TooLarge => b"l4map: refused snapshot too-large\n",
        FpageFault::OutOfSpace => b"l4map: refused snapshot out-of-space\n",
        FpageFault::Unaligned => b"l4map: refused snapshot unaligned\n",
    }
}

/// What is told where a text is no snapshot.
fn text_message(why: SnapshotFault) -> &'static [u8]
    ensures { result.now ≡ text_message why }
{
    match why {
        SnapshotFault::NotJson => b"l4map: refused snapshot not-json\n",
        SnapshotFault::Shape => b"l4map: refused snapshot shape\n",
        SnapshotFault::Version => b"l4map: refused snapshot version\n",
        SnapshotFault::Page(why) => page_message(why),
        SnapshotFault::Memory => OUT_OF_MEMORY,
    }
}

/// What is told of a snapshot of which nothing, or not all, was told.
pub fn snapshot_message(outcome: &Result<(), TellFault>) -> &'static [u8]
    ensures { result.now ≡ snapshot_message outcome.now }
{
    match outcome {
        Ok(()) => b"",
        Err(TellFault::Read) => READ_FAILED,
        Err(TellFault::Write) => WRITE_FAILED,
        Err(TellFault::TooLong) => b"l4map: refused snapshot too-long\n",
        Err(TellFault::Load(LoadFault::Memory)) => OUT_OF_MEMORY,
        Err(TellFault::Load(LoadFault::Snapshot(why))) => text_message(*why),
        Err(TellFault::Load(LoadFault::Take(why))) => take_message(*why),
    }
}

/// Tells a message. A write that fails is ignored.
pub fn tell<E: Sink>(errors: &mut E, message: &[u8])
    ensures { IsTold (E.written errors.old) (E.written errors.new) (E.has_failed errors.new)
        message.now }
{
    let _ = write_all(errors, message);
}
