//! Scripts whose commands run in threads.

ghost use Rattle.std.specs.Prelude.{◌≡◌, ◌++◌, ◌⊎◌, ◌↔◌, ℕ, List, Ok, Err, false, true, IfOk, OnOk};
ghost use Rattle.std.specs.Prelude.{IsTrue, string_bytes};
ghost use Rattle.std.specs.Io.KnownBytes.{Appends, Consumes};
ghost use Rattle.mapdb_exchange.specs.Reports.{HoldSame};
ghost use Rattle.mapdb_facts.specs.State.{SameAtoms};
ghost use Rattle.mapdb_lines.specs.Streams.{HasEnded};
ghost use Rattle.mapdb_script.specs.Answering.{reply_line};
ghost use Rattle.mapdb_script.specs.Script.{fault_line};
ghost use Rattle.mapdb_program.specs.Statuses.{Blames};
ghost use Rattle.mapdb_program.specs.Threaded.{IsTextWritten, TellsThreads};
ghost use Rattle.mapdb_program.specs.Threaded.{processor_text, read_failed, report_text};
ghost use Rattle.mapdb_program.specs.Threaded.{write_failed};

use mapdb_exchange::{Part, RunFault};
use mapdb_lines::{LineFault, Sink, Source, write_all};
use mapdb_node::Open;
use mapdb_script::{ScriptFault, fault_text, thread_scripts};
use std::alloc::{AllocError, Global};
use std::sync::Wait;
use std::thread::Threads;

/// Why a script in threads was not done.
#[derive(Clone, Copy, Debug, PartialEq, Eq)]
pub enum ThreadsFault {
    /// A line is at fault, a stream failed, or memory ran out.
    Script(ScriptFault),
    /// The exchange gave no report.
    Run(RunFault),
}

impl From<AllocError> for ThreadsFault {
    ghost use Rattle.std.specs.Prelude.{◌≡◌};
    ghost use Rattle.mapdb_program.specs.Threaded.{threads_out_of_memory};

    ghost from_gives = { λ _ fault. fault ≡ threads_out_of_memory };

    fn from(_refused: AllocError) -> ThreadsFault {
        ThreadsFault::Script(ScriptFault::Memory)
    }
}

impl From<RunFault> for ThreadsFault {
    ghost use Rattle.std.specs.Prelude.{◌≡◌};
    ghost use Rattle.mapdb_program.specs.declared.threaded.ThreadsFault.TheVariants.{Run};

    ghost from_gives = { λ why fault. fault ≡ Run why };

    fn from(why: RunFault) -> ThreadsFault {
        ThreadsFault::Run(why)
    }
}

/// What is told of a processor.
fn processor_text(alloc: Global, part: &Part) -> Result<String, AllocError>
    ensures { IfOk result (λ text. string_bytes text ≡ processor_text part.now) }
{
    let processor = part.processor;
    let commands = part.commands;
    let issued = part.history.copy().own_len();
    format!(in alloc; "processor {processor} commands {commands} issued {issued}")
}

/// Adds a line to a text.
fn push_line(text: &mut String, line: &str) -> Result<(), AllocError>
    ensures { OnOk result (string_bytes text.new ≡ string_bytes text.old ++ reply_line line.now) }
{
    text.push_str(line)?;
    text.push_str("\n")
}

/// Whether the copies of two parts hold the same.
fn is_same(part: &Part, other: &Part) -> bool
    ensures { IsTrue result
        ↔ SameAtoms part.now.history.copy.ops other.now.history.copy.ops }
{
    part.history.copy().same(other.history.copy())
}

/// Whether all copies hold what the first one holds. Of parts that hold the same it answers true;
/// nothing else is said.
fn are_same(parts: &[Part]) -> bool
    ensures { HoldSame parts.now → result ≡ true }
{
    for place in 1..parts.len() {
        if !is_same(&parts[0], &parts[place]) {
            return false;
        }
    }
    true
}

/// The text of a report.
fn report_text(alloc: Global, parts: &[Part]) -> Result<String, AllocError>
    requires { HoldSame parts.now }
    ensures { IfOk result (λ text. string_bytes text ≡ report_text parts.now) }
{
    let mut text = String::new(alloc);
    for part in parts {
        push_line(&mut text, processor_text(alloc, part)?.as_str())?;
    }
    let answer = if are_same(parts) {
        "same yes"
    } else {
        "same no"
    };
    push_line(&mut text, answer)?;
    Ok(text)
}

/// Writes a text.
fn write_text<W: Sink>(writer: &mut W, text: &str) -> Result<(), ThreadsFault>
    ensures told { (front : List ℕ) × Appends (W.written writer.old) (W.written writer.new) front
        × IsTextWritten result text.now front }
    ensures write { result ≡ Err write_failed → W.has_failed writer.new ≡ true }
    ensures works { (result ≡ Err write_failed)
        ⊎ (W.has_failed writer.new ≡ W.has_failed writer.old) }
    ensures unread { result ≡ Err read_failed → ⊥ }
{
    write_all(writer, text.as_bytes()).map_err(|_| ThreadsFault::Script(ScriptFault::Write))
}

/// Writes the text of a report.
fn write_report<W: Sink>(alloc: Global, parts: &[Part], writer: &mut W) -> Result<(), ThreadsFault>
    requires { HoldSame parts.now }
    ensures told { (front : List ℕ) × Appends (W.written writer.old) (W.written writer.new) front
        × IsTextWritten result (report_text parts.now) front }
    ensures write { result ≡ Err write_failed → W.has_failed writer.new ≡ true }
    ensures works { (result ≡ Err write_failed)
        ⊎ (W.has_failed writer.new ≡ W.has_failed writer.old) }
    ensures unread { result ≡ Err read_failed → ⊥ }
{
    let text = report_text(alloc, parts)?;
    write_text(writer, text.as_str())
}

/// Writes the line that tells a faulty line.
fn write_fault<W: Sink>(
    alloc: Global,
    number: u64,
    fault: LineFault,
    writer: &mut W,
) -> Result<(), ThreadsFault>
    ensures told { (front : List ℕ) × Appends (W.written writer.old) (W.written writer.new) front
        × IsTextWritten result (fault_line number fault) front }
    ensures write { result ≡ Err write_failed → W.has_failed writer.new ≡ true }
    ensures works { (result ≡ Err write_failed)
        ⊎ (W.has_failed writer.new ≡ W.has_failed writer.old) }
    ensures unread { result ≡ Err read_failed → ⊥ }
{
    let text = fault_text(alloc, number, fault)?;
    write_text(writer, text.as_str())
}

/// Reads a script, runs its commands, those of each processor in threads of their own over links of
/// this capacity, and writes what each processor did. At Ok all was read and written. At a faulty
/// line that is told, and no thread was started. Where the exchange gives no report nothing is
/// written. It waits.
pub fn run_threads<T: Threads + Wait + Sync, R: Source, W: Sink>(
    rt: &T,
    alloc: Global,
    capacity: usize,
    reader: &mut R,
    writer: &mut W,
) -> Result<(), ThreadsFault>
    requires reader_works { R.has_failed reader.old ≡ false }
    requires writer_works { W.has_failed writer.old ≡ false }
    ensures told { (input text : List ℕ) × Consumes (R.left reader.old) (R.left reader.new) input
        × Appends (W.written writer.old) (W.written writer.new) text
        × TellsThreads capacity result input text
        (HasEnded (R.has_ended reader.new) (R.left reader.new)) }
    ensures blames { Blames read_failed write_failed result (R.has_failed reader.new)
        (W.has_failed writer.new) }
    ensures once { R.has_failed reader.new ≡ true
        → R.has_ended reader.new ≡ R.has_ended reader.old }
{
    let scripts = match thread_scripts(alloc, reader) {
        Ok(scripts) => scripts,
        Err(ScriptFault::Line { number, fault }) => {
            write_fault(alloc, number, fault, writer)?;
            return Err(ThreadsFault::Script(ScriptFault::Line { number, fault }));
        }
        Err(fault) => return Err(ThreadsFault::Script(fault)),
    };
    let report = mapdb_exchange::run(rt, alloc, scripts, capacity, &Open)?;
    write_report(alloc, report.parts.as_slice(), writer)
}
