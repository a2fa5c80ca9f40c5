//! What the program stands in: the words of its command line, where its messages go, and the status
//! that it ends with.

ghost use Rattle.std.specs.Prelude.{◌≡◌, Option, false, true, map, IfOk, IfErr};
ghost use Rattle.std.specs.IoError.{error_kind};
ghost use Rattle.mapdb_program.specs.Commands.{job_in};
ghost use Rattle.mapdb_program.specs.Ends.{EndsFor, EndsUnread, reader_use, writer_use};
ghost use Rattle.mapdb_program.specs.declared.commands.Job.{Job};

use crate::endings::Ending;
use crate::served::{refuse_unread, serve};
use mapdb_script::{Sink, Source, ToWrite};
use std::alloc::Global;
use std::convert::AsStr;
use std::io::{Eprint, Stderr};
use std::process::{ExitCode, Termination};
use std::rt::Env;
use std::sync::Wait;
use std::thread::Threads;
use std::{env, io};

/// The status that the program ends with. Only [`start`] gives one, so that `main` cannot end with
/// another.
#[derive(Drop)]
pub struct Status {
    ending: Ending,
}

impl Termination for Status {
    ghost use Rattle.std.specs.Prelude.{◌≡◌};
    ghost use Rattle.std.specs.Process.{exit_status};
    ghost use Rattle.mapdb_program.specs.Statuses.{ending_status};

    /// The exit status is that of how the program ended.
    fn report<R: Eprint>(self, _rt: &R) -> ExitCode
        ensures { exit_status result ≡ ending_status self.ending }
    {
        ExitCode::from(self.ending.status())
    }
}

/// The words of the command line, the program's name first.
fn words_of(environment: &(impl Env + Alloc<A = Global>)) -> io::Result<Vec<String>> {
    Ok(env::args(environment)?.collect(environment.alloc())?)
}

/// Does what these words ask for. The status is that of the [`Ending`] which [`serve`] answers.
/// Where there are no words, nothing is read or written, and it is that of memory that ran out, or
/// of words that were refused, since one is no UTF-8. It waits only for `threads`.
fn end_by<T: AllocGlobal + Threads + Wait + Sync, R: Source, W: Sink, E: Sink>(
    rt: &T,
    words: io::Result<Vec<String>>,
    reader: &mut R,
    writer: &mut W,
    errors: &mut E,
) -> Status
    requires reader_works { R.has_failed reader.old ≡ false }
    requires writer_works { W.has_failed writer.old ≡ false }
    ensures words { IfOk words (λ list. EndsFor
        (job_in (map ⟦<String as AsStr>⟧.text list.items)) result.ending
        ((reader.new ≡ reader.old) × (writer.new ≡ writer.old))
        (reader_use (R.left reader.old) (R.left reader.new) (R.has_ended reader.new)
        (R.has_failed reader.new))
        (writer_use (W.written writer.old) (W.written writer.new) (W.has_failed writer.new))
        (writer_use (E.written errors.old) (E.written errors.new) (E.has_failed errors.new))) }
    ensures unread { IfErr words (λ error. EndsUnread (error_kind error) result.ending
        ((reader.new ≡ reader.old) × (writer.new ≡ writer.old))
        (writer_use (E.written errors.old) (E.written errors.new) (E.has_failed errors.new))) }
    ensures once { R.has_failed reader.new ≡ true
        → R.has_ended reader.new ≡ R.has_ended reader.old }
{
    let ending = match words {
        Ok(words) => serve(rt, words.as_slice(), reader, writer, errors),
        Err(error) => refuse_unread(error.kind(), errors),
    };
    Status { ending }
}

/// Does what the words of the command line ask for. The status is that of the [`Ending`] which
/// [`serve`] answers. Where the words cannot be had, nothing is read or written, and it is that of
/// memory that ran out, or of words that were refused, since one is no UTF-8 (`end_by`). Which
/// words there are is the environment's. Messages go to standard error alone, so none can stand
/// among the replies. It waits only for `threads`.
pub fn start<T: AllocGlobal + Threads + Wait + Sync, V: Env + AllocGlobal, R: Source, W: Sink>(
    rt: &T,
    environment: &V,
    reader: &mut R,
    writer: &mut W,
    errors: &mut ToWrite<Stderr>,
) -> Status
    requires reader_works { R.has_failed reader.old ≡ false }
    requires writer_works { W.has_failed writer.old ≡ false }
    ensures ends { (job : Option Job) × EndsFor job result.ending
        ((reader.new ≡ reader.old) × (writer.new ≡ writer.old))
        (reader_use (R.left reader.old) (R.left reader.new) (R.has_ended reader.new)
        (R.has_failed reader.new))
        (writer_use (W.written writer.old) (W.written writer.new) (W.has_failed writer.new))
        (writer_use (⟦<ToWrite<Stderr> as Sink>⟧.written errors.old)
        (⟦<ToWrite<Stderr> as Sink>⟧.written errors.new)
        (⟦<ToWrite<Stderr> as Sink>⟧.has_failed errors.new)) }
    ensures once { R.has_failed reader.new ≡ true
        → R.has_ended reader.new ≡ R.has_ended reader.old }
{
    end_by(rt, words_of(environment), reader, writer, errors)
}
