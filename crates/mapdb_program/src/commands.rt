//! The command line.

ghost use Rattle.std.specs.Prelude.{◌≡◌, ◌≤◌, ◌⊎◌, Some, None, IfOk, IfErr, IfSome, false, map};
ghost use Rattle.std.specs.Prelude.{codes};
ghost use Rattle.std.specs.Option.{option_and_then};
ghost use Rattle.clap.specs.Simple.{new_shape};
ghost use Rattle.clap.specs.Words.{app_of, found_of, kind_of, rows_of, rule_of, shape_of};
ghost use Rattle.clap.specs.Words.{subcommand_rows_of};
ghost use Rattle.mapdb_program.specs.Commands.{asked, threads_given, capacity_rule, capacity_said};
ghost use Rattle.mapdb_program.specs.Commands.{explain, job_in, job_named, l4map, page_given};
ghost use Rattle.mapdb_program.specs.Commands.{page_said};
ghost use Rattle.mapdb_program.specs.Commands.{program, threads, word_rule};

use crate::help::{
    ABOUT, ADDRESS_HELP, CAPACITY_HELP, EXPLAIN_ABOUT, EXPLAIN_HELP, EXPLAIN_USAGE, NO_CAPACITY,
    NO_PAGE, PICTURE_ABOUT, PICTURE_HELP, PICTURE_USAGE, RUN_ABOUT, RUN_USAGE, SCRIPT_HELP,
    SPACE_HELP, THREADS_ABOUT, THREADS_HELP, THREADS_USAGE, USAGE, VERSION,
};
use crate::snapshots::Asked;
use clap::error::ErrorKind;
use clap::{Arg, ArgMatches, Command, Error};
use mapdb_exchange::MOST_CAPACITY;
use mapdb_fpage::PAGE_BYTES;
use mapdb_lines::{DECIMAL_DIGITS, address, number, space};
use std::alloc::{AllocError, Global};
use std::convert::AsStr;

/// What is to be done.
#[derive(Clone, Copy, Debug, PartialEq, Eq)]
pub enum Job {
    /// A script is run.
    Run,
    /// The commands of a script are run, those of each processor in threads of their own.
    Threads {
        /// How many messages a link between two processors holds, 1 to 1,024.
        capacity: usize,
    },
    /// Something is told of a snapshot.
    Tell(Asked),
}

/// The argument of `threads`.
fn capacity_argument<'a>(alloc: Global) -> Arg<'a>
    ensures rule { rule_of result ≡ capacity_rule }
    ensures global { result.global ≡ false }
{
    Arg::new(alloc, "capacity")
        .long("capacity")
        .value_name("N")
        .default_value("16")
        .help(CAPACITY_HELP)
}

/// The subcommand `threads`.
#[tactic(auto, using(crate::proofs::CommandLemmas::shape_with_rule))]
fn threads_command<'a>(alloc: Global) -> Result<Command<'a>, AllocError>
    ensures { IfOk result (λ c. shape_of c ≡ threads) }
{
    Command::new(alloc, "threads")
        .about(THREADS_ABOUT)
        .override_usage(THREADS_USAGE)
        .after_help(THREADS_HELP)
        .arg(capacity_argument(alloc))
}

/// An argument that must be there.
fn word_argument<'a>(alloc: Global, name: &'a str, help: &'a str) -> Arg<'a>
    ensures rule { rule_of result ≡ word_rule name.entry.now }
    ensures global { result.global ≡ false }
{
    Arg::new(alloc, name).required(true).help(help)
}

/// The subcommand `explain`.
fn explain_command<'a>(alloc: Global) -> Result<Command<'a>, AllocError>
    ensures { IfOk result (λ c. shape_of c ≡ explain) }
{
    Command::new(alloc, "explain")
        .about(EXPLAIN_ABOUT)
        .override_usage(EXPLAIN_USAGE)
        .after_help(EXPLAIN_HELP)
        .arg(word_argument(alloc, "space", SPACE_HELP))?
        .arg(word_argument(alloc, "address", ADDRESS_HELP))
}

/// The subcommand `run`.
fn run_command<'a>(alloc: Global) -> Command<'a>
    ensures { shape_of result ≡ new_shape (codes "run") }
{
    Command::new(alloc, "run")
        .about(RUN_ABOUT)
        .override_usage(RUN_USAGE)
        .after_help(SCRIPT_HELP)
}

/// The subcommand `picture`.
fn picture_command<'a>(alloc: Global) -> Command<'a>
    ensures { shape_of result ≡ new_shape (codes "picture") }
{
    Command::new(alloc, "picture")
        .about(PICTURE_ABOUT)
        .override_usage(PICTURE_USAGE)
        .after_help(PICTURE_HELP)
}

/// The program alone, without its subcommands.
fn program_command<'a>(alloc: Global) -> Command<'a>
    ensures { app_of result ≡ program }
{
    Command::new(alloc, "l4map")
        .version(VERSION)
        .about(ABOUT)
        .override_usage(USAGE)
        .after_help(SCRIPT_HELP)
        .subcommand_required(true)
}

/// The program's command line.
#[tactic(auto, using(crate::proofs::CommandLemmas::app_with_subcommand))]
fn command<'a>(alloc: Global) -> Result<Command<'a>, AllocError>
    ensures { IfOk result (λ c. app_of c ≡ l4map) }
{
    let threads = threads_command(alloc)?;
    let explain = explain_command(alloc)?;
    program_command(alloc)
        .subcommand(run_command(alloc))?
        .subcommand(threads)?
        .subcommand(picture_command(alloc))?
        .subcommand(explain)
}

/// The capacity that a word says: a decimal number, from 1 to the greatest.
fn capacity_said(word: &str) -> Option<usize>
    ensures value { result ≡ capacity_said word.now }
    ensures bounds { IfSome result (λ n. (1 ≤ n) × (n ≤ MOST_CAPACITY)) }
{
    let capacity = number(10, DECIMAL_DIGITS, MOST_CAPACITY as u64, word.as_bytes())?;
    if capacity == 0 {
        None
    } else {
        Some(capacity as usize)
    }
}

/// The page of an address in a space, where both are words of a script.
fn page_said(space_word: &str, address_word: &str) -> Option<Asked>
    ensures { result ≡ page_said space_word.now address_word.now }
{
    let space = space(space_word.as_bytes()).ok()?;
    let address = address(address_word.as_bytes()).ok()?;
    Some(Asked::Page {
        space,
        page: address / PAGE_BYTES,
    })
}

/// What the arguments of `explain` ask for.
#[tactic(auto, using(crate::proofs::CommandLemmas::first_value_rows))]
fn page_given(given: &ArgMatches<'_>) -> Option<Asked>
    ensures { result ≡ page_given (rows_of (found_of given.now)) }
{
    page_said(given.get_str("space")?, given.get_str("address")?)
}

/// What the argument of `threads` asks for.
#[tactic(auto, using(crate::proofs::CommandLemmas::first_value_rows))]
fn threads_given(given: &ArgMatches<'_>) -> Option<Job>
    ensures { result ≡ threads_given (rows_of (found_of given.now)) }
{
    let capacity = capacity_said(given.get_str("capacity")?)?;
    Some(Job::Threads { capacity })
}

/// What a subcommand of this name asks for, by what was found for its arguments.
fn job_named(name: &str, given: &ArgMatches<'_>) -> Option<Job>
    ensures { result ≡ job_named name.now (rows_of (found_of given.now)) }
{
    if name == "run" {
        return Some(Job::Run);
    }
    if name == "threads" {
        return threads_given(given);
    }
    if name == "picture" {
        return Some(Job::Tell(Asked::Picture));
    }
    if name != "explain" {
        return None;
    }
    page_given(given).map(Job::Tell)
}

/// What the subcommand that was met asks for.
fn job_met(matches: &ArgMatches<'_>) -> Option<Job>
    ensures { result ≡ option_and_then asked (subcommand_rows_of matches.now) }
{
    let (name, given) = matches.subcommand()?;
    job_named(name, given)
}

/// Why the value of an argument is refused.
fn reason(matches: &ArgMatches<'_>) -> &'static str {
    match matches.subcommand() {
        Some((name, _)) if name == "explain" => NO_PAGE,
        _ => NO_CAPACITY,
    }
}

/// The error that refuses the value of an argument.
fn no_value(alloc: Global, matches: &ArgMatches<'_>) -> Result<Error, AllocError>
    ensures { IfOk result (λ e. kind_of e ≡ ErrorKind.ValueValidation) }
{
    command(alloc)?.error(ErrorKind::ValueValidation, reason(matches))
}

/// What the words ask for. The error says why they are refused, by clap, which answers a call for
/// help or the version so too, or for the value of an argument; or that memory ran out.
pub fn job_of<'a, S: AsStr>(alloc: Global, words: &'a [S]) -> Result<Job, Error>
    ensures ok { IfOk result (λ job. job_in (map S.text words.now) ≡ Some job) }
    ensures err { IfErr result (λ e. (kind_of e ≡ ErrorKind.OutOfMemory)
        ⊎ (job_in (map S.text words.now) ≡ None)) }
{
    let matches = command(alloc)?.try_get_matches_from(words)?;
    match job_met(&matches) {
        Some(job) => Ok(job),
        None => Err(no_value(alloc, &matches)?),
    }
}
