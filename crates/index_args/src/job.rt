//! The job that a command line asks for.
ghost use Rattle.std.specs.Prelude.{◌≡◌, ◌≤◌, ◌<◌, ◌^◌, [], Some, true};
ghost use Rattle.std.specs.Prelude.{◌↔◌, codes, map, option_map, string_bytes, IfErr, IfOk, IsOk, IsTrue};
ghost use Rattle.clap.specs.Words.{first_of, subcommand_rows_of};
ghost use Rattle.index_args.specs.Program.{index_app, IsApp};
ghost use Rattle.index_args.specs.Jobs.{FindsExactly, HasNumberOrNone, HasPaths, HasPathsOrNone, IsGiven, IsJob, IsDecimalText, IsNumberOr, rows_entered, rows_in};
ghost use Rattle.index_args.specs.Reading.{ReadsJob};

use crate::command;
use clap::error::ErrorKind;
use clap::{ArgMatches, Command, Error};
use std::alloc::{AllocError, Global};

/// The paths of an index's files.
#[derive(Clone, Copy, Debug, PartialEq, Eq)]
pub struct Paths<'a> {
    /// The path of its database.
    pub db: &'a str,
    /// The path of its volume, if one is given. An empty one stands for that of the database with `-volume`.
    pub volume: Option<&'a str>,
}

/// The options of `serve`, without the paths.
#[derive(Clone, Copy, Debug, PartialEq, Eq)]
pub struct ServeArgs<'a> {
    /// The address and port to listen on.
    pub listen: &'a str,
    /// The number of connections in a round, 1 to 1,000,000.
    pub requests: u32,
    /// The number of rounds, 1 to 1,000,000. The default is 1.
    pub rounds: u32,
    /// The moment of every request in Unix seconds, or that of the clock.
    pub at: Option<u64>,
    /// The size of the cache in bytes, or the default.
    pub keep_recent: Option<u64>,
}

/// What the program is to do.
#[derive(Clone, Copy, Debug, PartialEq, Eq)]
pub enum Job<'a> {
    /// Makes a new index.
    Init {
        /// The paths of its files. A volume is made if one is given.
        paths: Paths<'a>,
        /// The id of its first user, as given.
        user: &'a str,
        /// The hex digits of the digest of that user's token, as given.
        token: &'a str,
        /// Whether each page of the database ends in a sum.
        page_sums: bool,
    },
    /// Answers the lines of standard input.
    Apply {
        /// The paths of the index's files, or none for tables in memory.
        paths: Option<Paths<'a>>,
    },
    /// Answers HTTP requests, one for each connection.
    Serve {
        /// The paths of the index's files.
        paths: Paths<'a>,
        /// Its other options.
        args: ServeArgs<'a>,
    },
    /// Prints the report.
    Report {
        /// The paths of the index's files.
        paths: Paths<'a>,
    },
    /// Counts the names with a wrong charge.
    Check {
        /// The paths of the index's files.
        paths: Paths<'a>,
    },
}

/// Why a command line asks for nothing.
#[derive(Debug, Drop)]
pub enum ArgsEnd {
    /// `clap` refuses the arguments, or they ask for the help or the version.
    Clap(Error),
    OutOfMemory,
}

impl From<AllocError> for ArgsEnd {
    ghost use Rattle.index_args.specs.declared.job.ArgsEnd.TheVariants.{OutOfMemory};

    ghost from_gives = { λ _ end. end ≡ OutOfMemory };

    fn from(_error: AllocError) -> ArgsEnd {
        ArgsEnd::OutOfMemory
    }
}

impl From<Error> for ArgsEnd {
    ghost use Rattle.index_args.specs.Reading.{IsEndOf};

    ghost from_gives = { IsEndOf };

    fn from(error: Error) -> ArgsEnd {
        if error.kind() == ErrorKind::OutOfMemory {
            ArgsEnd::OutOfMemory
        } else {
            ArgsEnd::Clap(error)
        }
    }
}

/// Parses a command line, beginning with the program's name.
///
/// # Errors
///
/// `Clap` if `clap` refuses the arguments, or they ask for the help or the version; `OutOfMemory` if memory runs out.
pub fn read_args<'a>(alloc: Global, args: &'a [String]) -> Result<Job<'a>, ArgsEnd>
    ensures { ReadsJob (map string_bytes args.now) result }
{
    let mut command = command::index(alloc)?;
    let read = job_in(&mut command, args);
    drop(command);
    read
}

/// The job of arguments that the command accepts.
fn job_in<'a>(command: &mut Command<'a>, args: &'a [String]) -> Result<Job<'a>, ArgsEnd>
    requires { IsApp command.old index_app }
    ensures { ReadsJob (map string_bytes args.now) result }
{
    let matches = command.try_get_matches_from_mut(args)?;
    match job_of(&matches) {
        Some(job) => Ok(job),
        None => {
            let text = "--volume is given without --db";
            Err(ArgsEnd::Clap(command.error(ErrorKind::MissingSubcommand, text)?))
        }
    }
}

/// The job of the subcommand and its options.
fn job_of<'a>(matches: &ArgMatches<'a>) -> Option<Job<'a>>
    ensures { FindsExactly (IsJob (subcommand_rows_of matches.now)) result }
{
    match entered_subcommand(matches)? {
        ("init", given) => init_of(given),
        ("apply", given) => apply_of(given),
        ("serve", given) => serve_of(given),
        ("report", given) => report_of(given),
        ("check", given) => check_of(given),
        _ => None,
    }
}

/// The subcommand that was given, and its options.
fn entered_subcommand<'m, 'a>(matches: &'m ArgMatches<'a>) -> Option<(&'a str, &'m ArgMatches<'a>)>
    ensures { rows_entered result ≡ subcommand_rows_of matches.now }
{
    matches.subcommand()
}

/// The job of the subcommand `init` with these options.
fn init_of<'a>(given: &ArgMatches<'a>) -> Option<Job<'a>>
    ensures { FindsExactly (IsJob (Some (codes "init", rows_in given.now))) result }
{
    let paths = paths_of(given)?;
    let user = text(given, "user")?;
    let token = text(given, "token-sha256")?;
    let page_sums = is_given(given, "page-sums");
    Some(Job::Init {
        paths,
        user,
        token,
        page_sums,
    })
}

/// The job of the subcommand `apply` with these options.
fn apply_of<'a>(given: &ArgMatches<'a>) -> Option<Job<'a>>
    ensures { FindsExactly (IsJob (Some (codes "apply", rows_in given.now))) result }
{
    let paths = paths_or_none(given)?;
    Some(Job::Apply { paths })
}

/// The job of the subcommand `report` with these options.
fn report_of<'a>(given: &ArgMatches<'a>) -> Option<Job<'a>>
    ensures { FindsExactly (IsJob (Some (codes "report", rows_in given.now))) result }
{
    let paths = paths_of(given)?;
    Some(Job::Report { paths })
}

/// The job of the subcommand `check` with these options.
fn check_of<'a>(given: &ArgMatches<'a>) -> Option<Job<'a>>
    ensures { FindsExactly (IsJob (Some (codes "check", rows_in given.now))) result }
{
    let paths = paths_of(given)?;
    Some(Job::Check { paths })
}

/// The job of the subcommand `serve` with these options.
fn serve_of<'a>(given: &ArgMatches<'a>) -> Option<Job<'a>>
    ensures { FindsExactly (IsJob (Some (codes "serve", rows_in given.now))) result }
{
    let paths = paths_of(given)?;
    let listen = text(given, "listen")?;
    let requests = count(text(given, "requests")?)?;
    let rounds = rounds_of(given)?;
    let at = number_or_none(given, "at")?;
    let keep_recent = number_or_none(given, "keep-recent")?;
    let args = ServeArgs {
        listen,
        requests,
        rounds,
        at,
        keep_recent,
    };
    Some(Job::Serve { paths, args })
}

/// The paths of an index's files.
fn paths_of<'a>(given: &ArgMatches<'a>) -> Option<Paths<'a>>
    ensures { FindsExactly (HasPaths (rows_in given.now)) result }
{
    let db = text(given, "db")?;
    let volume = text(given, "volume");
    Some(Paths { db, volume })
}

/// The paths of an index's files, if they are given. A volume needs its database.
fn paths_or_none<'a>(given: &ArgMatches<'a>) -> Option<Option<Paths<'a>>>
    ensures { FindsExactly (HasPathsOrNone (rows_in given.now)) result }
{
    match (text(given, "db"), text(given, "volume")) {
        (Some(db), volume) => Some(Some(Paths { db, volume })),
        (None, None) => Some(None),
        (None, Some(_)) => None,
    }
}

/// The text of an option.
fn text<'a>(given: &ArgMatches<'a>, id: &str) -> Option<&'a str>
    ensures { option_map (λ text. text.now) result ≡ first_of id.now (rows_in given.now) }
{
    given.get_str(id)
}

/// Whether an option without a value is given.
fn is_given(given: &ArgMatches<'_>, id: &str) -> bool
    ensures { IsTrue result ↔ IsGiven id.now (rows_in given.now) }
{
    matches!(text(given, id), Some("true"))
}

/// The number of an option, or `None` if it is not given.
fn number_or_none(given: &ArgMatches<'_>, id: &str) -> Option<Option<u64>>
    ensures { FindsExactly (HasNumberOrNone id.now (rows_in given.now)) result }
{
    match text(given, id) {
        Some(text) => Some(Some(number(text)?)),
        None => Some(None),
    }
}

/// The number of rounds: 1 if it is not given.
fn rounds_of(given: &ArgMatches<'_>) -> Option<u32>
    ensures { FindsExactly (λ n. IsNumberOr 1 (first_of (codes "rounds") (rows_in given.now)) n
        × (1 ≤ n) × (n ≤ 1000000)) result }
{
    match text(given, "rounds") {
        Some(text) => count(text),
        None => Some(1),
    }
}

/// A number of connections or of rounds.
fn count(text: &str) -> Option<u32>
    ensures { FindsExactly (λ n. IsDecimalText n text.now × (1 ≤ n) × (n ≤ 1000000)) result }
{
    let count = number(text)?;
    if count == 0 || count > 1_000_000 {
        return None;
    }
    Some(count as u32)
}

/// The number of a text.
fn number(text: &str) -> Option<u64>
    ensures { FindsExactly (λ n. IsDecimalText n text.now × (n < 2 ^ 64)) result }
{
    text.parse::<u64>().ok()
}
