//! The program's subcommands and their options.
ghost use Rattle.std.specs.Prelude.{◌≡◌, codes};
ghost use Rattle.clap.specs.Words.{App, rule_of, with_subcommand};
ghost use Rattle.index_args.specs.Program.{AppIsMade, IsApp, IsArg, any_number, flag_option, number_between, option, required};
ghost use Rattle.index_args.specs.Program.{apply_app, database_app, index_app, init_app, new_volume_option, paths_app, serve_app};

use clap::builder::ValueParser;
use clap::{Arg, ArgAction, Command};
use std::alloc::{AllocError, Global};

/// What `--version` prints behind the program's name: the version, and the kit that proves and builds it, without the
/// letter of the kit's revision, since a proof rests on the logic.
const VERSION: &str = "0.5.0 (rattle-kit-13 logic dac8208d650f15bf)";

/// The help of the option `--db`.
const DATABASE: &str = "The file of the index, an SQLite database";

/// The help of the option `--volume`, but for `init`.
const VOLUME: &str =
    "The volume of an index that has one, if it is not beside the database, its name with -volume";

/// An option that may be left out.
fn optional_arg<'a>(alloc: Global, name: &'a str, help: &'a str) -> Arg<'a>
    ensures { IsArg result (option name.entry.now) }
{
    Arg::new(alloc, name).long(name).help(help)
}

/// An option that must be given.
fn required_arg<'a>(alloc: Global, name: &'a str, help: &'a str) -> Arg<'a>
    ensures { IsArg result (required name.entry.now) }
{
    optional_arg(alloc, name, help).required(true)
}

/// An option without a value.
fn flag<'a>(alloc: Global, name: &'a str, help: &'a str) -> Arg<'a>
    ensures { IsArg result (flag_option name.entry.now) }
{
    optional_arg(alloc, name, help).action(ArgAction::SetTrue)
}

/// An option for a whole number in a range.
fn whole_number<'a>(arg: Arg<'a>, least: u64, most: u64) -> Arg<'a>
    ensures rule { rule_of result ≡ number_between least most (rule_of arg.entry) }
    ensures local { result.global ≡ arg.entry.global }
{
    arg.value_parser(ValueParser::Unsigned(least, most))
}

/// A subcommand that needs a database.
fn on_database<'a>(alloc: Global, name: &'a str, about: &'a str) -> Result<Command<'a>, AllocError>
    ensures { AppIsMade result (database_app name.entry.now) }
{
    Command::new(alloc, name)
        .about(about)
        .arg(required_arg(alloc, "db", DATABASE))
}

/// A subcommand that needs the files of an index.
fn on_paths<'a>(alloc: Global, name: &'a str, about: &'a str) -> Result<Command<'a>, AllocError>
    ensures { AppIsMade result (paths_app name.entry.now) }
{
    on_database(alloc, name, about)?.arg(optional_arg(alloc, "volume", VOLUME))
}

/// The option `--volume` of `init`, whose value may be left out.
fn new_volume<'a>(alloc: Global) -> Arg<'a>
    ensures { IsArg result new_volume_option }
{
    let help =
        "Keeps the bytes of files in a volume: a new file here, or beside the database, its name with -volume";
    optional_arg(alloc, "volume", help)
        .num_args(0..=1)
        .default_missing_value("")
}

/// The subcommand `init` and its options.
fn init<'a>(alloc: Global) -> Result<Command<'a>, AllocError>
    ensures { AppIsMade result init_app }
{
    let digest = "The SHA-256 digest of that user's token, as 64 hex digits";
    let sums = "Ends each page of the file in a sum, so that damage is found";
    on_database(
        alloc,
        "init",
        "Makes a new index with one user, of the office",
    )?
    .arg(required_arg(alloc, "user", "The id of the first user"))?
    .arg(required_arg(alloc, "token-sha256", digest))?
    .arg(flag(alloc, "page-sums", sums))?
    .arg(new_volume(alloc))
}

/// The subcommand `apply` and its options.
fn apply<'a>(alloc: Global) -> Result<Command<'a>, AllocError>
    ensures { AppIsMade result apply_app }
{
    Command::new(alloc, "apply")
        .about("Answers each line of standard input")
        .arg(optional_arg(alloc, "db", DATABASE))?
        .arg(optional_arg(alloc, "volume", VOLUME))
}

/// The option `--requests`.
fn requests<'a>(alloc: Global) -> Arg<'a>
    ensures { IsArg result (number_between 1 1000000 (required (codes "requests"))) }
{
    let help = "How many connections are served, 1 to 1,000,000";
    whole_number(required_arg(alloc, "requests", help), 1, 1_000_000)
}

/// The option `--rounds`.
fn rounds<'a>(alloc: Global) -> Arg<'a>
    ensures { IsArg result (number_between 1 1000000 (option (codes "rounds"))) }
{
    let help = "How many times so many connections are served, 1 to 1,000,000, or once";
    whole_number(optional_arg(alloc, "rounds", help), 1, 1_000_000)
}

/// The option `--at`.
fn at<'a>(alloc: Global) -> Arg<'a>
    ensures { IsArg result (any_number (option (codes "at"))) }
{
    let help = "The moment of every request in Unix seconds, or the clock's";
    whole_number(optional_arg(alloc, "at", help), 0, u64::MAX)
}

/// The option `--keep-recent`.
fn keep_recent<'a>(alloc: Global) -> Arg<'a>
    ensures { IsArg result (any_number (option (codes "keep-recent"))) }
{
    let help = "The size of the cache of files and pages in bytes, 0 for none, or 268,435,456";
    whole_number(optional_arg(alloc, "keep-recent", help), 0, u64::MAX)
}

/// The subcommand `serve` and its options.
fn serve<'a>(alloc: Global) -> Result<Command<'a>, AllocError>
    ensures { AppIsMade result serve_app }
{
    let help = "The address and port to listen on";
    on_paths(alloc, "serve", "Answers HTTP requests, one a connection")?
        .arg(required_arg(alloc, "listen", help))?
        .arg(requests(alloc))?
        .arg(rounds(alloc))?
        .arg(at(alloc))?
        .arg(keep_recent(alloc))
}

/// The command with one more subcommand, unless memory ran out for that.
fn add_subcommand<'a>(
    command: Command<'a>,
    made: Result<Command<'a>, AllocError>,
) -> Result<Command<'a>, AllocError>
    ensures { (app below : App) → IsApp command.entry app → AppIsMade made.entry below
        → AppIsMade result (with_subcommand app below.top) }
{
    match made {
        Ok(made) => command.subcommand(made),
        Err(error) => Err(error),
    }
}

/// The whole command line.
pub fn index<'a>(alloc: Global) -> Result<Command<'a>, AllocError>
    ensures { AppIsMade result index_app }
{
    let check = "Prints how many names have a wrong charge";
    let index = Command::new(alloc, "index")
        .version(VERSION)
        .subcommand_required(true);
    let index = add_subcommand(index, init(alloc))?;
    let index = add_subcommand(index, apply(alloc))?;
    let index = add_subcommand(index, serve(alloc))?;
    let index = add_subcommand(
        index,
        on_paths(alloc, "report", "Prints a line for each name"),
    )?;
    add_subcommand(index, on_paths(alloc, "check", check))
}
