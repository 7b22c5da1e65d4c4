//! The program's subcommands.
ghost use Rattle.std.specs.Prelude.{◌≡◌, ◌↔◌, ◌*◌, ◌++◌, ◌∷◌, [], codes, false};
ghost use Rattle.std.specs.Prelude.{Err, IfErr, IfOk, IsOk, IsTrue, Ok};
ghost use Rattle.std.specs.Process.{exit_status};
ghost use Rattle.sqlite.specs.WalFiles.{image_at};
ghost use Rattle.index_cli.specs.Ends.{WritesText};
ghost use Rattle.index_cli.specs.Lines.{line_feed};
ghost use Rattle.index_digest.specs.Digest.{sha256};
ghost use Rattle.index_http.specs.Steps.{to_sink};
ghost use Rattle.index_rules.specs.FirstTables.{first_tables};
ghost use Rattle.index_rules.specs.Tables.{Tables};
ghost use Rattle.index.specs.Ends.{end_by, is_store};
ghost use Rattle.index.specs.Jobs.{ApplyEnds, ComesByPaths, ComesOfInit, EndsAsInit, EndsAsRun, ReportEnds};
ghost use Rattle.index.specs.Jobs.{IsStatusOf, IsStatusOfCheck, IsStatusOfInit};
ghost use Rattle.index.specs.Pairs.{ComesByVolume, MakesByVolume, on_pair};
ghost use Rattle.index.specs.Tasks.{CountWrong, Does, answer_sockets};

use crate::at_desk::run_at_desk;
use crate::database::{self, Work};
use crate::end::End;
use crate::serving::serving_by;
use crate::{new_pair, pair};
use index_args::{Paths, ServeArgs};
use index_caching::CachesAnswers;
use index_cli::apply_lines;
use index_desk::Desk;
use index_digest::Digest256;
use index_io::{Input, Sink, Source, write_bytes};
use index_message::Site;
use index_plain::PlainBooks;
use index_rules::OpenFault;
use itoa::Buffer;
use sqlite::{FileFrom, Start};
use sqlite_disk::Disk;
use std::io::{BufReader, Stdin};
use std::process::ExitCode;

/// How a job ended, and the sink that it wrote to.
pub struct Ended<K> {
    pub end: Result<ExitCode, End>,
    pub sink: K,
}

/// Makes a new index, with page sums or without, and writes to a sink that it did.
pub fn init<S: Start, V: Start, K: Sink>(
    rt: &HostRuntime,
    paths: Paths<'_>,
    start: S,
    volume: V,
    user: &str,
    token: &str,
    page_sums: bool,
    sink: &mut K,
) -> Result<ExitCode, End>
    ensures { EndsAsInit (MakesByVolume ⟦<FileFrom<S> as Disk>⟧ paths.entry.volume
        (image_at S.Start)) user.now token.now page_sums
        (IsStatusOfInit (to_sink K.Sink sink.old sink.new)) result }
{
    create(rt, paths, start, volume, user, token, page_sums)?;
    match write_line(sink, b"created") {
        Ok(()) => Ok(ExitCode::SUCCESS),
        Err(_) => Err(End::WriteFault),
    }
}

/// Writes a text and a line feed.
///
/// # Errors
///
/// How many of their bytes went out, before a write failed or took no byte.
fn write_line<K: Sink>(sink: &mut K, text: &[u8]) -> Result<(), usize>
    ensures { WritesText K.Sink sink.old sink.new (text.now ++ line_feed ∷ []) result }
{
    write_bytes(sink, text)?;
    if write_bytes(sink, b"\n".as_slice()).is_err() {
        return Err(text.len());
    }
    Ok(())
}

/// Makes a new index in a file.
fn create<S: Start, V: Start>(
    rt: &HostRuntime,
    paths: Paths<'_>,
    start: S,
    volume: V,
    user: &str,
    token: &str,
    page_sums: bool,
) -> Result<(), End>
    ensures { MakesByVolume ⟦<FileFrom<S> as Disk>⟧ paths.entry.volume (image_at S.Start)
        user.now token.now page_sums result }
{
    match paths.volume {
        Some(_) => new_pair::create(rt, paths, start, volume, user, token, page_sums),
        None => create_alone(rt, paths.db, start, user, token, page_sums),
    }
}

/// Makes a new index in a file, without a volume.
fn create_alone<S: Start>(
    rt: &HostRuntime,
    db: &str,
    start: S,
    user: &str,
    token: &str,
    page_sums: bool,
) -> Result<(), End>
    ensures { ComesOfInit ⟦<FileFrom<S> as Disk>⟧ user.now token.now page_sums
        (image_at S.Start) result }
{
    match database::create(rt, db, start, user, token, page_sums) {
        Ok(closed) => database::let_go(closed),
        Err(unused) => Err(database::end_of_unused(rt.alloc(), unused)),
    }
}

/// Standard input, buffered.
pub fn standard_input(rt: &HostRuntime) -> Result<Input<BufReader<Stdin>>, End>
    ensures { IfErr result (λ e. e ≡ End.OutOfMemory) }
{
    match BufReader::new(rt.alloc(), rt.stdin()) {
        Ok(reader) => Ok(Input::new(reader)),
        Err(_) => Err(End::OutOfMemory),
    }
}

/// Answers the lines of a source on a sink, with the tables of a database or with tables in memory.
pub fn apply<S: Start, V: Start, R: Source + Drop, K: Sink>(
    rt: &HostRuntime,
    paths: Option<Paths<'_>>,
    start: S,
    volume: V,
    source: R,
    sink: K,
) -> Ended<K>
    ensures { let by = on_pair ⟦<FileFrom<S> as Disk>⟧ ⟦<FileFrom<V> as Disk>⟧ (image_at S.Start)
        V.Start.db in ApplyEnds (ComesByPaths by.comes paths.entry) (R.remaining source)
        (to_sink K.Sink sink result.sink) result.end }
{
    let mut lines = Lines { source, sink };
    let found = work_by_path(rt, paths, start, volume, &mut lines);
    let Lines {
        source: _source,
        sink,
    } = lines;
    match found {
        Ok(_) => Ended {
            end: Ok(ExitCode::SUCCESS),
            sink,
        },
        Err(end) => Ended {
            end: Err(end),
            sink,
        },
    }
}

/// Does work on the index in a file or, without a path, on tables in memory, and returns the number that it found.
fn work_by_path<S: Start, V: Start, W: Work>(
    rt: &HostRuntime,
    paths: Option<Paths<'_>>,
    start: S,
    volume: V,
    work: &mut W,
) -> Result<u64, End>
    ensures { let by = on_pair ⟦<FileFrom<S> as Disk>⟧ ⟦<FileFrom<V> as Disk>⟧ (image_at S.Start)
        V.Start.db in ComesByPaths by.comes paths.entry (W.task work.old work.new) result }
{
    match paths {
        Some(paths) => work_on(rt, paths, start, volume, work),
        None => work_in_memory(rt, work)?,
    }
}

/// Does work on the index in a file, and returns the number that it found.
fn work_on<S: Start, V: Start, W: Work>(
    rt: &HostRuntime,
    paths: Paths<'_>,
    start: S,
    volume: V,
    work: &mut W,
) -> Result<u64, End>
    ensures { ComesByVolume ⟦<FileFrom<S> as Disk>⟧ ⟦<FileFrom<V> as Disk>⟧ paths.entry.volume
        (image_at S.Start) V.Start.db (W.task work.old work.new) result }
{
    match paths.volume {
        Some(_) => pair::work_on(rt, paths, start, volume, work),
        None => pair::work_by_version(rt, paths, start, volume, work),
    }
}

/// The result of work and of closing. If the database failed in the work, closing has the cause.
pub fn ended_by(end: Result<u64, End>, closed: Result<(), End>) -> Result<u64, End>
    ensures is { result ≡ end_by end closed }

    // Case by case: the result of the work, unless closing failed and the work did not, or the database failed in both.
    ensures closed { IsOk closed → result ≡ end }
    ensures unclosed { IfErr closed (λ fault. IfOk end (λ _. result ≡ Err fault)) }
    ensures ended { IfErr end (λ e. is_store e ≡ false → result ≡ Err e) }
    ensures kept { IfErr end (λ e. IfErr closed (λ it. is_store it ≡ false → result ≡ Err e)) }
    ensures failed { IfErr end (λ e. IsTrue (is_store e)
        → IfErr closed (λ fault. IsTrue (is_store fault) → result ≡ Err fault)) }
{
    let Err(fault) = closed else {
        return end;
    };
    match end {
        Err(end) if !end.is_store() || !fault.is_store() => Err(end),
        _ => Err(fault),
    }
}

/// Does work on tables in memory. Their only user is `office`, of the office, with the token `office`.
fn work_in_memory<W: Work>(rt: &HostRuntime, work: &mut W) -> Result<Result<u64, End>, OpenFault>
    ensures worked { let first = first_tables (codes "office") (sha256 (codes "office")) in
        IfOk result (λ end. (T : Tables) × Does (W.task work.old work.new) end first T) }
    ensures fault { IfErr result (λ fault. fault ≡ OpenFault.OutOfMemory) }
{
    let books = PlainBooks::new(rt.alloc(), b"office", Digest256::of(b"office"))?;
    let (_books, end) = run_at_desk(rt, books, work);
    Ok(end)
}

/// The work of `apply`: the lines of a source are answered on a sink.
#[derive(Drop)]
struct Lines<R, K> {
    source: R,
    sink: K,
}

impl<R: Source, K: Sink> Work for Lines<R, K> {
    ghost use Rattle.index_cli.specs.declared.apply.TheConstants.{MOST_BYTES};
    ghost use Rattle.index_http.specs.Steps.{to_sink};
    ghost use Rattle.index_message.specs.Reads.{from_source};
    ghost use Rattle.index.specs.Ends.{LinesAreCaused};
    ghost use Rattle.index.specs.Tasks.{AnswerLines};

    ghost task = { λ old new. AnswerLines
        (R.remaining old.source) (R.remaining new.source)
        (K.contents old.sink) (K.contents new.sink) };

    ghost IsCaused = { λ old new. LinesAreCaused MOST_BYTES
        (from_source R.Source old.source new.source) (to_sink K.Sink old.sink new.sink) };

    fn keep_recent(&self) -> usize {
        0
    }

    fn run<B: CachesAnswers>(&mut self, rt: &HostRuntime, desk: &mut Desk<B>) -> Result<u64, End> {
        match apply_lines(rt.alloc(), &mut self.source, &mut self.sink, desk) {
            Ok(count) => Ok(count),
            Err(early) => Err(End::Lines(early)),
        }
    }
}

/// Answers rounds of connections with the tables of a database, which is opened before the first of them can come.
pub fn serve<S: Start, V: Start>(
    rt: &HostRuntime,
    paths: Paths<'_>,
    start: S,
    volume: V,
    site: &Site,
    args: ServeArgs<'_>,
) -> Result<ExitCode, End>
    ensures { EndsAsRun (ComesByVolume ⟦<FileFrom<S> as Disk>⟧ ⟦<FileFrom<V> as Disk>⟧
        paths.entry.volume (image_at S.Start) V.Start.db) (answer_sockets args.entry.at
        (args.entry.requests * args.entry.rounds)) IsStatusOf result }
{
    let mut serving = serving_by(site, args);
    work_on(rt, paths, start, volume, &mut serving)?;
    Ok(ExitCode::SUCCESS)
}

/// Writes the report on the tables of a database to a sink.
pub fn report<S: Start, V: Start, K: Sink>(
    rt: &HostRuntime,
    paths: Paths<'_>,
    start: S,
    volume: V,
    sink: K,
) -> Ended<K>
    ensures { ReportEnds (ComesByVolume ⟦<FileFrom<S> as Disk>⟧ ⟦<FileFrom<V> as Disk>⟧
        paths.entry.volume (image_at S.Start) V.Start.db)
        (to_sink K.Sink sink result.sink) result.end }
{
    let mut reporting = Reporting { sink };
    let found = work_on(rt, paths, start, volume, &mut reporting);
    let Reporting { sink } = reporting;
    match found {
        Ok(_) => Ended {
            end: Ok(ExitCode::SUCCESS),
            sink,
        },
        Err(end) => Ended {
            end: Err(end),
            sink,
        },
    }
}

/// The work of `report`: the report is written to a sink.
#[derive(Drop)]
struct Reporting<K> {
    sink: K,
}

impl<K: Sink> Work for Reporting<K> {
    ghost use Rattle.index_http.specs.Steps.{to_sink};
    ghost use Rattle.index.specs.Ends.{ReportIsCaused};
    ghost use Rattle.index.specs.Tasks.{WriteReport};

    ghost task = { λ old new. WriteReport (K.contents old.sink) (K.contents new.sink) };

    ghost IsCaused = { λ old new. ReportIsCaused (to_sink K.Sink old.sink new.sink) };

    fn keep_recent(&self) -> usize {
        0
    }

    #[tactic(auto, using(crate::proofs::CausedLemmas::report_is_caused, crate::proofs::CausedLemmas::report_store, crate::proofs::DoneLemmas::report_works))]
    fn run<B: CachesAnswers>(&mut self, rt: &HostRuntime, desk: &mut Desk<B>) -> Result<u64, End> {
        desk.report(rt.alloc(), &mut self.sink)?;
        Ok(0)
    }
}

/// Writes to a sink how many names have a wrong charge in a database, and fails if any has.
pub fn check<S: Start, V: Start, K: Sink>(
    rt: &HostRuntime,
    paths: Paths<'_>,
    start: S,
    volume: V,
    sink: &mut K,
) -> Result<ExitCode, End>
    ensures { EndsAsRun (ComesByVolume ⟦<FileFrom<S> as Disk>⟧ ⟦<FileFrom<V> as Disk>⟧
        paths.entry.volume (image_at S.Start) V.Start.db) CountWrong
        (IsStatusOfCheck (to_sink K.Sink sink.old sink.new)) result }
{
    let count = work_on(rt, paths, start, volume, &mut Checking)?;
    let mut buffer = Buffer::new();
    match write_line(sink, buffer.format(count).as_bytes()) {
        Ok(()) => Ok(status_of(count)),
        Err(_) => Err(End::WriteFault),
    }
}

/// The work of `check`: the wrong charges are counted.
#[derive(Clone, Copy)]
struct Checking;

impl Work for Checking {
    ghost use Rattle.std.specs.Prelude.{⊤};
    ghost use Rattle.index.specs.Tasks.{CountWrong};

    ghost task = { λ _ _. CountWrong };

    ghost IsCaused = { λ _ _ _. ⊤ };

    fn keep_recent(&self) -> usize {
        0
    }

    #[tactic(auto, using(crate::proofs::FaultLemmas::desk_fault_is_fault, crate::proofs::CausedLemmas::look_store, crate::proofs::DoneLemmas::count_works, crate::proofs::DoneLemmas::looked_leaves))]
    fn run<B: CachesAnswers>(&mut self, rt: &HostRuntime, desk: &mut Desk<B>) -> Result<u64, End> {
        Ok(desk.check(rt.alloc())?)
    }
}

/// The status of a check that found this many wrong charges.
fn status_of(count: u64) -> ExitCode
    ensures { (exit_status result ≡ 0) ↔ (count ≡ 0) }
{
    if count == 0 {
        ExitCode::SUCCESS
    } else {
        ExitCode::FAILURE
    }
}
