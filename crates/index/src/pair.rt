//! The index in a database of version 3 and its volume: opened, worked on, and closed.
ghost use Rattle.std.specs.Prelude.{◌≡◌, ◌⊎◌, Err, Some, IfErr, IfOk, false};
ghost use Rattle.sqlite.specs.Files.{file_state};
ghost use Rattle.sqlite.specs.Held.{state};
ghost use Rattle.sqlite.specs.State.{HasCleanDisk};
ghost use Rattle.sqlite.specs.WalFiles.{image_at};
ghost use Rattle.index_rules.specs.declared.open.OpenFault.TheVariants as open_fault;
ghost use Rattle.index_tables.specs.BooksState.{IsHonest, IsWorking};
ghost use Rattle.index.specs.declared.database.Left.TheVariants as left_is;
ghost use Rattle.index.specs.declared.end.End.TheVariants as end_is;
ghost use Rattle.index.specs.Jobs.{ComesOfRun};
ghost use Rattle.index.specs.Openings.{OpensAgain};
ghost use Rattle.index.specs.Pairs.{AreKept, ComesOfGiven, ComesOfOther, EndsOnPlaced, EndsOver};
ghost use Rattle.index.specs.Pairs.{EndsOverDisk, IsToldOver, RanOver, WorksOver, placed_side};
ghost use Rattle.index.specs.Pairs.{result_over};

use crate::at_desk::run_at_desk;
use crate::database::{self, Finished, Left, Unused, Work, close, end_of_unused, let_go};
use crate::end::End;
use crate::failed_opening::FailedOpening;
use crate::job::ended_by;
use crate::opening::open_existing;
use crate::volume_file::{cause_of_disk, end_of_taking, end_of_volume, open_volume, volume_path};
use crate::worked_on::worked_on;
use index_args::Paths;
use index_rules::OpenFault;
use index_tables::Unopened;
use index_tables::books::SqlBooks;
use index_tables::version::Version3;
use index_volume_books::{Untaken, VolumeBooks};
use sqlite::{Alter, Connection, FileFrom, FileStore, Files, Start};
use sqlite_disk::Disk;

/// An index of version 3 that was not worked on, for want of its volume.
pub struct WithoutVolume<D: Disk, E> {
    /// Why there was no volume.
    pub why: End,
    /// The connection to the index.
    pub conn: Connection<FileStore<D>>,
    /// The volume, if it was opened.
    pub disk: Option<E>,
}

/// The result of work over a volume, or why there was none.
type Worked<D, E> = Result<Result<u64, End>, WithoutVolume<D, E>>;

/// Does work on the index in a database of version 3 and its volume, and closes the files of both. Returns the number
/// that the work found.
///
/// # Errors
///
/// - `NotAnIndex`, `OutOfMemory`: as of `database::work_on`.
/// - `OtherVersion`: the version is another than 3.
/// - `Store`: as of `database::work_on`; or the volume is missing, a link, in use, can't be opened, is too short or
///   another's, or fails.
pub fn work_on<S: Start, V: Start, W: Work>(
    rt: &HostRuntime,
    paths: Paths<'_>,
    start: S,
    volume: V,
    work: &mut W,
) -> Result<u64, End>
    ensures { ComesOfGiven ⟦<FileFrom<S> as Disk>⟧ ⟦<FileFrom<V> as Disk>⟧
        (W.task work.old work.new) (image_at S.Start) V.Start.db result }
{
    match open_existing(rt, paths.db, start) {
        Ok(conn) => work_placed(rt, worked_on(conn), paths, volume, work),
        Err(failed) => Err(end_of_failed(failed)),
    }
}

/// Does work on the index in a database, and on one of version 3 with its volume. Returns the number that the work
/// found.
///
/// # Errors
///
/// Those of `database::work_on`, and of an index of version 3 those of `work_on`.
pub fn work_by_version<S: Start, V: Start, W: Work>(
    rt: &HostRuntime,
    paths: Paths<'_>,
    start: S,
    volume: V,
    work: &mut W,
) -> Result<u64, End>
    ensures { ComesOfRun ⟦<FileFrom<S> as Disk>⟧ (W.task work.old work.new) (image_at S.Start)
        result ⊎ ComesOfOther ⟦<FileFrom<S> as Disk>⟧ ⟦<FileFrom<V> as Disk>⟧
        (W.task work.old work.new) (image_at S.Start) V.Start.db result }
{
    match database::work_on(rt, paths.db, start, work) {
        Ok(Finished { closed, end }) => ended_by(end, let_go(closed)),
        Err(unused) => match of_other_version(unused) {
            Ok(conn) => work_placed(rt, conn, paths, volume, work),
            Err(unused) => Err(end_of_unused(rt.alloc(), unused)),
        },
    }
}

/// The connection to a database that was refused for its version, or the files as they were left.
fn of_other_version<D: Disk + Drop>(
    unused: Unused<D>,
) -> Result<Connection<FileStore<D>>, Unused<D>>
    ensures other { IfOk result (λ conn. unused.left
        ≡ Some (left_is.Refused (record { why = open_fault.OtherVersion; conn = conn }))) }
    ensures outside { IfOk result (λ conn. conn.in_transaction ≡ false) }
    ensures same { IfErr result (λ it. it ≡ unused) }
{
    let Unused { why, left } = unused;
    match left {
        Some(
            Left::Refused(
                Unopened {
                    why: OpenFault::OtherVersion,
                    conn,
                },
            ),
        ) if conn.is_autocommit() => Ok(conn),
        left => Err(Unused { why, left }),
    }
}

/// Does work on the index of version 3 on a connection and its volume, and closes the files of both.
fn work_placed<D: Disk + Drop, V: Start, W: Work>(
    rt: &HostRuntime,
    conn: Connection<FileStore<D>>,
    paths: Paths<'_>,
    volume: V,
    work: &mut W,
) -> Result<u64, End>
    requires outside { conn.in_transaction ≡ false }
    ensures { EndsOnPlaced ⟦<FileFrom<V> as Disk>⟧ (W.task work.old work.new) conn
        V.Start.db result }
{
    match SqlBooks::adopt_placed(rt.alloc(), conn) {
        Ok(books) => ended_over(work_with(rt, books, paths, volume, work)),
        Err(left) => Err(end_of_unused(rt.alloc(), refused(left))),
    }
}

/// Does work on tables of version 3 with their volume, and closes the files of both.
fn work_with<D: Disk + Drop, V: Start, W: Work>(
    rt: &HostRuntime,
    books: SqlBooks<FileStore<D>, Version3>,
    paths: Paths<'_>,
    volume: V,
    work: &mut W,
) -> Worked<D, FileFrom<V>>
    ensures { EndsOver ⟦<FileFrom<V> as Disk>⟧ (W.task work.old work.new) books.conn
        V.Start.db result }
{
    match volume_path(rt, paths) {
        Ok(path) => match open_volume(rt, path.as_str(), volume) {
            Ok(files) => work_over(rt, books, path.as_str(), files, work),
            Err(why) => Err(without(books, None, why)),
        },
        Err(why) => Err(without(books, None, why)),
    }
}

/// The connection to an index that is not worked on.
fn without<D: Disk + Drop, E: Disk>(
    books: SqlBooks<FileStore<D>, Version3>,
    disk: Option<E>,
    why: End,
) -> WithoutVolume<D, E>
    ensures is { result ≡ record { why = why; conn = books.conn; disk = disk } }
    ensures again { HasCleanDisk (file_state books.conn) → OpensAgain books.conn.store }
{
    let conn = worked_on(books.into_connection());
    WithoutVolume { why, conn, disk }
}

/// The result of work, or why there was none. The files are dropped then.
fn ended_over<D: Disk + Drop, E: Disk + Drop>(worked: Worked<D, E>) -> Result<u64, End>
    ensures { result ≡ result_over worked }
{
    match worked {
        Ok(ended) => ended,
        Err(WithoutVolume { why, conn, disk }) => {
            drop(conn);
            drop(disk);
            Err(why)
        }
    }
}

/// Does work on tables of version 3 over the opened files of their volume, and closes the files of both.
fn work_over<D: Disk + Drop, E: Disk + Drop, W: Work>(
    rt: &HostRuntime,
    books: SqlBooks<FileStore<D>, Version3>,
    path: &str,
    files: Files<E>,
    work: &mut W,
) -> Worked<D, E>
    ensures { EndsOverDisk E.Disk (W.task work.old work.new) books.conn files.db result }
{
    // The bytes are in the first of the volume's two files. The second is not used.
    let Files { log, db } = files;
    let ended = work_on_disk(rt, books, path, db, work);
    drop(log);
    ended
}

/// Does work on tables of version 3 over the file of their volume, and closes the files of both.
fn work_on_disk<D: Disk + Drop, E: Disk + Drop, W: Work>(
    rt: &HostRuntime,
    books: SqlBooks<FileStore<D>, Version3>,
    path: &str,
    disk: E,
    work: &mut W,
) -> Worked<D, E>
    ensures { EndsOverDisk E.Disk (W.task work.old work.new) books.conn disk result }
{
    match VolumeBooks::adopt(rt.alloc(), books, disk) {
        Ok(books) => Ok(run_and_close(rt, books, path, work)),
        Err(Untaken { why, books, disk }) => {
            let end = end_of_taking(rt.alloc(), path, why, &disk);
            Err(without(books, Some(disk), end))
        }
    }
}

/// Does work on an index over its volume, and closes both.
fn run_and_close<D: Disk + Drop, E: Disk + Drop, W: Work>(
    rt: &HostRuntime,
    books: VolumeBooks<SqlBooks<FileStore<D>, Version3>, E>,
    path: &str,
    work: &mut W,
) -> Result<u64, End>
    ensures { RanOver E.Disk (W.task work.old work.new) books.books.conn books.disk result }
{
    let (conn, disk, end) = run_over(rt, books, work);
    let ended = ended_by(end, let_go(close(worked_on(conn))));
    let told = with_cause_of(rt, ended, path, &disk);
    drop(disk);
    told
}

/// Does work at a desk over books in a volume. Returns the connection and the volume, and the result of the work.
fn run_over<S: Alter + Drop, E: Disk + Drop, W: Work>(
    rt: &HostRuntime,
    books: VolumeBooks<SqlBooks<S, Version3>, E>,
    work: &mut W,
) -> (Connection<S>, E, Result<u64, End>)
    ensures worked { WorksOver (W.task work.old work.new) result.2
        (placed_side S.Store E.Disk books.books.conn books.disk)
        (placed_side S.Store E.Disk result.0 result.1) }
    ensures kept { AreKept S.Store E.Disk result.0 result.1 }
    ensures honest { IsWorking (state S.Store result.0) → IsHonest 3 (state S.Store result.0) }
{
    let (books, end) = run_at_desk(rt, books, work);
    let (books, disk) = books.into_parts();
    (books.into_connection(), disk, end)
}

/// The result of work, with the cause if a call on the volume failed.
fn with_cause_of<E: Disk>(
    rt: &HostRuntime,
    ended: Result<u64, End>,
    path: &str,
    disk: &E,
) -> Result<u64, End>
    ensures { IsToldOver ended result }
{
    match ended {
        Err(end) if end.is_store() => match cause_of_disk(disk) {
            Some(cause) => Err(end_of_volume(rt.alloc(), path, Some(cause))),
            None => Err(end),
        },
        ended => ended,
    }
}

/// Two files whose database was refused.
pub fn refused<D: Disk>(left: Unopened<FileStore<D>>) -> Unused<D>
    ensures why { result.why ≡ end_is.Open left.why }
    ensures left { result.left ≡ Some (left_is.Refused left) }
    ensures again { HasCleanDisk (file_state left.conn) → OpensAgain left.conn.store }
{
    let Unopened { why, conn } = left;
    let conn = worked_on(conn);
    Unused {
        why: End::Open(why),
        left: Some(Left::Refused(Unopened { why, conn })),
    }
}

/// Why two files were not opened. They are dropped.
pub fn end_of_failed<D: Disk + Drop>(failed: FailedOpening<D>) -> End
    ensures { result ≡ failed.why }
{
    let FailedOpening { why, left } = failed;
    drop(left);
    why
}
