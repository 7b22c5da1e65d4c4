//! A new index in a database of version 3, and its new volume.
ghost use Rattle.std.specs.Prelude.{◌≡◌, IfErr, IsTrue, false};
ghost use Rattle.sqlite.specs.WalFiles.{image_at};
ghost use Rattle.index.specs.Ends.{is_fault_end};
ghost use Rattle.index.specs.NewPairs.{ComesOfPlacedInit, IsToldOfMade, MakesBeside, MakesPlaced};

use crate::database::{Closed, close, end_of_unused, let_go};
use crate::end::End;
use crate::opening::{first_token_digest, open};
use crate::pair::{end_of_failed, refused};
use crate::path::is_missing;
use crate::volume_file::{check_new, make_volume, volume_path};
use crate::worked_on::worked_on;
use index_args::Paths;
use index_digest::Digest256;
use index_sql_opening::is_blank;
use index_tables::Unopened;
use index_tables::books::SqlBooks;
use index_tables::version::Version3;
use sqlite::{Connection, FileFrom, FileStore, Start};
use sqlite_disk::Disk;
use std::alloc::Global;

/// The result of closing the files of a new index, or the database in which none was made.
type Made<D> = Result<Closed<D>, Unopened<FileStore<D>>>;

/// Makes a new index of version 3 with one user, and a volume for the bytes of its files.
///
/// # Errors
///
/// Those of `database::create`; and `Store` if something other than an empty file is at the volume's path, or it can't
/// be made.
pub fn create<S: Start, V: Start>(
    rt: &HostRuntime,
    paths: Paths<'_>,
    start: S,
    volume: V,
    user: &str,
    token: &str,
    page_sums: bool,
) -> Result<(), End>
    ensures { ComesOfPlacedInit ⟦<FileFrom<S> as Disk>⟧ user.now token.now page_sums
        (image_at S.Start) result }
{
    let token = match first_token_digest(rt.alloc(), user, token) {
        Ok(token) => token,
        Err(why) => return Err(End::Open(why)),
    };
    match new_path(rt, paths) {
        Ok(path) => match open(rt, paths.db, start, page_sums) {
            Ok(conn) => {
                let made = create_beside(rt, conn, path.as_str(), volume, user, token);
                end_of_made(rt.alloc(), made)
            }
            Err(failed) => Err(end_of_failed(failed)),
        },
        Err(end) => Err(end),
    }
}

/// The path of a new volume. If there is no database, nothing is there or an empty file: so no database is made without
/// its volume.
fn new_path(rt: &HostRuntime, paths: Paths<'_>) -> Result<String, End>
    ensures fault { IfErr result (λ end. IsTrue (is_fault_end end)) }
{
    match volume_path(rt, paths) {
        Ok(path) => {
            if is_missing(rt, paths.db) {
                check_new(rt, path.as_str())?;
            }
            Ok(path)
        }
        Err(end) => Err(end),
    }
}

/// Makes a new index of version 3 in an empty database, and its volume before it. If no volume could be made, returns
/// why, and the connection.
fn create_beside<D: Disk + Drop, V: Start>(
    rt: &HostRuntime,
    conn: Connection<FileStore<D>>,
    path: &str,
    volume: V,
    user: &str,
    token: Digest256,
) -> Result<Made<D>, (End, Connection<FileStore<D>>)>
    requires outside { conn.in_transaction ≡ false }
    ensures { MakesBeside user.now token conn result }
{
    // A database that is not empty is refused before a file is made.
    if !is_blank(&conn) {
        return Ok(create_in(rt, conn, user, token));
    }
    match make_volume(rt, path, volume) {
        Ok(files) => {
            let made = create_in(rt, conn, user, token);
            drop(files);
            Ok(made)
        }
        Err(why) => Err((why, worked_on(conn))),
    }
}

/// Makes a new index of version 3 in an empty database, and closes its files. If it fails, the database is as it was.
fn create_in<D: Disk + Drop>(
    rt: &HostRuntime,
    conn: Connection<FileStore<D>>,
    user: &str,
    token: Digest256,
) -> Made<D>
    requires outside { conn.in_transaction ≡ false }
    ensures { MakesPlaced user.now token conn result }
{
    let first = worked_on(conn);
    let made: Result<SqlBooks<FileStore<D>, Version3>, Unopened<FileStore<D>>> = SqlBooks::create(
        rt.alloc(),
        first,
        user.as_bytes(),
        token,
    );
    match made {
        Ok(books) => {
            let last = worked_on(books.into_connection());
            Ok(close(last))
        }
        Err(left) => {
            let Unopened { why, conn } = left;
            let conn = worked_on(conn);
            Err(Unopened { why, conn })
        }
    }
}

/// The result of an init, by that of closing, or why no index was made. The files are dropped.
fn end_of_made<D: Disk + Drop>(
    alloc: Global,
    made: Result<Made<D>, (End, Connection<FileStore<D>>)>,
) -> Result<(), End>
    ensures { IsToldOfMade made result }
{
    match made {
        Ok(Ok(closed)) => let_go(closed),
        Ok(Err(left)) => Err(end_of_unused(alloc, refused(left))),
        Err((why, conn)) => {
            drop(conn);
            Err(why)
        }
    }
}
