//! The index in an SQLite database: created or opened, worked on, and closed.
ghost use Rattle.std.specs.Prelude.{◌≡◌, false, ℕ, Result, Err, None, Some, IfOk, IfErr, IfSome, IsSome, IsTrue, OnErr};
ghost use Rattle.sqlite.specs.Closing.{IsCopied};
ghost use Rattle.sqlite.specs.Files.{IsClosed, file_state, over_files};
ghost use Rattle.sqlite.specs.Held.{state};
ghost use Rattle.sqlite.specs.Recovery.{Image};
ghost use Rattle.sqlite.specs.State.{HasCleanDisk};
ghost use Rattle.sqlite.specs.WalFiles.{image_at};
ghost use Rattle.sqlite.specs.WalReads.{AreClean};
ghost use Rattle.sqlite_trees.specs.View.{IsClean};
ghost use Rattle.index_digest.specs.Digest.{read_digest};
ghost use Rattle.index_http.specs.Steps.{at_desk};
ghost use Rattle.index_rules.specs.FirstTables.{first_tables};
ghost use Rattle.index_rules.specs.Tables.{Tables};
ghost use Rattle.index_sql_schema.specs.Schema.{no_schema};
ghost use Rattle.index_tables.specs.Adopted.{IsRaised};
ghost use Rattle.index_tables.specs.Opened.{IsCreated};
ghost use Rattle.index.specs.declared.end.End.{End as EndData};
ghost use Rattle.index.specs.Causes.{IsKnown, IsObject, SchemaHasCause, other_object};
ghost use Rattle.index.specs.Chains.{InitLeadsOn, WorkLeadsOn};
ghost use Rattle.index.specs.Ends.{StoreIsCaused, closing_of, is_fault_end};
ghost use Rattle.index.specs.Openings.{IsCleanClosed, IsOpenedOn, IsToldOf, IsUnmade, IsWhyRefused};
ghost use Rattle.index.specs.Openings.{IsWhyUnfound, IsWhyUnmade, IsWhyUnused, UnusedLeaves};
ghost use Rattle.index.specs.Runs.{Created, CreatedInLog, InitEndsOnFiles, RunEndsOnFiles, WorkEndsOnConnection};
ghost use Rattle.index.specs.Runs.{CrashLeavesDatabase, IsMadeNew};
ghost use Rattle.index.specs.Tasks.{Task, Works};

use crate::at_desk::run_at_desk;
use crate::cause::{Cause, cause_of_calls};
use crate::end::End;
use crate::failed_opening::FailedOpening;
use crate::objects::other_object;
use crate::opening::{first_token_digest, open, open_existing};
use crate::worked_on::worked_on;
use index_caching::CachesAnswers;
use index_desk::Desk;
use index_digest::Digest256;
use index_rules::OpenFault;
use index_sql_opening::{is_blank, is_first_version, is_ours};
use index_tables::{SqlBooks, Unopened};
use sqlite::{Alter, Connection, FileFrom, FileStore, Files, Leftover, Start};
use sqlite_disk::Disk;
use std::alloc::{AllocError, Global};

/// The result of closing: the files, or why they could not be closed.
pub type Closed<D> = Result<Files<D>, Unclosed<D>>;

/// A database whose log was not copied into its file.
pub struct Unclosed<D: Disk> {
    /// Why the log was not copied.
    pub fault: End,
    /// The store that has the log.
    pub store: FileStore<D>,
}

/// A run of work that was done.
pub struct Finished<D: Disk> {
    /// The result of closing the files.
    pub closed: Closed<D>,
    /// The result of the work, with its number.
    pub end: Result<u64, End>,
}

/// Two files on which nothing was done.
pub struct Unused<D: Disk> {
    /// Why nothing was done.
    pub why: End,
    /// The files, if they were opened.
    pub left: Option<Left<D>>,
}

/// Two opened files on which nothing was done.
pub enum Left<D: Disk> {
    /// The files can't be opened as a database.
    Shut(Leftover<D>),
    /// The files' database was refused.
    Refused(Unopened<FileStore<D>>),
}

/// Work at a desk over the tables of a database, in any store.
pub trait Work {
    /// The task of the work, from the work before and after.
    ghost task: { Self → Self → Task };

    /// What is known of why it ended, from the work before and after.
    ghost IsCaused: { Self → Self → Result ℕ EndData → Type 0 };

    /// The size of the books' cache, in bytes.
    fn keep_recent(&self) -> usize;

    /// Does the work, and returns its number.
    fn run<B: CachesAnswers>(&mut self, rt: &HostRuntime, desk: &mut Desk<B>) -> Result<u64, End>
        ensures works { Works (at_desk B.Books desk.old desk.new) (task self.old self.new) result }
        ensures honest { B.IsHonest desk.new → B.IsHonest desk.old }
        ensures clean { B.IsClean desk.new → B.IsClean desk.old }
        // An early end is told only for its cause in this work.
        ensures caused { IsCaused self.old self.new result }
        ensures store { StoreIsCaused (B.stores desk.old) (B.stores desk.new) result }
        // A failed store is never reported as out of memory.
        ensures stores { result ≡ Err End.OutOfMemory → B.stores desk.new ≡ B.stores desk.old };
}

/// Makes a new index with one user, of the office, whose token has the digest with these hex digits, and closes the
/// files.
///
/// # Errors
///
/// - `BadFirstUser`, before a file is opened or made: the digits are malformed, the digest is that of the empty text,
///   or the user id is malformed.
/// - `NotEmpty`: a table of the database has the name of one of an index.
/// - `OutOfMemory`: memory ran out.
/// - `Store`: the files are in use, can't be opened, or are not a database; the database has something else; page sums
///   are asked for and the file is not empty; or the store fails.
pub fn create<S: Start>(
    rt: &HostRuntime,
    path: &str,
    start: S,
    user: &str,
    token: &str,
    page_sums: bool,
) -> Result<Closed<FileFrom<S>>, Unused<FileFrom<S>>>
    ensures ends { InitEndsOnFiles ⟦<FileFrom<S> as Disk>⟧ user.now token.now page_sums
        (image_at S.Start) result }

    // The next run finds what was there before, or the new index.
    ensures leads { (digest : _) → read_digest token.now ≡ Some digest
        → InitLeadsOn ⟦<FileFrom<S> as Disk>⟧ user.now digest (image_at S.Start) result }
{
    let token = match first_token_digest(rt.alloc(), user, token) {
        Ok(token) => token,
        Err(why) => {
            return Err(Unused {
                why: End::Open(why),
                left: None,
            });
        }
    };
    match open(rt, path, start, page_sums) {
        Ok(conn) => create_and_close(rt, conn, user, token),
        Err(FailedOpening { why, left }) => match left {
            Some(left) => Err(Unused {
                why,
                left: Some(Left::Shut(left)),
            }),
            None => Err(Unused { why, left: None }),
        },
    }
}

/// Does work on the index in a file, and closes the files. Returns the result of the work beside that of closing.
///
/// # Errors
///
/// - `NotAnIndex`: the database has no table `meta` of an index, no version in it, or no table with the name of one of
///   that version.
/// - `OtherVersion`: the version is neither 1 nor 2.
/// - `OutOfMemory`: memory ran out.
/// - `Store`: there is no file (none is made); the files are in use, can't be opened, or are not a database; the
///   objects of the database are not those of an index; or the store fails.
pub fn work_on<S: Start, W: Work>(
    rt: &HostRuntime,
    path: &str,
    start: S,
    work: &mut W,
) -> Result<Finished<FileFrom<S>>, Unused<FileFrom<S>>>
    ensures ends { RunEndsOnFiles ⟦<FileFrom<S> as Disk>⟧ (W.task work.old work.new)
        (image_at S.Start) result }

    // The next run finds what this one leaves.
    ensures leads { WorkLeadsOn ⟦<FileFrom<S> as Disk>⟧ (W.task work.old work.new)
        (image_at S.Start) result }

    // The work ended early only for its cause.
    ensures caused { IfOk result (λ run. W.IsCaused work.old work.new run.end) }

    // If nothing was done on the files, the work is unchanged.
    ensures idle { OnErr result (work.new ≡ work.old) }
{
    match open_existing(rt, path, start) {
        Ok(conn) => work_and_close(rt, conn, work),
        Err(FailedOpening { why, left }) => match left {
            Some(left) => Err(Unused {
                why,
                left: Some(Left::Shut(left)),
            }),
            None => Err(Unused { why, left: None }),
        },
    }
}

/// Makes a new index in an empty database, on any disk, and closes its files.
fn create_and_close<D: Disk + Drop>(
    rt: &HostRuntime,
    conn: Connection<FileStore<D>>,
    user: &str,
    token: Digest256,
) -> Result<Closed<D>, Unused<D>>
    requires outside { conn.in_transaction ≡ false }
    ensures created { IfOk result (λ closed. IfOk closed (λ files.
        AreClean D.Disk files.log files.db → (start : Image) → IsOpenedOn start conn
        → Created D.Disk (first_tables user.now token) start files)) }
    ensures unclosed { IfOk result (λ closed. IfErr closed (λ it. IsClean (over_files.view it.store)
        → (start : Image) → IsOpenedOn start conn
        → CreatedInLog (first_tables user.now token) start it.store)) }
    ensures was_clean { IfOk result (λ it. IsCleanClosed it → HasCleanDisk (file_state conn)) }
    ensures fault { IfOk result (λ closed. IfErr closed (λ it. IsTrue (is_fault_end it.fault))) }
    ensures refused { IfErr result (λ it. IfSome it.left (λ left. (start : Image) →
        IsOpenedOn start conn → UnusedLeaves (IsUnmade (first_tables user.now token)) start left)) }
    ensures why { IfErr result (λ it. (page_sums : _) (start : Image) → IsOpenedOn start conn →
        IsWhyUnused page_sums (IsWhyUnmade user.now token over_files) start it.why it.left) }
{
    match create_in(rt, conn, user, token) {
        Ok(conn) => Ok(close(worked_on(conn))),
        Err(left) => {
            let Unopened { why, conn } = left;
            let conn = worked_on(conn);
            Err(Unused {
                why: End::Open(why),
                left: Some(Left::Refused(Unopened { why, conn })),
            })
        }
    }
}

/// Does work on the index in a database, on any disk, and closes its files.
fn work_and_close<D: Disk + Drop, W: Work>(
    rt: &HostRuntime,
    conn: Connection<FileStore<D>>,
    work: &mut W,
) -> Result<Finished<D>, Unused<D>>
    requires outside { conn.in_transaction ≡ false }
    ensures ends { (start : Image) → IsOpenedOn start conn → RunEndsOnFiles D.Disk
        (W.task work.old work.new) start result }
    ensures caused { IfOk result (λ run. W.IsCaused work.old work.new run.end) }
    ensures idle { OnErr result (work.new ≡ work.old) }
{
    match work_in(rt, conn, work) {
        Ok((conn, end)) => Ok(Finished {
            closed: close(worked_on(conn)),
            end,
        }),
        Err(left) => {
            let Unopened { why, conn } = left;
            let conn = worked_on(conn);
            Err(Unused {
                why: End::Open(why),
                left: Some(Left::Refused(Unopened { why, conn })),
            })
        }
    }
}

/// Makes a new index in an empty database. If it fails, the database is as it was.
fn create_in<S: Alter + Drop>(
    rt: &HostRuntime,
    conn: Connection<S>,
    user: &str,
    token: Digest256,
) -> Result<Connection<S>, Unopened<S>>
    requires outside { conn.in_transaction ≡ false }
    ensures made { IfOk result (λ made.
        IsMadeNew (first_tables user.now token) (state S.Store conn) (state S.Store made)) }
    ensures refused { IfErr result (λ it. HasCleanDisk (state S.Store it.conn) → CrashLeavesDatabase
        (IsCreated 2 (first_tables user.now token)) (state S.Store conn) (state S.Store it.conn)) }
    ensures why { IfErr result (λ it. IsWhyUnmade user.now token S.Store conn it.conn it.why) }
{
    match SqlBooks::create(rt.alloc(), conn, user.as_bytes(), token) {
        Ok(books) => Ok(books.into_connection()),
        Err(refused) => Err(refused),
    }
}

/// Does work on the index in a database, and returns the connection and the result of the work.
fn work_in<S: Alter + Drop, W: Work>(
    rt: &HostRuntime,
    conn: Connection<S>,
    work: &mut W,
) -> Result<(Connection<S>, Result<u64, End>), Unopened<S>>
    requires outside { conn.in_transaction ≡ false }
    ensures worked { IfOk result (λ done. WorkEndsOnConnection (W.task work.old work.new) done.1
        (state S.Store conn) (state S.Store done.0)) }
    ensures caused { IfOk result (λ done. W.IsCaused work.old work.new done.1) }
    ensures refused { IfErr result (λ left. HasCleanDisk (state S.Store left.conn)
        → CrashLeavesDatabase IsRaised (state S.Store conn) (state S.Store left.conn)) }
    ensures why { IfErr result (λ left. IsWhyUnfound S.Store conn left.conn left.why) }
    ensures idle { OnErr result (work.new ≡ work.old) }
{
    match SqlBooks::adopt(rt.alloc(), conn) {
        Ok(books) => {
            let (books, end) = run_at_desk(rt, books, work);
            Ok((books.into_connection(), end))
        }
        Err(left) => Err(left),
    }
}

/// Closes the database: the log of the last changes is copied into the file.
///
/// `OutOfMemory` or `Store` if the copy fails. The changes are kept then too, in the log, which the store has.
#[tactic(auto, using(crate::proofs::FaultLemmas::error_is_fault))]
pub fn close<D: Disk + Drop>(conn: Connection<FileStore<D>>) -> Closed<D>
    ensures copied { IfOk result (λ it. AreClean D.Disk it.log it.db → IsCopied conn it) }
    ensures kept { IfErr result (λ it. IsClosed conn it.store) }
    ensures fault { IfErr result (λ it. IsTrue (is_fault_end it.fault)) }
{
    match conn.close_files() {
        Ok(files) => Ok(files),
        Err((error, store)) => Err(Unclosed {
            fault: End::from(error),
            store,
        }),
    }
}

/// Drops the files. The error is why the log was not copied.
pub fn let_go<D: Disk + Drop>(closed: Closed<D>) -> Result<(), End>
    ensures { result ≡ closing_of closed }
{
    match closed {
        Ok(files) => {
            drop(files);
            Ok(())
        }
        Err(Unclosed { fault, store }) => {
            drop(store.close());
            Err(fault)
        }
    }
}

/// Why nothing was done, with the cause if the files' contents or their failed calls show it. The files are dropped.
pub fn end_of_unused<D: Disk + Drop>(alloc: Global, unused: Unused<D>) -> End
    ensures { IsToldOf unused.why unused.left result }
{
    let Unused { why, left } = unused;
    match left {
        Some(Left::Refused(Unopened { why: _, conn })) => {
            if why.is_store() {
                return End::Store(cause_of_refused(alloc, conn));
            }
            drop(conn);
            why
        }
        Some(Left::Shut(left)) => {
            drop(left);
            why
        }
        None => why,
    }
}

/// Why a database that could be opened was refused, from its schema or from its files' failed calls. They are dropped.
fn cause_of_refused<D: Disk + Drop>(alloc: Global, conn: Connection<FileStore<D>>) -> Option<Cause>
    ensures { IsWhyRefused conn result }
{
    let cause = cause_of_schema(alloc, &conn).unwrap_or(None);
    let files = conn.into_store().close();
    if cause.is_some() {
        return cause;
    }
    cause_of_calls(files.tally(), files.may_be_used())
}

/// Why a database was refused, from its schema: by an object that no index has, or by tables that differ from those of
/// an index.
///
/// `AllocError` if memory ran out.
fn cause_of_schema<S: Alter>(
    alloc: Global,
    conn: &Connection<S>,
) -> Result<Option<Cause>, AllocError>
    ensures object { (name : _) → other_object (state S.Store conn.now).now.schema ≡ Some name
        → IfOk result (IsObject name) }
    ensures blank { (state S.Store conn.now).now.schema ≡ no_schema
        → IfOk result (λ cause. cause ≡ None) }
    ensures told { IfOk result (λ cause. IsSome cause
        → SchemaHasCause (state S.Store conn.now).now.schema cause) }
    ensures tables { IfOk result (λ it. it ≡ None → IsKnown (state S.Store conn.now).now.schema) }
{
    if let Some(name) = other_object(conn.schema()) {
        return Ok(Some(Cause::Object(String::from_utf8_lossy(alloc, name)?)));
    }
    if is_blank(conn) || is_ours(alloc, conn)? || is_first_version(alloc, conn)? {
        return Ok(None);
    }
    Ok(Some(Cause::OtherTables))
}
