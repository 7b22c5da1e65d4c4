//! A database file and its log in memory, one of which may stop after a number of calls.
use sqlite::{Connection, FileStore, Files, Options};
use sqlite_disk::{Disk, Fuse, Memory};
use std::alloc::AllocGlobal;
use std::process::Abort;

/// A file that fails and changes nothing from some call on.
pub(super) type File = Fuse<Memory>;

pub(super) type Database = FileStore<File>;

/// Which of the two files stops.
#[derive(Clone, Copy)]
pub(super) enum Which {
    Log,
    Database,
}

/// A file with these bytes, all of them synced, that stops after this many calls.
fn file(rt: &(impl Abort + AllocGlobal), bytes: &[u8], calls: u64) -> File {
    let mut memory = Memory::new(rt.alloc());
    memory.write_at(0, bytes).expect(rt, "room");
    memory.sync().expect(rt, "room");
    Fuse::new(memory, calls)
}

/// Two empty files.
pub(super) fn new_files(rt: &(impl Abort + AllocGlobal)) -> Files<File> {
    Files {
        log: file(rt, &[], u64::MAX),
        db: file(rt, &[], u64::MAX),
    }
}

/// Copies of two files, one of which stops after this many calls.
pub(super) fn stopping(
    rt: &(impl Abort + AllocGlobal),
    files: &Files<File>,
    which: Which,
    calls: u64,
) -> Files<File> {
    let (log_calls, db_calls) = match which {
        Which::Log => (calls, u64::MAX),
        Which::Database => (u64::MAX, calls),
    };
    Files {
        log: file(rt, files.log.inner().bytes(), log_calls),
        db: file(rt, files.db.inner().bytes(), db_calls),
    }
}

/// A connection to an empty database, in files that don't stop.
pub(super) fn new_database(rt: &(impl Abort + AllocGlobal)) -> Connection<Database> {
    match opened(rt, new_files(rt)) {
        Ok(conn) => conn,
        Err(files) => {
            drop(files);
            panic!(rt; "the files were not opened")
        }
    }
}

/// A connection to the database in these files, or the files if one of them stops. It keeps so few pages in memory that
/// a walk over a thousand names reads the file, and so few in its log that a sync, which copies the file, takes little.
pub(super) fn opened(
    rt: &(impl Abort + AllocGlobal),
    files: Files<File>,
) -> Result<Connection<Database>, Files<File>> {
    let small = Options {
        cache_pages: 8,
        spill_pages: 64,
        checkpoint_frames: 100,
        seed: 1,
    };
    assert!(rt; files.may_be_used());
    match Connection::open_files(rt.alloc(), files, small) {
        Ok(conn) => Ok(conn),
        Err((_error, left)) => Err(left.into_files()),
    }
}

/// Closes a connection and returns its files. The log is copied as far as they work.
pub(super) fn closed(conn: Connection<Database>) -> Files<File> {
    match conn.close_files() {
        Ok(files) => files,
        Err((_error, store)) => store.close(),
    }
}
