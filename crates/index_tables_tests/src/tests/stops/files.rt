//! A database file and its log in memory, each of which may stop after a number of calls.
use sqlite::{Connection, FileStore, Files, Options};
use sqlite_disk::{Disk, Fuse, Memory};
use std::alloc::AllocGlobal;
use std::process::Abort;

/// A file that fails and changes nothing from some call on.
pub(super) type File = Fuse<Memory>;

pub(super) type Database = FileStore<File>;

/// Which of the two files stops.
#[derive(Clone, Copy)]
pub(super) enum Which {
    Log,
    Database,
}

/// A file with these bytes, all of them synced, that stops after this many calls.
pub(super) fn file(rt: &(impl Abort + AllocGlobal), bytes: &[u8], calls: u64) -> File {
    let mut memory = Memory::new(rt.alloc());
    memory.write_at(0, bytes).expect(rt, "room");
    memory.sync().expect(rt, "room");
    Fuse::new(memory, calls)
}

/// Two empty files.
pub(super) fn new_files(rt: &(impl Abort + AllocGlobal)) -> Files<File> {
    Files {
        log: file(rt, &[], u64::MAX),
        db: file(rt, &[], u64::MAX),
    }
}

/// Copies of two files that stop after these numbers of calls.
fn copies(
    rt: &(impl Abort + AllocGlobal),
    files: &Files<File>,
    log_calls: u64,
    db_calls: u64,
) -> Files<File> {
    Files {
        log: file(rt, files.log.inner().bytes(), log_calls),
        db: file(rt, files.db.inner().bytes(), db_calls),
    }
}

/// Copies of two files, one of which stops after this many calls.
pub(super) fn stopping(
    rt: &(impl Abort + AllocGlobal),
    files: &Files<File>,
    which: Which,
    calls: u64,
) -> Files<File> {
    match which {
        Which::Log => copies(rt, files, calls, u64::MAX),
        Which::Database => copies(rt, files, u64::MAX, calls),
    }
}

/// Whether one of the files makes no more calls.
pub(super) fn have_stopped(files: &mut Files<File>) -> bool {
    has_stopped(&mut files.log) || has_stopped(&mut files.db)
}

fn has_stopped(file: &mut File) -> bool {
    !file.may_be_used() || file.len().is_err()
}

/// A connection to the database in these files that keeps this many pages in memory, or the files if one of them stops.
pub(super) fn opened(
    rt: &(impl Abort + AllocGlobal),
    files: Files<File>,
    cache_pages: usize,
) -> Result<Connection<Database>, Files<File>> {
    let small = Options {
        cache_pages,
        spill_pages: 64,
        checkpoint_frames: 1000,
        seed: 1,
    };
    assert!(rt; files.may_be_used());
    match Connection::open_files(rt.alloc(), files, small) {
        Ok(conn) => Ok(conn),
        Err((_error, left)) => Err(left.into_files()),
    }
}

/// Closes a connection and returns its files. The log is copied as far as they work.
pub(super) fn closed(conn: Connection<Database>) -> Files<File> {
    match conn.close_files() {
        Ok(files) => files,
        Err((_error, store)) => store.close(),
    }
}
