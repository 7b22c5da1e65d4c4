//! An index in two files, one of which stops: at its first call, at its second, and so on until a run ends without a
//! stop.
use super::new_index;
use crashes::Left;
use files::{File, Which, closed, have_stopped, new_files, opened, stopping};
use index_rules::OpenFault;
use sqlite::{Alter, Connection, Files};
use std::alloc::AllocGlobal;
use std::process::Abort;

mod changes;
mod crashes;
mod files;
mod openings;
mod restarts;
mod versions;

/// How far a run came.
#[derive(Clone, Copy, PartialEq, Eq, Debug)]
enum Told {
    /// No index was opened.
    Unopened,
    /// The work failed because the store did.
    Fault,
    /// The work was done, and reported as done.
    Done,
}

/// Work on a database, which may be cut short, and a check of what it leaves.
trait Trial {
    /// The number of pages that are kept in memory during the work.
    fn cache_pages(&self) -> usize {
        ALL_PAGES
    }

    /// Does the work.
    fn run<R: Abort + AllocGlobal, S: Alter + Drop>(
        &self,
        rt: &R,
        conn: Connection<S>,
    ) -> (Told, Connection<S>);

    /// The work is done as a whole or not at all, and it is done if it was reported as done. What is made for others to
    /// work on needs no check.
    fn assert_whole<R: Abort + AllocGlobal, S: Alter + Drop>(
        &self,
        _rt: &R,
        conn: Connection<S>,
        _told: Told,
    ) -> Connection<S> {
        conn
    }

    /// Does the work, or checks what it left when it came so far.
    fn step<R: Abort + AllocGlobal, S: Alter + Drop>(
        &self,
        rt: &R,
        conn: Connection<S>,
        left: Option<Told>,
    ) -> (Told, Connection<S>) {
        match left {
            None => self.run(rt, conn),
            Some(told) => (told, self.assert_whole(rt, conn, told)),
        }
    }
}

/// More pages than any of the databases has.
const ALL_PAGES: usize = 64;

/// More calls than any run makes of one file.
const ENOUGH: u64 = 10_000;

/// Work on copies of these files leaves them whole, whenever one of them stops.
fn assert_stops(rt: &(impl Abort + AllocGlobal), files: &Files<File>, trial: &impl Trial) {
    let faults = stop_each(rt, files, trial, Which::Log);
    assert!(rt; faults > 0);
    stop_each(rt, files, trial, Which::Database);
}

/// Stops one of the files at each call. Returns how often the work failed.
fn stop_each(
    rt: &(impl Abort + AllocGlobal),
    files: &Files<File>,
    trial: &impl Trial,
    which: Which,
) -> u64 {
    let mut faults: u64 = 0;
    let mut before = None;
    for calls in 0..ENOUGH {
        let (left, has_stopped) = stop_after(rt, stopping(rt, files, which, calls), trial);
        let told = left.told;
        if told == Told::Fault {
            faults = faults.saturating_add(1);
        }
        if !is_again(&before, &left) {
            assert_each_crash(rt, &left, trial);
        }
        before = Some(left);
        if !has_stopped {
            assert_eq!(rt; told, Told::Done);
            return faults;
        }
    }
    panic!(rt; "no run ended without a stop")
}

/// Whether the run before left the same.
fn is_again(before: &Option<Left>, left: &Left) -> bool {
    match before {
        Some(before) => *before == *left,
        None => false,
    }
}

/// Works on files. Returns what it leaves, and whether one of them has stopped.
fn stop_after(
    rt: &(impl Abort + AllocGlobal),
    files: Files<File>,
    trial: &impl Trial,
) -> (Left, bool) {
    let (told, mut files) = match run(rt, files, trial, None) {
        Ok(ended) => ended,
        Err(files) => (Told::Unopened, files),
    };
    let has_stopped = have_stopped(&mut files);
    (Left::new(rt, told, files), has_stopped)
}

/// Opens files, takes a step of a trial, and closes them, as far as they go; or returns files that can't be opened. All
/// steps over files are taken here, since each call that names their store is dear to prove.
fn run(
    rt: &(impl Abort + AllocGlobal),
    files: Files<File>,
    trial: &impl Trial,
    left: Option<Told>,
) -> Result<(Told, Files<File>), Files<File>> {
    let pages = match left {
        None => trial.cache_pages(),
        Some(_told) => ALL_PAGES,
    };
    let conn = opened(rt, files, pages)?;
    let (told, conn) = trial.step(rt, conn, left);
    Ok((told, closed(conn)))
}

/// Whatever a crash makes of what a stop left, it is opened again, and is whole.
fn assert_each_crash(rt: &(impl Abort + AllocGlobal), left: &Left, trial: &impl Trial) {
    for of_log in left.outcomes_of_log() {
        for of_database in left.outcomes_of_database() {
            let files = left.files(rt, *of_log, *of_database);
            assert_left(rt, files, trial, left.told);
        }
    }
}

/// What work left in files that don't stop is whole.
fn assert_left(
    rt: &(impl Abort + AllocGlobal),
    files: Files<File>,
    trial: &impl Trial,
    told: Told,
) {
    drop(step(rt, files, trial, Some(told)));
}

/// The work is done on files that don't stop, and what it left is whole.
fn assert_reopened(rt: &(impl Abort + AllocGlobal), files: Files<File>, trial: &impl Trial) {
    assert_left(rt, done(rt, files, trial), trial, Told::Done);
}

/// Files that don't stop, after the work.
fn done(rt: &(impl Abort + AllocGlobal), files: Files<File>, trial: &impl Trial) -> Files<File> {
    let (told, files) = step(rt, files, trial, None);
    assert_eq!(rt; told, Told::Done);
    files
}

/// Takes a step of a trial on files that don't stop.
fn step(
    rt: &(impl Abort + AllocGlobal),
    files: Files<File>,
    trial: &impl Trial,
    left: Option<Told>,
) -> (Told, Files<File>) {
    match run(rt, files, trial, left) {
        Ok(ended) => ended,
        Err(files) => {
            drop(files);
            panic!(rt; "the files were not opened")
        }
    }
}

/// No index was opened, because the store failed.
fn assert_store_fault(rt: &impl Abort, why: OpenFault) {
    assert_eq!(rt; why, OpenFault::Store);
}

/// A new index, after these exchanges.
#[derive(Clone, Copy)]
struct Filled<'a> {
    parts: &'a [&'a [[&'a str; 2]]],
}

impl Trial for Filled<'_> {
    fn run<R: Abort + AllocGlobal, S: Alter + Drop>(
        &self,
        rt: &R,
        conn: Connection<S>,
    ) -> (Told, Connection<S>) {
        (Told::Done, new_index(rt, conn, self.parts))
    }
}

/// The files of an index, after these exchanges.
fn files_after(rt: &(impl Abort + AllocGlobal), parts: &[&[[&str; 2]]]) -> Files<File> {
    done(rt, new_files(rt), &Filled { parts })
}
