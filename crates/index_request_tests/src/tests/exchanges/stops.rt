//! A file of a database stops at its first call, its second, and so on while a message is answered: the reply is the
//! usual one or reports a failed store, and a page that is too long to be gathered is cut short.
use super::long_runs::{NAMES, NAMES_IN_JSON, PROJECT, PROJECT_WITH_FILE};
use super::{
    ACCEPTED, BYTES, CHARGED, CREATED, DELETE, FILE, FROB, GET, USERS, assert_parts, new_site, tell,
};
use crate::tests::files::{File, Which, closed, new_database, opened, stopping};
use crate::tests::{desk_over, new_books};
use index_cache::Cache;
use index_caching::CachesAnswers;
use index_desk::Desk;
use index_http::IoEnd;
use index_message::Site;
use index_rules::OpenFault;
use index_tables::{SqlBooks, Unopened};
use index_test_support::{
    HEAD_OF_LONG_PAGE, LENGTH_OF_LONG_PAGE, LONG, LONG_NAMES, json_reply, look, post,
};
use sqlite::{Alter, Connection, Files};
use std::alloc::AllocGlobal;
use std::process::Abort;

/// The files of a new index in which ann has claimed `frob` and uploaded a file.
fn files_with_a_file(rt: &(impl Abort + AllocGlobal), site: &Site) -> Files<File> {
    closed(with_a_file(rt, site, new_database(rt)))
}

fn with_a_file<S: Alter + Drop>(
    rt: &(impl Abort + AllocGlobal),
    site: &Site,
    conn: Connection<S>,
) -> Connection<S> {
    let mut desk = desk_over(rt, conn);
    assert_parts(rt, site, &mut desk, &[USERS, FROB, FILE], usize::MAX);
    desk.into_books().into_books().into_connection()
}

/// The database of a new index with as many long names as make a page that is not gathered. They come by SQL in one
/// transaction: a file in memory is copied at each sync.
fn with_long_names<S: Alter + Drop>(
    rt: &(impl Abort + AllocGlobal),
    conn: Connection<S>,
) -> Connection<S> {
    let mut conn = new_books(rt, conn).into_connection();
    run(rt, &mut conn, "BEGIN");
    for number in 0..LONG_NAMES {
        let row = format!(in rt.alloc();
            "INSERT INTO names VALUES ('{LONG}{number}', 1, '{LONG}{number}', 1, 0, 0, NULL)"
        );
        let row = row.expect(rt, "a statement");
        run(rt, &mut conn, row.as_str());
    }
    run(rt, &mut conn, "COMMIT");
    conn
}

/// Runs a statement of SQL.
fn run<S: Alter>(rt: &impl Abort, conn: &mut Connection<S>, sql: &str) {
    conn.execute_batch(sql).expect(rt, sql);
}

/// The reply that a client gets, and how the connection ends.
struct Reply {
    told: Vec<u8>,
    ended: Result<(), IoEnd>,
}

impl Drop for Reply {
    fn drop(self) {
        let Reply {
            told: _told,
            ended: _ended,
        } = self;
    }
}

fn reply_of<B: CachesAnswers>(
    rt: &(impl Abort + AllocGlobal),
    site: &Site,
    desk: &mut Desk<B>,
    message: &str,
) -> Reply {
    let mut told = Vec::new(rt.alloc());
    let ended = tell(rt, site, desk, message.as_bytes(), &mut told);
    Reply { told, ended }
}

/// The reply of the index in a database, or `None` if it is not opened.
fn reply_over<S: Alter + Drop>(
    rt: &(impl Abort + AllocGlobal),
    site: &Site,
    conn: Connection<S>,
    message: &str,
) -> (Option<Reply>, Connection<S>) {
    assert!(rt; conn.is_autocommit());
    match SqlBooks::adopt(rt.alloc(), conn) {
        Ok(books) => {
            let mut desk = Desk::new(Cache::new(rt.alloc(), books, 0));
            let reply = reply_of(rt, site, &mut desk, message);
            (
                Some(reply),
                desk.into_books().into_books().into_connection(),
            )
        }
        Err(Unopened { why, conn }) => {
            assert_eq!(rt; why, OpenFault::Store);
            (None, conn)
        }
    }
}

/// The reply of an index in two files, one of which stops after this many calls.
fn reply_after(
    rt: &(impl Abort + AllocGlobal),
    site: &Site,
    files: Files<File>,
    message: &str,
) -> Option<Reply> {
    match opened(rt, files) {
        Ok(conn) => {
            let (reply, conn) = reply_over(rt, site, conn, message);
            drop(closed(conn));
            reply
        }
        Err(files) => {
            drop(files);
            None
        }
    }
}

/// The reply that reports a failed store.
const STORE: &str = json_reply!(
    "500 Internal Server Error",
    "33",
    r#"{"answer":"fault","name":"Store"}"#
);

/// The outcome of a message.
#[derive(Clone, Copy, PartialEq, Eq, Debug)]
enum Outcome {
    /// No index was opened.
    Unopened,
    Fault,
    /// A first part of the reply was sent, and the end has the number of its bytes.
    Cut,
    Whole,
}

/// The outcome of a message whose whole reply is known.
fn outcome_of(rt: &impl Abort, reply: &Option<Reply>, whole: &[u8]) -> Outcome {
    let Some(Reply { told, ended }) = reply else {
        return Outcome::Unopened;
    };
    let told = told.as_slice();
    if let Err(end) = ended {
        assert!(rt; *end == IoEnd::Cut(told.len() as u64) && whole.starts_with(told));
        return Outcome::Cut;
    }
    if told == whole {
        return Outcome::Whole;
    }
    assert!(rt; told == STORE.as_bytes());
    Outcome::Fault
}

/// More calls than any run makes of one file.
const ENOUGH: u64 = 1_000_000;

/// Stops one of the files at its first call, then this many calls later, and so on until the reply is whole. Returns
/// how often a fault was reported, and how often the reply was cut short.
fn stop_each(
    rt: &(impl Abort + AllocGlobal),
    site: &Site,
    files: &Files<File>,
    which: Which,
    step: usize,
    message: &str,
    whole: &[u8],
) -> (u32, u32) {
    assert!(rt; step > 0);
    let (mut faults, mut cuts) = (0u32, 0u32);
    for calls in (0..ENOUGH).step_by(step) {
        let reply = reply_after(rt, site, stopping(rt, files, which, calls), message);
        match outcome_of(rt, &reply, whole) {
            Outcome::Unopened => {}
            Outcome::Fault => faults = faults.saturating_add(1),
            Outcome::Cut => cuts = cuts.saturating_add(1),
            Outcome::Whole => return (faults, cuts),
        }
    }
    panic!(rt; "{message}")
}

/// Requests for each page in JSON, a file and a standing.
const LOOKS: &[[&str; 2]] = &[
    [NAMES, NAMES_IN_JSON],
    [PROJECT, PROJECT_WITH_FILE],
    [GET, BYTES],
    CHARGED,
];

/// A message gets its reply, or at some stops a reply that reports a fault.
fn assert_told(
    rt: &(impl Abort + AllocGlobal),
    site: &Site,
    files: &Files<File>,
    which: Which,
    exchange: &[&str; 2],
) {
    let [message, reply] = exchange;
    let (faults, cuts) = stop_each(rt, site, files, which, 1, message, reply.as_bytes());
    assert!(rt; faults > 0 && cuts == 0, "{message}");
}

#[test]
fn a_look_at_a_database_that_stops(rt: HostRuntime) {
    let site = &new_site(&rt);
    let files = files_with_a_file(&rt, site);
    for look in LOOKS {
        assert_told(&rt, site, &files, Which::Database, look);
    }
}

/// bob claims a name, ann uploads a second file, and deletes the first.
const CHANGES: &[[&str; 2]] = &[
    [
        post!("hello", "28", r#"{"do":"claim","name":"nest"}"#),
        ACCEPTED,
    ],
    [
        put!("/files/frob/frob-1.1.tar.gz" "X-Index-Token: abc"),
        CREATED,
    ],
    [DELETE, ACCEPTED],
];

#[test]
fn a_change_of_a_database_that_stops(rt: HostRuntime) {
    let site = &new_site(&rt);
    let files = files_with_a_file(&rt, site);
    for change in CHANGES {
        assert_told(&rt, site, &files, Which::Log, change);
        assert_told(&rt, site, &files, Which::Database, change);
    }
}

/// A request for the page of all names.
const ROOT: &str = look!("GET /simple/");

/// The reply with the long page if no file stops.
fn long_reply(rt: &(impl Abort + AllocGlobal), site: &Site, files: &Files<File>) -> Reply {
    let files = stopping(rt, files, Which::Database, u64::MAX);
    let reply = reply_after(rt, site, files, ROOT).expect(rt, "an index");
    assert!(rt; reply.ended == Ok(()) && reply.told.starts_with(HEAD_OF_LONG_PAGE.as_bytes()));
    assert_eq!(rt;
        reply.told.len(),
        HEAD_OF_LONG_PAGE.len() + LENGTH_OF_LONG_PAGE
    );
    reply
}

/// Some stops are reported as a fault, and others cut the page short.
fn assert_cut(rt: &(impl Abort + AllocGlobal), site: &Site, files: &Files<File>, whole: &[u8]) {
    let (faults, cuts) = stop_each(rt, site, files, Which::Database, 2_003, ROOT, whole);
    assert!(rt; faults > 0 && cuts > 0);
}

/// The page is gathered until it is too long, then counted, and then sent. A stop in the first two walks is reported as
/// a fault, and one in the last cuts the page short.
#[test]
fn a_long_page_of_a_database_that_stops(rt: HostRuntime) {
    let site = &new_site(&rt);
    let files = closed(with_long_names(&rt, new_database(&rt)));
    let reply = long_reply(&rt, site, &files);
    assert_cut(&rt, site, &files, reply.told.as_slice());
}
