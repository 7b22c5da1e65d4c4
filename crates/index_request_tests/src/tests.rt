//! Stories: requests to a desk and its answers. Each is run by a desk over tables in memory and by one over a database.
use files::new_database;
use index_cache::Cache;
use index_caching::CachesAnswers;
use index_desk::Desk;
use index_digest::Digest256;
use index_plain::PlainBooks;
use index_tables::{SqlBooks, Unopened};
use sqlite::{Alter, Connection};
use std::alloc::AllocGlobal;
use std::process::Abort;

mod exchanges;
mod files;
mod transcripts;

/// Requests to a desk and checks of it, over any books.
trait Story {
    fn run<R: Abort + AllocGlobal, B: CachesAnswers>(&self, rt: &R, desk: &mut Desk<B>);
}

/// Runs a story at a new desk over tables in memory, and at one over a database.
fn assert_story<R: Abort + AllocGlobal, T: Story>(rt: &R, story: &T) {
    assert_in_memory(rt, story);
    assert_in_database(rt, new_database(rt), story);
}

fn assert_in_memory<R: Abort + AllocGlobal, T: Story>(rt: &R, story: &T) {
    let mut desk = desk_in_memory(rt);
    story.run(rt, &mut desk);
}

fn assert_in_database<R: Abort + AllocGlobal, S: Alter + Drop, T: Story>(
    rt: &R,
    conn: Connection<S>,
    story: &T,
) {
    let mut desk = desk_over(rt, conn);
    story.run(rt, &mut desk);
    drop(desk.into_books().into_books().into_connection());
}

/// A desk over tables in memory, whose one user is `office`, of the office, with the token `office`. It caches nothing.
fn desk_in_memory(rt: &(impl Abort + AllocGlobal)) -> Desk<Cache<PlainBooks>> {
    let token = Digest256::of(b"office");
    let books = PlainBooks::new(rt.alloc(), b"office", token).expect(rt, "books");
    Desk::new(Cache::new(rt.alloc(), books, 0))
}

/// A desk over a new index in an empty database, with the same user. It has a small cache.
fn desk_over<S: Alter + Drop>(
    rt: &(impl Abort + AllocGlobal),
    conn: Connection<S>,
) -> Desk<Cache<SqlBooks<S>>> {
    let books = new_books(rt, conn);
    Desk::new(Cache::new(rt.alloc(), books, 1_000))
}

fn new_books<S: Alter + Drop>(rt: &(impl Abort + AllocGlobal), conn: Connection<S>) -> SqlBooks<S> {
    assert!(rt; conn.is_autocommit());
    match SqlBooks::create(rt.alloc(), conn, b"office", Digest256::of(b"office")) {
        Ok(books) => books,
        Err(Unopened { why, conn }) => {
            drop(conn);
            panic!(rt; "{why:?}")
        }
    }
}
