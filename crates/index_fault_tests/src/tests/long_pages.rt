//! A page that is too long to be gathered: it is counted first, and then sent. If its walks fail it is not begun, or
//! cut short.
use super::fakes::{BooksCall, FailingBooks};
use super::replies::{ROOT, STORE, assert_reply, tell};
use super::{ACCEPTED, assert_answers, desk_with_users, new_books};
use index_cache::Cache;
use index_caching::CachesAnswers;
use index_desk::Desk;
use index_http::IoEnd;
use index_message::Site;
use index_rules::{Books, Fault};
use index_test_support::{HEAD_OF_LONG_PAGE, LONG, LONG_NAMES, names_front};
use std::alloc::AllocGlobal;
use std::process::Abort;

mod projects;

/// Claims enough names for a page that is too long to be gathered.
fn claim_long_names<B: Books>(rt: &(impl Abort + AllocGlobal), desk: &mut Desk<B>) {
    for number in 0..LONG_NAMES {
        let line = format!(in rt.alloc();
            "{{\"at\":2,\"token\":\"abc\",\"do\":\"claim\",\"name\":\"{LONG}{number}\"}}"
        );
        let line = line.expect(rt, "a line");
        assert_answers(rt, desk, line.as_str(), ACCEPTED);
    }
}

/// A desk over these books, whose walks fail after this many that succeed: before their first row or after it.
fn failing_after<B: Books + Drop>(
    rt: &impl AllocGlobal,
    books: B,
    failing: BooksCall,
    fault: Fault,
    after: u32,
) -> Desk<Cache<FailingBooks<B>>> {
    let failing = FailingBooks::new(books, failing, fault, after);
    Desk::new(Cache::new(rt.alloc(), failing, 0))
}

/// A desk over new books with 16,000 long names, whose walks fail after this many that succeed.
fn desk_of_long_names<B: Books + Drop>(
    rt: &(impl Abort + AllocGlobal),
    books: B,
    failing: BooksCall,
    fault: Fault,
    after: u32,
) -> Desk<Cache<FailingBooks<B>>> {
    let mut desk = desk_with_users(rt, books);
    claim_long_names(rt, &mut desk);
    failing_after(rt, desk.into_books(), failing, fault, after)
}

/// If its last walk fails, the reply with a long page is cut short: its head is sent, and no more than this front,
/// which ends before the row at which the walk failed. The end has the number of bytes.
fn assert_cut<B: CachesAnswers>(
    rt: &(impl Abort + AllocGlobal),
    site: &Site,
    desk: &mut Desk<B>,
    message: &str,
    head: &str,
    front: &str,
) {
    let mut told = Vec::new(rt.alloc());
    let ended = tell(rt, site, desk, message.as_bytes(), &mut told);
    assert_is_cut(rt, told.as_slice(), ended, head, front);
}

/// The output is this head and no more than this front of the reply, and its length is reported.
fn assert_is_cut(rt: &impl Abort, told: &[u8], ended: Result<(), IoEnd>, head: &str, front: &str) {
    assert!(rt; told.starts_with(head.as_bytes()));
    assert!(rt; front.as_bytes().starts_with(told));
    assert!(rt; ended == Err(IoEnd::Cut(told.len() as u64)));
}

const WITHOUT_ROWS: &str = names_front!(["4441944"]);

const WITH_A_ROW: &str = names_front!(
    ["4441944"]
    "<a href=\"/simple/aaaaaaaaaabbbbbbbbbbccccccccccddddddddddeeeeeeeeeeffffffffffgggggggggghhhhhhhhhhiiiiiiiiiijjjjjjjjjjkkkkkkkkkkllllllllll0/\">aaaaaaaaaabbbbbbbbbbccccccccccddddddddddeeeeeeeeeeffffffffffgggggggggghhhhhhhhhhiiiiiiiiiijjjjjjjjjjkkkkkkkkkkllllllllll0</a><br>\n"
);

/// The root page is cut short if its last walk fails with this fault.
fn assert_names_cut<B: Books + Drop>(
    rt: &(impl Abort + AllocGlobal),
    site: &Site,
    books: B,
    failing: BooksCall,
    fault: Fault,
    front: &str,
) {
    let mut desk = desk_of_long_names(rt, books, failing, fault, 2);
    let message = ROOT.message;
    assert_cut(rt, site, &mut desk, message, HEAD_OF_LONG_PAGE, front);
}

#[test]
fn a_long_page_is_cut(rt: HostRuntime) {
    let site = &Site::new(rt.alloc()).expect(&rt, "routes");
    for fault in [Fault::Store, Fault::OutOfMemory] {
        let books = new_books(&rt);
        assert_names_cut(&rt, site, books, BooksCall::WalkHeld, fault, WITHOUT_ROWS);
        let books = new_books(&rt);
        assert_names_cut(&rt, site, books, BooksCall::HeldRow, fault, WITH_A_ROW);
    }
}

/// Nothing of the page is sent if a walk before the last fails.
fn assert_not_begun<B: CachesAnswers>(
    rt: &(impl Abort + AllocGlobal),
    site: &Site,
    desk: &mut Desk<B>,
    message: &str,
    fault: Fault,
) {
    let (ended, reply) = match fault {
        Fault::Store => (Ok(()), STORE),
        Fault::OutOfMemory => (Err(IoEnd::OutOfMemory), ""),
    };
    assert_reply(rt, site, desk, message.as_bytes(), ended, reply);
}

/// The root page is not begun if its first or second walk fails with this fault.
fn assert_names_not_begun<B: Books + Drop>(
    rt: &(impl Abort + AllocGlobal),
    site: &Site,
    books: B,
    failing: BooksCall,
    fault: Fault,
    after: u32,
) {
    let mut desk = desk_of_long_names(rt, books, failing, fault, after);
    assert_not_begun(rt, site, &mut desk, ROOT.message, fault);
}

#[test]
fn a_long_page_is_not_begun(rt: HostRuntime) {
    let site = &Site::new(rt.alloc()).expect(&rt, "routes");
    for fault in [Fault::Store, Fault::OutOfMemory] {
        for failing in [BooksCall::WalkHeld, BooksCall::HeldRow] {
            assert_names_not_begun(&rt, site, new_books(&rt), failing, fault, 0);
            assert_names_not_begun(&rt, site, new_books(&rt), failing, fault, 1);
        }
    }
}
