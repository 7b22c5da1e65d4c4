//! A project's page that is too long to be gathered. If its walks fail it is not begun, or cut short.
use super::{assert_cut, assert_not_begun, failing_after};
use crate::tests::fakes::BooksCall;
use crate::tests::replies::PAGE;
use crate::tests::{ACCEPTED, CLAIM, assert_answers, desk_with_users, new_books};
use index_desk::Desk;
use index_message::Site;
use index_rules::{Books, Fault};
use index_test_support::{project_front, reply};
use std::alloc::AllocGlobal;
use std::process::Abort;

/// The SHA-256 digest of `abc`, which each file holds.
const DIGEST: &str = "ba7816bf8f01cfea414140de5dae2223b00361a396177a9cb410ff61f20015ad";

/// A text 512 times, the most bytes of declared Python versions.
fn repeated(rt: &(impl Abort + AllocGlobal), text: &str) -> String {
    let mut whole = String::new(rt.alloc());
    for _ in 0..512 {
        whole.push_str(text).expect(rt, text);
    }
    whole
}

/// ann claims `frob` and uploads 1,400 files, each of which declares 512 quotation marks: their page is too long to be
/// gathered. It is counted first, and then sent.
fn upload_files<B: Books>(rt: &(impl Abort + AllocGlobal), desk: &mut Desk<B>) {
    assert_answers(rt, desk, CLAIM, ACCEPTED);
    let quotes = repeated(rt, "\\\"");
    for number in 1_000..2_400 {
        let line = format!(in rt.alloc();
            "{{\"at\":11,\"token\":\"abc\",\"do\":\"upload\",\"file\":\"frob-{number}.tar.gz\",\"sha256\":\"{DIGEST}\",\"hex\":\"616263\",\"requires_python\":\"{quotes}\"}}"
        );
        let line = line.expect(rt, "a line");
        assert_answers(rt, desk, line.as_str(), ACCEPTED);
    }
}

/// Books with such files, of these that are new.
fn books_with_files<B: Books + Drop>(rt: &(impl Abort + AllocGlobal), books: B) -> B {
    let mut desk = desk_with_users(rt, books);
    upload_files(rt, &mut desk);
    desk.into_books()
}

/// The head of the reply with the page. The page has 190 bytes beside its 1,400 rows, of 3,232 bytes each: 3,072 of
/// them are the quotation marks, each in six bytes.
const HEAD: &str = reply!("200 OK", ["Content-Type: text/html"], "4524990", "");

const WITHOUT_ROWS: &str = project_front!(["4524990"]);

/// The front of the reply with the first of its rows.
fn with_a_row(rt: &(impl Abort + AllocGlobal)) -> String {
    let quotes = repeated(rt, "&quot;");
    let front = format!(in rt.alloc();
        "{WITHOUT_ROWS}<a href=\"/files/frob/frob-1000.tar.gz#sha256={DIGEST}\" data-requires-python=\"{quotes}\">frob-1000.tar.gz</a><br>\n"
    );
    front.expect(rt, "a front")
}

/// The project's page is cut short if its last walk fails with this fault. The books are returned.
fn assert_files_cut<B: Books + Drop>(
    rt: &(impl Abort + AllocGlobal),
    site: &Site,
    books: B,
    failing: BooksCall,
    fault: Fault,
    front: &str,
) -> B {
    let mut desk = failing_after(rt, books, failing, fault, 2);
    assert_cut(rt, site, &mut desk, PAGE.message, HEAD, front);
    desk.into_books().into_books().into_books()
}

#[test]
fn a_long_page_of_a_project_is_cut(rt: HostRuntime) {
    let site = &Site::new(rt.alloc()).expect(&rt, "routes");
    let row = with_a_row(&rt);
    let row = row.as_str();
    let mut books = books_with_files(&rt, new_books(&rt));
    for fault in [Fault::Store, Fault::OutOfMemory] {
        books = assert_files_cut(&rt, site, books, BooksCall::WalkFiles, fault, WITHOUT_ROWS);
        books = assert_files_cut(&rt, site, books, BooksCall::FilesRow, fault, row);
    }
}

/// The project's page is not begun if its first or second walk fails with this fault. The books are returned.
fn assert_files_not_begun<B: Books + Drop>(
    rt: &(impl Abort + AllocGlobal),
    site: &Site,
    books: B,
    failing: BooksCall,
    fault: Fault,
    after: u32,
) -> B {
    let mut desk = failing_after(rt, books, failing, fault, after);
    assert_not_begun(rt, site, &mut desk, PAGE.message, fault);
    desk.into_books().into_books().into_books()
}

#[test]
fn a_long_page_of_a_project_is_not_begun(rt: HostRuntime) {
    let site = &Site::new(rt.alloc()).expect(&rt, "routes");
    let mut books = books_with_files(&rt, new_books(&rt));
    for fault in [Fault::Store, Fault::OutOfMemory] {
        for failing in [BooksCall::WalkFiles, BooksCall::FilesRow] {
            books = assert_files_not_begun(&rt, site, books, failing, fault, 0);
            books = assert_files_not_begun(&rt, site, books, failing, fault, 1);
        }
    }
}
