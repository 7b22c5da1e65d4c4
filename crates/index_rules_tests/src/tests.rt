//! Names, users and texts from constants, and new tables. The tests run over any books.
use index_digest::Digest256;
use index_names::{FileName, NormalName, Release, normal, release_key};
use index_plain::PlainBooks;
use index_rules::UserId;
use index_text::Text;
use std::alloc::AllocGlobal;
use std::process::Abort;

mod books;
mod decisions;
mod desk;
mod keys;
mod output;
mod requests;
mod rows;
mod rules;

/// The SHA-256 digest of `abc`, an example of FIPS 180-4.
const OF_ABC: &str = "ba7816bf8f01cfea414140de5dae2223b00361a396177a9cb410ff61f20015ad";

/// The SHA-256 digest of the empty text.
const OF_NOTHING: &str = "e3b0c44298fc1c149afbf4c8996fb92427ae41e4649b934ca495991b7852b855";

fn name(rt: &(impl Abort + AllocGlobal), text: &str) -> NormalName {
    normal(rt.alloc(), text.as_bytes()).expect(rt, text)
}

fn user(rt: &(impl Abort + AllocGlobal), text: &str) -> UserId {
    UserId::read(rt.alloc(), text.as_bytes()).expect(rt, text)
}

fn release(rt: &(impl Abort + AllocGlobal), text: &str) -> Release {
    release_key(rt.alloc(), text.as_bytes()).expect(rt, text)
}

fn file_name(rt: &(impl Abort + AllocGlobal), text: &str) -> FileName {
    FileName::read(rt.alloc(), text.as_bytes()).expect(rt, text)
}

fn text(rt: &(impl Abort + AllocGlobal), text: &str) -> Text {
    Text::new(String::from_str(rt.alloc(), text).expect(rt, text))
}

fn token(text: &str) -> Digest256 {
    Digest256::of(text.as_bytes())
}

/// Tables in memory whose one user is `office`, with the token `office`.
fn new_books(rt: &(impl Abort + AllocGlobal)) -> PlainBooks {
    let opened = PlainBooks::new(rt.alloc(), b"office", token("office"));
    opened.expect(rt, "books")
}
