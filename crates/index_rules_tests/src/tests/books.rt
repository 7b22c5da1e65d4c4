//! The tables in memory: changes and looks succeed, and looks find the changes.
//!
//! A script has a line for each change and each look. A look is followed by ` = ` and what it finds, and `-` stands for
//! nothing.
use super::{new_books, token};
use index_plain::PlainBooks;
use index_rules::{Books, OpenFault};
use std::alloc::{AllocGlobal, Global};
use std::process::Abort;

mod case_changes;
mod changes;
mod file_changes;
mod looks;
mod scripts;

use changes::change_of;
use looks::found_by;

/// Writes and looks, line by line, at new books.
fn assert_script(rt: &(impl Abort + AllocGlobal), scripts: &[&str]) {
    let mut books = new_books(rt);
    follow_all(rt, &mut books, scripts);
}

fn follow_all<B: Books>(rt: &(impl Abort + AllocGlobal), books: &mut B, scripts: &[&str]) {
    for script in scripts {
        for line in script.lines() {
            follow(rt, books, line);
        }
    }
}

/// Writes the change of a line, or makes its look and compares what it finds.
fn follow<B: Books>(rt: &(impl Abort + AllocGlobal), books: &mut B, line: &str) {
    match line.split_once(" = ") {
        Some((look, want)) => assert_found(rt, books, look, want),
        None => write(rt, books, line),
    }
}

fn write<B: Books>(rt: &(impl Abort + AllocGlobal), books: &mut B, line: &str) {
    let change = change_of(rt, line);
    books.write(rt.alloc(), change).expect(rt, line);
}

fn assert_found<B: Books>(rt: &(impl Abort + AllocGlobal), books: &mut B, look: &str, want: &str) {
    let found = found_by(rt, books, look);
    assert_eq!(rt; found.as_str(), want, "{look}");
}

/// Whether no books are opened with this first user and this text for a token.
fn is_bad_first_user(alloc: Global, user: &str, text: &str) -> bool {
    let opened = PlainBooks::new(alloc, user.as_bytes(), token(text));
    let is_bad = matches!(&opened, Err(OpenFault::BadFirstUser));
    drop(opened);
    is_bad
}

#[test]
fn a_bad_first_user_is_refused(rt: HostRuntime) {
    let alloc = rt.alloc();
    let too_long = "abcdefghijklmnopqrstuvwxyz0123456";
    assert!(rt; is_bad_first_user(alloc, "Office", "office"));
    assert!(rt; is_bad_first_user(alloc, "office", ""));
    assert!(rt; is_bad_first_user(alloc, "", "office"));
    assert!(rt; is_bad_first_user(alloc, too_long, "office"));
}
