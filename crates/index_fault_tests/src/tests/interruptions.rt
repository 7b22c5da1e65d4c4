//! Reads and writes that are interrupted are tried again.
use super::fakes::{InterruptedReader, InterruptedWriter};
use super::{
    BOTH_CLAIMS, TWICE_ACCEPTED, assert_run, assert_text, desk_with_users, new_books, run,
};
use index_rules::Books;
use std::alloc::AllocGlobal;
use std::process::Abort;

fn interrupt_reads<B: Books + Drop>(rt: &(impl Abort + AllocGlobal), books: B) {
    let mut desk = desk_with_users(rt, books);
    let reader = InterruptedReader {
        rest: BOTH_CLAIMS.as_bytes(),
        was_interrupted: false,
    };
    assert_run(rt, &mut desk, reader, Ok(2), TWICE_ACCEPTED);
}

#[test]
fn interrupted_reads_are_tried_again(rt: HostRuntime) {
    interrupt_reads(&rt, new_books(&rt));
}

fn interrupt_writes<B: Books + Drop>(rt: &(impl Abort + AllocGlobal), books: B) {
    let mut desk = desk_with_users(rt, books);
    let mut told = Vec::new(rt.alloc());
    let mut writer = InterruptedWriter {
        taken: &mut told,
        was_interrupted: false,
    };
    let ended = run(rt, &mut desk, BOTH_CLAIMS.as_bytes(), &mut writer);
    assert_text(rt, told, TWICE_ACCEPTED);
    assert!(rt; ended == Ok(2));
}

#[test]
fn interrupted_writes_are_tried_again(rt: HostRuntime) {
    interrupt_writes(&rt, new_books(&rt));
}
