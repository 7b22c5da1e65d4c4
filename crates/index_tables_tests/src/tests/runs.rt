//! Calls that a desk takes in one run.
use super::{
    ADD_ANN, ADD_BOB, CHARGED, CLAIM, OTHER_UPLOAD, STANDING, UPLOAD, assert_adopted,
    connection_of, line_of, new_database, new_desk,
};
use index_desk::Desk;
use index_json::Line;
use index_rules::{Answer, Books, Call, Refusal};
use sqlite::{Alter, Connection};
use std::alloc::AllocGlobal;
use std::process::Abort;

/// The call of a line.
fn call_of(rt: &(impl Abort + AllocGlobal), line: &str) -> Call {
    match line_of(rt, line) {
        Line::Call(call) => call,
        Line::Standing(_name) => panic!(rt; "{line}"),
    }
}

/// A run over these calls gives these answers.
fn assert_run<B: Books>(
    rt: &(impl Abort + AllocGlobal),
    desk: &mut Desk<B>,
    lines: &[&str],
    want: &[Answer],
) {
    let mut calls = Vec::new(rt.alloc());
    for line in lines {
        calls.push(call_of(rt, line)).expect(rt, "calls");
    }
    let answers = desk.run(rt.alloc(), calls).expect(rt, "answers");
    assert!(rt; answers.as_slice() == want);
}

/// The second upload is the first again, and the third has other bytes.
const UPLOADS: &[&str] = &[ADD_ANN, ADD_BOB, CLAIM, UPLOAD, UPLOAD, OTHER_UPLOAD];

const ANSWERS: &[Answer] = &[
    Answer::Accepted,
    Answer::Accepted,
    Answer::Accepted,
    Answer::Accepted,
    Answer::Already,
    Answer::Refused(Refusal::FileNameTaken),
];

fn run_uploads<S: Alter + Drop>(rt: &(impl Abort + AllocGlobal), conn: Connection<S>) {
    let mut desk = new_desk(rt, conn, &[]);
    assert_run(rt, &mut desk, UPLOADS, ANSWERS);
    assert_run(rt, &mut desk, &[], &[]);
    assert_adopted(rt, connection_of(desk), &[[STANDING, CHARGED]]);
}

#[test]
fn a_run_takes_calls_in_order(rt: HostRuntime) {
    run_uploads(&rt, new_database(&rt));
}
