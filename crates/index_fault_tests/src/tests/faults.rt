//! A failed call of the books is the answer to its request, and nothing changes.
use super::fakes::{BooksCall, FailingBooks};
use super::{
    ACCEPTED, ALREADY, CLAIM, NEST_IS_FREE, STANDING_OF_NEST, assert_answers, desk_with_users,
    new_books,
};
use index_desk::Desk;
use index_digest::Digest256;
use index_names::{FileName, normal};
use index_rules::{Answer, Books, Bytes, Call, Fault, Request};
use std::alloc::AllocGlobal;
use std::process::Abort;

/// A desk over new books with the users ann and bob; ann has claimed `frob`. This call of its books fails from now on.
pub(super) fn failing_desk<B: Books + Drop>(
    rt: &(impl Abort + AllocGlobal),
    books: B,
    call: BooksCall,
    fault: Fault,
) -> Desk<FailingBooks<B>> {
    let mut desk = desk_with_users(rt, books);
    assert_answers(rt, &mut desk, CLAIM, ACCEPTED);
    Desk::new(FailingBooks::new(desk.into_books(), call, fault, 0))
}

/// The answer that reports a fault, and its line feed.
fn fault_line(fault: Fault) -> &'static str {
    match fault {
        Fault::Store => "{\"answer\":\"fault\",\"name\":\"Store\"}\n",
        Fault::OutOfMemory => "{\"answer\":\"fault\",\"name\":\"OutOfMemory\"}\n",
    }
}

/// bob claims a name, ann claims hers again, and then the standings of both names.
const ASKED: &str = r#"{"at":12,"token":"hello","do":"claim","name":"nest"}
{"at":13,"token":"abc","do":"claim","name":"frob"}
{"do":"standing","name":"frob"}
{"do":"standing","name":"nest"}
"#;

const STANDING_OF_FROB: &str = r#"{"do":"standing","name":"frob"}"#;

const FROB_IS_HELD: &str =
    "{\"case\":null,\"charge\":0,\"name\":\"frob\",\"owners\":[\"ann\"],\"quota\":1073741824,\"shown\":\"frob\",\"state\":\"held\"}\n";

/// Once no call of these books fails, `frob` stands as before, and this is the standing of `nest`.
fn assert_after<B: Books + Drop>(rt: &(impl Abort + AllocGlobal), books: B, nest: &str) {
    let mut desk = Desk::new(books);
    assert_answers(rt, &mut desk, STANDING_OF_FROB, FROB_IS_HELD);
    assert_answers(rt, &mut desk, STANDING_OF_NEST, nest);
}

/// If this call of the books fails, these lines get these answers, and this is then the standing of `nest`.
fn assert_told<B: Books + Drop>(
    rt: &(impl Abort + AllocGlobal),
    books: B,
    call: BooksCall,
    fault: Fault,
    answers: [&str; 4],
    nest: &str,
) {
    let mut desk = failing_desk(rt, books, call, fault);
    let mut told = String::new(rt.alloc());
    for answer in answers {
        told.push_str(answer).expect(rt, answer);
    }
    assert_answers(rt, &mut desk, ASKED, told.as_str());
    assert_after(rt, desk.into_books().into_books(), nest);
}

/// A fault is the answer to its line, and the next line is read.
#[test]
fn a_look_that_fails_is_a_fault(rt: HostRuntime) {
    for fault in [Fault::Store, Fault::OutOfMemory] {
        let answers = [fault_line(fault); 4];
        assert_told(
            &rt,
            new_books(&rt),
            BooksCall::View,
            fault,
            answers,
            NEST_IS_FREE,
        );
    }
}

/// Calls that write nothing are answered as usual.
#[test]
fn a_write_that_fails_is_a_fault(rt: HostRuntime) {
    for fault in [Fault::Store, Fault::OutOfMemory] {
        let answers = [fault_line(fault), ALREADY, FROB_IS_HELD, NEST_IS_FREE];
        assert_told(
            &rt,
            new_books(&rt),
            BooksCall::Write,
            fault,
            answers,
            NEST_IS_FREE,
        );
    }
}

/// A claim of `nest` by bob.
fn claim(rt: &(impl Abort + AllocGlobal)) -> Call {
    let name = Bytes::copy_of(rt.alloc(), b"nest").expect(rt, "nest");
    Call {
        at: 12,
        token: Digest256::of(b"hello"),
        request: Request::Claim { name },
    }
}

/// A claim is answered with the fault of this call of the books.
fn assert_answer<B: Books + Drop>(
    rt: &(impl Abort + AllocGlobal),
    books: B,
    call: BooksCall,
    fault: Fault,
) {
    let mut desk = failing_desk(rt, books, call, fault);
    let answer = desk.apply(rt.alloc(), claim(rt));
    assert!(rt; answer == Answer::Fault(fault), "{fault}");
    assert_after(rt, desk.into_books().into_books(), NEST_IS_FREE);
}

#[test]
fn a_claim_is_answered_by_the_fault(rt: HostRuntime) {
    for fault in [Fault::Store, Fault::OutOfMemory] {
        assert_answer(&rt, new_books(&rt), BooksCall::View, fault);
        assert_answer(&rt, new_books(&rt), BooksCall::Write, fault);
    }
}

/// The fault in place of the standing of `frob`.
fn fault_of_standing<B: Books>(
    rt: &(impl Abort + AllocGlobal),
    desk: &mut Desk<B>,
) -> Option<Fault> {
    let name = normal(rt.alloc(), b"frob").expect(rt, "frob");
    let standing = desk.standing(rt.alloc(), &name);
    let fault = standing.as_ref().err().copied();
    drop(standing);
    fault
}

/// The fault in place of the bytes of a file.
fn fault_of_body<B: Books>(rt: &(impl Abort + AllocGlobal), desk: &mut Desk<B>) -> Option<Fault> {
    let file = FileName::read(rt.alloc(), b"frob-1.0.tar.gz").expect(rt, "a file name");
    let body = desk.body(rt.alloc(), &file);
    let fault = body.as_ref().err().copied();
    drop(body);
    fault
}

/// If this call of the books fails, these are the faults in place of a standing and of bytes.
fn assert_faults<B: Books + Drop>(
    rt: &(impl Abort + AllocGlobal),
    books: B,
    call: BooksCall,
    fault: Fault,
    standing: Option<Fault>,
    body: Option<Fault>,
) {
    let mut desk = failing_desk(rt, books, call, fault);
    let of_standing = fault_of_standing(rt, &mut desk);
    let of_body = fault_of_body(rt, &mut desk);
    assert!(rt; of_standing == standing && of_body == body, "{fault}");
}

#[test]
fn a_question_is_answered_by_the_fault(rt: HostRuntime) {
    for fault in [Fault::Store, Fault::OutOfMemory] {
        assert_faults(
            &rt,
            new_books(&rt),
            BooksCall::View,
            fault,
            Some(fault),
            None,
        );
        assert_faults(&rt, new_books(&rt), BooksCall::Write, fault, None, None);
        assert_faults(&rt, new_books(&rt), BooksCall::IsHeld, fault, None, None);
        assert_faults(
            &rt,
            new_books(&rt),
            BooksCall::BytesOf,
            fault,
            None,
            Some(fault),
        );
    }
}
