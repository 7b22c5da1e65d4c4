//! A stop at each call of a change: a claim, an upload, a delete, a prohibition, a ban and a transfer.
use super::super::{
    ACCEPTED, ALREADY, CHARGED, CLAIM, DELETE, FILE, FREE, FROB, STANDING, UNCHARGED, UPLOAD,
    adopt, answer_to, assert_answer, assert_wrong_charges, connection_of, desk_over,
};
use super::{Told, Trial, assert_stops, assert_store_fault, files_after};
use index_desk::Desk;
use index_rules::Books;
use index_tables::Unopened;
use sqlite::{Alter, Connection};
use std::alloc::AllocGlobal;
use std::process::Abort;

const STORE_FAULT: &str = r#"{"answer":"fault","name":"Store"}"#;

/// A request that is accepted, and how to see whether it was.
#[derive(Clone, Copy)]
struct Asked {
    request: &'static str,
    /// The standing of `frob` before it.
    before: &'static str,
    /// The standing of `frob` after it.
    after: &'static str,
    /// The answer to the request if it is made again.
    again: &'static str,
}

impl Trial for Asked {
    fn run<R: Abort + AllocGlobal, S: Alter + Drop>(
        &self,
        rt: &R,
        conn: Connection<S>,
    ) -> (Told, Connection<S>) {
        match adopt(rt, conn) {
            Ok(books) => {
                let mut desk = Desk::new(books);
                let told = told_by(rt, &mut desk, self.request);
                (told, connection_of(desk))
            }
            Err(Unopened { why, conn }) => {
                assert_store_fault(rt, why);
                (Told::Unopened, conn)
            }
        }
    }

    fn assert_whole<R: Abort + AllocGlobal, S: Alter + Drop>(
        &self,
        rt: &R,
        conn: Connection<S>,
        told: Told,
    ) -> Connection<S> {
        let mut desk = desk_over(rt, adopt(rt, conn));
        assert_wrong_charges(rt, &mut desk, 0);
        self.assert_made_or_not(rt, &mut desk, told);
        connection_of(desk)
    }
}

impl Asked {
    /// The request was accepted; or it is accepted now, and was not reported as accepted.
    fn assert_made_or_not<B: Books>(
        &self,
        rt: &(impl Abort + AllocGlobal),
        desk: &mut Desk<B>,
        told: Told,
    ) {
        if !is_answer(rt, desk, STANDING, self.after) {
            assert!(rt; told != Told::Done);
            assert_answer(rt, desk, STANDING, self.before);
            assert_answer(rt, desk, self.request, ACCEPTED);
            assert_answer(rt, desk, STANDING, self.after);
        }
        assert_answer(rt, desk, self.request, self.again);
    }
}

/// Whether a request gets this answer.
fn is_answer<B: Books>(
    rt: &(impl Abort + AllocGlobal),
    desk: &mut Desk<B>,
    request: &str,
    answer: &str,
) -> bool {
    answer_to(rt, desk, request).as_str() == answer
}

/// How far a request comes.
fn told_by<B: Books>(rt: &(impl Abort + AllocGlobal), desk: &mut Desk<B>, request: &str) -> Told {
    told_of(rt, answer_to(rt, desk, request).as_str())
}

/// How far a request with this answer came.
fn told_of(rt: &impl Abort, answer: &str) -> Told {
    if answer == ACCEPTED {
        return Told::Done;
    }
    assert_eq!(rt; answer, STORE_FAULT);
    Told::Fault
}

#[test]
fn a_claim_is_made_or_not(rt: HostRuntime) {
    let files = files_after(&rt, &[&[FROB[0], FROB[1]]]);
    let claim = Asked {
        request: CLAIM,
        before: FREE,
        after: UNCHARGED,
        again: ALREADY,
    };
    assert_stops(&rt, &files, &claim);
}

#[test]
fn an_upload_is_made_or_not(rt: HostRuntime) {
    let files = files_after(&rt, &[FROB]);
    let upload = Asked {
        request: UPLOAD,
        before: UNCHARGED,
        after: CHARGED,
        again: ALREADY,
    };
    assert_stops(&rt, &files, &upload);
}

#[test]
fn a_delete_is_made_or_not(rt: HostRuntime) {
    let files = files_after(&rt, &[FROB, FILE]);
    let delete = Asked {
        request: DELETE,
        before: CHARGED,
        after: UNCHARGED,
        again: ALREADY,
    };
    assert_stops(&rt, &files, &delete);
}

/// ann uploads a second file, the byte `a`.
const SECOND_FILE: &[[&str; 2]] = &[[
    r#"{"at":12,"token":"abc","do":"upload","file":"frob-1.1.tar.gz","sha256":"ca978112ca1bbdcafac231b39a23dc4da786eff8147c4e72b9807785afee48bb","hex":"61","requires_python":""}"#,
    ACCEPTED,
]];

const CHARGED_FOR_BOTH: &str =
    r#"{"case":null,"charge":4,"name":"frob","owners":["ann"],"quota":1073741824,"shown":"frob","state":"held"}"#;

#[test]
fn a_name_with_two_files_is_prohibited_or_not(rt: HostRuntime) {
    let files = files_after(&rt, &[FROB, FILE, SECOND_FILE]);
    let prohibition = Asked {
        request: r#"{"at":14,"token":"office","do":"prohibit","name":"frob"}"#,
        before: CHARGED_FOR_BOTH,
        after: r#"{"name":"frob","state":"prohibited"}"#,
        again: ALREADY,
    };
    assert_stops(&rt, &files, &prohibition);
}

#[test]
fn a_file_is_banned_or_not(rt: HostRuntime) {
    let files = files_after(&rt, &[FROB, FILE]);
    let ban = Asked {
        request: r#"{"at":20,"token":"office","do":"ban_file","file":"frob-1.0.tar.gz"}"#,
        before: CHARGED,
        after: UNCHARGED,
        again: ALREADY,
    };
    assert_stops(&rt, &files, &ban);
}

/// bob opens a case, and the office asks ann three times.
const CASE: &[[&str; 2]] = &[
    [
        r#"{"at":39999999,"token":"hello","do":"open_case","name":"frob","kind":"continue","contact":"mail","work":"fork","why":"used"}"#,
        ACCEPTED,
    ],
    [
        r#"{"at":40000000,"token":"office","do":"record_attempt","name":"frob","means":"profile","sent":true}"#,
        ACCEPTED,
    ],
    [
        r#"{"at":40000100,"token":"office","do":"record_attempt","name":"frob","means":"author","sent":true}"#,
        ACCEPTED,
    ],
    [
        r#"{"at":40000200,"token":"office","do":"record_attempt","name":"frob","means":"pages","sent":true}"#,
        ACCEPTED,
    ],
];

const IN_A_CASE: &str =
    r#"{"case":{"attempts":3,"author":true,"candidate":"bob","contact":"mail","first":40000000,"kind":"continue","opened":39999999,"pages":true,"profile":true,"sent":3,"why":"used","work":"fork"},"charge":3,"name":"frob","owners":["ann"],"quota":1073741824,"shown":"frob","state":"held"}"#;

#[test]
fn a_name_is_transferred_or_not(rt: HostRuntime) {
    let files = files_after(&rt, &[FROB, FILE, CASE]);
    let transfer = Asked {
        request: r#"{"at":43628801,"token":"office","do":"transfer","name":"frob","quiet":true}"#,
        before: IN_A_CASE,
        after: r#"{"case":null,"charge":3,"name":"frob","owners":["bob"],"quota":1073741824,"shown":"frob","state":"held"}"#,
        again: r#"{"answer":"refused","code":30,"name":"NoCase"}"#,
    };
    assert_stops(&rt, &files, &transfer);
}
