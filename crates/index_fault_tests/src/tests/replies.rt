//! Replies if the tables fail: each route, each call of the tables, both faults. And replies to messages that are
//! decided before their end, while the client sends no more.
use super::fakes::{BooksCall, FailingBooks, failing};
use super::{
    ACCEPTED, CLAIM, NEST_IS_FREE, STANDING_OF_NEST, assert_answers, assert_text, desk_with_users,
    new_books,
};
use index_cache::Cache;
use index_caching::CachesAnswers;
use index_desk::Desk;
use index_http::{IoEnd, answer_one};
use index_io::{Input, Output};
use index_message::Site;
use index_rules::{Books, Fault};
use index_test_support::json_reply;
use std::alloc::AllocGlobal;
use std::io::{Read, Write};
use std::process::Abort;

/// The upload of `frob-1.0.tar.gz`, the bytes `abc`, by ann.
const UPLOAD: &str =
    r#"{"at":11,"token":"abc","do":"upload","file":"frob-1.0.tar.gz","sha256":"ba7816bf8f01cfea414140de5dae2223b00361a396177a9cb410ff61f20015ad","hex":"616263","requires_python":""}"#;

const STANDING_OF_FROB: &str = r#"{"do":"standing","name":"frob"}"#;

const FROB_HAS_A_FILE: &str =
    "{\"case\":null,\"charge\":3,\"name\":\"frob\",\"owners\":[\"ann\"],\"quota\":1073741824,\"shown\":\"frob\",\"state\":\"held\"}\n";

pub(super) const STORE: &str = json_reply!(
    "500 Internal Server Error",
    "33",
    r#"{"answer":"fault","name":"Store"}"#
);

/// To HEAD.
const STORE_HEAD: &str = json_reply!("500 Internal Server Error", "33", "");

const OUT_OF_MEMORY: &str = json_reply!(
    "503 Service Unavailable",
    "39",
    r#"{"answer":"fault","name":"OutOfMemory"}"#
);

/// A message, the calls of the tables that it makes, and the front of its reply if none of them fails.
#[derive(Clone, Copy)]
pub(super) struct Route {
    pub(super) message: &'static str,
    calls: &'static [BooksCall],
    front: &'static str,
}

const IN_HTML: &str = "HTTP/1.1 200 OK\r\nContent-Type: text/html\r\n";

const IN_BYTES: &str =
    "HTTP/1.1 200 OK\r\nContent-Type: application/octet-stream\r\nContent-Length: 3\r\n";

const IN_JSON: &str =
    "HTTP/1.1 200 OK\r\nContent-Type: application/json\r\nContent-Length: 104\r\n";

pub(super) const ROOT: Route = Route {
    message: "GET /simple/ HTTP/1.1\r\n\r\n",
    calls: &[BooksCall::WalkHeld, BooksCall::HeldRow],
    front: IN_HTML,
};

pub(super) const PAGE: Route = Route {
    message: "GET /simple/frob/ HTTP/1.1\r\n\r\n",
    calls: &[BooksCall::IsHeld, BooksCall::WalkFiles, BooksCall::FilesRow],
    front: IN_HTML,
};

/// Whether the page exists is checked before its type.
const PAGE_OF_NO_TYPE: Route = Route {
    message: "GET /simple/frob/ HTTP/1.1\r\nAccept: */*;q=0\r\n\r\n",
    calls: &[BooksCall::IsHeld],
    front: "HTTP/1.1 406 Not Acceptable\r\n",
};

const FILE: Route = Route {
    message: "GET /files/frob/frob-1.0.tar.gz HTTP/1.1\r\n\r\n",
    calls: &[BooksCall::BytesOf],
    front: IN_BYTES,
};

/// A file that is not there, so that none is kept.
const NO_FILE: Route = Route {
    message: "GET /files/frob/frob-1.1.tar.gz HTTP/1.1\r\n\r\n",
    calls: &[BooksCall::BytesOf],
    front: "HTTP/1.1 404 Not Found\r\n",
};

const STANDING: Route = Route {
    message: "GET /names/frob HTTP/1.1\r\n\r\n",
    calls: &[BooksCall::View],
    front: IN_JSON,
};

const LOOKS: &[Route] = &[ROOT, PAGE, PAGE_OF_NO_TYPE, FILE, NO_FILE, STANDING];

const ROOT_HEAD: Route = Route {
    message: "HEAD /simple/ HTTP/1.1\r\n\r\n",
    calls: &[BooksCall::WalkHeld, BooksCall::HeldRow],
    front: IN_HTML,
};

const PAGE_HEAD: Route = Route {
    message: "HEAD /simple/frob/ HTTP/1.1\r\n\r\n",
    calls: &[BooksCall::IsHeld, BooksCall::WalkFiles, BooksCall::FilesRow],
    front: IN_HTML,
};

const FILE_HEAD: Route = Route {
    message: "HEAD /files/frob/frob-1.0.tar.gz HTTP/1.1\r\n\r\n",
    calls: &[BooksCall::BytesOf],
    front: IN_BYTES,
};

const STANDING_HEAD: Route = Route {
    message: "HEAD /names/frob HTTP/1.1\r\n\r\n",
    calls: &[BooksCall::View],
    front: IN_JSON,
};

const HEADS: &[Route] = &[ROOT_HEAD, PAGE_HEAD, FILE_HEAD, STANDING_HEAD];

/// bob claims `nest`.
const CLAIM_NEST: Route = Route {
    message: concat!(
        "POST /requests HTTP/1.1\r\nX-Index-Token: hello\r\nContent-Length: 28\r\n\r\n",
        r#"{"do":"claim","name":"nest"}"#
    ),
    calls: &[BooksCall::View, BooksCall::Write],
    front: "HTTP/1.1 200 OK\r\n",
};

/// ann uploads a second file, the bytes `abc`.
const PUT: Route = Route {
    message: concat!(
        "PUT /files/frob/frob-1.1.tar.gz HTTP/1.1\r\nX-Index-Token: abc\r\nX-Index-SHA256: ",
        "ba7816bf8f01cfea414140de5dae2223b00361a396177a9cb410ff61f20015ad",
        "\r\nContent-Length: 3\r\n\r\nabc"
    ),
    calls: &[BooksCall::View, BooksCall::Write],
    front: "HTTP/1.1 201 Created\r\n",
};

/// She deletes the first.
const DELETE: Route = Route {
    message: "DELETE /files/frob/frob-1.0.tar.gz HTTP/1.1\r\nX-Index-Token: abc\r\n\r\n",
    calls: &[BooksCall::View, BooksCall::Write],
    front: "HTTP/1.1 200 OK\r\n",
};

const CHANGES: &[Route] = &[CLAIM_NEST, PUT, DELETE];

/// How a desk ends that answers a reader on a writer.
pub(super) fn tell<R: Read + Drop, W: Write, B: CachesAnswers>(
    rt: &impl AllocGlobal,
    site: &Site,
    desk: &mut Desk<B>,
    reader: R,
    writer: &mut W,
) -> Result<(), IoEnd> {
    let mut input = Input::new(reader);
    let mut output = Output::new(writer);
    answer_one(rt.alloc(), site, &mut input, &mut output, desk, 12)
}

/// The message of a reader gets this reply, and the connection ends like this.
pub(super) fn assert_reply<R: Read + Drop, B: CachesAnswers>(
    rt: &(impl Abort + AllocGlobal),
    site: &Site,
    desk: &mut Desk<B>,
    reader: R,
    ended: Result<(), IoEnd>,
    reply: &str,
) {
    let mut told = Vec::new(rt.alloc());
    let found = tell(rt, site, desk, reader, &mut told);
    assert_text(rt, told, reply);
    assert!(rt; found == ended, "{reply}");
}

/// The reply to a message begins so, and is whole.
fn assert_front<B: CachesAnswers>(
    rt: &(impl Abort + AllocGlobal),
    site: &Site,
    desk: &mut Desk<B>,
    message: &str,
    front: &str,
) {
    let mut told = Vec::new(rt.alloc());
    let ended = tell(rt, site, desk, message.as_bytes(), &mut told);
    let is_front = told.as_slice().starts_with(front.as_bytes());
    drop(told);
    assert!(rt; is_front && ended == Ok(()), "{message}");
}

/// A desk over new books with the users ann and bob; ann has claimed `frob` and uploaded a file. This call of its books
/// fails from now on, after this many that succeed. It caches no answers.
fn failing_desk<B: Books + Drop>(
    rt: &(impl Abort + AllocGlobal),
    books: B,
    failing: BooksCall,
    fault: Fault,
    after: u32,
) -> Desk<Cache<FailingBooks<B>>> {
    let mut desk = desk_with_users(rt, books);
    assert_answers(rt, &mut desk, CLAIM, ACCEPTED);
    assert_answers(rt, &mut desk, UPLOAD, ACCEPTED);
    let failing = FailingBooks::new(desk.into_books(), failing, fault, after);
    Desk::new(Cache::new(rt.alloc(), failing, 0))
}

/// Each call of the tables.
const EACH_CALL: &[BooksCall] = &[
    BooksCall::View,
    BooksCall::Write,
    BooksCall::IsHeld,
    BooksCall::BytesOf,
    BooksCall::Names,
    BooksCall::FilesOf,
    BooksCall::WalkHeld,
    BooksCall::WalkFiles,
    BooksCall::HeldRow,
    BooksCall::FilesRow,
];

/// Whether a message makes this call of the tables.
fn makes(route: &Route, call: BooksCall) -> bool {
    route.calls.contains(&call)
}

/// If this call of the tables fails, a reading request that makes it gets the reply `Store`, or none if memory ran out.
/// All others are answered as usual.
fn assert_look<B: Books + Drop>(
    rt: &(impl Abort + AllocGlobal),
    site: &Site,
    books: B,
    route: &Route,
    call: BooksCall,
    fault: Fault,
    store: &str,
) {
    let mut desk = failing_desk(rt, books, call, fault, 0);
    let message = route.message;
    if !makes(route, call) {
        assert_front(rt, site, &mut desk, message, route.front);
        return;
    }
    let (ended, reply) = match fault {
        Fault::Store => (Ok(()), store),
        Fault::OutOfMemory => (Err(IoEnd::OutOfMemory), ""),
    };
    assert_reply(rt, site, &mut desk, message.as_bytes(), ended, reply);
}

#[test]
fn a_look_at_tables_that_fail(rt: HostRuntime) {
    let site = &Site::new(rt.alloc()).expect(&rt, "routes");
    for call in EACH_CALL {
        for route in LOOKS {
            for fault in [Fault::Store, Fault::OutOfMemory] {
                assert_look(&rt, site, new_books(&rt), route, *call, fault, STORE);
            }
        }
    }
}

#[test]
fn a_head_of_tables_that_fail(rt: HostRuntime) {
    let site = &Site::new(rt.alloc()).expect(&rt, "routes");
    for call in EACH_CALL {
        for route in HEADS {
            for fault in [Fault::Store, Fault::OutOfMemory] {
                assert_look(&rt, site, new_books(&rt), route, *call, fault, STORE_HEAD);
            }
        }
    }
}

/// Each call of the tables but the first runs out of memory. A file that the first found is answered without the
/// tables, until this look has made a call.
fn assert_forgotten<B: Books + Drop>(
    rt: &(impl Abort + AllocGlobal),
    site: &Site,
    books: B,
    look: &Route,
) {
    let desk = failing_desk(rt, books, BooksCall::Every, Fault::OutOfMemory, 1);
    let books = Cache::new(rt.alloc(), desk.into_books().into_books(), 1_024);
    let mut desk = Desk::new(books);
    for _ in 0..2 {
        assert_front(rt, site, &mut desk, FILE.message, FILE.front);
    }
    for message in [look.message, FILE.message] {
        let ended = Err(IoEnd::OutOfMemory);
        assert_reply(rt, site, &mut desk, message.as_bytes(), ended, "");
    }
}

#[test]
fn what_is_kept_goes_where_memory_runs_out(rt: HostRuntime) {
    let site = &Site::new(rt.alloc()).expect(&rt, "routes");
    for look in [ROOT, PAGE, NO_FILE, STANDING] {
        assert_forgotten(&rt, site, new_books(&rt), &look);
    }
}

/// If this call of the tables fails, a request that makes it gets the fault as its reply, and changes nothing. All
/// others are answered as usual.
fn assert_change<B: Books + Drop>(
    rt: &(impl Abort + AllocGlobal),
    site: &Site,
    books: B,
    route: &Route,
    call: BooksCall,
    fault: Fault,
) {
    let mut desk = failing_desk(rt, books, call, fault, 0);
    let message = route.message;
    if !makes(route, call) {
        assert_front(rt, site, &mut desk, message, route.front);
        return;
    }
    let reply = match fault {
        Fault::Store => STORE,
        Fault::OutOfMemory => OUT_OF_MEMORY,
    };
    assert_reply(rt, site, &mut desk, message.as_bytes(), Ok(()), reply);
    assert_unchanged(rt, desk.into_books().into_books().into_books());
}

/// `frob` has one file, and `nest` is free.
fn assert_unchanged<B: Books + Drop>(rt: &(impl Abort + AllocGlobal), books: B) {
    let mut desk = Desk::new(books);
    assert_answers(rt, &mut desk, STANDING_OF_FROB, FROB_HAS_A_FILE);
    assert_answers(rt, &mut desk, STANDING_OF_NEST, NEST_IS_FREE);
}

#[test]
fn a_change_of_tables_that_fail(rt: HostRuntime) {
    let site = &Site::new(rt.alloc()).expect(&rt, "routes");
    for call in EACH_CALL {
        for route in CHANGES {
            for fault in [Fault::Store, Fault::OutOfMemory] {
                assert_change(&rt, site, new_books(&rt), route, *call, fault);
            }
        }
    }
}

/// This front of a message decides its reply: no more is read, which would fail.
fn assert_decided<B: Books + Drop>(
    rt: &(impl Abort + AllocGlobal),
    site: &Site,
    books: B,
    front: &[u8],
    reply: &str,
) {
    let mut desk = failing_desk(rt, books, BooksCall::View, Fault::Store, 0);
    assert_reply(rt, site, &mut desk, failing(front), Ok(()), reply);
}

const BAD_HEAD: &str = json_reply!(
    "400 Bad Request",
    "37",
    r#"{"answer":"message","name":"BadHead"}"#
);

const BODY_TOO_LARGE: &str = json_reply!(
    "413 Payload Too Large",
    "42",
    r#"{"answer":"message","name":"BodyTooLarge"}"#
);

const NO_LENGTH: &str = json_reply!(
    "411 Length Required",
    "38",
    r#"{"answer":"message","name":"NoLength"}"#
);

#[test]
fn what_is_decided_is_answered_at_once(rt: HostRuntime) {
    let site = &Site::new(rt.alloc()).expect(&rt, "routes");
    let fronts: [&[u8]; 2] = [
        b"GET /simple/ HTTP/1.1\r\nno field\r\n",
        b"GET /simple/ HTTP/9.9\r\n",
    ];
    for front in fronts {
        assert_decided(&rt, site, new_books(&rt), front, BAD_HEAD);
    }
    let large: [&[u8]; 2] = [
        b"PUT /files/frob/frob-1.1.tar.gz HTTP/1.1\r\nContent-Length: 16777217\r\n\r\na",
        b"POST /requests HTTP/1.1\r\nContent-Length: 65537\r\n\r\n",
    ];
    for front in large {
        assert_decided(&rt, site, new_books(&rt), front, BODY_TOO_LARGE);
    }
    let front = b"POST /requests HTTP/1.1\r\n\r\n{}";
    assert_decided(&rt, site, new_books(&rt), front, NO_LENGTH);
}

/// A head that does not end within 16,384 bytes.
#[test]
fn a_head_that_is_too_long_is_answered_at_once(rt: HostRuntime) {
    let site = &Site::new(rt.alloc()).expect(&rt, "routes");
    let mut front = Vec::from_slice(rt.alloc(), b"GET /simple/ HTTP/1.1\r\nA: ").expect(
        &rt, "a head",
    );
    front.resize(16_384, b'a').expect(&rt, "a long field");
    assert_decided(&rt, site, new_books(&rt), front.as_slice(), BAD_HEAD);
}
