//! Clients in memory, one after the other: each gets the reply of docs/reference/HTTP.md, and nothing else.
ghost use Rattle.std.specs.Prelude.{◌≡◌, [], ◌∷◌, ◌++◌, map, Some};
ghost use Rattle.std.specs.Slice.Iter.{iter_rest};
ghost use Rattle.index_http.specs.Steps.{at_desk};
ghost use Rattle.index_cli.specs.DeskAnswers.{DeskAnswersConnections};
ghost use Rattle.index_cli.specs.Serving.{IsCount};
ghost use Rattle.index_cli.specs.InMemory.{AddsClosed, IsNew, sent_on};
ghost use Rattle.index_fault_tests.specs.Clients.{AreNamed};

use super::fakes::{BooksCall, FailingBooks};
use super::new_books;
use index_cache::Cache;
use index_caching::CachesAnswers;
use index_cli::{Connection, Connections, ServeEnd, answer_connections};
use index_desk::Desk;
use index_io::{Failed, Input, Output};
use index_message::Site;
use index_rules::{Books, Fault};
use index_test_support::{json_reply, look, post, project_json, reply};
use std::alloc::AllocGlobal;
use std::process::Abort;
use std::slice;

/// A message, and the whole reply to it.
type Exchange = (&'static str, &'static str);

/// The connection of a client.
type Client = Connection<Input<&'static [u8]>, Output<Vec<u8>>>;

/// Clients that each send their message and no more, in order. Their connections are kept, so a clause of a run over
/// them names each message and its reply. For one of them there may be no memory. After the last none can be accepted.
struct Clients<'a, R: Abort> {
    rt: &'a R,
    coming: slice::Iter<'a, Exchange>,
    without_memory: Option<usize>,
    closed: Vec<Client>,
}

impl<R: Abort> Drop for Clients<'_, R> {
    fn drop(self) {
        let Clients {
            rt: _rt,
            coming: _coming,
            without_memory: _without_memory,
            closed: _closed,
        } = self;
    }
}

impl<R: Abort> Clients<'_, R> {
    /// Keeps one more connection.
    fn keep(&mut self, client: Client)
        ensures client { self.new.closed.items ≡ self.old.closed.items ++ client.entry ∷ [] }
        ensures coming { self.new.coming ≡ self.old.coming }
    {
        self.closed.push(client).expect(self.rt, "room");
    }
}

/// The connection of a client that sends this message.
fn client_of(rt: &HostRuntime, message: &'static str) -> Client
    ensures { IsNew message.now result }
{
    Connection {
        source: Input::new(message.as_bytes()),
        sink: Output::new(Vec::new(rt.alloc())),
    }
}

impl<R: Abort> Connections for Clients<'_, R> {
    ghost use Rattle.std.specs.Prelude.{◌≡◌, [], map, Some, ⊤};
    ghost use Rattle.index_cli.specs.InMemory.{sent_on};

    type ReadHalf = Input<&'static [u8]>;

    type WriteHalf = Output<Vec<u8>>;

    ghost coming = { λ clients. Some (map (λ exchange. exchange.0.now) (iter_rest clients.coming)) };

    ghost replies = { λ clients. Some (map sent_on clients.closed.items) };

    ghost IsOpen = { λ _. ⊤ };

    ghost CannotAccept = { λ clients. iter_rest clients.coming ≡ [] };

    fn accept(
        &mut self,
        rt: &HostRuntime,
        _left: u64,
    ) -> Result<Option<Connection<Input<&'static [u8]>, Output<Vec<u8>>>>, Failed> {
        let Some((message, _)) = self.coming.next() else {
            return Err(Failed);
        };
        let client = client_of(rt, message);
        if self.without_memory == Some(self.closed.len()) {
            self.keep(client);
            return Ok(None);
        }
        Ok(Some(client))
    }

    fn close(
        &mut self,
        connection: Connection<Input<&'static [u8]>, Output<Vec<u8>>>,
    ) -> Result<(), Failed>
        ensures closed { AddsClosed self.old.closed.items self.new.closed.items connection.entry }
        ensures kept { iter_rest self.new.coming ≡ iter_rest self.old.coming }
    {
        self.keep(connection);
        Ok(())
    }
}

/// Answers this many clients, none of which was answered yet.
fn answer_clients<R: Abort, B: CachesAnswers>(
    host: &HostRuntime,
    clients: &mut Clients<'_, R>,
    requests: u64,
    site: &Site,
    desk: &mut Desk<B>,
) -> Result<(), ServeEnd>
    requires new { clients.old.closed.items ≡ [] }
    // The messages of these clients were answered, and their replies were sent.
    ensures named { DeskAnswersConnections (at_desk B.Books desk.old desk.new)
        (AreNamed (map (λ it. it.0.now) (iter_rest clients.old.coming))
        (map sent_on clients.new.closed.items)) (Some 2) (IsCount requests result) }
{
    answer_connections(host, clients, requests, Some(2), site, desk)
}

const ACCEPTED: &str = json_reply!("200 OK", "21", r#"{"answer":"accepted"}"#);

const ADD_ANN: Exchange = (
    post!(
        "office",
        "127",
        r#"{"do":"add_user","user":"ann","office":false,"token_sha256":"ba7816bf8f01cfea414140de5dae2223b00361a396177a9cb410ff61f20015ad"}"#
    ),
    ACCEPTED,
);

const CLAIM: Exchange = (
    post!("abc", "28", r#"{"do":"claim","name":"Frob"}"#),
    ACCEPTED,
);

const FROB_IS_FREE: Exchange = (
    look!("GET /names/frob"),
    json_reply!("200 OK", "30", r#"{"name":"frob","state":"free"}"#),
);

const STORE: &str = json_reply!(
    "500 Internal Server Error",
    "33",
    r#"{"answer":"fault","name":"Store"}"#
);

/// The examples of the page, in its order, and malformed messages among them.
const EXAMPLES: &[Exchange] = &[
    ADD_ANN,
    CLAIM,
    (
        concat!(
            "PUT /files/frob/frob-1.0.tar.gz HTTP/1.1\r\nX-Index-Token: abc\r\nX-Index-SHA256: ",
            "ba7816bf8f01cfea414140de5dae2223b00361a396177a9cb410ff61f20015ad",
            "\r\nContent-Length: 3\r\n\r\nabc"
        ),
        json_reply!("201 Created", "21", r#"{"answer":"accepted"}"#),
    ),
    (
        look!("GET /files/frob/frob-1.0.tar.gz"),
        reply!(
            "200 OK",
            ["Content-Type: application/octet-stream"],
            "3",
            "abc"
        ),
    ),
    // a client that is gone in the midst of its head
    (
        "GET /simple/ HTTP/1.1\r\nHo",
        json_reply!(
            "400 Bad Request",
            "37",
            r#"{"answer":"message","name":"BadHead"}"#
        ),
    ),
    (
        look!("GET /simple/frob/" "Accept: application/vnd.pypi.simple.v1+json"),
        project_json!(["236"] r#"{"filename":"frob-1.0.tar.gz","hashes":{"sha256":"ba7816bf8f01cfea414140de5dae2223b00361a396177a9cb410ff61f20015ad"},"size":3,"url":"/files/frob/frob-1.0.tar.gz"}"#,
                "frob",
                r#""1.0""#),
    ),
    (
        look!("GET /names/FROB"),
        json_reply!(
            "200 OK",
            "104",
            r#"{"case":null,"charge":3,"name":"frob","owners":["ann"],"quota":1073741824,"shown":"Frob","state":"held"}"#
        ),
    ),
    (
        look!("DELETE /files/frob/frob-1.0.tar.gz"),
        reply!(
            "401 Unauthorized",
            ["Content-Type: application/json" "WWW-Authenticate: Index-Token"],
            "47",
            r#"{"answer":"refused","code":2,"name":"BadToken"}"#
        ),
    ),
    (
        look!("GET /simple/Frob"),
        reply!(
            "301 Moved Permanently",
            ["Location: /simple/frob/"],
            "0",
            ""
        ),
    ),
];

/// A run over this many connections: how many clients get a reply, and how it ends.
#[derive(Clone, Copy)]
struct Run<'a> {
    exchanges: &'a [Exchange],
    without_memory: Option<usize>,
    requests: u64,
    replied: usize,
    ended: Result<(), ServeEnd>,
}

fn assert_run<R: Abort + AllocGlobal, B: CachesAnswers + Drop>(
    rt: &R,
    host: &HostRuntime,
    books: B,
    run: &Run<'_>,
) {
    let site = Site::new(rt.alloc()).expect(rt, "routes");
    let mut desk = Desk::new(books);
    let mut clients = Clients {
        rt,
        coming: run.exchanges.iter(),
        without_memory: run.without_memory,
        closed: Vec::new(rt.alloc()),
    };
    let ended = answer_clients(host, &mut clients, run.requests, &site, &mut desk);
    assert!(rt; ended == run.ended);
    assert_eq!(rt; clients.closed.len(), run.replied);
    assert_replies(rt, clients.closed.as_slice(), run.exchanges);
}

/// The replies to the first of these messages were sent to these clients, and no read or write failed.
fn assert_replies(rt: &impl Abort, closed: &[Client], exchanges: &[Exchange]) {
    for (client, (message, reply)) in closed.iter().zip(exchanges) {
        let is_reply = client.sink.writer.as_slice() == reply.as_bytes();
        assert!(rt; is_reply, "{message}");
        assert_eq!(rt; client.source.failures, 0);
        assert_eq!(rt; client.sink.failures, 0);
    }
}

/// Books that keep no answers.
fn keeping_nothing<B: Books>(rt: &impl AllocGlobal, books: B) -> Cache<B> {
    Cache::new(rt.alloc(), books, 0)
}

const ALL: Run<'static> = Run {
    exchanges: EXAMPLES,
    without_memory: None,
    requests: 9,
    replied: 9,
    ended: Ok(()),
};

#[test]
fn each_client_gets_the_reply_to_its_message(rt: HostRuntime) {
    assert_run(&rt, &rt, keeping_nothing(&rt, new_books(&rt)), &ALL);
}

#[test]
fn a_run_ends_where_no_client_comes(rt: HostRuntime) {
    let run = Run {
        requests: 10,
        ended: Err(ServeEnd::ReadFault),
        ..ALL
    };
    assert_run(&rt, &rt, keeping_nothing(&rt, new_books(&rt)), &run);
}

#[test]
fn a_run_ends_behind_so_many_clients(rt: HostRuntime) {
    let run = Run {
        requests: 2,
        replied: 2,
        ..ALL
    };
    assert_run(&rt, &rt, keeping_nothing(&rt, new_books(&rt)), &run);
}

/// If memory runs out for a client, it gets no reply and its request is not applied. The next client is answered.
#[test]
fn a_client_without_memory_is_passed_over(rt: HostRuntime) {
    let run = Run {
        exchanges: &[ADD_ANN, (CLAIM.0, ""), FROB_IS_FREE],
        without_memory: Some(1),
        requests: 3,
        replied: 3,
        ended: Ok(()),
    };
    assert_run(&rt, &rt, keeping_nothing(&rt, new_books(&rt)), &run);
}

/// A store that only answers `Store` ends the run after the current client.
#[test]
fn no_client_is_served_over_a_store_that_is_shut(rt: HostRuntime) {
    let books = FailingBooks::new(new_books(&rt), BooksCall::Every, Fault::Store, 0);
    let run = Run {
        exchanges: &[(CLAIM.0, STORE), FROB_IS_FREE],
        without_memory: None,
        requests: 2,
        replied: 1,
        ended: Err(ServeEnd::Store),
    };
    assert_run(&rt, &rt, keeping_nothing(&rt, books), &run);
}
