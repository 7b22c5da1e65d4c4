//! Connections on loopback: each gets the reply to its message.
use super::fakes::{BooksCall, FailingBooks};
use super::{desk_with_users, new_books};
use index_cache::Cache;
use index_caching::CachesAnswers;
use index_cli::{Listening, ServeEnd, answer_connections};
use index_desk::Desk;
use index_message::Site;
use index_rules::{Books, Fault};
use std::alloc::AllocGlobal;
use std::io::{Read, Write};
use std::net::{Ipv4Addr, Net, SocketAddr, TcpListener, TcpStream};
use std::process::Abort;

/// A claim by ann.
const CLAIM: &str = concat!(
    "POST /requests HTTP/1.1\r\nHost: index\r\nX-Index-Token: abc\r\nContent-Length: 28\r\n\r\n",
    r#"{"do":"claim","name":"frob"}"#
);

const ACCEPTED: &str = concat!(
    "HTTP/1.1 200 OK\r\nContent-Type: application/json\r\nContent-Length: 21\r\nConnection: close\r\n\r\n",
    r#"{"answer":"accepted"}"#
);

const STORE: &str = concat!(
    "HTTP/1.1 500 Internal Server Error\r\nContent-Type: application/json\r\nContent-Length: 33\r\nConnection: close\r\n\r\n",
    r#"{"answer":"fault","name":"Store"}"#
);

/// A request for the standing of a name that nobody claimed.
const LOOK: &str = "GET /names/nest HTTP/1.1\r\nHost: index\r\n\r\n";

const FREE: &str = concat!(
    "HTTP/1.1 200 OK\r\nContent-Type: application/json\r\nContent-Length: 30\r\nConnection: close\r\n\r\n",
    r#"{"name":"nest","state":"free"}"#
);

/// A client that has sent its message.
fn client(
    rt: &(impl Abort + Net<Stream = TcpStream>),
    address: SocketAddr,
    message: &str,
) -> TcpStream {
    let mut stream = TcpStream::connect(rt, address).expect(rt, "a connection");
    stream.write_all(message.as_bytes()).expect(rt, "a message");
    stream
}

/// The client is sent exactly this reply.
fn assert_replied(rt: &(impl Abort + AllocGlobal), mut client: TcpStream, reply: &str) {
    let mut taken = Vec::new(rt.alloc());
    client.read_to_end(&mut taken).expect(rt, "a reply");
    let told = String::from_utf8(taken).expect(rt, "UTF-8");
    assert_eq!(rt; told.as_str(), reply);
}

/// Two clients of a desk with users get these replies, in turn. The runtime of the test is lent twice: for the test,
/// and for the server.
fn assert_served<B: CachesAnswers + Drop>(
    rt: &(impl Abort + AllocGlobal + Net<Stream = TcpStream>),
    host: &HostRuntime,
    listener: TcpListener,
    books: B,
) {
    let site = Site::new(rt.alloc()).expect(rt, "routes");
    let mut desk = desk_with_users(rt, books);
    let address = listener.local_addr().expect(rt, "its address");
    let ann = client(rt, address, CLAIM);
    let other = client(rt, address, LOOK);
    let mut coming = Listening::new(host.alloc(), listener);
    let ended = answer_connections(host, &mut coming, 2, Some(2), &site, &mut desk);
    assert!(rt; ended == Ok(()));
    assert_replied(rt, ann, ACCEPTED);
    assert_replied(rt, other, FREE);
}

#[test]
fn connections_are_answered_in_turn(rt: HostRuntime) {
    let loopback = SocketAddr::from((Ipv4Addr::LOCALHOST, 0));
    let listener = TcpListener::bind(&rt, loopback).expect(&rt, "a port");
    let books = Cache::new(rt.alloc(), new_books(&rt), 0);
    assert_served(&rt, &rt, listener, books);
}

/// A store that only answers `Store` ends the run after the current connection. A store of which only writes fail does
/// not.
fn assert_ends<B: CachesAnswers + Drop>(
    rt: &(impl Abort + AllocGlobal + Net<Stream = TcpStream>),
    host: &HostRuntime,
    listener: TcpListener,
    books: B,
    wanted: Result<(), ServeEnd>,
) {
    let site = Site::new(rt.alloc()).expect(rt, "routes");
    let mut desk = Desk::new(books);
    let address = listener.local_addr().expect(rt, "its address");
    let ann = client(rt, address, CLAIM);
    let other = client(rt, address, LOOK);
    let mut coming = Listening::new(host.alloc(), listener);
    let ended = answer_connections(host, &mut coming, 2, Some(2), &site, &mut desk);
    assert!(rt; ended == wanted);
    assert_replied(rt, ann, STORE);
    drop(other);
}

/// Books with users, of which each call of this kind fails with `Store`.
fn failing<B: Books + Drop>(
    rt: &(impl Abort + AllocGlobal),
    books: B,
    failing: BooksCall,
) -> Cache<FailingBooks<B>> {
    let books = desk_with_users(rt, books).into_books();
    let failing = FailingBooks::new(books, failing, Fault::Store, 0);
    Cache::new(rt.alloc(), failing, 0)
}

#[test]
fn a_store_that_is_shut_ends_the_run(rt: HostRuntime) {
    let loopback = SocketAddr::from((Ipv4Addr::LOCALHOST, 0));
    let listener = TcpListener::bind(&rt, loopback).expect(&rt, "a port");
    let shut = failing(&rt, new_books(&rt), BooksCall::Every);
    assert_ends(&rt, &rt, listener, shut, Err(ServeEnd::Store));
}

#[test]
fn writes_that_fail_do_not_end_the_run(rt: HostRuntime) {
    let loopback = SocketAddr::from((Ipv4Addr::LOCALHOST, 0));
    let listener = TcpListener::bind(&rt, loopback).expect(&rt, "a port");
    let full = failing(&rt, new_books(&rt), BooksCall::Write);
    assert_ends(&rt, &rt, listener, full, Ok(()));
}
