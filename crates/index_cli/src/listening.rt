//! Connections of a TCP listener.
ghost use Rattle.std.specs.Prelude.{◌≡◌, ⊤, true, IfOk, IfSome, None, OnOk};
ghost use Rattle.index_cli.specs.Connections.{AddsReply, no_faults, unknown, unknown_replies};
ghost use Rattle.index_cli.specs.Waiting.{AddsBehind, HasRoom, TakesFirst};

use crate::connections::{Connection, Connections};
use index_io::{Failed, Input, Output};
use std::alloc::Global;
use std::collections::VecDeque;
use std::io::{BufWriter, Read, Write};
use std::net::{TcpListener, TcpStream};
use std::rc::Rc;
use std::time::Duration;
use std::{io, thread};

/// The size of a reply's buffer in bytes: room for most pages.
const GATHERED_BYTES: usize = 65_536;

/// How many times the program tries to accept a connection.
const ACCEPT_TRIES: u32 = 100;

/// The pause after each try, in milliseconds.
const ACCEPT_PAUSE: u64 = 10;

/// The most connections that are accepted and wait. Each takes a descriptor, and most processes may have 1,024.
const MOST_WAITING: usize = 512;

/// The connections of a listener, accepted as they come. No clause says what clients send and are sent.
pub struct Listening {
    listener: TcpListener,
    waiting: VecDeque<TcpStream>,
    /// Whether the next connection could not be accepted.
    has_failed: bool,
}

impl Listening {
    /// The connections of this listener.
    pub fn new(alloc: Global, listener: TcpListener) -> Listening {
        Listening {
            listener,
            waiting: VecDeque::new(alloc),
            has_failed: false,
        }
    }

    /// Whether the next connection could not be accepted.
    pub fn has_failed(&self) -> bool
        ensures { result ≡ self.now.has_failed }
    {
        self.has_failed
    }
}

impl Drop for Listening {
    fn drop(self) {
        let Listening {
            listener: _listener,
            waiting: _waiting,
            has_failed: _has_failed,
        } = self;
    }
}

impl Connections for Listening {
    type ReadHalf = Input<Half>;

    type WriteHalf = Output<BufWriter<Half>>;

    ghost coming = { λ _. unknown };

    ghost replies = { λ _. unknown_replies };

    ghost IsOpen = { λ _. ⊤ };

    ghost CannotAccept = { λ it. it.has_failed ≡ true };

    fn accept(
        &mut self,
        rt: &HostRuntime,
        left: u64,
    ) -> Result<Option<Connection<Input<Half>, Output<BufWriter<Half>>>>, Failed> {
        match next_waiting(rt, &self.listener, &mut self.waiting, left) {
            Ok(stream) => Ok(connection_over(rt.alloc(), stream)),
            Err(_) => {
                self.has_failed = true;
                Err(Failed)
            }
        }
    }

    fn close(
        &mut self,
        mut connection: Connection<Input<Half>, Output<BufWriter<Half>>>,
    ) -> Result<(), Failed>
        ensures closed { AddsReply unknown_replies unknown_replies None no_faults }
        ensures kept { unknown ≡ unknown }
    {
        match connection.sink.writer.flush() {
            Ok(()) => Ok(()),
            Err(_) => Err(Failed),
        }
    }
}

/// One of two owners of a stream.
#[derive(Drop)]
pub struct Half {
    stream: Rc<TcpStream>,
}

impl Read for Half {
    fn read(&mut self, buf: &mut [u8]) -> io::Result<usize> {
        let mut stream = self.stream.as_ref();
        stream.read(buf)
    }
}

impl Write for Half {
    fn write(&mut self, buf: &[u8]) -> io::Result<usize> {
        let mut stream = self.stream.as_ref();
        stream.write(buf)
    }

    fn flush(&mut self) -> io::Result<()> {
        Ok(())
    }
}

/// A connection over a stream, or `None` if memory ran out. Its reply is buffered, so that a page is not sent row by
/// row.
fn connection_over(
    alloc: Global,
    stream: TcpStream,
) -> Option<Connection<Input<Half>, Output<BufWriter<Half>>>>
    ensures unfailed { IfSome result (λ it. (it.source.failures ≡ 0) × (it.sink.failures ≡ 0)) }
{
    let Ok(stream) = Rc::new(alloc, stream) else {
        return None;
    };
    let Ok(other) = stream.clone() else {
        return None;
    };
    let Ok(writer) = BufWriter::with_capacity(alloc, GATHERED_BYTES, Half { stream: other }) else {
        return None;
    };
    Some(Connection {
        source: Input::new(Half { stream }),
        sink: Output::new(writer),
    })
}

/// The first of the connections that wait. It first accepts all that wait, up to those left to answer: the system's
/// queue has room for 128, and a client that finds it full tries again after a second.
fn next_waiting(
    rt: &HostRuntime,
    listener: &TcpListener,
    waiting: &mut VecDeque<TcpStream>,
    left: u64,
) -> io::Result<TcpStream>
    ensures order { IfOk result (λ first. TakesFirst waiting.old.items waiting.new.items first) }
    // No more are accepted than are left to answer, with the one that is taken.
    ensures most { OnOk result (HasRoom left waiting.old.items waiting.new.items) }
{
    if listener.set_nonblocking(true).is_ok() {
        accept_waiting(listener, waiting, MOST_WAITING.min(left as usize));
        listener.set_nonblocking(false)?;
    }
    match waiting.pop_front() {
        Some(stream) => Ok(stream),
        None => next_connection(rt, listener),
    }
}

/// Accepts connections until none comes, or this many wait.
fn accept_waiting(listener: &TcpListener, waiting: &mut VecDeque<TcpStream>, most: usize)
    ensures { AddsBehind most waiting.old.items waiting.new.items }
{
    'tries: for _try in 0..most {
        if waiting.len() >= most {
            break;
        }
        let Ok((stream, _)) = listener.accept() else {
            break;
        };
        if waiting.push_back(stream).is_err() {
            break;
        }
    }
}

/// Accepts the next connection. If that fails, it tries again for a while: the client may be gone, or the process may
/// have too many open files.
fn next_connection(rt: &HostRuntime, listener: &TcpListener) -> io::Result<TcpStream> {
    for _try in 1..ACCEPT_TRIES {
        if let Ok((stream, _)) = listener.accept() {
            return Ok(stream);
        }
        thread::sleep(rt, Duration::from_millis(ACCEPT_PAUSE));
    }
    let (stream, _) = listener.accept()?;
    Ok(stream)
}
