//! The work of `serve`: connections are answered, over sockets or from any other source.
ghost use Rattle.std.specs.Prelude.{◌≡◌, ◌*◌, ◌↔◌, unwrap_or, IfErr, IfOk, IsErrOf, IsTrue, OnErr};
ghost use Rattle.index_cli.specs.Connections.{KnownList, KnownReplies};
ghost use Rattle.index.specs.Causes.{IsNoAddress, is_of_address};
ghost use Rattle.index.specs.Tasks.{IsNoListening};

use crate::cause::{Cause, cause_of_bind};
use crate::database::Work;
use crate::end::End;
use index_args::ServeArgs;
use index_caching::CachesAnswers;
use index_cli::{Connections, Listening, answer_connections};
use index_desk::Desk;
use index_message::Site;
use std::io;
use std::net::{SocketAddr, TcpListener};

/// The size of the cache in bytes, if the command line does not give it.
const KEPT_BYTES: u64 = 268_435_456;

/// The work that the arguments of `serve` ask for.
pub fn serving_by<'a>(site: &'a Site, args: ServeArgs<'a>) -> Serving<'a, Address<'a>>
    ensures at { result.at ≡ args.entry.at }
    ensures requests { result.requests ≡ args.entry.requests * args.entry.rounds }
    ensures kept { result.keep_recent ≡ unwrap_or args.entry.keep_recent KEPT_BYTES }
{
    Serving {
        site,
        from: Address {
            address: args.listen,
            has_failed: false,
        },
        requests: all_rounds(args.requests, args.rounds),
        at: args.at,
        keep_recent: bytes_kept(args.keep_recent),
    }
}

/// The number of connections in all rounds.
#[tactic(auto, using(crate::proofs::RoundLemmas::product_fits))]
fn all_rounds(requests: u32, rounds: u32) -> u64
    ensures { result ≡ requests * rounds }
{
    requests as u64 * rounds as u64
}

/// The size of the cache in bytes: as asked, or the default.
fn bytes_kept(asked: Option<u64>) -> usize
    ensures { result ≡ unwrap_or asked KEPT_BYTES }
{
    asked.unwrap_or(KEPT_BYTES) as usize
}

/// A source of connections.
pub trait Listens {
    /// The connections that come.
    type Coming: Connections + Drop;

    /// What the clients of the connections to come send, in order, if that is known.
    ghost coming: { Self → KnownList };

    /// What was sent and what failed on the connections that were closed, in order, if that is known.
    ghost replies: { Self → KnownReplies };

    /// Whether the next connection could not be accepted.
    ghost CannotAccept: { Self → Type 0 };

    /// Listens, and prints the address.
    ///
    /// `Listen` if it can't listen, and `WriteFault` if the address could not be printed.
    fn listen(&mut self, rt: &HostRuntime) -> Result<Self::Coming, End>
        ensures coming { IfOk result (λ it. Self.Coming.coming it ≡ coming self.old) }
        ensures replies { IfOk result (λ it. Self.Coming.replies it ≡ replies self.old) }
        ensures awaited { OnErr result (coming self.new ≡ coming self.old) }
        ensures unsent { OnErr result (replies self.new ≡ replies self.old) }
        ensures fault { IfErr result IsNoListening };

    /// Stops listening, with these connections left.
    fn end(&mut self, left: Self::Coming)
        ensures coming { coming self.new ≡ Self.Coming.coming left }
        ensures replies { replies self.new ≡ Self.Coming.replies left }
        ensures refused { Self.Coming.CannotAccept left → CannotAccept self.new };
}

/// The work of `serve`: this many connections are answered.
#[derive(Drop)]
pub struct Serving<'a, L> {
    site: &'a Site,
    from: L,
    requests: u64,
    at: Option<u64>,
    keep_recent: usize,
}

impl<L: Listens> Work for Serving<'_, L> {
    ghost use Rattle.index.specs.Ends.{ServingIsCaused};
    ghost use Rattle.index.specs.Tasks.{AnswerConnections};

    ghost task = { λ old new. AnswerConnections old.at old.requests
        (L.coming old.from) (L.coming new.from) (L.replies old.from) (L.replies new.from) };

    ghost IsCaused = { λ _ new. ServingIsCaused (L.CannotAccept new.from) };

    fn keep_recent(&self) -> usize
        ensures { result ≡ self.now.keep_recent }
    {
        self.keep_recent
    }

    fn run<B: CachesAnswers>(&mut self, rt: &HostRuntime, desk: &mut Desk<B>) -> Result<u64, End> {
        let mut coming = match self.from.listen(rt) {
            Ok(coming) => coming,
            Err(fault) => return Err(fault),
        };
        let ended = answer_connections(rt, &mut coming, self.requests, self.at, self.site, desk);
        self.from.end(coming);
        match ended {
            Ok(()) => Ok(0),
            Err(early) => Err(End::Connections(early)),
        }
    }
}

/// Connections over sockets, at an address, which is printed.
#[derive(Clone, Copy)]
pub struct Address<'a> {
    address: &'a str,
    /// Whether the next connection could not be accepted. Only clauses read it.
    has_failed: bool,
}

impl Listens for Address<'_> {
    ghost use Rattle.std.specs.Prelude.{◌≡◌, true};
    ghost use Rattle.index_cli.specs.Connections.{unknown, unknown_replies};

    type Coming = Listening;

    ghost coming = { λ _. unknown };

    ghost replies = { λ _. unknown_replies };

    ghost CannotAccept = { λ it. it.has_failed ≡ true };

    fn listen(&mut self, rt: &HostRuntime) -> Result<Listening, End> {
        let listener = match listen_at(rt, self.address) {
            Ok(listener) => listener,
            Err(cause) => return Err(End::Listen(cause)),
        };
        if tell_address(rt, &listener).is_err() {
            return Err(End::WriteFault);
        }
        Ok(Listening::new(rt.alloc(), listener))
    }

    fn end(&mut self, left: Listening) {
        self.has_failed = left.has_failed();
        drop(left);
    }
}

/// Listens at an address and a port. Port 0 is any free port.
fn listen_at(rt: &HostRuntime, address: &str) -> Result<TcpListener, Cause>
    ensures cause { IfErr result (λ cause. IsTrue (is_of_address cause)) }
    ensures no_address { IsErrOf result Cause.NoAddress ↔ IsNoAddress address.now }
{
    let Ok(address) = address.parse::<SocketAddr>() else {
        return Err(Cause::NoAddress);
    };
    match TcpListener::bind(rt, address) {
        Ok(listener) => Ok(listener),
        Err(error) => Err(cause_of_bind(error.kind())),
    }
}

/// Prints the address that is listened on.
fn tell_address(rt: &HostRuntime, listener: &TcpListener) -> io::Result<()> {
    let address = listener.local_addr()?;
    println!(rt; "listening on {address}")
}
