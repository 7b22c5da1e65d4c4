//! Answers connections, one after the other.
ghost use Rattle.std.specs.Duration.{as_nanos};
ghost use Rattle.std.specs.Prelude.{◌≡◌, ◌≢◌, ◌/◌, true, Err, None};
ghost use Rattle.std.specs.Prelude.{IfErr, IfOk, IfSome, IsErrOf, OnErr, OnOk};
ghost use Rattle.index_rules.specs.StoreFaults.{CountsStoreFault};
ghost use Rattle.index_desk.specs.Invariants.{KeepsInvariants};
ghost use Rattle.index_desk.specs.Looks.{LeavesTables};
ghost use Rattle.index_cli.specs.Causes.{HaveFailed};
ghost use Rattle.index_cli.specs.Connections.{AddsReply, AreOn, IsRest, exchange_of, faults_of};
ghost use Rattle.index_http.specs.Steps.{at_desk};
ghost use Rattle.index_cli.specs.DeskAnswers.{DeskAnswersConnections};
ghost use Rattle.index_cli.specs.Serving.{DeskAnswersExchange, IsCount, NextConnectionIsAnswered};
ghost use Rattle.index_cli.specs.Steps.{on_connections};

use crate::connections::{Connection, Connections};
use crate::end::ServeEnd;
use index_caching::CachesAnswers;
use index_desk::Desk;
use index_http::{IoEnd, answer_one};
use index_io::{Sink, Source};
use index_message::Site;
use index_names::normal;
use index_rules::Fault;
use std::alloc::Global;
use std::fmt::Display;
use std::time::{Duration, SystemTime};

/// Answers one message of each of `requests` connections, one after the other, at a moment in Unix seconds or by the
/// clock. If a connection ends early, the reason is printed on standard error, and the next one is answered.
///
/// # Errors
///
/// `ReadFault` if no connection can be accepted, `Clock` if the clock can't be read or is set before 1970, and `Store`
/// if a fault has shut the store and more connections are to come: no request could be answered until the database is
/// opened again.
pub fn answer_connections<C: Connections, B: CachesAnswers>(
    rt: &HostRuntime,
    connections: &mut C,
    requests: u64,
    at: Option<u64>,
    site: &Site,
    desk: &mut Desk<B>,
) -> Result<(), ServeEnd>
    // The replies and the tables, by the tables before and by each legal history of them; up to a fault, if one has shut
    // the store; and what a crash leaves.
    ensures answers { DeskAnswersConnections (at_desk B.Books desk.old desk.new)
        (AreOn C.coming C.replies connections.old connections.new) at (IsCount requests result) }

    // However it ends, if no fault has shut the store: at most one user still has each token's digest, and charges that
    // add up still add up.
    ensures keeps { KeepsInvariants B.Books desk.old desk.new }

    // It returns `ReadFault` only if the next connection could not be accepted, `Clock` only if no moment is given, and
    // `Store` only if the store failed meanwhile.
    ensures read { result ≡ Err ServeEnd.ReadFault → C.CannotAccept connections.new }
    ensures clock { result ≡ Err ServeEnd.Clock → at ≡ None }
    ensures store { result ≡ Err ServeEnd.Store
        → HaveFailed 1 (B.stores desk.old) (B.stores desk.new) }
{
    let mut was_shut = false;
    for count in 0..requests {
        if was_shut {
            return Err(ServeEnd::Store);
        }
        let failures = desk.failure_count();
        answer_next(rt, connections, requests - count, at, site, desk)?;
        was_shut = is_shut(rt.alloc(), desk, failures);
    }
    Ok(())
}

/// Answers the message of the next connection, if any are left. If it ends early, the reason is printed on standard
/// error.
fn answer_next<C: Connections, B: CachesAnswers>(
    rt: &HostRuntime,
    connections: &mut C,
    left: u64,
    at: Option<u64>,
    site: &Site,
    desk: &mut Desk<B>,
) -> Result<(), ServeEnd>
    ensures answers { OnOk result (NextConnectionIsAnswered at (at_desk B.Books desk.old desk.new)
        (on_connections C.coming C.replies connections.old connections.new)) }
    ensures unasked { OnErr result (desk.new ≡ desk.old) }
    ensures rest { OnErr result (IsRest (C.coming connections.old) (C.coming connections.new)) }
    ensures unsent { OnErr result (C.replies connections.new ≡ C.replies connections.old) }
    ensures read { IsErrOf result ServeEnd.ReadFault → C.CannotAccept connections.new }
    ensures clock { result ≡ Err ServeEnd.Clock → at ≡ None }
    ensures no_store { result ≢ Err ServeEnd.Store }
{
    match connections.accept(rt, left) {
        Ok(Some(connection)) => {
            let moment = moment_of(rt, at)?;
            let ended = answer_accepted(rt.alloc(), connections, connection, site, desk, moment);
            if let Err(end) = ended {
                tell(rt, end);
            }
            Ok(())
        }
        Ok(None) => {
            tell(rt, IoEnd::OutOfMemory);
            Ok(())
        }
        Err(_) => Err(ServeEnd::ReadFault),
    }
}

/// Answers the message of a connection, and closes it.
fn answer_accepted<C: Connections, B: CachesAnswers>(
    alloc: Global,
    connections: &mut C,
    mut connection: Connection<C::ReadHalf, C::WriteHalf>,
    site: &Site,
    desk: &mut Desk<B>,
    at: u64,
) -> Result<(), IoEnd>
    requires open { C.IsOpen connections.old }
    ensures answered { (has : _) × (faults : _)
        × AddsReply (C.replies connections.old) (C.replies connections.new) has faults
        × DeskAnswersExchange B.Books desk.old desk.new (exchange_of at
        (C.ReadHalf.remaining connection.source) (C.WriteHalf.contents connection.sink)
        has faults) }
    ensures kept { C.coming connections.new ≡ C.coming connections.old }
{
    let ended = answer_message(
        alloc,
        site,
        &mut connection.source,
        &mut connection.sink,
        desk,
        at,
    );
    let closed = connections.close(connection);
    ended?;
    match closed {
        Ok(()) => Ok(()),
        Err(_) => Err(IoEnd::WriteFault(0)),
    }
}

/// Whether a fault has shut the store: a call failed since `failures`, and looking up two names fails too. An invalid
/// row, which another program wrote, shuts nothing. If no call failed, the store is not asked.
fn is_shut<B: CachesAnswers>(alloc: Global, desk: &mut Desk<B>, failures: u64) -> bool
    ensures leaves { LeavesTables B.Books desk.old desk.new }
    ensures idle { B.failures desk.old ≡ failures → desk.new ≡ desk.old }
    ensures store { result ≡ true → HaveFailed 1 (B.stores desk.old) (B.stores desk.new) }
{
    if desk.failure_count() == failures {
        return false;
    }
    fails_at(alloc, desk, b"x") && fails_at(alloc, desk, b"is-the-store-shut")
}

/// Whether looking up a name fails with `Store`.
fn fails_at<B: CachesAnswers>(alloc: Global, desk: &mut Desk<B>, name: &[u8]) -> bool
    ensures leaves { LeavesTables B.Books desk.old desk.new }
    ensures store { result ≡ true → CountsStoreFault (B.stores desk.old) (B.stores desk.new) true }
{
    let Ok(name) = normal(alloc, name) else {
        return false;
    };
    matches!(desk.is_held(alloc, &name), Err(Fault::Store))
}

/// The given moment, or that of the clock.
fn moment_of(rt: &HostRuntime, at: Option<u64>) -> Result<u64, ServeEnd>
    ensures given { IfOk result (λ moment. IfSome at (λ given. moment ≡ given)) }
    ensures clock { IfErr result (λ end. (end ≡ ServeEnd.Clock) × (at ≡ None)) }
{
    match at {
        Some(at) => Ok(at),
        None => Ok(moment_in(since_1970(rt)?)),
    }
}

/// The time since 1970 began, by the clock.
fn since_1970(rt: &HostRuntime) -> Result<Duration, ServeEnd>
    ensures clock { IfErr result (λ end. end ≡ ServeEnd.Clock) }
{
    let Ok(now) = SystemTime::now(rt) else {
        return Err(ServeEnd::Clock);
    };
    match now.duration_since(SystemTime::UNIX_EPOCH) {
        Ok(since) => Ok(since),
        Err(_) => Err(ServeEnd::Clock),
    }
}

/// The Unix time in whole seconds.
fn moment_in(since: Duration) -> u64
    ensures { result ≡ as_nanos since / 1_000_000_000 }
{
    since.as_secs()
}

/// Answers the message of a source on a sink.
fn answer_message<S: Source, K: Sink, B: CachesAnswers>(
    alloc: Global,
    site: &Site,
    source: &mut S,
    sink: &mut K,
    desk: &mut Desk<B>,
    at: u64,
) -> Result<(), IoEnd>
    ensures { DeskAnswersExchange B.Books desk.old desk.new (exchange_of at (S.remaining source.old)
        (K.contents sink.old) (K.contents sink.new)
        (faults_of (S.failures source.new) (K.failures sink.new))) }
{
    answer_one(alloc, site, source, sink, desk, at)
}

/// Prints the end of a connection on standard error, ignoring failures.
fn tell(rt: &HostRuntime, end: impl Display + Drop) {
    let _ = eprintln!(rt; "index: connection: {end}");
}
