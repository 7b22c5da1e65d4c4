//! Sources of connections.
ghost use Rattle.std.specs.Prelude.{◌≡◌, IfNone, IfOk, IfSome, OnErr};
ghost use Rattle.index_cli.specs.Connections.{AddsReply, ClientTaken, IsUnsent, KnownList, KnownReplies, Loses, faults_of};

use index_io::{Failed, Sink, Source};

/// A connection: what its client sends, and what is sent to it.
#[derive(Debug, Drop)]
pub struct Connection<S, K> {
    pub source: S,
    pub sink: K,
}

/// A source of connections, one after the other.
pub trait Connections {
    /// The reader of what a client sends.
    type ReadHalf: Source + Drop;

    /// The writer of what a client is sent.
    type WriteHalf: Sink + Drop;

    /// What the clients of the connections to come send, in order, if that is known.
    ghost coming: { Self → KnownList };

    /// What was sent and what failed on the connections that were closed, in order, if that is known.
    ghost replies: { Self → KnownReplies };

    /// Whether a connection is open.
    ghost IsOpen: { Self → Type 0 };

    /// Whether the next connection could not be accepted.
    ghost CannotAccept: { Self → Type 0 };

    /// Returns the next connection, or `None` if memory ran out and it was closed. At most `left` connections are
    /// accepted.
    ///
    /// # Errors
    ///
    /// `Failed` if no connection can be accepted.
    fn accept(
        &mut self,
        rt: &HostRuntime,
        left: u64,
    ) -> Result<Option<Connection<Self::ReadHalf, Self::WriteHalf>>, Failed>
        ensures first { IfOk result (λ next. IfSome next (λ it.
            ClientTaken (coming self.old) (coming self.new) (Self.ReadHalf.remaining it.source))) }
        ensures unsent { IfOk result (λ next. IfSome next (λ it.
            IsUnsent (replies self.old) (Self.WriteHalf.contents it.sink))) }
        ensures unfailed { IfOk result (λ next. IfSome next (λ it.
            (Self.ReadHalf.failures it.source ≡ 0) × (Self.WriteHalf.failures it.sink ≡ 0))) }
        ensures open { IfOk result (λ next. IfSome next (λ it.
            IsOpen self.new × (replies self.new ≡ replies self.old))) }
        ensures lost { IfOk result (λ next. IfNone next (Loses (coming self.old) (coming self.new)
            (replies self.old) (replies self.new))) }
        ensures none { OnErr result ((coming self.new ≡ coming self.old)
            × (replies self.new ≡ replies self.old)) }
        ensures failed { OnErr result (CannotAccept self.new) };

    /// Sends the buffered rest of a reply, and closes its connection.
    ///
    /// # Errors
    ///
    /// `Failed` if that can't be sent.
    fn close(
        &mut self,
        connection: Connection<Self::ReadHalf, Self::WriteHalf>,
    ) -> Result<(), Failed>
        requires open { IsOpen self.old }
        ensures closed { AddsReply (replies self.old) (replies self.new)
            (Self.WriteHalf.contents connection.sink)
            (faults_of (Self.ReadHalf.failures connection.source)
            (Self.WriteHalf.failures connection.sink)) }
        ensures kept { coming self.new ≡ coming self.old };
}
