//! A link over a socket.

ghost use Rattle.std.specs.Prelude.{◌≡◌, ◌+◌, ◌-◌, ◌^◌, true, false, min, Err};
ghost use Rattle.socket_link.specs.Sockets.{LinkMoves, LinkCalls, IsShut, nothing_moved, moved_on, ended_stays};
ghost use Rattle.socket_link.specs.Sockets.{none_called, called_on, shut_stays};

use crate::socket::Socket;
use conn_link::{Link, LinkFault, finds_end};
use futures::task::{Context, Poll};
use std::io;

/// How often a call asks a socket that says it is ready and then isn't, before it asks to be polled again.
const TRIES: u32 = 2;

/// A link over a socket. It gives and takes the socket's bytes, and behind the end of the input it gives none.
pub struct SocketLink<S: Socket> {
    socket: S,
    failures: u64,
    has_ended: bool,
    is_shut: bool,
}

// By hand, so that the proof of who lets go of it is that of a call, and not of all that it holds.
impl<S: Socket> Drop for SocketLink<S> {
    fn drop(self) {
        let Self {
            socket: _socket,
            failures: _,
            has_ended: _,
            is_shut: _,
        } = self;
    }
}

impl<S: Socket> SocketLink<S> {
    /// A link over a socket that is connected.
    pub fn new(socket: S) -> SocketLink<S>
        ensures { (result.socket ≡ socket) × (result.failures ≡ 0) × (result.has_ended ≡ false)
            × (result.is_shut ≡ false) }
    {
        SocketLink {
            socket,
            failures: 0,
            has_ended: false,
            is_shut: false,
        }
    }

    // A call failed; a count that is full stays.
    fn fail<T>(&mut self) -> Poll<Result<T, LinkFault>>
        ensures { (result ≡ Poll.Ready (Err (record {}))) × (self.new ≡ record self.old {
          failures = min (self.old.failures + 1) (2 ^ 64 - 1);
        }) }
    {
        self.failures = self.failures.saturating_add(1);
        Poll::Ready(Err(LinkFault))
    }
}

impl<S: Socket> Link for SocketLink<S> {
    ghost moves = { LinkMoves S.moves S.is_shut };

    ghost calls = { LinkCalls S.steps };

    ghost has_ended = { λ link. link.has_ended ≡ true };

    ghost is_shut = { IsShut S.moves S.is_shut };

    ghost failed = { λ link. link.failures };

    ghost reads_at = { λ link source. source ≡ S.reads_at link.socket };

    ghost writes_at = { λ link source. source ≡ S.writes_at link.socket };

    ghost shuts_at = { λ link source. source ≡ S.writes_at link.socket };

    ghost moves_nothing = { nothing_moved S.moves S.is_shut S.moves_nothing };

    ghost moves_on = { moved_on S.moves S.is_shut S.moves_on };

    ghost calls_none = { none_called S.steps S.steps_none };

    ghost calls_on = { called_on S.steps S.steps_on };

    ghost stays_ended = { ended_stays S.moves S.is_shut };

    ghost stays_shut = { shut_stays S.moves S.is_shut S.stays_shut };

    fn poll_read(
        &mut self,
        cx: &mut Context<'_>,
        buffer: &mut [u8],
    ) -> Poll<Result<usize, LinkFault>> {
        if self.has_ended {
            return Poll::Ready(Ok(0));
        }
        for _round in 0..TRIES {
            match self.socket.poll_readable(cx) {
                Poll::Ready(Ok(())) => {}
                Poll::Ready(Err(_error)) => return self.fail(),
                Poll::Pending => return Poll::Pending,
            }
            match self.socket.try_read(buffer) {
                Ok(count) => {
                    self.has_ended = finds_end(buffer.len(), count);
                    return Poll::Ready(Ok(count));
                }
                Err(error) => {
                    if error.kind() != io::ErrorKind::WouldBlock {
                        return self.fail();
                    }
                }
            }
        }
        // Nothing else wakes a reader whose socket says that it is ready and isn't.
        cx.yield_now()
    }

    fn poll_write(&mut self, cx: &mut Context<'_>, bytes: &[u8]) -> Poll<Result<usize, LinkFault>> {
        for _round in 0..TRIES {
            match self.socket.poll_writable(cx) {
                Poll::Ready(Ok(())) => {}
                Poll::Ready(Err(_error)) => return self.fail(),
                Poll::Pending => return Poll::Pending,
            }
            match self.socket.try_write(bytes) {
                Ok(count) => return Poll::Ready(Ok(count)),
                Err(error) => {
                    if error.kind() != io::ErrorKind::WouldBlock {
                        return self.fail();
                    }
                }
            }
        }
        // Nothing else wakes a writer whose socket says that it is ready and isn't.
        cx.yield_now()
    }

    fn poll_shut(&mut self, cx: &mut Context<'_>) -> Poll<Result<(), LinkFault>> {
        match self.socket.poll_shut(cx) {
            Poll::Ready(Ok(())) => {
                self.is_shut = true;
                Poll::Ready(Ok(()))
            }
            Poll::Ready(Err(_error)) => self.fail(),
            Poll::Pending => Poll::Pending,
        }
    }

    fn failures(&self) -> u64 {
        self.failures
    }
}
