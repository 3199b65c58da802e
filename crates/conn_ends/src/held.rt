//! A socket that is held up.

ghost use Rattle.std.specs.Prelude.{◌≡◌, ⊤};
ghost use Rattle.futures.specs.Channel.{canceled_source};
ghost use Rattle.futures.specs.Poll.{OnPending};
ghost use Rattle.futures.specs.Task.{Covers, Keeps};

use futures::channel::oneshot::{Receiver, Sender, channel};
use futures::ready;
use futures::task::{Context, Poll};
use socket_link::{Socket, SocketLink};
use std::alloc::Global;
use std::io;

/// What holds a socket up, until it is dropped.
pub type Hold = Receiver<()>;

/// A socket whose calls wait while it is held up. Then they move all that they can, or say that it failed.
#[derive(Drop)]
pub struct Held {
    hold: Sender<()>,
    /// It isn't held up for writes, and takes all that it is offered.
    takes: bool,
    fails: bool,
    /// It says once that it is ready, and isn't.
    is_stale: bool,
}

impl Held {
    // Ready once it is let go.
    fn wait(&mut self, cx: &mut Context<'_>) -> Poll<io::Result<()>>
        ensures same { self.new ≡ self.old }
        ensures registered { OnPending result (Covers cx.new (λ source. source ≡ canceled_source self.new.hold)) }
        ensures kept { Keeps cx.old cx.new }
    {
        if self.is_stale {
            return Poll::Ready(Ok(()));
        }
        ready!(self.hold.poll_canceled(cx));
        if self.fails {
            return Poll::Ready(Err(io::Error::from(io::ErrorKind::ConnectionReset)));
        }
        Poll::Ready(Ok(()))
    }
}

impl Socket for Held {
    ghost moves = { λ _ _ _ _. ⊤ };

    ghost steps = { λ _ _ _. ⊤ };

    ghost is_shut = { λ _. ⊤ };

    ghost reads_at = { λ socket. canceled_source socket.hold };

    ghost writes_at = { λ socket. canceled_source socket.hold };

    ghost moves_nothing = { λ _. tt };

    ghost moves_on = { λ _ _ _ _ _ _ _ _ _. tt };

    ghost steps_none = { λ _. tt };

    ghost steps_on = { λ _ _ _ _ _ _ _. tt };

    ghost stays_shut = { λ _ _ _ _ _ is. is };

    fn poll_readable(&mut self, cx: &mut Context<'_>) -> Poll<io::Result<()>> {
        self.wait(cx)
    }

    fn poll_writable(&mut self, cx: &mut Context<'_>) -> Poll<io::Result<()>> {
        if self.takes {
            return Poll::Ready(Ok(()));
        }
        self.wait(cx)
    }

    fn try_read(&mut self, buffer: &mut [u8]) -> io::Result<usize> {
        if self.is_stale {
            self.is_stale = false;
            return Err(io::Error::from(io::ErrorKind::WouldBlock));
        }
        Ok(buffer.len())
    }

    fn try_write(&mut self, bytes: &[u8]) -> io::Result<usize> {
        if self.is_stale {
            self.is_stale = false;
            return Err(io::Error::from(io::ErrorKind::WouldBlock));
        }
        Ok(bytes.len())
    }

    fn poll_shut(&mut self, cx: &mut Context<'_>) -> Poll<io::Result<()>> {
        self.wait(cx)
    }
}

/// A link over a socket that is held up, and what holds it.
pub fn held_link(
    alloc: Global,
    takes: bool,
    fails: bool,
    is_stale: bool,
) -> Option<(SocketLink<Held>, Hold)> {
    let (hold, holder) = channel(alloc).ok()?;
    let held = Held {
        hold,
        takes,
        fails,
        is_stale,
    };
    Some((SocketLink::new(held), holder))
}
