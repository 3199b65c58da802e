//! What a link over a socket stands on.

ghost use Rattle.std.specs.Prelude.{◌≡◌, ◌≤◌, ℕ, List, [], ◌∷◌, length, ⊤};
ghost use Rattle.futures.specs.Poll.{OnPending};
ghost use Rattle.futures.specs.Task.{Covers, Keeps};
ghost use Rattle.tokio.specs.Net.{stream_readable, stream_writable};
ghost use Rattle.tokio.specs.Io.Moved.{OnReadyOk};
ghost use Rattle.conn_link.specs.Moving.{MovesNothing, MovesOn, StaysShut};
ghost use Rattle.conn_link.specs.Calling.{asks_between};
ghost use Rattle.socket_link.specs.Tries.{count_tried, bytes_tried};
ghost use Rattle.socket_link.specs.Steps.{Step, StepsNone, StepsOn};
ghost use Rattle.socket_link.specs.Steps.Side.{Reading, Writing};
ghost use Rattle.socket_link.specs.Steps.Step.{Asked, Tried, Shut};

use futures::task::{Context, Poll};
use std::io;
use tokio::io::AsyncWrite;
use tokio::net::TcpStream;

/// A stream of bytes to another end and back that says when a try is worth a call.
pub trait Socket: Drop {
    /// From the first state to the second it gave the first bytes, and took the second.
    ghost moves: { Self → List ℕ → List ℕ → Self → Type 0 };

    /// From the first state to the second these calls were made, in order.
    ghost steps: { Self → List Step → Self → Type 0 };

    /// The other end may have been told that no more bytes come.
    ghost is_shut: { Self → Type 0 };

    /// The source at which one waits to read.
    ghost reads_at: { Self → ℕ };

    /// The source at which one waits to write.
    ghost writes_at: { Self → ℕ };

    /// Ready once a read is worth a try.
    fn poll_readable(&mut self, cx: &mut Context<'_>) -> Poll<io::Result<()>>
        ensures moved { moves self.old [] [] self.new }
        ensures stepped { steps self.old (Asked Reading result (asks_between cx.old cx.new) ∷ []) self.new }
        ensures not_shut { is_shut self.new → is_shut self.old }
        ensures sources { (reads_at self.new ≡ reads_at self.old) × (writes_at self.new ≡ writes_at self.old) }
        ensures registered { OnPending result (Covers cx.new (λ source. source ≡ reads_at self.new)) }
        ensures kept { Keeps cx.old cx.new };

    /// Ready once a write is worth a try.
    fn poll_writable(&mut self, cx: &mut Context<'_>) -> Poll<io::Result<()>>
        ensures moved { moves self.old [] [] self.new }
        ensures stepped { steps self.old (Asked Writing result (asks_between cx.old cx.new) ∷ []) self.new }
        ensures not_shut { is_shut self.new → is_shut self.old }
        ensures sources { (reads_at self.new ≡ reads_at self.old) × (writes_at self.new ≡ writes_at self.old) }
        ensures registered { OnPending result (Covers cx.new (λ source. source ≡ writes_at self.new)) }
        ensures kept { Keeps cx.old cx.new };

    /// Reads to the front of the buffer, and answers how many bytes; `WouldBlock` where there are none yet.
    fn try_read(&mut self, buffer: &mut [u8]) -> io::Result<usize>
        ensures bound { count_tried result ≤ length buffer.new }
        ensures moved { moves self.old (bytes_tried result buffer.new) [] self.new }
        ensures stepped { steps self.old (Tried Reading (length buffer.old) result ∷ []) self.new }
        ensures not_shut { is_shut self.new → is_shut self.old }
        ensures sources { (reads_at self.new ≡ reads_at self.old) × (writes_at self.new ≡ writes_at self.old) };

    /// Writes bytes from the front of these, and answers how many; `WouldBlock` where it takes none yet.
    fn try_write(&mut self, bytes: &[u8]) -> io::Result<usize>
        ensures bound { count_tried result ≤ length bytes.now }
        ensures moved { moves self.old [] (bytes_tried result bytes.now) self.new }
        ensures stepped { steps self.old (Tried Writing (length bytes.now) result ∷ []) self.new }
        ensures not_shut { is_shut self.new → is_shut self.old }
        ensures sources { (reads_at self.new ≡ reads_at self.old) × (writes_at self.new ≡ writes_at self.old) };

    /// Tells the other end that no more bytes come.
    fn poll_shut(&mut self, cx: &mut Context<'_>) -> Poll<io::Result<()>>
        ensures moved { moves self.old [] [] self.new }
        ensures stepped { steps self.old (Shut result (asks_between cx.old cx.new) ∷ []) self.new }
        ensures shut { OnReadyOk result (is_shut self.new) }
        ensures registered { OnPending result (Covers cx.new (λ source. source ≡ writes_at self.new)) }
        ensures kept { Keeps cx.old cx.new };

    ghost moves_nothing: { MovesNothing moves };

    ghost moves_on: { MovesOn moves };

    ghost steps_none: { StepsNone steps };

    ghost steps_on: { StepsOn steps };

    ghost stays_shut: { StaysShut moves is_shut };
}

/// Nothing is known of its bytes, nor of its calls.
impl Socket for TcpStream {
    ghost moves = { λ _ _ _ _. ⊤ };

    ghost steps = { λ _ _ _. ⊤ };

    ghost is_shut = { λ _. ⊤ };

    ghost reads_at = { stream_readable };

    ghost writes_at = { stream_writable };

    ghost moves_nothing = { λ _. tt };

    ghost moves_on = { λ _ _ _ _ _ _ _ _ _. tt };

    ghost steps_none = { λ _. tt };

    ghost steps_on = { λ _ _ _ _ _ _ _. tt };

    ghost stays_shut = { λ _ _ _ _ _ is. is };

    fn poll_readable(&mut self, cx: &mut Context<'_>) -> Poll<io::Result<()>> {
        self.poll_read_ready(cx)
    }

    fn poll_writable(&mut self, cx: &mut Context<'_>) -> Poll<io::Result<()>> {
        self.poll_write_ready(cx)
    }

    fn try_read(&mut self, buffer: &mut [u8]) -> io::Result<usize> {
        TcpStream::try_read(self, buffer)
    }

    fn try_write(&mut self, bytes: &[u8]) -> io::Result<usize> {
        TcpStream::try_write(self, bytes)
    }

    fn poll_shut(&mut self, cx: &mut Context<'_>) -> Poll<io::Result<()>> {
        self.poll_shutdown(cx)
    }
}
