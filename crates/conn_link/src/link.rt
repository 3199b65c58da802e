//! What a connection stands on.

ghost use Rattle.std.specs.Prelude.{◌≡◌, ◌≤◌, ◌⊎◌, ℕ, true, List, [], ◌∷◌, length, Ok};
ghost use Rattle.futures.specs.Poll.{OnPending};
ghost use Rattle.futures.specs.Task.{Covers, Keeps};
ghost use Rattle.conn_link.specs.Moving.{count_moved, bytes_moved, counted, found_end, OnSuccess, Within};
ghost use Rattle.conn_link.specs.Moving.{MovesNothing, MovesOn, StaysEnded, StaysShut};
ghost use Rattle.conn_link.specs.Calling.{Call, CallsNone, CallsOn, call_of, shut_answer};
ghost use Rattle.conn_link.specs.Calling.Kind.{Reads, Writes, Shuts};

use futures::task::{Context, Poll};
use thiserror::Error;

/// A call of a link failed.
#[derive(Clone, Copy, Debug, PartialEq, Eq, Error)]
#[error("the link failed")]
pub struct LinkFault;

/// A stream of bytes to another end and back, polled by hand.
///
/// No call has a condition. Of any two states an owner learns from `moves` which bytes the link gave and took between
/// them, from `calls` which calls were made, and from `failed` whether a call failed. A call that is pending has asked
/// for another poll, or has registered at each source that it waits for.
pub trait Link: Drop {
    /// From the first state to the second the link gave the first bytes, and took the second.
    ghost moves: { Self → List ℕ → List ℕ → Self → Type 0 };

    /// From the first state to the second these calls were made, in order.
    ghost calls: { Self → List Call → Self → Type 0 };

    /// A read found the end of the input.
    ghost has_ended: { Self → Type 0 };

    /// The other end may have been told that no more bytes come.
    ghost is_shut: { Self → Type 0 };

    /// How many calls have failed.
    ghost failed: { Self → ℕ };

    /// Each source at which a pending read waits.
    ghost reads_at: { Self → ℕ → Type 0 };

    /// Each source at which a pending write waits.
    ghost writes_at: { Self → ℕ → Type 0 };

    /// Each source at which shutting waits.
    ghost shuts_at: { Self → ℕ → Type 0 };

    /// Reads bytes to the front of the buffer, and answers how many. None, where the buffer isn't empty, is the end.
    fn poll_read(
        &mut self,
        cx: &mut Context<'_>,
        buffer: &mut [u8],
    ) -> Poll<Result<usize, LinkFault>>
        ensures bound { count_moved result ≤ length buffer.new }
        ensures moved { moves self.old (bytes_moved result buffer.new) [] self.new }
        ensures called { calls self.old (call_of Reads (length buffer.old) result cx.old cx.new ∷ []) self.new }
        ensures end { found_end (length buffer.old) result ≡ true → has_ended self.new }
        // Nothing else is the end.
        ensures found { has_ended self.new → has_ended self.old ⊎ (found_end (length buffer.old) result ≡ true) }
        ensures not_shut { is_shut self.new → is_shut self.old }
        ensures failures { failed self.new ≡ counted (failed self.old) result }
        ensures registered { OnPending result (Covers cx.new (reads_at self.new)) }
        ensures elsewhere { Within (writes_at self.new) (writes_at self.old) }
        ensures kept { Keeps cx.old cx.new };

    /// Writes bytes from the front of these, and answers how many.
    fn poll_write(&mut self, cx: &mut Context<'_>, bytes: &[u8]) -> Poll<Result<usize, LinkFault>>
        ensures bound { count_moved result ≤ length bytes.now }
        ensures moved { moves self.old [] (bytes_moved result bytes.now) self.new }
        ensures called { calls self.old (call_of Writes (length bytes.now) result cx.old cx.new ∷ []) self.new }
        ensures not_found { has_ended self.new → has_ended self.old }
        ensures not_shut { is_shut self.new → is_shut self.old }
        ensures failures { failed self.new ≡ counted (failed self.old) result }
        ensures registered { OnPending result (Covers cx.new (writes_at self.new)) }
        ensures elsewhere { Within (reads_at self.new) (reads_at self.old) }
        ensures kept { Keeps cx.old cx.new };

    /// Tells the other end that no more bytes come.
    fn poll_shut(&mut self, cx: &mut Context<'_>) -> Poll<Result<(), LinkFault>>
        ensures moved { moves self.old [] [] self.new }
        ensures called { calls self.old (call_of Shuts 0 (shut_answer result) cx.old cx.new ∷ []) self.new }
        ensures shut { OnSuccess result (is_shut self.new) }
        ensures not_found { has_ended self.new → has_ended self.old }
        ensures failures { failed self.new ≡ counted (failed self.old) result }
        ensures registered { OnPending result (Covers cx.new (shuts_at self.new)) }
        ensures kept { Keeps cx.old cx.new };

    /// How many calls have failed; a count that is full stays.
    fn failures(&self) -> u64
        ensures { result ≡ failed self.now };

    ghost moves_nothing: { MovesNothing moves };

    ghost moves_on: { MovesOn moves };

    ghost calls_none: { CallsNone calls };

    ghost calls_on: { CallsOn calls };

    ghost stays_ended: { StaysEnded moves has_ended };

    ghost stays_shut: { StaysShut moves is_shut };
}

/// Whether a read into so much room that moved so many bytes found the end of the input.
pub fn finds_end(room: usize, count: usize) -> bool
    ensures { result ≡ found_end room (Poll.Ready (Ok count)) }
{
    room != 0 && count == 0
}
