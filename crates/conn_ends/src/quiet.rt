//! A link that gives some bytes, and then waits for ever.

ghost use Rattle.std.specs.Prelude.{◌≡◌, ⊤};

use conn_link::{Link, LinkFault};
use futures::task::{Context, Poll, Source, Waker};

/// A link whose reads give these bytes, one by one, and then wait for ever at a source. Its writes wait too, or take
/// all that they are offered.
#[derive(Drop)]
pub struct Quiet {
    first: Vec<u8>,
    given: usize,
    source: Source,
    reading: Option<Waker>,
    writing: Option<Waker>,
    takes: bool,
}

impl Quiet {
    /// A link that was asked for nothing yet.
    pub fn new(takes: bool, first: Vec<u8>) -> Quiet {
        Quiet {
            first,
            given: 0,
            source: Source::new(),
            reading: None,
            writing: None,
            takes,
        }
    }
}

impl Link for Quiet {
    ghost moves = { λ _ _ _ _. ⊤ };

    ghost calls = { λ _ _ _. ⊤ };

    ghost has_ended = { λ _. ⊥ };

    ghost is_shut = { λ _. ⊤ };

    ghost failed = { λ _. 0 };

    ghost reads_at = { λ link source. source ≡ link.source.id };

    ghost writes_at = { λ link source. source ≡ link.source.id };

    ghost shuts_at = { λ _ _. ⊥ };

    ghost moves_nothing = { λ _. tt };

    ghost moves_on = { λ _ _ _ _ _ _ _ _ _. tt };

    ghost calls_none = { λ _. tt };

    ghost calls_on = { λ _ _ _ _ _ _ _. tt };

    ghost stays_ended = { λ _ _ _ _ _ ended. absurd ended };

    ghost stays_shut = { λ _ _ _ _ _ is. is };

    fn poll_read(
        &mut self,
        cx: &mut Context<'_>,
        buffer: &mut [u8],
    ) -> Poll<Result<usize, LinkFault>> {
        if let Some(byte) = self.first.get(self.given).copied() {
            if let Some(place) = buffer.get_mut(0) {
                *place = byte;
                self.given = self.given.saturating_add(1);
                return Poll::Ready(Ok(1));
            }
        }
        cx.register(&self.source, &mut self.reading)
    }

    fn poll_write(&mut self, cx: &mut Context<'_>, bytes: &[u8]) -> Poll<Result<usize, LinkFault>> {
        if self.takes {
            Poll::Ready(Ok(bytes.len()))
        } else {
            cx.register(&self.source, &mut self.writing)
        }
    }

    fn poll_shut(&mut self, _cx: &mut Context<'_>) -> Poll<Result<(), LinkFault>> {
        Poll::Ready(Ok(()))
    }

    fn failures(&self) -> u64 {
        0
    }
}
