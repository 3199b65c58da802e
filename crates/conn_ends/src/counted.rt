//! A link that counts its calls.

ghost use Rattle.std.specs.Prelude.{◌≡◌};

use conn_link::{Link, LinkFault};
use futures::task::{Context, Poll};
use std::alloc::Global;

/// A link, and what was asked of it.
#[derive(Drop)]
pub struct Counted<L: Link> {
    pub link: L,
    /// How many reads, writes and shuts.
    pub calls: u32,
    /// How many bytes each read gave, but those that failed or were pending; 0 at the end of the input.
    pub given: Vec<usize>,
}

impl<L: Link> Counted<L> {
    /// A link of which nothing was asked yet.
    pub fn new(alloc: Global, link: L) -> Counted<L>
        ensures { result.link ≡ link }
    {
        Counted {
            link,
            calls: 0,
            given: Vec::new(alloc),
        }
    }
}

impl<L: Link> Link for Counted<L> {
    ghost moves = { λ a given taken b. L.moves a.link given taken b.link };

    ghost calls = { λ a log b. L.calls a.link log b.link };

    ghost has_ended = { λ a. L.has_ended a.link };

    ghost is_shut = { λ a. L.is_shut a.link };

    ghost failed = { λ a. L.failed a.link };

    ghost reads_at = { λ a. L.reads_at a.link };

    ghost writes_at = { λ a. L.writes_at a.link };

    ghost shuts_at = { λ a. L.shuts_at a.link };

    ghost moves_nothing = { λ a. L.moves_nothing a.link };

    ghost moves_on = { λ a b c. L.moves_on a.link b.link c.link };

    ghost calls_none = { λ a. L.calls_none a.link };

    ghost calls_on = { λ a b c. L.calls_on a.link b.link c.link };

    ghost stays_ended = { λ a b. L.stays_ended a.link b.link };

    ghost stays_shut = { λ a b. L.stays_shut a.link b.link };

    fn poll_read(
        &mut self,
        cx: &mut Context<'_>,
        buffer: &mut [u8],
    ) -> Poll<Result<usize, LinkFault>> {
        self.calls = self.calls.saturating_add(1);
        let polled = self.link.poll_read(cx, buffer);
        if let Poll::Ready(Ok(count)) = &polled {
            note(&mut self.given, *count);
        }
        polled
    }

    fn poll_write(&mut self, cx: &mut Context<'_>, bytes: &[u8]) -> Poll<Result<usize, LinkFault>> {
        self.calls = self.calls.saturating_add(1);
        self.link.poll_write(cx, bytes)
    }

    fn poll_shut(&mut self, cx: &mut Context<'_>) -> Poll<Result<(), LinkFault>> {
        self.calls = self.calls.saturating_add(1);
        self.link.poll_shut(cx)
    }

    fn failures(&self) -> u64 {
        self.link.failures()
    }
}

/// Where memory is refused the note is lost.
fn note(given: &mut Vec<usize>, count: usize) {
    let _lost = given.push(count).is_err();
}
