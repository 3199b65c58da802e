//! A stream of an earlier opening of its number.

use handlers::Handler;
use streams::Stream;

/// A stream of an earlier opening of its number, whose handler is held still: it never finished.
#[derive(Drop)]
pub struct Earlier<H: Handler> {
    /// The number of the stream.
    pub number: u32,
    /// The stream.
    pub stream: Stream<H>,
}
