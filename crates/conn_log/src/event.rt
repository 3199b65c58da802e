//! What a connection tells.

use plaintext_x::Proven;
use streams::Cause;
use thiserror::Error;

/// Why a connection failed. `fault as u8` is its number.
#[derive(Clone, Copy, Debug, PartialEq, Eq, Hash, Error)]
pub enum ConnFault {
    /// One of both talks of the upgrade was broken off.
    #[error("no protocol of the connection is settled")]
    Select = 1,
    /// The other end knows no protocol that was asked for in the upgrade.
    #[error("the other end does not know the protocol")]
    NoneLeft,
    /// The exchange of keys was broken off.
    #[error("no key is proven")]
    Exchange,
    /// The other end broke the rules of the session.
    #[error("the other end broke the rules of the session")]
    Mux,
    /// The link failed.
    #[error("the link failed")]
    Link,
    /// The input ended within the upgrade, or within a frame.
    #[error("the input ended early")]
    EarlyEnd,
    /// A growth was refused.
    #[error("out of memory")]
    OutOfMemory,
}

/// What a connection tells. Streams are named by their numbers.
#[derive(Drop)]
pub enum ConnEvent<H> {
    /// It is up: this is the other end's key.
    Upgraded(Proven),
    /// Both ends agree on the protocol of this index for this stream.
    Agreed(u32, usize),
    /// The other end doesn't know the protocol that was asked for on this stream.
    Refused(u32),
    /// The handler of this stream is finished, and handed out.
    Done(u32, H),
    /// This stream is given up: its handler was dropped.
    Broken(u32, Cause),
    /// The connection failed. It tells nothing more.
    Fault(ConnFault),
    /// The other end has shut the connection, between two frames. It tells nothing more.
    Shut,
}

/// Why a call of a connection is refused. `refused as u8` is its number; where several hold, the lowest is answered.
#[derive(Clone, Copy, Debug, PartialEq, Eq, Hash, Error)]
pub enum ConnRefused {
    /// The connection has failed or was shut.
    #[error("the connection is over")]
    Failed = 1,
    /// The connection isn't up yet.
    #[error("the connection is not up yet")]
    NotUp,
    /// There is no protocol of this index.
    #[error("there is no such protocol")]
    BadIndex,
    /// The other end goes away, and lets no stream be opened.
    #[error("the other end goes away")]
    GoneAway,
    /// All numbers of this end's streams were used.
    #[error("no number of a stream is left")]
    StreamsExhausted,
    /// As many streams of this end are live as may be.
    #[error("as many streams are live as may be")]
    StreamsFull,
    /// A growth was refused.
    #[error("out of memory")]
    OutOfMemory,
}
