//! What a session tells, and why it refuses.

use bytes::Bytes;
use thiserror::Error;

/// Which end of the connection this is.
#[derive(Clone, Copy, Debug, PartialEq, Eq)]
pub enum Role {
    /// The end that dialed: its streams have odd numbers.
    Client,
    /// The end that was dialed: its streams have even numbers, from 2.
    Server,
}

/// Why a session ended.
#[derive(Clone, Copy, Debug, PartialEq, Eq, Hash, Error)]
pub enum Fault {
    /// Twelve bytes are no header: the version isn't 0, or the type is above 3.
    #[error("a frame has no header")]
    BadFrame = 1,
    /// A SYN for stream 0, or for one with a number of this end.
    #[error("a stream was opened with a number of the wrong end")]
    WrongParity,
    /// A SYN for a live stream.
    #[error("a live stream was opened again")]
    DuplicateStream,
    /// Data longer than the receiving window of its stream. It is told at the header.
    #[error("data is longer than the window of its stream")]
    WindowExceeded,
    /// A WindowUpdate that lifts the credit of this end past 2^32 - 1.
    #[error("the credit of a stream is above 2^32 - 1")]
    WindowTooLarge,
}

/// What the other end did. Streams are named by their numbers.
#[derive(Debug, Drop)]
pub enum Event {
    /// It opened this stream.
    Opened(u32),
    /// It accepted this stream of ours. It may never: a peer need not send ACK for a stream that it ends at once.
    Accepted(u32),
    /// Data of this stream came, one byte at least. It is a slice of what was fed, and keeps the whole piece alive.
    Payload(u32, Bytes),
    /// Its direction of this stream has ended.
    Ended(u32),
    /// It ended both directions of this stream. A RST with a length gives credit first, which is told as of any
    /// WindowUpdate.
    Reset(u32),
    /// It gave more credit for this stream.
    Credit(u32),
    /// It goes away, with this code: it takes no more streams.
    GoAway(u32),
    /// It broke the rules. This is the last event of a session.
    Fault(Fault),
}

/// Why an act was refused.
#[derive(Clone, Copy, Debug, PartialEq, Eq, Hash, Error)]
pub enum ActRefused {
    /// The session has ended with a fault, or ran out of memory in `feed`.
    #[error("the session has failed")]
    Failed = 1,
    /// The stream isn't live.
    #[error("the stream isn't live")]
    NoStream,
    /// This end's direction of the stream is closed.
    #[error("this end's direction of the stream is closed")]
    Ended,
    /// The other end takes no more streams.
    #[error("the other end takes no more streams")]
    GoneAway,
    /// There is no number left for a stream of this end.
    #[error("there is no number left for a stream")]
    StreamsExhausted,
    /// 256 streams of this end are live.
    #[error("256 streams of this end are live")]
    StreamsFull,
    /// A growth was refused.
    #[error("a growth was refused")]
    OutOfMemory,
}
