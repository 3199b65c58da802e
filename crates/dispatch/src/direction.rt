//! Which end opened a stream.

/// Which end opened a stream.
#[derive(Clone, Copy, Debug, PartialEq, Eq)]
pub enum Direction {
    /// The other end, which asks for a protocol.
    Inbound,
    /// This end, which asks for a protocol.
    Outbound,
}
