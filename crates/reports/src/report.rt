//! Reports, and the ends that they tell of.

use conn_log::{ConnFault, ConnRefused};
use pool_state::Refusal;
use streams::Cause;

/// Why a connection ended.
#[derive(Clone, Copy, Debug, PartialEq, Eq)]
pub enum ConnEnd {
    /// Its socket can't be connected.
    NoConnection,
    /// The swarm refused its peer.
    Refused(Refusal),
    /// It failed.
    Fault(ConnFault),
    /// The other end shut it.
    Shut,
    /// More of its output waits than may: the other end doesn't take it.
    Untaken,
    /// This end closed it.
    Closed,
}

/// How a stream ended that was asked for.
#[derive(Clone, Copy, Debug, PartialEq, Eq)]
pub enum StreamEnd {
    /// It did what it was for.
    Done,
    /// The other end doesn't know the protocol.
    Refused,
    /// It was given up.
    Broken(Cause),
    /// It couldn't be opened.
    Unopened(ConnRefused),
}

/// What comes of a connection or a stream that the swarm asked for.
#[derive(Clone, Copy, Debug, PartialEq, Eq)]
pub enum Report {
    /// The connection of this number ended.
    Conn(u32, ConnEnd),
    /// On the connection of this number a stream of the protocol of this index ended.
    Stream(u32, u8, StreamEnd),
}
