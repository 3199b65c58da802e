//! The calls of a pool, and what they are answered.

ghost use Rattle.std.specs.Prelude.{◌≡◌};
ghost use Rattle.pool_state.specs.Table.{number_of};

use crate::row::Agent;
use peer_ids::PeerId;

/// A call of a pool.
#[derive(Clone, Copy, Debug, PartialEq, Eq)]
pub enum Call {
    /// Admits a connection that this end dials, to the peer that is expected, if one is.
    Dial(Option<PeerId>),
    /// Admits a connection that the other end dialed.
    Accept,
    /// The other end of the connection of this number has proven to be this peer.
    Settle(u32, PeerId),
    /// Asks for one more stream of a protocol, by its index from 0 to 2, on a connection.
    Ask(u32, u8),
    /// A stream that was asked for is over: the connection's number and the index of the protocol.
    Done(u32, u8),
    /// Closes the connections of a peer.
    HangUp(PeerId),
    /// Closes the connections of a peer and keeps it out, until it is unblocked.
    Block(PeerId),
    /// Lets a blocked peer in again.
    Unblock(PeerId),
    /// The connection of this number has ended.
    Gone(u32),
    /// Lets a peer in where only allowed peers may connect.
    Allow(PeerId),
    /// Takes the allowance of a peer away, and closes its connections where only allowed peers may connect.
    Disallow(PeerId),
    /// The peer of a connection has named its agent.
    Note(u32, Agent),
}

/// What a call is answered.
#[derive(Clone, Copy, Debug, PartialEq, Eq)]
pub enum Reply {
    /// A Dial or an Accept has admitted the connection of this number.
    Conn(u32),
    /// A Settle, Ask, Done, Gone or Note has counted.
    Done,
    /// How many connections a HangUp, a Block or a Disallow has begun to close; for an Unblock or an Allow 1 where it
    /// changed something, else 0.
    Count(u8),
    /// The call has changed nothing, but for the front, and that not where it is Spent or OutOfMemory.
    Refused(Refusal),
}

/// Why a call is refused. Where several refusals hold, the one with the lowest number is given. The list and its order
/// are this project's profile.
#[derive(Clone, Copy, Debug, PartialEq, Eq)]
pub enum Refusal {
    /// The front has reached `u64::MAX`: no further call enters the history.
    Spent = 1,
    /// A growth was refused. The pool takes no memory and never answers it; who shares a pool may.
    OutOfMemory = 2,
    /// No connection of this number stands.
    NoConn = 3,
    /// The connection is closing.
    Closing = 4,
    /// A Settle of a connection that is settled already.
    NotPending = 5,
    /// An Ask, a Done or a Note of a connection that isn't settled yet.
    NotLive = 6,
    /// The index of the protocol is above 2.
    BadProtocol = 7,
    /// The peer is this node itself.
    SelfPeer = 8,
    /// A Settle by another peer than the one that was dialed.
    Mismatch = 9,
    /// The peer is blocked.
    Blocked = 10,
    /// As many connections stand as the limits allow.
    Full = 11,
    /// As many other connections have this peer, expected or proven, as the limits allow for one peer.
    PeerFull = 12,
    /// As many streams are asked for and not yet done as the limits allow for one connection.
    StreamsFull = 13,
    /// A Done where each stream of this protocol that was asked for is done.
    NothingAsked = 14,
    /// A Block of a further peer where as many are blocked as the limits allow.
    BlockFull = 15,
    /// The next connection's number would pass `u32::MAX`.
    IdsExhausted = 16,
    /// As many connections of this side, dialed or accepted, stand as the limits allow.
    SideFull = 17,
    /// Only allowed peers may connect, and this one isn't allowed.
    NotAllowed = 18,
    /// An Allow of a further peer where as many are allowed as the limits allow.
    AllowFull = 19,
}

impl Refusal {
    /// The number of this refusal, from 1 to 19.
    pub fn number(self) -> u8
        ensures { result ≡ number_of self }
    {
        self as u8
    }
}
