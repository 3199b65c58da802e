//! A row of a listing, and what it holds.

ghost use Rattle.std.specs.Prelude.{◌≡◌, ◌≤◌, ◌↔◌, ◌==◌, ◌-◌, ◌++◌, length, replicate, slice_index, All, IsTrue};
ghost use Rattle.std.specs.Prelude.{IsSome, IfSome};
ghost use Rattle.pool_state.specs.AgentName.{IsAgentName};
ghost use Rattle.std.specs.Str.{bytes_eq};
ghost use Rattle.pool_state.specs.Parts.{is_phase, is_side, is_peer, is_other_peer};
ghost use Rattle.pool_state.specs.Table.{open_streams};
ghost use Rattle.pool_state.specs.Added.{fresh, settled, more_at, row_after};

use crate::call::{Call, Reply};
use peer_ids::PeerId;
use std::marker::Model;

/// The name that the software of a peer gives itself: 1 to 64 bytes, each a printable ASCII character. Contracts see
/// its bytes. The limits are this project's profile.
#[derive(Clone, Copy, Debug, PartialEq, Eq)]
pub struct Agent {
    bytes: [u8; 64],
    len: u8,
}

impl Model for Agent {
    ghost use Rattle.std.specs.Prelude.{List, ℕ};

    ghost Value = { List ℕ };

    ghost use Rattle.pool_state.specs.AgentName.{name_in, HoldsName, inside_of, inside_again};

    ghost view = { name_in };

    ghost invariant = { HoldsName };

    ghost inverse = { inside_of };

    ghost inverse_ok = { inside_again };
}

/// Which end dialed.
#[derive(Clone, Copy, Debug, Default, PartialEq, Eq)]
pub enum ConnSide {
    /// This end dialed.
    #[default]
    Dialer,
    /// The other end dialed.
    Listener,
}

/// How far a connection is.
#[derive(Clone, Copy, Debug, Default, PartialEq, Eq)]
pub enum Phase {
    /// Its peer isn't proven yet.
    #[default]
    Pending,
    /// Its peer is proven, and streams may be asked for.
    Live,
    /// It is to be ended.
    Closing,
}

/// What a listing shows of a connection. The default is a blank of the listing's table.
#[derive(Clone, Copy, Debug, Default, PartialEq, Eq)]
pub struct Row {
    /// The number of the connection.
    pub conn: u32,
    /// Which end dialed.
    pub role: ConnSide,
    /// How far it is.
    pub phase: Phase,
    /// The peer that is proven, or else expected.
    pub peer: Option<PeerId>,
    /// How many streams were asked for, by the index of the protocol.
    pub asked: [u64; 3],
    /// How many of them are done.
    pub done: [u64; 3],
    /// The agent that the peer has named.
    pub agent: Option<Agent>,
}

/// Each byte is a printable ASCII character.
fn are_printable(bytes: &[u8]) -> bool
    ensures { IsTrue result ↔ All (λ byte. (32 ≤ byte) × (byte ≤ 126)) bytes.now }
{
    bytes.iter().all(|byte| (0x20..=0x7e).contains(byte))
}

/// The bytes, with zeros behind them.
fn padded(bytes: &[u8]) -> [u8; 64]
    requires { length bytes.now ≤ 64 }
    ensures { result ≡ bytes.now ++ replicate (64 - length bytes.now) 0 }
{
    let mut padded = [0; 64];
    padded[..bytes.len()].copy_from_slice(bytes);
    padded
}

impl Agent {
    /// The agent of this name, where the bytes are 1 to 64 characters from the space (`20`) to the tilde (`7e`).
    pub fn from_bytes(bytes: &[u8]) -> Option<Agent>
        ensures name { IsSome result ↔ IsAgentName bytes.now }
        ensures value { IfSome result (λ agent. agent ≡ bytes.now) }
    {
        if bytes.is_empty() || bytes.len() > 64 || !are_printable(bytes) {
            return None;
        }
        Some(Agent {
            bytes: padded(bytes),
            len: bytes.len() as u8,
        })
    }

    /// The bytes of the name.
    pub fn as_bytes(&self) -> &[u8]
        ensures value { result.now ≡ self.now }
        ensures name { IsAgentName result.now }
    {
        &self.bytes[..self.len as usize]
    }
}

impl ConnSide {
    pub(crate) fn is(self, other: ConnSide) -> bool
        ensures { result ≡ is_side self other }
    {
        matches!(
            (self, other),
            (ConnSide::Dialer, ConnSide::Dialer) | (ConnSide::Listener, ConnSide::Listener)
        )
    }
}

impl Phase {
    pub(crate) fn is(self, other: Phase) -> bool
        ensures { result ≡ is_phase self other }
    {
        matches!(
            (self, other),
            (Phase::Pending, Phase::Pending)
                | (Phase::Live, Phase::Live)
                | (Phase::Closing, Phase::Closing)
        )
    }

    fn settled(self) -> Phase
        ensures { result ≡ settled self }
    {
        match self {
            Phase::Closing => Phase::Closing,
            Phase::Pending | Phase::Live => Phase::Live,
        }
    }
}

/// Both are one peer. The last byte is looked at first: the first ones are alike in most ids.
pub(crate) fn is_same(peer: &PeerId, other: &PeerId) -> bool
    ensures { result ≡ bytes_eq peer.now other.now }
{
    let (one, two) = (peer.as_bytes(), other.as_bytes());
    let last = one.len().saturating_sub(1);
    if last < one.len() && last < two.len() && one[last] != two[last] {
        return false;
    }
    one == two
}

fn one_more(counts: [u64; 3], index: u8) -> [u64; 3]
    ensures { result ≡ more_at counts index }
{
    let mut counts = counts;
    let index = index as usize;
    if index < counts.len() && counts[index] < u64::MAX {
        counts[index] += 1;
    }
    counts
}

impl Row {
    pub(crate) fn fresh(conn: u32, role: ConnSide, peer: Option<PeerId>) -> Row
        ensures { result ≡ fresh conn role peer }
    {
        Row {
            conn,
            role,
            phase: Phase::Pending,
            peer,
            asked: [0; 3],
            done: [0; 3],
            agent: None,
        }
    }

    pub(crate) fn is_of(&self, peer: &PeerId) -> bool
        ensures { result ≡ is_peer peer.now self.now.peer }
    {
        match &self.peer {
            Some(known) => is_same(known, peer),
            None => false,
        }
    }

    pub(crate) fn is_of_another(&self, peer: &PeerId) -> bool
        ensures { result ≡ is_other_peer peer.now self.now.peer }
    {
        match &self.peer {
            Some(known) => !is_same(known, peer),
            None => false,
        }
    }

    /// How many streams are asked for and not yet done.
    pub(crate) fn open_streams(&self) -> u128
        ensures { result ≡ open_streams self.now }
    {
        u128::from(self.asked[0].saturating_sub(self.done[0]))
            + u128::from(self.asked[1].saturating_sub(self.done[1]))
            + u128::from(self.asked[2].saturating_sub(self.done[2]))
    }

    /// As many streams of the protocol are done as were asked for.
    pub(crate) fn is_idle(&self, index: u8) -> bool
        ensures { result ≡ (slice_index self.now.asked index == slice_index self.now.done index) }
    {
        let index = index as usize;
        index >= 3 || self.asked[index] == self.done[index]
    }

    /// Follows one more call and its reply, in place.
    pub(crate) fn follow(&mut self, call: &Call, reply: &Reply)
        ensures { self.new ≡ row_after call.now reply.now self.old }
    {
        match (call, reply) {
            (Call::Settle(conn, peer), Reply::Done) if self.conn == *conn => {
                self.phase = self.phase.settled();
                self.peer = Some(*peer);
            }
            (Call::Ask(conn, index), Reply::Done) if self.conn == *conn => {
                self.asked = one_more(self.asked, *index);
            }
            (Call::Done(conn, index), Reply::Done) if self.conn == *conn => {
                self.done = one_more(self.done, *index);
            }
            (Call::Note(conn, agent), Reply::Done) if self.conn == *conn => {
                self.agent = Some(*agent);
            }
            (Call::HangUp(peer) | Call::Block(peer), Reply::Count(_)) if self.is_of(peer) => {
                self.phase = Phase::Closing;
            }
            (Call::Disallow(peer), Reply::Count(count)) if *count > 0 && self.is_of(peer) => {
                self.phase = Phase::Closing;
            }
            _ => {}
        }
    }
}
