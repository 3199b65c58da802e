//! The rows: what comes to an end and what is asked of it, and what it answers.

use conn_core::ConnAct;
use conn_log::ConnRefused;
use std::alloc::{AllocError, Global};
use upgrade::ConnRole;

/// A row.
#[derive(Clone, Copy, Debug, PartialEq, Eq)]
pub enum Row {
    /// The other end pings, and ends.
    ServesAPing,
    /// This end pings, and the other end says that it knows no such protocol.
    IsRefused,
    /// This end pings, and the pong comes back.
    Pings,
    /// The other end asks what this node is.
    IsAsked,
    /// The other end pings, then this one, and neither ends.
    Holds,
    /// The other end says nothing but the header on a stream, and ends it.
    EndsInTalk,
}

/// All rows.
pub const ROWS: [Row; 6] = [
    Row::ServesAPing,
    Row::IsRefused,
    Row::Pings,
    Row::IsAsked,
    Row::Holds,
    Row::EndsInTalk,
];

/// What is told, by its kind, or answered.
#[derive(Clone, Copy, Debug, PartialEq, Eq)]
pub enum Said {
    Upgraded,
    Agreed(u32, usize),
    Done(u32),
    Refused(u32),
    Broken(u32),
    /// Broken by its end within the talk.
    EndedInTalk(u32),
    Fault,
    Shut,
    Stream(u32),
    Not(ConnRefused),
}

/// The message of a key (Secp256k1, of one byte), which both ends have here.
pub const KEY: &[u8] = b"\x08\x02\x12\x01\x05";

/// What each end sends until the connection is up.
pub const UPGRADE: &[u8] = b"\x13/multistream/1.0.0\n\x11/plaintext/2.0.0\n\
    \x10\x0a\x07\0\x05\x08\x02\x12\x01\x05\x12\x05\x08\x02\x12\x01\x05\x13/multistream/1.0.0\n\x0d/yamux/1.0.0\n";

/// SYN of stream 1, and the header and the name of ping on it.
const OPENS: &[u8] = b"\0\x01\0\x01\0\0\0\x01\0\0\0\0\0\0\0\0\0\0\0\x01\0\0\0\x26\
    \x13/multistream/1.0.0\n\x11/ipfs/ping/1.0.0\n";

/// SYN of stream 1, and the header on it.
const BEGINS: &[u8] =
    b"\0\x01\0\x01\0\0\0\x01\0\0\0\0\0\0\0\0\0\0\0\x01\0\0\0\x14\x13/multistream/1.0.0\n";

/// The same of identify.
const ASKS_WHO: &[u8] = b"\0\x01\0\x01\0\0\0\x01\0\0\0\0\0\0\0\0\0\0\0\x01\0\0\0\x24\
    \x13/multistream/1.0.0\n\x0f/ipfs/id/1.0.0\n";

/// SYN of stream 2, and the header and the name of ping on it.
const OPENS_ANOTHER: &[u8] = b"\0\x01\0\x01\0\0\0\x02\0\0\0\0\0\0\0\0\0\0\0\x02\0\0\0\x26\
    \x13/multistream/1.0.0\n\x11/ipfs/ping/1.0.0\n";

/// 32 bytes of data of stream 1.
const ROUND: &[u8] = b"\0\0\0\0\0\0\0\x01\0\0\0\x20\
    \x07\x07\x07\x07\x07\x07\x07\x07\x07\x07\x07\x07\x07\x07\x07\x07\
    \x07\x07\x07\x07\x07\x07\x07\x07\x07\x07\x07\x07\x07\x07\x07\x07";

/// FIN of stream 1.
const ENDS: &[u8] = b"\0\x01\0\x04\0\0\0\x01\0\0\0\0";

/// The header and `na` on stream 1.
const NOT_AVAILABLE: &[u8] = b"\0\0\0\0\0\0\0\x01\0\0\0\x18\x13/multistream/1.0.0\n\x03na\n";

/// The header and the name of ping on stream 1.
const AGREES: &[u8] = b"\0\0\0\0\0\0\0\x01\0\0\0\x26\x13/multistream/1.0.0\n\x11/ipfs/ping/1.0.0\n";

/// ACK of stream 1.
const ACKNOWLEDGES: &[u8] = b"\0\x01\0\x02\0\0\0\x01\0\0\0\0";

/// The header on stream 1.
const GREETS: &[u8] = b"\0\0\0\0\0\0\0\x01\0\0\0\x14\x13/multistream/1.0.0\n";

/// The name of ping on stream 1.
const NAMES_PING: &[u8] = b"\0\0\0\0\0\0\0\x01\0\0\0\x12\x11/ipfs/ping/1.0.0\n";

/// RST of stream 1.
pub const RESETS: &[u8] = b"\0\x01\0\x08\0\0\0\x01\0\0\0\0";

/// SYN of stream 1, and on it the header, the name of ping, and a ping before any answer.
const PINGS: &[u8] = b"\0\x01\0\x01\0\0\0\x01\0\0\0\0\0\0\0\0\0\0\0\x01\0\0\0\x46\
    \x13/multistream/1.0.0\n\x11/ipfs/ping/1.0.0\n\
    \x07\x07\x07\x07\x07\x07\x07\x07\x07\x07\x07\x07\x07\x07\x07\x07\
    \x07\x07\x07\x07\x07\x07\x07\x07\x07\x07\x07\x07\x07\x07\x07\x07";

/// The name of identify on stream 1, and behind its length the message: the key, the names, the version and the agent.
const SAYS_WHO: &[u8] = b"\0\0\0\0\0\0\0\x01\0\0\0\x67\x0f/ipfs/id/1.0.0\n\x56\
    \x0a\x05\x08\x02\x12\x01\x05\x1a\x0e/ipfs/id/1.0.0\x1a\x13/ipfs/id/push/1.0.0\x1a\x10/ipfs/ping/1.0.0\
    \x2a\x0anode/1.0.0\x32\x0anode/0.1.0";

/// ACK of stream 2, and on it the header and the name of ping.
const AGREES_ON_ANOTHER: &[u8] = b"\0\x01\0\x02\0\0\0\x02\0\0\0\0\0\0\0\0\0\0\0\x02\0\0\0\x14\
    \x13/multistream/1.0.0\n\0\0\0\0\0\0\0\x02\0\0\0\x12\x11/ipfs/ping/1.0.0\n";

impl Said {
    /// Whether it is said of a stream.
    pub fn names_a_stream(self) -> bool {
        !matches!(
            self,
            Said::Upgraded | Said::Fault | Said::Shut | Said::Not(_)
        )
    }
}

impl Row {
    /// What the row is called.
    pub fn name(self) -> &'static str {
        match self {
            Row::ServesAPing => "serves a ping",
            Row::IsRefused => "is refused",
            Row::Pings => "pings",
            Row::IsAsked => "is asked",
            Row::Holds => "holds",
            Row::EndsInTalk => "ends in its talk",
        }
    }

    /// Which end is played.
    pub fn role(self) -> ConnRole {
        match self {
            Row::ServesAPing | Row::IsAsked | Row::EndsInTalk => ConnRole::Listener,
            Row::IsRefused | Row::Pings | Row::Holds => ConnRole::Dialer,
        }
    }

    /// What is answered: what is told by each call in turn, or what it answers.
    pub fn said(self) -> &'static [Said] {
        match self {
            Row::ServesAPing => &[
                Said::Upgraded,
                Said::Agreed(1, 2),
                Said::Done(1),
                Said::Shut,
                Said::Not(ConnRefused::Failed),
            ],
            Row::IsRefused => &[
                Said::Not(ConnRefused::NotUp),
                Said::Upgraded,
                Said::Not(ConnRefused::BadIndex),
                Said::Stream(1),
                Said::Refused(1),
            ],
            Row::Pings => &[
                Said::Upgraded,
                Said::Stream(1),
                Said::Agreed(1, 2),
                Said::Done(1),
                Said::Shut,
            ],
            Row::IsAsked => &[
                Said::Upgraded,
                Said::Agreed(1, 0),
                Said::Done(1),
                Said::Shut,
            ],
            Row::Holds => &[
                Said::Upgraded,
                Said::Agreed(2, 2),
                Said::Stream(1),
                Said::Agreed(1, 2),
            ],
            Row::EndsInTalk => &[Said::Upgraded, Said::EndedInTalk(1), Said::Shut],
        }
    }

    /// All output, in parts.
    pub fn output(self) -> &'static [&'static [u8]] {
        match self {
            Row::ServesAPing => &[UPGRADE, ACKNOWLEDGES, GREETS, NAMES_PING, ROUND, ENDS],
            Row::IsRefused => &[UPGRADE, PINGS, RESETS],
            Row::Pings => &[UPGRADE, PINGS, ENDS],
            Row::IsAsked => &[UPGRADE, ACKNOWLEDGES, GREETS, SAYS_WHO, ENDS],
            Row::Holds => &[UPGRADE, AGREES_ON_ANOTHER, PINGS],
            Row::EndsInTalk => &[UPGRADE, ACKNOWLEDGES, GREETS, RESETS],
        }
    }

    /// The streams whose handlers are held at the end, that of the handler that was made first in front.
    pub fn held(self) -> &'static [u32] {
        match self {
            Row::Holds => &[2, 1],
            _ => &[],
        }
    }

    /// The pieces of data that come, and the calls.
    pub fn acts(self, alloc: Global) -> Result<Vec<ConnAct>, AllocError> {
        let mut acts = Vec::new(alloc);
        if self == Row::IsRefused {
            acts.push(ConnAct::Ask(2))?;
        }
        feed(&mut acts, alloc, UPGRADE)?;
        match self {
            Row::ServesAPing => serve_a_ping(&mut acts, alloc)?,
            Row::IsRefused => be_refused(&mut acts, alloc)?,
            Row::Pings => ping(&mut acts, alloc)?,
            Row::IsAsked => be_asked(&mut acts, alloc)?,
            Row::Holds => hold(&mut acts, alloc)?,
            Row::EndsInTalk => end_in_talk(&mut acts, alloc)?,
        }
        Ok(acts)
    }
}

fn feed(acts: &mut Vec<ConnAct>, alloc: Global, bytes: &[u8]) -> Result<(), AllocError> {
    let piece = Vec::from_slice(alloc, bytes)?;
    match acts.push(ConnAct::Feed(piece)) {
        Ok(()) => Ok(()),
        Err(_) => Err(AllocError),
    }
}

fn push(acts: &mut Vec<ConnAct>, act: ConnAct) -> Result<(), AllocError> {
    match acts.push(act) {
        Ok(()) => Ok(()),
        Err(_) => Err(AllocError),
    }
}

fn serve_a_ping(acts: &mut Vec<ConnAct>, alloc: Global) -> Result<(), AllocError> {
    feed(acts, alloc, OPENS)?;
    feed(acts, alloc, ROUND)?;
    feed(acts, alloc, ENDS)?;
    push(acts, ConnAct::Ended)?;
    push(acts, ConnAct::Ended)
}

fn be_refused(acts: &mut Vec<ConnAct>, alloc: Global) -> Result<(), AllocError> {
    push(acts, ConnAct::Ask(3))?;
    push(acts, ConnAct::Ask(2))?;
    feed(acts, alloc, NOT_AVAILABLE)
}

fn ping(acts: &mut Vec<ConnAct>, alloc: Global) -> Result<(), AllocError> {
    push(acts, ConnAct::Ask(2))?;
    feed(acts, alloc, AGREES)?;
    feed(acts, alloc, ROUND)?;
    feed(acts, alloc, ENDS)?;
    push(acts, ConnAct::Ended)
}

fn be_asked(acts: &mut Vec<ConnAct>, alloc: Global) -> Result<(), AllocError> {
    feed(acts, alloc, ASKS_WHO)?;
    push(acts, ConnAct::Ended)
}

fn hold(acts: &mut Vec<ConnAct>, alloc: Global) -> Result<(), AllocError> {
    feed(acts, alloc, OPENS_ANOTHER)?;
    push(acts, ConnAct::Ask(2))?;
    feed(acts, alloc, AGREES)
}

fn end_in_talk(acts: &mut Vec<ConnAct>, alloc: Global) -> Result<(), AllocError> {
    feed(acts, alloc, BEGINS)?;
    feed(acts, alloc, ENDS)?;
    push(acts, ConnAct::Ended)
}
