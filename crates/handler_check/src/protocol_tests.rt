//! A node's protocols, each driven once against those of another node.

ghost use Rattle.std.specs.Prelude.{◌<◌, length};

use crate::asserts::holds;
use crate::said::*;
use handlers::{Handler, HandlerFault, Protocols};
use identify_h::{Identify, IdentifyFault};
use node_protocols::*;
use peer_ids::{KeyType, PeerId, PublicKey};
use std::alloc::{AllocError, Global};
use std::test::*;

/// What its pings send.
const PAYLOAD: [u8; 32] = [
    7, 1, 2, 3, 4, 5, 6, 7, 8, 9, 10, 11, 12, 13, 14, 15, 16, 17, 18, 19, 20, 21, 22, 23, 24, 25,
    26, 27, 28, 29, 30, 255,
];

type Node = NodeProtocols<FixedPayload>;

fn node(alloc: Global) -> Result<Node, IdentifyFault> {
    let key = PublicKey::ed25519(alloc, &[7; 32])?;
    NodeProtocols::new(alloc, key, "node/0.1.0", FixedPayload { payload: PAYLOAD })
}

fn peer() -> PeerId {
    PeerId::of_ed25519(&[7; 32])
}

// ---- handlers

/// Makes the handler of a stream that this end opened, or of one that the other end opened.
fn made<P: Protocols>(protocols: &mut P, index: usize, inbound: bool, peer: PeerId) -> Option<P::H>
    requires { index < length (P.listed protocols.old) }
{
    let handler = if inbound {
        protocols.inbound(index, peer)
    } else {
        protocols.outbound(index, peer)
    };
    handler.ok()
}

/// Whether bytes are given by the one for this room, and taken by the other.
fn carries<H: Handler>(from: &mut H, to: &mut H, room: usize) -> bool {
    match from.give(room) {
        Ok(bytes) => !bytes.is_empty() && to.take(&bytes) == Ok(()),
        Err(_) => false,
    }
}

// ---- what a node says

/// What a node says whose key is this, and whose agent is made of these parts.
fn saying<'a>(key: (KeyType, usize), agent: Parts<'a>) -> Said<'a> {
    Said {
        key: Some(key),
        protocols: &[
            (1, b"/ipfs/id/1.0.0"),
            (1, b"/ipfs/id/push/1.0.0"),
            (1, b"/ipfs/ping/1.0.0"),
        ],
        version: Some(&[(1, b"node/1.0.0")]),
        agent: Some(agent),
        ..NOTHING
    }
}

fn has_read(reader: NodeHandler, message: &Identify) -> bool {
    lent(reader.into_message().ok(), |read| is_same(read, message))
}

/// Whether all that is sent is given for this room, and says this to the other end.
fn reads(sender: &mut NodeHandler, reader: NodeHandler, room: usize, message: &Identify) -> bool {
    let mut reader = reader;
    let is_read = carries(sender, &mut reader, room) && reader.end() == Ok(());
    let is_over = sender.finished() && reader.finished();
    has_read(reader, message) && is_read && is_over
}

/// Whether the end that reads identify, or the push, reads of what the other sends what the node says.
fn is_heard(
    node: &mut Node,
    pushed: bool,
    sender: &mut NodeHandler,
    room: usize,
    message: &Identify,
) -> bool {
    let index = if pushed { PUSH } else { IDENTIFY };
    match made(node, index, pushed, peer_of(message)) {
        Some(reader) => reads(sender, reader, room, message),
        None => false,
    }
}

/// Whether another peer is told what the node says: as it asks, or as it is pushed to.
fn tells(node: &mut Node, pushed: bool, room: usize, message: &Identify) -> bool {
    let index = if pushed { PUSH } else { IDENTIFY };
    match made(node, index, !pushed, PeerId::of_ed25519(&[11; 32])) {
        Some(mut sender) => is_heard(node, pushed, &mut sender, room, message),
        None => false,
    }
}

/// A node whose key is of this type and has so many bytes, and whose agent is a text so often; whether it pushes what
/// it says or is asked for it, for which room; and why there is no such node.
struct Row {
    key: (KeyType, usize),
    agent: (&'static str, usize),
    pushed: bool,
    room: usize,
    fault: Option<IdentifyFault>,
}

const ASKED: Row = Row {
    key: (KeyType::Ed25519, 32),
    agent: ("node/0.1.0", 1),
    pushed: false,
    room: 1024,
    fault: None,
};

static ROWS: [Row; 10] = [
    ASKED,
    Row {
        agent: ("another/2", 1),
        pushed: true,
        ..ASKED
    },
    Row {
        agent: ("kn\u{f6}t/1 \u{1f310}", 1),
        ..ASKED
    },
    Row {
        agent: ("", 1),
        ..ASKED
    },
    // A node says 16384 bytes at most.
    Row {
        agent: ("x", 16276),
        room: usize::MAX,
        ..ASKED
    },
    Row {
        agent: ("x", 16276),
        pushed: true,
        room: usize::MAX,
        ..ASKED
    },
    Row {
        agent: ("x", 16277),
        fault: Some(IdentifyFault::TooLong),
        ..ASKED
    },
    // Keys of each type.
    Row {
        key: (KeyType::Rsa, 294),
        ..ASKED
    },
    Row {
        key: (KeyType::Secp256k1, 33),
        ..ASKED
    },
    Row {
        key: (KeyType::Ecdsa, 91),
        ..ASKED
    },
];

fn repeated(alloc: Global, text: &str, times: usize) -> Result<String, AllocError> {
    let mut all = String::new(alloc);
    for _ in 0..times {
        all.push_str(text)?;
    }
    Ok(all)
}

fn made_node(alloc: Global, row: &Row) -> Option<Result<Node, IdentifyFault>> {
    let agent = repeated(alloc, row.agent.0, row.agent.1).ok()?;
    let key = key(alloc, row.key.0, row.key.1)?;
    let payloads = FixedPayload { payload: PAYLOAD };
    Some(NodeProtocols::new(alloc, key, agent.as_str(), payloads))
}

/// Whether there is a node of this row, or none for its fault, and it says this.
fn is_said(alloc: Global, row: &Row, message: &Identify) -> bool {
    match made_node(alloc, row) {
        Some(Ok(mut node)) => row.fault.is_none()
            && tells(&mut node, row.pushed, row.room, message),
        Some(Err(fault)) => row.fault == Some(fault),
        None => false,
    }
}

fn is_so(alloc: Global, row: &Row) -> bool {
    let agent: Parts = &[(row.agent.1, row.agent.0.as_bytes())];
    match message(alloc, &saying(row.key, agent)) {
        Some(message) => is_said(alloc, row, &message),
        None => false,
    }
}

#[test]
fn what_a_node_says_is_read(rt: HostRuntime) {
    for (number, row) in ROWS.iter().enumerate() {
        holds(&rt, ("row", number), is_so(rt.alloc(), row));
    }
}

// ---- what one node does

/// A ping's way there and back, and its end.
fn comes_back(ping: &mut NodeHandler, echo: &mut NodeHandler) -> bool {
    let is_sent = carries(ping, echo, 1024) && !ping.closed();
    let is_back = carries(echo, ping, 1024) && ping.closed() && !ping.finished();
    let is_over = echo.end() == Ok(()) && ping.end() == Ok(());
    is_sent && is_back && is_over && ping.finished() && echo.finished()
}

fn is_echoed(node: &mut Node, ping: &mut NodeHandler) -> bool {
    match made(node, PING, true, peer()) {
        Some(mut echo) => comes_back(ping, &mut echo),
        None => false,
    }
}

fn pings_itself(node: &mut Node) -> bool {
    match made(node, PING, false, peer()) {
        Some(mut ping) => is_echoed(node, &mut ping),
        None => false,
    }
}

fn is_refused_by(node: &mut Node, other: PeerId, sender: &mut NodeHandler) -> bool {
    match made(node, IDENTIFY, false, other) {
        Some(mut reader) => {
            let is_read = carries(sender, &mut reader, 1024);
            let is_refused = reader.end() == Err(HandlerFault { number: 5 });
            is_read && is_refused && !reader.finished()
        }
        None => false,
    }
}

/// Whether a node doesn't read of another peer, whose key differs in the last byte, what it says of itself, and by
/// which number it refuses that.
fn refuses(node: &mut Node) -> bool {
    let mut key = [7; 32];
    key[31] = 11;
    match made(node, IDENTIFY, true, peer()) {
        Some(mut sender) => is_refused_by(node, PeerId::of_ed25519(&key), &mut sender),
        None => false,
    }
}

/// The number by which an end is refused, and 0 where it is not.
fn end_of(handler: &mut NodeHandler) -> u8 {
    match handler.end() {
        Ok(()) => 0,
        Err(fault) => fault.number,
    }
}

/// Whether a thousand streams, each of which is opened and ended at once, answer the end by this number.
fn ends(node: &mut Node, index: usize, inbound: bool, number: u8) -> bool
    requires { index < 3 }
{
    let mut held = true;
    for _ in 0..1000 {
        held = match made(node, index, inbound, peer()) {
            Some(mut handler) => end_of(&mut handler) == number && held,
            None => false,
        };
    }
    held
}

/// A stream that is opened and ended at once: its protocol, whether the peer opened it, and by which number its end is
/// refused, if at all.
static ENDS: [(usize, bool, u8); 6] = [
    (IDENTIFY, true, 0),
    (IDENTIFY, false, 6),
    (PUSH, true, 6),
    (PUSH, false, 0),
    (PING, true, 0),
    (PING, false, 3),
];

/// A ping and its echo; what isn't heard of another peer; and that each handler is made again and again.
#[test]
fn a_node_does_as_it_must(rt: HostRuntime) -> Result<(), Fail> {
    let mut node = node(rt.alloc())?;
    holds(&rt, "pings itself", pings_itself(&mut node));
    holds(&rt, "refuses another peer", refuses(&mut node));
    for (index, inbound, number) in ENDS.iter() {
        let held = *index < 3 && ends(&mut node, *index, *inbound, *number);
        holds(&rt, ("protocol", *index, *inbound), held);
    }
    Ok(())
}

// ---- payloads

#[test]
fn payloads_that_differ_are_told_apart(rt: HostRuntime) {
    let one = FixedPayload { payload: PAYLOAD };
    for place in 0..=32usize {
        let mut payload = PAYLOAD;
        if let Some(byte) = payload.get_mut(place) {
            *byte ^= 0x40;
        }
        let other = FixedPayload { payload };
        let held = (one == other) == (place == 32) && (one != other) == (place < 32);
        holds(&rt, ("byte", place), held);
    }
}
