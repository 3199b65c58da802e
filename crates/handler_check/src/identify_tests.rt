//! What readers make of streams, and what is sent.

use crate::asserts::holds;
use crate::driving::*;
use crate::message_tests::FRONT;
use crate::said::*;
use handlers::{Handler, HandlerFault};
use identify_h::*;
use peer_ids::{KeyType, PeerId};
use std::alloc::Global;
use std::test::*;

// ---- what a reader makes of a stream

/// A stream, and what it says or the fault that its reader comes to.
struct Stream {
    input: Parts<'static>,
    outcome: Result<Said<'static>, IdentifyFault>,
}

/// A body of 16376 bytes, but for the 16373 of its field, which isn't kept.
const LONG: &[u8] = &[0xf8, 0x7f, 0x42, 0xf5, 0x7f];

/// One of ten messages of 1638 bytes, each of which says an agent of 1635.
const TENTH: &[u8] = &[0xe6, 0x0c, 0x32, 0xe3, 0x0c];

const SEVENS: (usize, &[u8]) = (1635, &[7]);

static STREAMS: [Stream; 16] = [
    // Two messages, and the same as one.
    Stream {
        input: &[(1, b"\x05*\x03abc\x032\x01x")],
        outcome: Ok(ABC_X),
    },
    Stream {
        input: &[(1, b"\x08*\x03abc2\x01x")],
        outcome: Ok(ABC_X),
    },
    Stream {
        input: &[(1, b"\x05*\x03abc\x032\x01")],
        outcome: Err(IdentifyFault::Cut),
    },
    Stream {
        input: &[],
        outcome: Err(IdentifyFault::Cut),
    },
    Stream {
        input: &[(11, &[0])],
        outcome: Err(IdentifyFault::TooMany),
    },
    Stream {
        input: &[(1, &[0x81, 0x80, 1])],
        outcome: Err(IdentifyFault::TooLong),
    },
    Stream {
        input: &[(1, &[1, 8, 0x80, 0x80, 1])],
        outcome: Err(IdentifyFault::TooLong),
    },
    Stream {
        input: &[(1, &[0x80, 0])],
        outcome: Err(IdentifyFault::Wire),
    },
    Stream {
        input: &[(1, &[2, 10, 0])],
        outcome: Err(IdentifyFault::OtherKey),
    },
    // What is badly spelt behind a bad key hides it.
    Stream {
        input: &[(1, &[2, 10, 0, 1, 8])],
        outcome: Err(IdentifyFault::Wire),
    },
    // The bodies are joined: a field may lie in two, and each adds its entries to the lists.
    Stream {
        input: &[(1, b"\x03*\x03a\x05bc2\x01x")],
        outcome: Ok(ABC_X),
    },
    Stream {
        input: &[(1, b"\x06\x12\x01\x03\x1a\x01c\x06\x1a\x01b\x12\x01\x04")],
        outcome: Ok(Said {
            listen: &[(1, &[3]), (1, &[4])],
            protocols: &[(1, b"c"), (1, b"b")],
            ..NOTHING
        }),
    },
    // Bodies have at most 16384 bytes together.
    Stream {
        input: &[
            (1, LONG),
            (16373, &[0]),
            (1, &[8, 0x42, 6, 0, 0, 0, 0, 0, 0]),
        ],
        outcome: Ok(NOTHING),
    },
    Stream {
        input: &[(1, LONG), (16373, &[0]), (1, &[9])],
        outcome: Err(IdentifyFault::TooLong),
    },
    // There are at most ten, which may be empty.
    Stream {
        input: &[(10, &[0])],
        outcome: Ok(NOTHING),
    },
    // Two messages of 8194 bytes, each with an agent of 8189.
    Stream {
        input: &[
            (1, &[0x80, 0x40, 0x32, 0xfd, 0x3f]),
            (8189, &[7]),
            (1, &[0x80, 0x40, 0x32, 0xfd, 0x3f]),
            (8189, &[7]),
        ],
        outcome: Ok(Said {
            agent: Some(&[(8189, &[7])]),
            ..NOTHING
        }),
    },
];

/// Ten messages of 1638 bytes.
static TENTHS: [Stream; 1] = [Stream {
    input: &[
        (1, TENTH),
        SEVENS,
        (1, TENTH),
        SEVENS,
        (1, TENTH),
        SEVENS,
        (1, TENTH),
        SEVENS,
        (1, TENTH),
        SEVENS,
        (1, TENTH),
        SEVENS,
        (1, TENTH),
        SEVENS,
        (1, TENTH),
        SEVENS,
        (1, TENTH),
        SEVENS,
        (1, TENTH),
        SEVENS,
    ],
    outcome: Ok(Said {
        agent: Some(&[SEVENS]),
        ..NOTHING
    }),
}];

fn streams() -> &'static [Stream] {
    &STREAMS
}

/// Hands the bytes over in pieces of this size, and then says the end.
fn read(reader: &mut IdentifyIn, bytes: &[u8], size: usize) -> Result<(), HandlerFault> {
    for piece in bytes.chunks(size.max(1)) {
        reader.take(piece)?;
    }
    reader.end()
}

/// Whether a reader hands this message out.
fn hands_out(reader: IdentifyIn, message: &Identify) -> bool {
    lent(reader.into_message().ok(), |read| is_same(read, message))
}

/// Whether the stream is read, in pieces of this size, and says what the message does.
fn is_read(alloc: Global, stream: &[u8], size: usize, message: &Identify) -> bool {
    let mut reader = IdentifyIn::new(alloc, peer_of(message));
    let came = read(&mut reader, stream, size);
    let is_whole = reader.closed() && reader.finished() && came == Ok(());
    hands_out(reader, message) && is_whole
}

/// Whether a reader fails for good.
fn is_refused(alloc: Global, stream: &[u8], size: usize, fault: IdentifyFault) -> bool {
    let mut reader = IdentifyIn::new(alloc, PeerId::of_ed25519(&[1; 32]));
    let came = read(&mut reader, stream, size);
    let number = fault as u8;
    came == Err(HandlerFault { number }) && reader.take(&[]) == FAILED && !reader.finished()
}

fn leads_to(alloc: Global, input: &[u8], size: usize, stream: &Stream) -> bool {
    match &stream.outcome {
        Ok(said) => match message(alloc, said) {
            Some(message) => is_read(alloc, input, size, &message),
            None => false,
        },
        Err(fault) => is_refused(alloc, input, size, *fault),
    }
}

fn comes_to(alloc: Global, stream: &Stream, size: usize) -> bool {
    match joined(alloc, stream.input) {
        Ok(input) => leads_to(alloc, &input, size, stream),
        Err(_) => false,
    }
}

#[test]
fn streams_however_cut(rt: HostRuntime) {
    for (table, streams) in [("streams", streams()), ("ten messages", &TENTHS)] {
        for (number, stream) in streams.iter().enumerate() {
            for size in [1, 7, 1000, 8194] {
                let held = comes_to(rt.alloc(), stream, size);
                holds(&rt, (table, number, "in pieces of", size), held);
            }
        }
    }
}

// ---- what a sender sends

/// A message, by which rooms it is asked for before the end and behind it, and what is sent, unless it is too long.
struct Sending {
    said: Said<'static>,
    before: Rooms<'static>,
    behind: Rooms<'static>,
    sent: Option<Parts<'static>>,
}

const ONE: Parts<'static> = &[(1, b"\x08*\x03abc2\x01x")];

const LONGEST: Said<'static> = Said {
    agent: Some(&[(16381, &[7])]),
    ..NOTHING
};

const LONGEST_SENT: Parts<'static> = &[(1, &[0x80, 0x80, 1, 0x32, 0xfd, 0x7f]), (16381, &[7])];

static SENDINGS: [Sending; 8] = [
    Sending {
        said: ABC_X,
        before: &[(1, 0), (9, 1)],
        behind: &[],
        sent: Some(ONE),
    },
    Sending {
        said: ABC_X,
        before: &[(1, 64)],
        behind: &[],
        sent: Some(ONE),
    },
    // What says nothing is a length of none.
    Sending {
        said: NOTHING,
        before: &[(1, 0), (2, 64)],
        behind: &[],
        sent: Some(&[(1, &[0])]),
    },
    // It is sent on behind the end.
    Sending {
        said: Said {
            agent: Some(&[(1, b"x")]),
            ..NOTHING
        },
        before: &[(1, 1)],
        behind: &[(2, 1000)],
        sent: Some(&[(1, b"\x032\x01x")]),
    },
    // A body of 16384 bytes, in parts.
    Sending {
        said: LONGEST,
        before: &[(16387, 1)],
        behind: &[],
        sent: Some(LONGEST_SENT),
    },
    Sending {
        said: LONGEST,
        before: &[(17, 1000)],
        behind: &[],
        sent: Some(LONGEST_SENT),
    },
    Sending {
        said: Said {
            agent: Some(&[(16382, &[0])]),
            ..NOTHING
        },
        before: &[],
        behind: &[],
        sent: None,
    },
    Sending {
        said: Said {
            agent: Some(&[(16311, &[0])]),
            ..MOST
        },
        before: &[(1, 20000)],
        behind: &[],
        sent: Some(&[
            (1, &[0x80, 0x80, 1]),
            (1, FRONT),
            (1, &[0x32, 0xb7, 0x7f]),
            (16311, &[0]),
        ]),
    },
];

/// Whether this is given, some before the end and the rest behind it, and the sender is over then.
fn sends(alloc: Global, sender: &mut IdentifyOut, sending: &Sending, parts: Parts) -> bool {
    let mut given = Vec::new(alloc);
    let is_begun = sender.take(&[1, 2, 3]) == Ok(());
    let is_going = gives(sender, &mut given, sending.before) && sender.end() == Ok(());
    let is_over = gives(sender, &mut given, sending.behind) && sender.take(&[1]) == FAILED;
    let is_closed = sender.closed() && sender.finished();
    is_begun && is_going && is_over && is_closed && is_joined(alloc, &given, parts)
}

/// Whether a sender is made of this message, and sends what it must.
fn plays(alloc: Global, message: &Identify, sending: &Sending) -> bool {
    match (IdentifyOut::new(alloc, message), sending.sent) {
        (Ok(mut sender), Some(parts)) => sends(alloc, &mut sender, sending, parts),
        (Err(fault), None) => fault == IdentifyFault::TooLong,
        _ => false,
    }
}

fn is_sent(alloc: Global, sending: &Sending) -> bool {
    match message(alloc, &sending.said) {
        Some(message) => plays(alloc, &message, sending),
        None => false,
    }
}

#[test]
fn messages_are_sent(rt: HostRuntime) {
    for (number, sending) in SENDINGS.iter().enumerate() {
        holds(&rt, ("sending", number), is_sent(rt.alloc(), sending));
    }
}

// ---- what is sent is read back

/// A key, lists of 8192 entries, each of which has two bytes, entries of 300 and of 4000 bytes, and lists of many
/// entries that aren't empty.
static BACK: [Said<'static>; 6] = [
    Said {
        key: Some((KeyType::Ed25519, 32)),
        ..NOTHING
    },
    Said {
        listen: &[(8192, &[])],
        ..NOTHING
    },
    Said {
        protocols: &[(8192, &[])],
        ..NOTHING
    },
    Said {
        listen: &[(2, &[7; 300]), (1, &[8; 4000])],
        ..NOTHING
    },
    Said {
        protocols: &[(2, &[7; 300]), (1, &[8; 4000])],
        ..NOTHING
    },
    Said {
        listen: &[(1000, &[4, 127, 0, 0, 1])],
        protocols: &[(500, b"/ipfs/ping/1.0.0")],
        ..NOTHING
    },
];

fn stream_of(alloc: Global, message: &Identify) -> Option<Vec<u8>> {
    let mut sender = IdentifyOut::new(alloc, message).ok()?;
    sender.give(usize::MAX).ok()
}

/// Whether this is read back once it was sent, in pieces of this size.
fn is_back(alloc: Global, message: &Identify, size: usize) -> bool {
    match stream_of(alloc, message) {
        Some(stream) => is_read(alloc, &stream, size, message),
        None => false,
    }
}

fn comes_back(alloc: Global, said: &Said, size: usize) -> bool {
    match message(alloc, said) {
        Some(message) => is_back(alloc, &message, size),
        None => false,
    }
}

#[test]
fn what_is_sent_comes_back(rt: HostRuntime) {
    for (number, said) in BACK.iter().enumerate() {
        for size in [1, 1000, 20000] {
            let held = comes_back(rt.alloc(), said, size);
            holds(&rt, ("row", number, "in pieces of", size), held);
        }
    }
}

fn text_if(is_said: bool, parts: Parts) -> Option<Parts> {
    if is_said { Some(parts) } else { None }
}

fn entries_if(is_said: bool, parts: Parts) -> Parts {
    if is_said { parts } else { &[] }
}

/// What says one text alone: the observed address, the version, the agent, or the entry of a list.
fn one_text(parts: Parts, which: usize) -> Said {
    Said {
        key: None,
        observed: text_if(which == 0, parts),
        version: text_if(which == 1, parts),
        agent: text_if(which == 2, parts),
        listen: entries_if(which == 3, parts),
        protocols: entries_if(which == 4, parts),
    }
}

/// Whether a text of so many bytes comes back.
fn text_comes_back(alloc: Global, len: usize, which: usize) -> bool {
    match vec![in alloc; 7u8; len] {
        Ok(bytes) => comes_back(alloc, &one_text(&[(1, bytes.as_slice())], which), 20000),
        Err(_) => false,
    }
}

#[test]
fn texts_of_many_lengths_come_back(rt: HostRuntime) {
    // The last has 16380 bytes, with which the body has 16384.
    for step in 0..=66usize {
        let len = if step == 66 { 16380 } else { step * 250 };
        for which in 0..5 {
            let held = text_comes_back(rt.alloc(), len, which);
            holds(&rt, ("text", which, "length", len), held);
        }
    }
}

static KINDS: [KeyType; 3] = [KeyType::Rsa, KeyType::Secp256k1, KeyType::Ecdsa];

#[test]
fn keys_of_many_lengths_come_back(rt: HostRuntime) {
    for kind in KINDS.iter() {
        for step in 1..=16usize {
            let said = Said {
                key: Some((*kind, step * 256)),
                ..NOTHING
            };
            let held = comes_back(rt.alloc(), &said, 20000);
            holds(&rt, ("a key of 256 bytes times", step), held);
        }
    }
}
