//! Messages as bodies: as they are written, and as a peer may spell them, with texts of any bytes, fields that stand
//! again and again.

use crate::asserts::holds;
use crate::said::*;
use identify_h::*;
use peer_ids::KeyType;
use std::alloc::Global;
use std::test::*;

/// A body, what it says to the peer whose key it has, and how that is written.
struct Body {
    body: Parts<'static>,
    said: Said<'static>,
    written: Parts<'static>,
}

/// All that [`MOST`] says before its agent.
pub const FRONT: &[u8] =
    b"\x0a\x24\x08\x01\x12\x20\x07\x07\x07\x07\x07\x07\x07\x07\x07\x07\x07\x07\x07\x07\x07\x07\
    \x07\x07\x07\x07\x07\x07\x07\x07\x07\x07\x07\x07\x07\x07\x07\x07\
    \x12\x05\x04\x7f\x00\x00\x01\x12\x00\x1a\x10/ipfs/ping/1.0.0\x22\x03\x06\x00\x50";

const NODE: Parts<'static> = &[(1, FRONT), (1, b"*\x0aipfs/0.1.0"), (1, b"2\x0anode/0.1.0")];

const UNLIMITED: Parts<'static> = &[(1, FRONT), (1, &[0x32, 0xa0, 0x8d, 6]), (100_000, &[7])];

/// More entries than a stream may bring.
const ENTRIES: Parts<'static> = &[(20_000, &[0x12, 0]), (20_000, &[0x1a, 0])];

/// The field of the key whose 32 bytes are 7, and the same with a type that is spelt longer than it need be.
const KEY: &[u8] =
    b"\x0a\x24\x08\x01\x12\x20\x07\x07\x07\x07\x07\x07\x07\x07\x07\x07\x07\x07\x07\x07\x07\x07\
    \x07\x07\x07\x07\x07\x07\x07\x07\x07\x07\x07\x07\x07\x07\x07\x07";

const LONG_KEY: &[u8] =
    b"\x0a\x25\x08\x81\x00\x12\x20\x07\x07\x07\x07\x07\x07\x07\x07\x07\x07\x07\x07\x07\x07\x07\x07\
    \x07\x07\x07\x07\x07\x07\x07\x07\x07\x07\x07\x07\x07\x07\x07\x07";

/// Behind two keys that aren't read.
const LAST_KEY: &[u8] =
    b"\x0a\x00\x0a\x01\x08\x0a\x24\x08\x01\x12\x20\x07\x07\x07\x07\x07\x07\x07\x07\x07\x07\x07\x07\
    \x07\x07\x07\x07\x07\x07\x07\x07\x07\x07\x07\x07\x07\x07\x07\x07\x07\x07\x07\x07";

const SEVENS_KEY: Said<'static> = Said {
    key: Some((KeyType::Ed25519, 32)),
    ..NOTHING
};

const ANY_BYTES: Parts<'static> = &[(
    1,
    b"\x12\x02\xff\x80\x1a\x01\xff\x22\x01\xfe\x2a\x01\xfd\x32\x02\xc3\x28",
)];

static BODIES: [Body; 5] = [
    Body {
        body: &[],
        said: NOTHING,
        written: &[],
    },
    // The entries of each list keep their order.
    Body {
        body: &[(
            1,
            b"\x1a\x01c\x12\x01\x03\x1a\x01b\x12\x00\x1a\x01a\x12\x01\x01",
        )],
        said: Said {
            listen: &[(1, &[3]), (1, &[]), (1, &[1])],
            protocols: &[(1, b"c"), (1, b"b"), (1, b"a")],
            ..NOTHING
        },
        written: &[(
            1,
            b"\x12\x01\x03\x12\x00\x12\x01\x01\x1a\x01c\x1a\x01b\x1a\x01a",
        )],
    },
    Body {
        body: NODE,
        said: Said {
            version: Some(&[(1, b"ipfs/0.1.0")]),
            agent: Some(&[(1, b"node/0.1.0")]),
            ..MOST
        },
        written: NODE,
    },
    // A message alone has no limit.
    Body {
        body: UNLIMITED,
        said: Said {
            agent: Some(&[(100_000, &[7])]),
            ..MOST
        },
        written: UNLIMITED,
    },
    Body {
        body: ENTRIES,
        said: Said {
            listen: &[(20_000, &[])],
            protocols: &[(20_000, &[])],
            ..NOTHING
        },
        written: ENTRIES,
    },
];

static BODIES_OF_FIELDS: [Body; 5] = [
    // A key is read, however it is spelt, and the last one counts.
    Body {
        body: &[(1, KEY)],
        said: SEVENS_KEY,
        written: &[(1, KEY)],
    },
    Body {
        body: &[(1, LONG_KEY)],
        said: SEVENS_KEY,
        written: &[(1, KEY)],
    },
    Body {
        body: &[(1, LAST_KEY)],
        said: SEVENS_KEY,
        written: &[(1, KEY)],
    },
    // No text need be UTF-8.
    Body {
        body: ANY_BYTES,
        said: Said {
            listen: &[(1, b"\xff\x80")],
            protocols: &[(1, b"\xff")],
            observed: Some(&[(1, b"\xfe")]),
            version: Some(&[(1, b"\xfd")]),
            agent: Some(&[(1, b"\xc3\x28")]),
            ..NOTHING
        },
        written: ANY_BYTES,
    },
    // The last of three counts.
    Body {
        body: &[
            (1, b"\x22\x01a\x2a\x01a\x32\x01a\x22\x01b\x2a\x01b\x32\x01b"),
            (1, b"\x22\x01c\x2a\x01d\x32\x01e"),
        ],
        said: Said {
            observed: Some(&[(1, b"c")]),
            version: Some(&[(1, b"d")]),
            agent: Some(&[(1, b"e")]),
            ..NOTHING
        },
        written: &[(1, b"\x22\x01c\x2a\x01d\x32\x01e")],
    },
];

fn bodies() -> &'static [Body] {
    &BODIES
}

fn bodies_of_fields() -> &'static [Body] {
    &BODIES_OF_FIELDS
}

/// Whether these bytes say what the message does.
fn says(alloc: Global, bytes: &[u8], message: &Identify) -> bool {
    match Identify::read(alloc, bytes, peer_of(message)) {
        Ok(read) => is_same(&read, message),
        Err(_) => false,
    }
}

fn is_written(alloc: Global, message: &Identify, parts: Parts) -> bool {
    match message.write() {
        Ok(written) => is_joined(alloc, &written, parts),
        Err(_) => false,
    }
}

fn is_body_of(alloc: Global, bytes: &[u8], body: &Body) -> bool {
    match message(alloc, &body.said) {
        Some(message) => says(alloc, bytes, &message) && is_written(alloc, &message, body.written),
        None => false,
    }
}

fn is_body(alloc: Global, body: &Body) -> bool {
    match joined(alloc, body.body) {
        Ok(bytes) => is_body_of(alloc, &bytes, body),
        Err(_) => false,
    }
}

#[test]
fn bodies_are_read_and_written(rt: HostRuntime) {
    for (table, bodies) in [("bodies", bodies()), ("of fields", bodies_of_fields())] {
        for (number, body) in bodies.iter().enumerate() {
            holds(&rt, (table, number), is_body(rt.alloc(), body));
        }
    }
}
