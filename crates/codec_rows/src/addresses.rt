//! Addresses, as text and as bytes.

use crate::tally::Tally;
use multiaddr::{AddrFault, Multiaddr};
use std::alloc::Global;

/// A text, its bytes, and the text that is printed.
const READABLE: [(&str, &[u8], &str); 3] = [
    (
        "/ip4/127.0.0.1/tcp/4001",
        &[0x04, 0x7f, 0, 0, 1, 0x06, 0x0f, 0xa1],
        "/ip4/127.0.0.1/tcp/4001",
    ),
    (
        "/ip6/0:0:1:0:0:1:0:0/tcp/80",
        &[
            0x29, 0, 0, 0, 0, 0, 1, 0, 0, 0, 0, 0, 1, 0, 0, 0, 0, 0x06, 0, 80,
        ],
        "/ip6/::1:0:0:1:0:0/tcp/80",
    ),
    (
        "/dns4/localhost/tcp/80",
        &[
            0x36, 9, b'l', b'o', b'c', b'a', b'l', b'h', b'o', b's', b't', 0x06, 0, 80,
        ],
        "/dns4/localhost/tcp/80",
    ),
];

const UNREADABLE: [(&str, AddrFault); 5] = [
    ("", AddrFault::Empty),
    ("/quic/1", AddrFault::UnknownProtocol),
    ("/ip4", AddrFault::Cut),
    ("/ip4/127.0.0.1/tcp/04001", AddrFault::BadValue),
    ("/ip4/127.0.0.1/tcp", AddrFault::Cut),
];

/// The address is printed so.
fn printed(tally: &mut Tally, address: &Multiaddr, text: &'static str) {
    match address.print() {
        Ok(made) => tally.expect(text, made.as_str() == text),
        Err(AddrFault::OutOfMemory) => tally.refuse(),
        Err(_) => tally.expect(text, false),
    }
}

fn readable(
    alloc: Global,
    tally: &mut Tally,
    text: &'static str,
    bytes: &[u8],
    print: &'static str,
) {
    match Multiaddr::parse(alloc, text) {
        Ok(address) => {
            tally.expect(text, address.bytes() == bytes);
            printed(tally, &address, print);
        }
        Err(AddrFault::OutOfMemory) => tally.refuse(),
        Err(_) => tally.expect(text, false),
    }
    match Multiaddr::read(alloc, bytes) {
        Ok(address) => printed(tally, &address, print),
        Err(AddrFault::OutOfMemory) => tally.refuse(),
        Err(_) => tally.expect(text, false),
    }
}

/// Plays the rows of addresses.
pub fn play(alloc: Global, tally: &mut Tally) {
    for (text, bytes, print) in READABLE {
        readable(alloc, tally, text, bytes, print);
    }
    for (text, fault) in UNREADABLE {
        match Multiaddr::parse(alloc, text) {
            Err(AddrFault::OutOfMemory) => tally.refuse(),
            answer => tally.expect(text, answer.err() == Some(fault)),
        }
    }
    match Multiaddr::read(alloc, &[0x04, 0x7f, 0, 0, 1, 0x06, 0x0f]) {
        Err(AddrFault::OutOfMemory) => tally.refuse(),
        answer => tally.expect("bytes cut by one", answer.err() == Some(AddrFault::Cut)),
    }
}
