//! Keys, ids and their texts.

use crate::tally::Tally;
use peer_ids::{IdFault, KeyFault, PeerId, PublicKey};
use std::alloc::Global;

const ZEROS: &str = "bafzaajaiaejcaaaaaaaaaaaaaaaaaaaaaaaaaaaaaaaaaaaaaaaaaaaaaaaaaaaa";

const ONES: &str = "bafzaajaiaejcb777777777777777777777777777777777777777777777777777";

const DIGEST_OF_ZEROS: &str = "bafzbeiaaaaaaaaaaaaaaaaaaaaaaaaaaaaaaaaaaaaaaaaaaaaaaaaaaaa";

/// The key message of 32 bytes that are all `byte`.
pub fn message(byte: u8) -> [u8; 36] {
    let mut message = [byte; 36];
    message[..4].copy_from_slice(&[0x08, 0x01, 0x12, 0x20]);
    message
}

/// The same with a type that is spelt longer than it need be.
fn long_message(byte: u8) -> [u8; 37] {
    let mut message = [byte; 37];
    message[..5].copy_from_slice(&[0x08, 0x81, 0x00, 0x12, 0x20]);
    message
}

/// The key that the message spells, where memory is there.
pub fn read(
    alloc: Global,
    tally: &mut Tally,
    row: &'static str,
    bytes: &[u8],
) -> Option<PublicKey> {
    match PublicKey::read(alloc, bytes) {
        Ok(key) => {
            tally.expect(row, true);
            Some(key)
        }
        Err(KeyFault::OutOfMemory) => {
            tally.refuse();
            None
        }
        Err(_) => {
            tally.expect(row, false);
            None
        }
    }
}

/// A message that spells no key has its fault.
fn faulty(alloc: Global, tally: &mut Tally, row: &'static str, bytes: &[u8], fault: KeyFault) {
    match PublicKey::read(alloc, bytes) {
        Err(KeyFault::OutOfMemory) => tally.refuse(),
        answer => tally.expect(row, answer.err() == Some(fault)),
    }
}

fn text(alloc: Global, tally: &mut Tally, row: &'static str, id: PeerId, text: &str) {
    match id.to_text(alloc) {
        Ok(made) => tally.expect(row, made.as_str() == text),
        Err(_) => tally.refuse(),
    }
    tally.expect(row, PeerId::from_text(text) == Ok(id));
}

/// Plays the rows of keys and ids.
pub fn play(alloc: Global, tally: &mut Tally) {
    if let Some(key) = read(alloc, tally, "the key of zeros", &message(0)) {
        text(
            alloc,
            tally,
            "the text of the key of zeros",
            PeerId::of_key(&key),
            ZEROS,
        );
    }
    if let Some(key) = read(
        alloc,
        tally,
        "the key of ones, spelt longer",
        &long_message(0xff),
    ) {
        text(
            alloc,
            tally,
            "the text of the key of ones",
            PeerId::of_key(&key),
            ONES,
        );
        match key.canonical() {
            Ok(bytes) => tally.expect("canonical", bytes.as_slice() == message(0xff).as_slice()),
            Err(_) => tally.refuse(),
        }
    }
    let mut short = [0; 35];
    short[..4].copy_from_slice(&[0x08, 0x01, 0x12, 0x1f]);
    faulty(
        alloc,
        tally,
        "a key of 31 bytes",
        &short,
        KeyFault::BadLength,
    );
    faulty(
        alloc,
        tally,
        "no type",
        &[0x12, 0x01, 0x00],
        KeyFault::NoType,
    );
    let mut digest = [0; 34];
    digest[..2].copy_from_slice(&[0x12, 0x20]);
    if let Ok(id) = PeerId::from_bytes(&digest) {
        text(alloc, tally, "the text of a digest", id, DIGEST_OF_ZEROS);
    }
    let unused = PeerId::from_text("bafzbeiaaaaaaaaaaaaaaaaaaaaaaaaaaaaaaaaaaaaaaaaaaaaaaaaaaab");
    tally.expect(
        "unused bits that are set",
        unused == Err(IdFault::TrailingBits),
    );
}
