use crate::asserts::{Fault, Told, are_faults, holds, is_shown, same};
use peer_ids::*;
use std::alloc::{AllocError, Global};
use std::test::*;

const ZEROS: &str = "bafzaajaiaejcaaaaaaaaaaaaaaaaaaaaaaaaaaaaaaaaaaaaaaaaaaaaaaaaaaaa";

const ONES: &str = "bafzaajaiaejcb777777777777777777777777777777777777777777777777777";

const DIGEST_OF_ZEROS: &str = "bafzbeiaaaaaaaaaaaaaaaaaaaaaaaaaaaaaaaaaaaaaaaaaaaaaaaaaaaa";

/// Bytes, and behind them so many of one value.
type Bytes = (&'static [u8], u8, usize);

fn filled(alloc: Global, bytes: Bytes) -> Result<Vec<u8>, AllocError> {
    let (front, fill, count) = bytes;
    let mut all = Vec::from_slice(alloc, front)?;
    for _ in 0..count {
        all.push(fill)?;
    }
    Ok(all)
}

/// Whether the id is read from this text, and from its own bytes.
fn is_read_from(id: PeerId, text: &str) -> bool {
    let is_read = PeerId::from_text(text) == Ok(id) && text.parse::<PeerId>() == Ok(id);
    is_read && PeerId::from_bytes(id.as_bytes()) == Ok(id)
}

/// Whether the id has this text, and is read from it and from its own bytes.
fn has_text(alloc: Global, id: PeerId, text: &str) -> bool {
    let is_told = match id.to_text(alloc) {
        Ok(told) => told.as_str() == text,
        Err(_) => false,
    };
    is_told && is_shown(alloc, &id, text) && is_read_from(id, text)
}

// ---- keys

/// The message of a key, whose bytes are those of one value that it ends in. Then the key's type, what the canonical
/// message has before these bytes, how long the id is, how it begins, and its text where the id isn't the message.
#[derive(Clone, Copy)]
struct Key {
    message: Bytes,
    kind: KeyType,
    canonical: &'static [u8],
    len: usize,
    id: &'static [u8],
    text: Option<&'static str>,
}

/// The key of 32 zeros, and that of 32 bytes of 255.
const OF_ZEROS: Key = Key {
    message: (&[0x08, 0x01, 0x12, 0x20], 0, 32),
    kind: KeyType::Ed25519,
    canonical: &[0x08, 0x01, 0x12, 0x20],
    len: 38,
    id: &[0x00, 0x24, 0x08, 0x01, 0x12, 0x20],
    text: Some(ZEROS),
};

const OF_ONES: Key = Key {
    message: (&[0x08, 0x01, 0x12, 0x20], 0xff, 32),
    text: Some(ONES),
    ..OF_ZEROS
};

static KEYS: [Key; 12] = [
    OF_ZEROS,
    OF_ONES,
    // Long varints, and unknown fields.
    Key {
        message: (&[0x08, 0x81, 0x00, 0x12, 0x20], 0xff, 32),
        ..OF_ONES
    },
    Key {
        message: (&[0x08, 0x81, 0x80, 0x00, 0x12, 0x20], 0xff, 32),
        ..OF_ONES
    },
    Key {
        message: (
            &[
                0x08, 0x01, 0x29, 0, 0, 0, 0, 0, 0, 0, 0, 0x2d, 0, 0, 0, 0, 0x12, 0x20,
            ],
            0xff,
            32,
        ),
        ..OF_ONES
    },
    // The last type and the last data count.
    Key {
        message: (
            &[
                0x08, 0x00, 0x12, 0x01, 0x07, 0x0a, 0x00, 0x08, 0x01, 0x12, 0x20,
            ],
            0,
            32,
        ),
        ..OF_ZEROS
    },
    // So they do behind two others.
    Key {
        message: (
            &[
                0x08, 0x00, 0x12, 0x01, 0x07, 0x08, 0x02, 0x12, 0x01, 0x08, 0x08, 0x01, 0x12, 0x20,
            ],
            0,
            32,
        ),
        ..OF_ZEROS
    },
    // A key of at most 42 canonical bytes is its id. That of 43 is the digest, as coreutils' sha256sum has it.
    Key {
        message: (&[0x08, 0x00, 0x12, 0x26], 0, 38),
        kind: KeyType::Rsa,
        canonical: &[0x08, 0x00, 0x12, 0x26],
        len: 44,
        id: &[0x00, 0x2a, 0x08, 0x00, 0x12, 0x26],
        text: None,
    },
    Key {
        message: (&[0x08, 0x00, 0x12, 0x27], 0, 39),
        kind: KeyType::Rsa,
        canonical: &[0x08, 0x00, 0x12, 0x27],
        len: 34,
        id: &[0x12, 0x20],
        text: Some("bafzbeibk5grzhwgyw4alg4l6bv7uulvdmn6osbjyi6olydnwtsxzdm6kxu"),
    },
    // The numbers of the other types.
    Key {
        message: (&[0x08, 0, 0x12, 0x01], 7, 1),
        kind: KeyType::Rsa,
        canonical: &[0x08, 0, 0x12, 0x01],
        len: 7,
        id: &[0x00, 0x05, 0x08, 0, 0x12, 0x01, 7],
        text: None,
    },
    Key {
        message: (&[0x08, 2, 0x12, 0x01], 7, 1),
        kind: KeyType::Secp256k1,
        canonical: &[0x08, 2, 0x12, 0x01],
        len: 7,
        id: &[0x00, 0x05, 0x08, 2, 0x12, 0x01, 7],
        text: None,
    },
    Key {
        message: (&[0x08, 3, 0x12, 0x01], 7, 1),
        kind: KeyType::Ecdsa,
        canonical: &[0x08, 3, 0x12, 0x01],
        len: 7,
        id: &[0x00, 0x05, 0x08, 3, 0x12, 0x01, 7],
        text: None,
    },
];

/// Whether the key has this type and these bytes.
fn has_body(alloc: Global, key: &PublicKey, row: &Key) -> Result<bool, AllocError> {
    let (_, fill, count) = row.message;
    let body = filled(alloc, (&[], fill, count))?;
    Ok(key.kind() == row.kind && key.body() == body.as_slice())
}

/// Whether the key is written as its canonical message.
fn is_written(alloc: Global, key: &PublicKey, row: &Key) -> Result<bool, AllocError> {
    let (_, fill, count) = row.message;
    let canonical = filled(alloc, (row.canonical, fill, count))?;
    Ok(key.canonical()? == canonical)
}

fn is_id(alloc: Global, id: PeerId, row: &Key) -> Result<bool, AllocError> {
    let bytes = id.as_bytes();
    let copy: Result<PeerId, AllocError> = id.clone();
    let held = bytes.len() == row.len && bytes.starts_with(row.id) && copy == Ok(id);
    match row.text {
        Some(text) => Ok(has_text(alloc, id, text) && held),
        None => Ok(held),
    }
}

fn is_key(alloc: Global, key: &PublicKey, row: &Key) -> Result<bool, AllocError> {
    let held = has_body(alloc, key, row)? && is_written(alloc, key, row)?;
    Ok(is_id(alloc, PeerId::of_key(key), row)? && held)
}

fn is_read(alloc: Global, row: &Key) -> Result<bool, AllocError> {
    let message = filled(alloc, row.message)?;
    match PublicKey::read(alloc, &message) {
        Ok(key) => is_key(alloc, &key, row),
        Err(_) => Ok(false),
    }
}

#[test]
fn keys_and_their_ids(rt: HostRuntime) {
    for (number, row) in KEYS.iter().enumerate() {
        same(&rt, ("row", number), is_read(rt.alloc(), row), Ok(true));
    }
}

static BAD_KEYS: [(Bytes, KeyFault); 11] = [
    ((&[0x12, 0x01, 0x00], 0, 0), KeyFault::NoType),
    ((&[0x08, 0x01], 0, 0), KeyFault::NoData),
    ((&[0x08, 0x04], 0, 0), KeyFault::NoData),
    ((&[0x08, 0x04, 0x12, 0x00], 0, 0), KeyFault::UnknownType),
    ((&[0x08, 0x01, 0x12, 0x00], 0, 0), KeyFault::BadLength),
    ((&[0x08], 0, 0), KeyFault::Wire),
    ((&[0x0b], 0, 0), KeyFault::Wire),
    ((&[0x08, 0x01, 0x12, 0x1f], 0, 31), KeyFault::BadLength),
    // What is badly spelt is no key, also behind a whole one, and comes before what is wrong with type and data.
    (
        (&[0x08, 0x00, 0x12, 0x01, 0x07, 0x08], 0, 0),
        KeyFault::Wire,
    ),
    ((&[0x08, 0x04, 0x12, 0x00, 0x0b], 0, 0), KeyFault::Wire),
    ((&[0x08, 0x01, 0x12, 0x00, 0x07], 0, 0), KeyFault::Wire),
];

fn is_bad(alloc: Global, message: Bytes, fault: KeyFault) -> Result<bool, AllocError> {
    let message = filled(alloc, message)?;
    Ok(PublicKey::read(alloc, &message).err() == Some(fault))
}

#[test]
fn faults_of_keys(rt: HostRuntime) {
    for (row, (message, fault)) in BAD_KEYS.iter().enumerate() {
        same(
            &rt,
            ("row", row),
            is_bad(rt.alloc(), *message, *fault),
            Ok(true),
        );
    }
}

/// Whether this is the key of 32 bytes of this value.
fn is_ed25519(key: &PublicKey, byte: u8) -> bool {
    let is_key = key.kind() == KeyType::Ed25519 && key.body() == [byte; 32].as_slice();
    is_key && PeerId::of_key(key) == PeerId::of_ed25519(&[byte; 32])
}

/// Whether the key of 32 bytes of this value is made in each way, and has the id of this text.
fn is_of(alloc: Global, byte: u8, text: &str) -> Result<bool, AllocError> {
    let is_key = is_ed25519(&PublicKey::ed25519(alloc, &[byte; 32])?, byte);
    let is_made = match PublicKey::new(KeyType::Ed25519, vec![in alloc; byte; 32]?) {
        Some(key) => is_ed25519(&key, byte),
        None => false,
    };
    Ok(has_text(alloc, PeerId::of_ed25519(&[byte; 32]), text) && is_key && is_made)
}

#[test]
fn keys_and_ids_of_32_bytes(rt: HostRuntime) {
    for (byte, text) in [(0, ZEROS), (0xff, ONES)] {
        same(&rt, byte, is_of(rt.alloc(), byte, text), Ok(true));
    }
}

// ---- ids

static TEXTS: [(&str, IdFault); 10] = [
    ("", IdFault::NotB),
    (
        "afzbeiaaaaaaaaaaaaaaaaaaaaaaaaaaaaaaaaaaaaaaaaaaaaaaaaaaaa",
        IdFault::NotB,
    ),
    ("bAFZBEI", IdFault::NotBase32),
    ("bafz1eiaa", IdFault::NotBase32),
    (
        "baaaaaaaaaaaaaaaaaaaaaaaaaaaaaaaaaaaaaaaaaaaaaaaaaaaaaaaaaaaaaaaaaaaaaaaaaaaa",
        IdFault::BadLength,
    ),
    ("ba", IdFault::BadLength),
    ("bafzbeiaa=", IdFault::NotBase32),
    ("baa", IdFault::BadPrefix),
    ("bafzaa", IdFault::BadHash),
    (
        "bafzbeiaaaaaaaaaaaaaaaaaaaaaaaaaaaaaaaaaaaaaaaaaaaaaaaaaaab",
        IdFault::TrailingBits,
    ),
];

fn is_no_id(text: &str, fault: IdFault) -> bool {
    PeerId::from_text(text) == Err(fault) && text.parse::<PeerId>() == Err(fault)
}

#[test]
fn faults_of_texts(rt: HostRuntime) {
    for (row, (text, fault)) in TEXTS.iter().enumerate() {
        holds(&rt, ("row", row), is_no_id(*text, *fault));
    }
}

/// Bytes, and the text of the id that they are, if they are one.
static MULTIHASHES: [(Bytes, Option<&str>); 14] = [
    ((&[0x12, 0x20], 0, 32), Some(DIGEST_OF_ZEROS)),
    ((&[0x00, 0x00], 0, 0), Some("bafzaaaa")),
    ((&[], 0, 0), None),
    ((&[0x00], 0, 0), None),
    ((&[0x00, 0x01], 0, 0), None),
    ((&[0x00, 0x00, 0x00], 0, 0), None),
    ((&[0x12, 0x20, 0x00], 0, 0), None),
    // An identity of 43 bytes, a digest of 33, and a byte behind a digest.
    ((&[0x00], 43, 44), None),
    ((&[0x12], 33, 34), None),
    ((&[0x12], 0x20, 34), None),
    // Kinds of hashes and lengths that are spelt longer than they need be.
    ((&[0x12, 0xa0, 0x00], 0, 32), None),
    ((&[0x92, 0x00, 0x20], 0, 32), None),
    ((&[0x00, 0x80, 0x00], 0, 0), None),
    ((&[0x80, 0x00, 0x00], 0, 0), None),
];

fn is_multihash(alloc: Global, bytes: Bytes, text: Option<&str>) -> Result<bool, AllocError> {
    let id = PeerId::from_bytes(&filled(alloc, bytes)?);
    match (id, text) {
        (Ok(id), Some(text)) => Ok(has_text(alloc, id, text)),
        (Err(fault), None) => Ok(fault == IdFault::BadHash),
        _ => Ok(false),
    }
}

#[test]
fn ids_are_multihashes(rt: HostRuntime) {
    for (row, (bytes, text)) in MULTIHASHES.iter().enumerate() {
        same(
            &rt,
            ("row", row),
            is_multihash(rt.alloc(), *bytes, *text),
            Ok(true),
        );
    }
}

/// Ids from the lowest on: the bytes decide in turn. The last is the digest of a key.
static ORDER: [Bytes; 8] = [
    (&[0x00, 0x00], 0, 0),
    (&[0x00, 0x01, 0x09], 0, 0),
    (&[0x00, 0x02, 0x00, 0x09], 0, 0),
    (&[0x00, 0x02, 0x01, 0x00], 0, 0),
    (&[0x00, 0x03, 0x00, 0x00, 0x00], 0, 0),
    (&[0x00, 0x2a, 0x08, 0x00, 0x12, 0x26], 0, 38),
    (&[0x12, 0x20], 0, 32),
    (
        b"\x12\x20\x2a\xe9\xa3\x93\xd8\xd8\xb7\x00\xb3\x71\x7e\x0d\x7f\x4a\x2e\xa3\
        \x63\x7c\xe9\x05\x38\x47\x9c\xbc\x0d\xb6\x9c\xaf\x91\xb3\xca\xbd",
        0,
        0,
    ),
];

fn id_of(alloc: Global, bytes: Bytes) -> Option<PeerId> {
    match filled(alloc, bytes) {
        Ok(bytes) => PeerId::from_bytes(&bytes).ok(),
        Err(_) => None,
    }
}

fn are_ordered_as(low: PeerId, high: PeerId, row: usize, place: usize) -> bool {
    let is_below = (low < high) == (row < place) && low.cmp(&high) == row.cmp(&place);
    is_below && (low == high) == (row == place)
}

/// Whether the id of this row is below those behind it, above those before it, and equal to itself alone.
fn is_in_order(alloc: Global, row: usize, bytes: Bytes) -> Option<bool> {
    let low = id_of(alloc, bytes)?;
    let mut held = true;
    for (place, bytes) in ORDER.iter().enumerate() {
        held = are_ordered_as(low, id_of(alloc, *bytes)?, row, place) && held;
    }
    Some(held)
}

#[test]
fn ids_are_ordered_from_the_first_byte_on(rt: HostRuntime) {
    for (row, bytes) in ORDER.iter().enumerate() {
        let held = is_in_order(rt.alloc(), row, *bytes);
        same(&rt, ("row", row), held, Some(true));
    }
}

/// Whether the identity of so many zeros has one text, from which it is read.
fn is_printed(alloc: Global, length: u8) -> Option<bool> {
    let mut multihash = [0; 44];
    multihash[1] = length;
    let bytes = &multihash[..usize::from(length.min(42)) + 2];
    let id = PeerId::from_bytes(bytes).ok()?;
    match id.to_text(alloc) {
        Ok(text) => Some(has_text(alloc, id, text.as_str())),
        Err(_) => None,
    }
}

#[test]
fn ids_of_every_length_are_printed(rt: HostRuntime) {
    for length in 0..43u8 {
        same(
            &rt,
            ("length", length),
            is_printed(rt.alloc(), length),
            Some(true),
        );
    }
}

// ---- faults

impl Fault for KeyFault {
    fn number(self) -> usize {
        self as usize
    }
}

static KEY_FAULTS: [Told<KeyFault>; 6] = [
    (KeyFault::Wire, 1, "a key is no protobuf message"),
    (KeyFault::NoType, 2, "a key has no type"),
    (KeyFault::NoData, 3, "a key has no data"),
    (KeyFault::UnknownType, 4, "a key has an unknown type"),
    (KeyFault::BadLength, 5, "a key has data of a wrong length"),
    (KeyFault::OutOfMemory, 6, "out of memory"),
];

impl Fault for IdFault {
    fn number(self) -> usize {
        self as usize
    }
}

static ID_FAULTS: [Told<IdFault>; 6] = [
    (IdFault::NotB, 1, "a peer id doesn't begin with b"),
    (
        IdFault::NotBase32,
        2,
        "a peer id has a letter that isn't base32",
    ),
    (
        IdFault::BadLength,
        3,
        "a peer id has a wrong number of letters",
    ),
    (IdFault::TrailingBits, 4, "a peer id has unused bits set"),
    (IdFault::BadPrefix, 5, "a peer id doesn't begin with 01 72"),
    (IdFault::BadHash, 6, "a peer id has no multihash of one"),
];

#[test]
fn faults_of_keys_are_told(rt: HostRuntime) {
    are_faults(&rt, rt.alloc(), &KEY_FAULTS);
}

#[test]
fn faults_of_ids_are_told(rt: HostRuntime) {
    are_faults(&rt, rt.alloc(), &ID_FAULTS);
}
