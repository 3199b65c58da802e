use crate::asserts::holds;
use peer_ids::{KeyType, PublicKey};
use plaintext_x::*;
use std::alloc::Global;
use std::test::*;

/// The message of the Ed25519 key of 32 zeros.
const KEY: &[u8] =
    b"\x08\x01\x12\x20\0\0\0\0\0\0\0\0\0\0\0\0\0\0\0\0\0\0\0\0\0\0\0\0\0\0\0\0\0\0\0\0";

/// Its peer id.
const ID: &[u8] =
    b"\0\x24\x08\x01\x12\x20\0\0\0\0\0\0\0\0\0\0\0\0\0\0\0\0\0\0\0\0\0\0\0\0\0\0\0\0\0\0\0\0";

/// The exchange of that key.
const MESSAGE: &[u8] =
    b"\x4e\x0a\x26\0\x24\x08\x01\x12\x20\0\0\0\0\0\0\0\0\0\0\0\0\0\0\0\0\0\0\0\0\0\0\0\0\0\0\0\0\0\0\0\0\
    \x12\x24\x08\x01\x12\x20\0\0\0\0\0\0\0\0\0\0\0\0\0\0\0\0\0\0\0\0\0\0\0\0\0\0\0\0\0\0\0\0";

const MESSAGE_AND_MORE: &[u8] =
    b"\x4e\x0a\x26\0\x24\x08\x01\x12\x20\0\0\0\0\0\0\0\0\0\0\0\0\0\0\0\0\0\0\0\0\0\0\0\0\0\0\0\0\0\0\0\0\
    \x12\x24\x08\x01\x12\x20\0\0\0\0\0\0\0\0\0\0\0\0\0\0\0\0\0\0\0\0\0\0\0\0\0\0\0\0\0\0\0\0\x07";

/// The same with a number in the field of the key behind it, and with a field behind it that is cut.
const NUMBER_BEHIND: &[u8] =
    b"\x50\x0a\x26\0\x24\x08\x01\x12\x20\0\0\0\0\0\0\0\0\0\0\0\0\0\0\0\0\0\0\0\0\0\0\0\0\0\0\0\0\0\0\0\0\
    \x12\x24\x08\x01\x12\x20\0\0\0\0\0\0\0\0\0\0\0\0\0\0\0\0\0\0\0\0\0\0\0\0\0\0\0\0\0\0\0\0\x10\x07";

const CUT_BEHIND: &[u8] =
    b"\x4f\x0a\x26\0\x24\x08\x01\x12\x20\0\0\0\0\0\0\0\0\0\0\0\0\0\0\0\0\0\0\0\0\0\0\0\0\0\0\0\0\0\0\0\0\
    \x12\x24\x08\x01\x12\x20\0\0\0\0\0\0\0\0\0\0\0\0\0\0\0\0\0\0\0\0\0\0\0\0\0\0\0\0\0\0\0\0\x08";

/// The same with its key in two fields, the second of which holds the last byte.
const KEY_IN_PARTS: &[u8] =
    b"\x50\x0a\x26\0\x24\x08\x01\x12\x20\0\0\0\0\0\0\0\0\0\0\0\0\0\0\0\0\0\0\0\0\0\0\0\0\0\0\0\0\0\0\0\0\
    \x12\x23\x08\x01\x12\x20\0\0\0\0\0\0\0\0\0\0\0\0\0\0\0\0\0\0\0\0\0\0\0\0\0\0\0\0\0\0\0\x12\x01\0";

/// The same with its key in four fields, the second of which is empty, round the id.
const KEY_IN_MORE_PARTS: &[u8] =
    b"\x54\x12\x01\x08\x12\x00\x0a\x26\0\x24\x08\x01\x12\x20\0\0\0\0\0\0\0\0\0\0\0\0\0\0\0\0\
    \0\0\0\0\0\0\0\0\0\0\0\0\0\0\0\0\
    \x12\x22\x01\x12\x20\0\0\0\0\0\0\0\0\0\0\0\0\0\0\0\0\0\0\0\0\0\0\0\0\0\0\0\0\0\0\0\x12\x01\0";

/// The id of another key, with that key.
const OTHER_ID: &[u8] =
    b"\x4e\x0a\x26\0\x24\x08\x01\x12\x20\xff\xff\xff\xff\xff\xff\xff\xff\xff\xff\xff\xff\xff\xff\xff\xff\
    \xff\xff\xff\xff\xff\xff\xff\xff\xff\xff\xff\xff\xff\xff\xff\xff\x12\x24\x08\x01\x12\x20\0\0\0\0\0\0\
    \0\0\0\0\0\0\0\0\0\0\0\0\0\0\0\0\0\0\0\0\0\0\0\0\0\0";

/// The key, with an id that is the SHA2-256 of its message: that of a longer key.
const HASHED_ID: &[u8] =
    b"\x4a\x0a\x22\x12\x20\xc3\xd7\x93\xef\xd0\xb3\x33\x92\x46\xe3\xc1\x49\xf5\xd9\xaa\xdc\x7c\xd7\xd0\xeb\
    \x89\x69\x6c\x08\x00\x46\xa3\x23\xcb\x8f\x28\x50\
    \x12\x24\x08\x01\x12\x20\0\0\0\0\0\0\0\0\0\0\0\0\0\0\0\0\0\0\0\0\0\0\0\0\0\0\0\0\0\0\0\0";

/// The key, with its id and a byte behind it.
const LONGER_ID: &[u8] =
    b"\x4f\x0a\x27\0\x24\x08\x01\x12\x20\0\0\0\0\0\0\0\0\0\0\0\0\0\0\0\0\0\0\0\0\0\0\0\0\0\0\0\0\0\0\0\0\x07\
    \x12\x24\x08\x01\x12\x20\0\0\0\0\0\0\0\0\0\0\0\0\0\0\0\0\0\0\0\0\0\0\0\0\0\0\0\0\0\0\0\0";

/// The key, with its id but for the last byte.
const SHORTER_ID: &[u8] =
    b"\x4d\x0a\x25\0\x24\x08\x01\x12\x20\0\0\0\0\0\0\0\0\0\0\0\0\0\0\0\0\0\0\0\0\0\0\0\0\0\0\0\0\0\0\0\
    \x12\x24\x08\x01\x12\x20\0\0\0\0\0\0\0\0\0\0\0\0\0\0\0\0\0\0\0\0\0\0\0\0\0\0\0\0\0\0\0\0";

/// The key, with its id behind the two bytes that stand before it in a text.
const ID_OF_A_TEXT: &[u8] =
    b"\x50\x0a\x28\x01\x72\0\x24\x08\x01\x12\x20\0\0\0\0\0\0\0\0\0\0\0\0\0\0\0\0\0\0\0\0\0\0\0\0\0\0\0\0\0\0\0\0\
    \x12\x24\x08\x01\x12\x20\0\0\0\0\0\0\0\0\0\0\0\0\0\0\0\0\0\0\0\0\0\0\0\0\0\0\0\0\0\0\0\0";

/// The key, its type spelt longer than it need be, with the id of these very bytes.
const ID_OF_THE_SPELLING: &[u8] =
    b"\x50\x0a\x27\0\x25\x08\x81\0\x12\x20\0\0\0\0\0\0\0\0\0\0\0\0\0\0\0\0\0\0\0\0\0\0\0\0\0\0\0\0\0\0\0\0\
    \x12\x25\x08\x81\0\x12\x20\0\0\0\0\0\0\0\0\0\0\0\0\0\0\0\0\0\0\0\0\0\0\0\0\0\0\0\0\0\0\0\0";

/// The key, with the id of a key that differs from it in one byte.
const NEAR_ID: &[u8] =
    b"\x4e\x0a\x26\0\x24\x08\x01\x12\x20\0\0\0\0\0\0\0\0\0\0\0\0\0\0\0\x01\0\0\0\0\0\0\0\0\0\0\0\0\0\0\0\0\
    \x12\x24\x08\x01\x12\x20\0\0\0\0\0\0\0\0\0\0\0\0\0\0\0\0\0\0\0\0\0\0\0\0\0\0\0\0\0\0\0\0";

fn own_key(alloc: Global) -> Option<PublicKey> {
    PublicKey::read(alloc, KEY).ok()
}

fn fresh(alloc: Global) -> Option<Exchange> {
    let key = own_key(alloc)?;
    Exchange::new(alloc, &key).ok()
}

/// How many bytes were used, and whether the other end is proven, or the fault.
type Came = Result<(usize, bool), ExchangeFault>;

/// Feeds the input in pieces of this size.
fn came(exchange: &mut Exchange, input: &[u8], size: usize) -> Came {
    let mut used = 0usize;
    let mut proven = false;
    for piece in input.chunks(size.max(1)) {
        let step = exchange.feed(piece)?;
        used = used.saturating_add(step.0);
        proven = step.1;
    }
    Ok((used, proven))
}

// ---- inputs, however they are cut

static ROWS: [(&[u8], Came); 25] = [
    (MESSAGE, Ok((79, true))),
    // What follows isn't used.
    (MESSAGE_AND_MORE, Ok((79, true))),
    (KEY_IN_PARTS, Ok((81, true))),
    (KEY_IN_MORE_PARTS, Ok((85, true))),
    // A message of 8192 bytes may come, and none of 8193.
    (b"\x80\x40", Ok((2, false))),
    (b"\x81\x40", Err(ExchangeFault::TooLong)),
    (b"\x80\x00", Err(ExchangeFault::Wire)),
    (b"\x01\x00", Err(ExchangeFault::Wire)),
    (b"\x02\x12\x00", Err(ExchangeFault::NoId)),
    (b"\x00", Err(ExchangeFault::NoId)),
    (b"\x02\x0a\x00", Err(ExchangeFault::NoKey)),
    (
        b"\x08\x0a\x00\x12\x04\x08\x07\x12\x00",
        Err(ExchangeFault::BadKey),
    ),
    // A number is no id and no key.
    (b"\x04\x08\x07\x12\x00", Err(ExchangeFault::NoId)),
    (b"\x04\x0a\x00\x10\x07", Err(ExchangeFault::NoKey)),
    (NUMBER_BEHIND, Ok((81, true))),
    // What is badly spelt is Wire, also behind an id and a key, whether or not they are a proof.
    (CUT_BEHIND, Err(ExchangeFault::Wire)),
    (b"\x05\x0a\x00\x12\x00\x07", Err(ExchangeFault::Wire)),
    (b"\x03\x0a\x00\x07", Err(ExchangeFault::Wire)),
    (OTHER_ID, Err(ExchangeFault::Differs)),
    (NEAR_ID, Err(ExchangeFault::Differs)),
    (HASHED_ID, Err(ExchangeFault::Differs)),
    (LONGER_ID, Err(ExchangeFault::Differs)),
    (SHORTER_ID, Err(ExchangeFault::Differs)),
    (ID_OF_A_TEXT, Err(ExchangeFault::Differs)),
    (ID_OF_THE_SPELLING, Err(ExchangeFault::Differs)),
];

fn writes(exchange: &mut Exchange) -> bool {
    exchange.take_output().as_slice() == MESSAGE
}

fn is_own(proven: &Proven) -> bool {
    proven.peer().as_bytes() == ID && proven.key().kind() == KeyType::Ed25519
}

/// Whether the exchange hands out what the key proves, where it has proven that.
fn hands_out(exchange: Exchange, is_proven: bool) -> bool {
    match exchange.into_proven() {
        Ok(proven) => is_own(&proven) && is_proven,
        Err(_) => !is_proven,
    }
}

/// Whether the exchange stays where it came to.
fn stays(exchange: &mut Exchange, outcome: Came) -> bool {
    match outcome {
        Ok((_, true)) => exchange.feed(b"more") == Ok((0, true)),
        Ok((_, false)) => true,
        Err(_) => exchange.feed(MESSAGE) == Err(ExchangeFault::Failed),
    }
}

fn comes_to(alloc: Global, input: &[u8], size: usize, outcome: Came) -> bool {
    match fresh(alloc) {
        Some(mut exchange) => {
            let is_written = writes(&mut exchange);
            let is_come = came(&mut exchange, input, size) == outcome;
            let is_staying = stays(&mut exchange, outcome);
            let is_out = hands_out(exchange, matches!(outcome, Ok((_, true))));
            is_written && is_come && is_staying && is_out
        }
        None => false,
    }
}

#[test]
fn inputs_however_they_are_cut(rt: HostRuntime) {
    for (row, (input, outcome)) in ROWS.iter().enumerate() {
        for size in [1, 7, 1024] {
            let held = comes_to(rt.alloc(), *input, size, *outcome);
            holds(&rt, ("row", row, "in pieces of", size), held);
        }
    }
}

/// Whether an exchange that was handed back proves by its last byte.
fn proves_by(exchange: Exchange, last: &[u8]) -> bool {
    let mut exchange = exchange;
    let is_written = writes(&mut exchange);
    let is_over = exchange.feed(last) == Ok((1, true));
    hands_out(exchange, true) && is_written && is_over
}

/// Whether an exchange that was fed all but the last byte is handed back, and proves by that byte.
fn is_handed_back(alloc: Global) -> Option<bool> {
    let (front, last) = MESSAGE.split_at_checked(78)?;
    let mut exchange = fresh(alloc)?;
    let is_come = came(&mut exchange, front, 7) == Ok((78, false));
    match exchange.into_proven() {
        Ok(_) => Some(false),
        Err(exchange) => Some(proves_by(exchange, last) && is_come),
    }
}

#[test]
fn hands_itself_back_before_the_proof(rt: HostRuntime) {
    holds(&rt, "handed back", is_handed_back(rt.alloc()) == Some(true));
}

fn is_done(done: &Exchanged) -> bool {
    match &done.proven {
        Some(proven) => proven.peer().as_bytes() == ID && done.output.as_slice() == MESSAGE,
        None => false,
    }
}

fn is_whole(alloc: Global) -> Option<bool> {
    let (front, rest) = MESSAGE.split_at_checked(40)?;
    let key = own_key(alloc)?;
    match exchange_keys(alloc, &key, &[front, rest, b"more"]) {
        Ok(done) => Some(is_done(&done)),
        Err(_) => Some(false),
    }
}

#[test]
fn a_whole_exchange(rt: HostRuntime) {
    holds(&rt, "whole", is_whole(rt.alloc()) == Some(true));
}
