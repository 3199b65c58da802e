//! Exchanges of keys.

use crate::keys::{message, read};
use crate::tally::Tally;
use peer_ids::PeerId;
use plaintext_x::{Exchange, ExchangeFault};
use std::alloc::Global;

/// What the holder of this key sends.
fn sent(alloc: Global, tally: &mut Tally, byte: u8) -> Option<Vec<u8>> {
    let key = read(alloc, tally, "a key", &message(byte))?;
    match Exchange::new(alloc, &key) {
        Ok(mut exchange) => Some(exchange.take_output()),
        Err(_) => {
            tally.refuse();
            None
        }
    }
}

/// An exchange that is fed these bytes, in pieces of this size.
fn fed(
    alloc: Global,
    tally: &mut Tally,
    row: &'static str,
    bytes: &[u8],
    size: usize,
    answer: Result<(usize, bool), ExchangeFault>,
) -> Option<Exchange> {
    let key = read(alloc, tally, "the own key", &message(0))?;
    let Ok(mut exchange) = Exchange::new(alloc, &key) else {
        tally.refuse();
        return None;
    };
    let mut last = Ok((0, false));
    for piece in bytes.chunks(size.max(1)) {
        last = exchange.feed(piece);
        if last.is_err() {
            break;
        }
    }
    if last == Err(ExchangeFault::OutOfMemory) {
        tally.refuse();
        tally.expect(row, exchange.feed(b"") == Err(ExchangeFault::Failed));
        return None;
    }
    tally.expect(row, last == answer);
    Some(exchange)
}

fn proven(alloc: Global, tally: &mut Tally) -> Option<()> {
    let bytes = sent(alloc, tally, 0x11)?;
    tally.expect("the length of a message", bytes.len() == 79);
    let key = read(alloc, tally, "the other key", &message(0x11))?;
    for (size, answer) in [(79, Ok((79, true))), (1, Ok((1, true)))] {
        let exchange = fed(alloc, tally, "a proof", bytes.as_slice(), size, answer)?;
        let proven = exchange.into_proven().ok();
        tally.expect(
            "who is proven",
            proven.map(|proven| proven.peer()) == Some(PeerId::of_key(&key)),
        );
    }
    Some(())
}

/// Plays the rows of exchanges.
pub fn play(alloc: Global, tally: &mut Tally) {
    let _ = proven(alloc, tally);
    let rows: [(&'static str, &[u8], ExchangeFault); 5] = [
        ("no id", &[0x00], ExchangeFault::NoId),
        ("no key", &[0x02, 0x0a, 0x00], ExchangeFault::NoKey),
        ("an id alone", &[0x02, 0x12, 0x00], ExchangeFault::NoId),
        ("a length of 8193", &[0x81, 0x40], ExchangeFault::TooLong),
        (
            "a key without a body",
            &[0x08, 0x0a, 0x00, 0x12, 0x04, 0x08, 0x07, 0x12, 0x00],
            ExchangeFault::BadKey,
        ),
    ];
    for (row, bytes, fault) in rows {
        let _ = fed(alloc, tally, row, bytes, bytes.len(), Err(fault));
    }
    if let Some(bytes) = sent(alloc, tally, 0x11) {
        let mut other = bytes;
        if let Some(byte) = other.get_mut(40) {
            *byte = 0x12;
        }
        let _ = fed(
            alloc,
            tally,
            "another's id",
            other.as_slice(),
            79,
            Err(ExchangeFault::Differs),
        );
    }
}
