//! How much more it costs to feed a message byte by byte than whole, for the largest message of a negotiation and of an
//! exchange. The ratios are written to standard error, since they differ from run to run.
#![tactic(auto)]

use ms_select::Listener;
use peer_ids::PublicKey;
use plaintext_x::Exchange;
use std::alloc::{AllocError, Global};
use std::io::{self, Eprint};
use std::rt::Clock;
use std::time::Instant;

const ROUNDS: u32 = 200;

/// The header and a proposal of 1023 bytes, the longest one.
fn longest_proposal(alloc: Global) -> Result<Vec<u8>, AllocError> {
    let mut input = Vec::from_slice(alloc, b"\x13/multistream/1.0.0\n\x80\x08")?;
    for _ in 0..1023 {
        input.push(b'x')?;
    }
    input.push(b'\n')?;
    Ok(input)
}

/// An exchange message of 8192 bytes, which one unknown field fills.
fn longest_message(alloc: Global) -> Result<Vec<u8>, AllocError> {
    let mut input = Vec::from_slice(alloc, b"\x80\x40\x7a\xfd\x3f")?;
    for _ in 0..8189 {
        input.push(0)?;
    }
    Ok(input)
}

/// Feeds a listener, in pieces of this size.
fn listen(alloc: Global, input: &[u8], size: usize) -> bool {
    let Ok(mut listener) = Listener::new(alloc, &["/y"]) else {
        return false;
    };
    for piece in input.chunks(size.max(1)) {
        if listener.feed(piece).is_err() {
            return false;
        }
    }
    listener.take_output().len() == 24
}

/// Feeds an exchange, in pieces of this size, up to its fault: the message has no id.
fn exchange(alloc: Global, key: &PublicKey, input: &[u8], size: usize) -> bool {
    let Ok(mut exchange) = Exchange::new(alloc, key) else {
        return false;
    };
    for piece in input.chunks(size.max(1)) {
        if exchange.feed(piece).is_err() {
            return true;
        }
    }
    false
}

/// Nanoseconds of the rounds, of which all have to end as they should.
fn timed<F: FnMut() -> bool>(clock: &impl Clock, mut round: F) -> io::Result<u128>
    requires { F.IsAlwaysCallable round }
{
    let start = Instant::now(clock)?;
    for _ in 0..ROUNDS {
        if !round() {
            return Err(io::Error::from(io::ErrorKind::Other));
        }
    }
    Ok(start.elapsed(clock)?.as_nanos())
}

/// Writes the ratio with one decimal.
fn show(rt: &impl Eprint, name: &str, whole: u128, bytes: u128) -> io::Result<()> {
    let tenths = bytes.saturating_mul(10) / whole.max(1);
    eprintln!(rt;
        "{name}: byte by byte costs {}.{} times whole",
        tenths / 10,
        tenths % 10
    )
}

fn main(rt: HostRuntime) -> io::Result<()> {
    let alloc = rt.alloc();
    let proposal = longest_proposal(alloc)?;
    let whole = timed(&rt, || listen(alloc, &proposal, 2048))?;
    let bytes = timed(&rt, || listen(alloc, &proposal, 1))?;
    show(&rt, "negotiation", whole, bytes)?;

    let message = longest_message(alloc)?;
    let key = PublicKey::ed25519(alloc, &[0; 32])?;
    let whole = timed(&rt, || exchange(alloc, &key, &message, 16384))?;
    let bytes = timed(&rt, || exchange(alloc, &key, &message, 1))?;
    show(&rt, "exchange", whole, bytes)
}
