//! Echoes and pings, each with ample memory.

use crate::asserts::holds;
use crate::driving::*;
use handlers::{Handler, HandlerFault};
use ping_h::*;
use std::alloc::Global;
use std::test::*;

/// The 32 bytes of a ping.
const PING: [u8; 32] = [
    0, 1, 2, 3, 4, 5, 6, 7, 8, 9, 10, 11, 12, 13, 14, 15, 16, 17, 18, 19, 20, 21, 22, 23, 24, 25,
    26, 27, 28, 29, 30, 255,
];

/// The ping, and behind it the same, one bit changed.
const BOTH: [u8; 64] = [
    0, 1, 2, 3, 4, 5, 6, 7, 8, 9, 10, 11, 12, 13, 14, 15, 16, 17, 18, 19, 20, 21, 22, 23, 24, 25,
    26, 27, 28, 29, 30, 255, 0, 1, 2, 3, 4, 5, 6, 7, 8, 9, 10, 11, 12, 13, 14, 15, 16, 17, 18, 19,
    20, 21, 22, 23, 24, 25, 26, 27, 28, 29, 30, 127,
];

// ---- echoes

fn is_echoed(alloc: Global, size: usize, room: usize) -> bool {
    let mut echo = PingEcho::new(alloc);
    let mut given = Vec::new(alloc);
    let is_served = serve(&mut echo, &mut given, &BOTH, size, room) == Ok(());
    let is_given = gives(&mut echo, &mut given, &[(64, 1)]);
    let is_over = echo.closed() && echo.finished();
    is_served && is_given && is_over && given.as_slice() == BOTH.as_slice()
}

#[test]
fn an_echo_gives_whole_rounds_back(rt: HostRuntime) {
    for size in [1, 7, 64] {
        for room in 0..=64usize {
            let held = is_echoed(rt.alloc(), size, room);
            holds(&rt, ("pieces of", size, "room", room), held);
        }
    }
}

/// More bytes than a stream may bring before any is given back.
const LONG: usize = 4194304;

fn takes(echo: &mut PingEcho, bytes: &[u8], size: usize) -> bool {
    let mut held = true;
    for piece in bytes.chunks(size.max(1)) {
        held = echo.take(piece) == Ok(()) && held;
    }
    held && echo.end() == Ok(())
}

/// Whether so many bytes are given for this room.
fn gives_so_many(echo: &mut PingEcho, room: usize, len: usize) -> bool {
    match echo.give(room) {
        Ok(given) => given.len() == len,
        Err(_) => false,
    }
}

/// Whether all is given back that comes in pieces of this size, of which none is asked for before the end.
fn is_long_echoed(alloc: Global, input: &[u8], size: usize) -> bool {
    let mut echo = PingEcho::new(alloc);
    let is_taken = takes(&mut echo, input, size);
    let is_begun = gives_so_many(&mut echo, 2000, 2000);
    let is_given = gives_so_many(&mut echo, usize::MAX, LONG - 2000);
    is_taken && is_begun && is_given && echo.finished()
}

fn is_long(alloc: Global, size: usize) -> bool {
    match vec![in alloc; 7u8; LONG] {
        Ok(input) => is_long_echoed(alloc, &input, size),
        Err(_) => false,
    }
}

#[test]
fn a_long_input_is_echoed(rt: HostRuntime) {
    // Pieces of 65, 100, 255, 999 and 1000 bytes begin within a round.
    for size in [65, 100, 255, 512, 999, 1000, 131072, 4194304] {
        holds(&rt, ("pieces of", size), is_long(rt.alloc(), size));
    }
}

/// Whether so many rounds come back, each before the next one is taken, and the end finishes the echo.
fn goes_on(alloc: Global, rounds: usize) -> bool {
    let mut echo = PingEcho::new(alloc);
    let mut held = true;
    for _ in 0..rounds {
        held = held && echo.take(&PING) == Ok(()) && gives_just(&mut echo, 64, &PING);
    }
    held && echo.end() == Ok(()) && echo.finished()
}

#[test]
fn an_echo_goes_on(rt: HostRuntime) {
    holds(&rt, "goes on", goes_on(rt.alloc(), 200_000));
}

// ---- pings

/// Whether a ping of which so much was sent, when its echo came, sends the rest: so much more before the end, and all
/// behind it.
fn is_sent(alloc: Global, sent: usize, more: usize) -> bool {
    let front = sent.min(32);
    let next = sent.saturating_add(more).min(32);
    let mut out = PingOut::new(alloc, PING);
    let is_begun = gives_just(&mut out, sent, &PING[..front]) && out.take(&PING) == Ok(());
    let is_going = gives_just(&mut out, more, &PING[front..next]) && out.end() == Ok(());
    let is_over = out.closed() && out.finished();
    is_begun && is_going && is_over && gives_just(&mut out, 64, &PING[next..])
}

#[test]
fn a_ping_is_sent_on_behind_its_echo(rt: HostRuntime) {
    for sent in 0..=33usize {
        for more in [0, 1] {
            let held = is_sent(rt.alloc(), sent, more);
            holds(&rt, ("bytes before", sent, "more", more), held);
        }
    }
}

// ---- refusals

/// Whether a handler fails for good by what comes in pieces of this size, and by this number.
fn fails<H: Handler>(
    handler: &mut H,
    alloc: Global,
    bytes: &[u8],
    size: usize,
    number: u8,
) -> bool {
    let mut given = Vec::new(alloc);
    let answer = serve(handler, &mut given, bytes, size, 64);
    let is_dead = handler.take(&[1]) == FAILED && !handler.finished();
    answer == Err(HandlerFault { number }) && is_dead
}

/// What is refused of an echo, and of the end that echoes where that is none, and by which fault.
static REFUSED: [(&[u8], bool, PingFault); 4] = [
    (&[0, 1, 2], true, PingFault::Cut),
    (&[0, 1, 2], false, PingFault::Cut),
    (&[0, 1, 3], false, PingFault::WrongEcho),
    // The ping, and more behind it.
    (&BOTH, false, PingFault::WrongEcho),
];

fn is_refused(alloc: Global, row: &(&[u8], bool, PingFault), size: usize) -> bool {
    let (bytes, is_echo, fault) = row;
    if *is_echo {
        fails(&mut PingEcho::new(alloc), alloc, *bytes, size, *fault as u8)
    } else {
        let mut out = PingOut::new(alloc, PING);
        fails(&mut out, alloc, *bytes, size, *fault as u8)
    }
}

#[test]
fn what_is_no_echo_is_refused(rt: HostRuntime) {
    for (number, row) in REFUSED.iter().enumerate() {
        for size in [64, 1, 7] {
            let held = is_refused(rt.alloc(), row, size);
            holds(&rt, ("row", number, "in pieces of", size), held);
        }
    }
}
