//! Handlers of ping and identify.

use crate::tally::Tally;
use handlers::{Handler, HandlerFault};
use identify_h::{Identify, IdentifyFault, IdentifyIn, IdentifyOut};
use peer_ids::PeerId;
use ping_h::{PingEcho, PingFault, PingOut};
use std::alloc::Global;

/// A stream of two messages: version `abc`, and agent `x`.
const STREAM: [u8; 10] = [5, 0x2a, 3, 0x61, 0x62, 0x63, 3, 0x32, 1, 0x78];

/// The same as one message behind its length.
const MESSAGE: [u8; 9] = [8, 0x2a, 3, 0x61, 0x62, 0x63, 0x32, 1, 0x78];

/// Counts a fault that is want of memory; the handler then answers Failed.
fn is_wanting<H: Handler>(
    tally: &mut Tally,
    row: &'static str,
    handler: &mut H,
    fault: HandlerFault,
    memory: u8,
) -> bool {
    if fault.number != memory {
        return false;
    }
    tally.refuse();
    let failed = HandlerFault { number: 1 };
    let taken = handler.take(&[0]).err() == Some(failed);
    let given = handler.give(1).err() == Some(failed);
    tally.expect(row, taken && given && handler.end().err() == Some(failed));
    true
}

/// Hands the bytes over in pieces of this size, and then says the end: the number of the fault, or nothing where memory
/// was refused.
fn handed<H: Handler>(
    tally: &mut Tally,
    row: &'static str,
    handler: &mut H,
    (bytes, size): (&[u8], usize),
    memory: u8,
) -> Option<u8> {
    for piece in bytes.chunks(size.max(1)) {
        if let Err(fault) = handler.take(piece) {
            if is_wanting(tally, row, handler, fault, memory) {
                return None;
            }
            return Some(fault.number);
        }
    }
    match handler.end() {
        Ok(()) => Some(0),
        Err(fault) if is_wanting(tally, row, handler, fault, memory) => None,
        Err(fault) => Some(fault.number),
    }
}

/// What a handler gives with this room, or nothing where memory was refused.
fn given<H: Handler>(
    tally: &mut Tally,
    row: &'static str,
    handler: &mut H,
    room: usize,
    memory: u8,
) -> Option<Vec<u8>> {
    match handler.give(room) {
        Ok(bytes) => Some(bytes),
        Err(fault) => {
            let wanting = is_wanting(tally, row, handler, fault, memory);
            tally.expect(row, wanting);
            None
        }
    }
}

/// An echo of two rounds.
fn echo(alloc: Global, tally: &mut Tally) -> Option<()> {
    let memory = PingFault::OutOfMemory as u8;
    let mut echo = PingEcho::new(alloc);
    let fault = handed(tally, "an echo", &mut echo, (&[7; 64], 7), memory)?;
    tally.expect("an echo between rounds", fault == 0);
    let bytes = given(tally, "an echo gives", &mut echo, 100, memory)?;
    tally.expect(
        "an echo of two rounds",
        bytes.as_slice() == [7; 64].as_slice(),
    );
    tally.expect("an echo is finished", echo.finished());
    Some(())
}

/// An echo whose stream ends within a round.
fn cut_echo(alloc: Global, tally: &mut Tally) -> Option<()> {
    let memory = PingFault::OutOfMemory as u8;
    let mut cut = PingEcho::new(alloc);
    let fault = handed(tally, "a cut echo", &mut cut, (&[7; 31], 31), memory)?;
    tally.expect("an echo within a round", fault == PingFault::Cut as u8);
    Some(())
}

/// A ping that comes back.
fn ping(alloc: Global, tally: &mut Tally) -> Option<()> {
    let memory = PingFault::OutOfMemory as u8;
    let mut out = PingOut::new(alloc, [7; 32]);
    let bytes = given(tally, "a ping", &mut out, 100, memory)?;
    tally.expect(
        "the bytes of a ping",
        bytes.as_slice() == [7; 32].as_slice(),
    );
    let fault = handed(tally, "a ping back", &mut out, (&[7; 32], 5), memory)?;
    tally.expect("a ping is finished", fault == 0 && out.finished());
    Some(())
}

/// A stream that is read, in pieces of this size.
fn read(alloc: Global, tally: &mut Tally, peer: PeerId, size: usize) -> Option<Identify> {
    let memory = IdentifyFault::OutOfMemory as u8;
    let mut reader = IdentifyIn::new(alloc, peer);
    let fault = handed(tally, "a reader", &mut reader, (&STREAM, size), memory)?;
    tally.expect("a stream is read", fault == 0 && reader.finished());
    reader.into_message().ok()
}

/// What was read is sent again, as one message.
fn send(alloc: Global, tally: &mut Tally, said: &Identify) -> Option<()> {
    let mut sender = match IdentifyOut::new(alloc, said) {
        Ok(sender) => sender,
        Err(fault) => {
            tally.expect("a sender's refusal", fault == IdentifyFault::OutOfMemory);
            tally.refuse();
            return None;
        }
    };
    let memory = IdentifyFault::OutOfMemory as u8;
    let bytes = given(tally, "a sender", &mut sender, 100, memory)?;
    tally.expect("a message is sent", bytes.as_slice() == MESSAGE.as_slice());
    tally.expect("a sender is finished", sender.finished());
    Some(())
}

/// A stream that is refused so.
fn refuse(
    alloc: Global,
    tally: &mut Tally,
    peer: PeerId,
    (row, stream, fault): (&'static str, &[u8], IdentifyFault),
) -> Option<()> {
    let memory = IdentifyFault::OutOfMemory as u8;
    let mut reader = IdentifyIn::new(alloc, peer);
    let number = handed(tally, row, &mut reader, (stream, 3), memory);
    drop(reader);
    tally.expect(row, number? == fault as u8);
    Some(())
}

/// A stream is read in pieces of this size, and sent again.
fn read_and_send(alloc: Global, tally: &mut Tally, peer: PeerId, size: usize) -> Option<()> {
    let said = read(alloc, tally, peer, size)?;
    let sent = send(alloc, tally, &said);
    drop(said);
    sent
}

fn identifies(alloc: Global, tally: &mut Tally) -> Option<()> {
    let peer = PeerId::of_ed25519(&[7; 32]);
    for size in [1, 10] {
        read_and_send(alloc, tally, peer, size)?;
    }
    let rows: [(&'static str, &[u8], IdentifyFault); 4] = [
        ("an eleventh message", &[0; 11], IdentifyFault::TooMany),
        ("too long a body", &[0x81, 0x80, 1], IdentifyFault::TooLong),
        ("a stream that is cut", &STREAM[..9], IdentifyFault::Cut),
        ("another key", &[2, 10, 0], IdentifyFault::OtherKey),
    ];
    for row in rows {
        refuse(alloc, tally, peer, row)?;
    }
    Some(())
}

/// Plays the rows of handlers.
pub fn play(alloc: Global, tally: &mut Tally) {
    // Where memory was refused, what follows in a row isn't played.
    let _ = echo(alloc, tally);
    let _ = cut_echo(alloc, tally);
    let _ = ping(alloc, tally);
    let _ = identifies(alloc, tally);
}
