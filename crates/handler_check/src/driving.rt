//! Handlers as tests drive them.

use handlers::{Handler, HandlerFault};

/// Rooms, each so often.
pub type Rooms<'a> = &'a [(usize, usize)];

/// What a call answers that has failed before, or comes behind the end.
pub const FAILED: Result<(), HandlerFault> = Err(HandlerFault { number: 1 });

/// Adds what a handler gives for this room. Fault 0 is want of memory here.
pub fn give_more<H: Handler>(
    handler: &mut H,
    given: &mut Vec<u8>,
    room: usize,
) -> Result<(), HandlerFault> {
    let more = handler.give(room)?;
    match given.extend_from_slice(&more) {
        Ok(()) => Ok(()),
        Err(_) => Err(HandlerFault { number: 0 }),
    }
}

/// Whether just these bytes are given.
pub fn gives_just<H: Handler>(handler: &mut H, room: usize, bytes: &[u8]) -> bool {
    match handler.give(room) {
        Ok(given) => given.as_slice() == bytes,
        Err(_) => false,
    }
}

/// Adds what a handler gives for these rooms. Whether each call was answered.
pub fn gives<H: Handler>(handler: &mut H, given: &mut Vec<u8>, rooms: Rooms) -> bool {
    let mut held = true;
    for (times, room) in rooms {
        for _ in 0..*times {
            held = held && give_more(handler, given, *room) == Ok(());
        }
    }
    held
}

/// Hands the bytes over in pieces of this size, asking for bytes with this room after each, and then says the end.
pub fn serve<H: Handler>(
    handler: &mut H,
    given: &mut Vec<u8>,
    bytes: &[u8],
    size: usize,
    room: usize,
) -> Result<(), HandlerFault> {
    for piece in bytes.chunks(size.max(1)) {
        handler.take(piece)?;
        give_more(handler, given, room)?;
    }
    handler.end()
}
