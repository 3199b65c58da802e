//! The end of a stream's data is told to a handler that gave what it has by all that came before, also where one frame
//! carries both: the credit for its last byte, or the data that it answers.

ghost use Rattle.std.specs.Prelude.{◌≡◌, [], ◌∷◌, ⊤, ◌==◌, ◌&&◌, false, codes};

use crate::asserts;
use crate::greeting::{KEY, OTHER, ROOM};
use crate::lending::{came, holds, lend};
use conn_core::ConnCore;
use conn_log::ConnEvent;
use handlers::{Handler, HandlerFault, Protocols};
use peer_ids::{PeerId, PublicKey};
use std::alloc::{AllocError, Global};
use std::test::*;
use streams::Cause;
use upgrade::ConnRole;

/// A handler that gives as many bytes as it owes, and one more for each that it takes. Once it has given some and owes
/// none its work is done. At an end before that it fails, or loses what it owes.
#[derive(Drop)]
struct Owing {
    alloc: Global,
    owed: usize,
    gave: bool,
    fails: bool,
    lost: usize,
}

impl Handler for Owing {
    ghost steps = { λ _ _ _. ⊤ };

    ghost fails = { λ _ _ _. ⊤ };

    ghost is_closed = { λ handler. handler.gave && (handler.owed == 0) };

    ghost is_finished = { λ handler. handler.gave && (handler.owed == 0) };

    fn take(&mut self, bytes: &[u8]) -> Result<(), HandlerFault> {
        self.owed = self.owed.saturating_add(bytes.len());
        Ok(())
    }

    fn end(&mut self) -> Result<(), HandlerFault> {
        if self.fails && !(self.gave && self.owed == 0) {
            return Err(HandlerFault { number: 7 });
        }
        self.lost = self.owed;
        self.owed = 0;
        self.gave = true;
        Ok(())
    }

    fn give(&mut self, room: usize) -> Result<Vec<u8>, HandlerFault> {
        let count = room.min(self.owed);
        let mut bytes = Vec::new(self.alloc);
        if bytes.resize(count, 0).is_err() {
            return Err(HandlerFault { number: 8 });
        }
        self.owed -= count;
        self.gave = self.gave || count > 0;
        Ok(bytes)
    }

    fn closed(&self) -> bool {
        self.gave && self.owed == 0
    }

    fn finished(&self) -> bool {
        self.gave && self.owed == 0
    }
}

/// The protocol `/mute`, and no other. Its handlers owe so many bytes.
#[derive(Drop)]
struct Owings {
    alloc: Global,
    owed: usize,
    fails: bool,
}

impl Owings {
    fn make(&self) -> Owing {
        Owing {
            alloc: self.alloc,
            owed: self.owed,
            gave: false,
            fails: self.fails,
            lost: 0,
        }
    }
}

static NAMES: [&str; 1] = ["/mute"];

impl Protocols for Owings {
    type H = Owing;

    ghost listed = { λ _. codes "/mute" ∷ [] };

    ghost is_eager = { λ _ _. false };

    ghost makes_inbound = { λ _ _ _ _. ⊤ };

    ghost makes_outbound = { λ _ _ _ _. ⊤ };

    ghost leads_inbound = { λ old _ _ _ new. new ≡ old };

    ghost leads_outbound = { λ old _ _ _ new. new ≡ old };

    fn names(&self) -> &[&str] {
        &NAMES
    }

    fn eager(&self, _index: usize) -> bool {
        false
    }

    fn inbound(&mut self, _index: usize, _peer: PeerId) -> Result<Owing, AllocError> {
        Ok(self.make())
    }

    fn outbound(&mut self, _index: usize, _peer: PeerId) -> Result<Owing, AllocError> {
        Ok(self.make())
    }
}

/// The other end opens the streams 1 and 3 for `/mute`.
const OPENS: &[u8] = b"\0\0\0\x01\0\0\0\x01\0\0\0\x1b\x13/multistream/1.0.0\n\x06/mute\n\
    \0\0\0\x01\0\0\0\x03\0\0\0\x1b\x13/multistream/1.0.0\n\x06/mute\n";

/// A window update of one byte, and three bytes of data, each with the end of the stream's data.
const CREDIT_AND_END_1: &[u8] = b"\0\x01\0\x04\0\0\0\x01\0\0\0\x01";

const CREDIT_AND_END_3: &[u8] = b"\0\x01\0\x04\0\0\0\x03\0\0\0\x01";

const DATA_AND_END_1: &[u8] = b"\0\0\0\x04\0\0\0\x01\0\0\0\x03abc";

const DATA_AND_END_3: &[u8] = b"\0\0\0\x04\0\0\0\x03\0\0\0\x03abc";

/// The same without the end, and the end alone.
const CREDIT_1: &[u8] = b"\0\x01\0\0\0\0\0\x01\0\0\0\x01";

const END_1: &[u8] = b"\0\x01\0\x04\0\0\0\x01\0\0\0\0";

const END_3: &[u8] = b"\0\x01\0\x04\0\0\0\x03\0\0\0\0";

/// What alone is told of a stream: Done, with how much its handler lost, or that its handler failed.
enum Told {
    Done(u32, usize),
    Failed(u32),
}

/// What a handler owes at first, whether it fails at an early end, the piece that comes once it has given what there
/// was room for, and what is told.
type Row = (usize, bool, &'static [u8], Told);

static ROWS: [Row; 12] = [
    (ROOM + 1, true, CREDIT_AND_END_1, Told::Done(1, 0)),
    (ROOM + 2, true, CREDIT_AND_END_1, Told::Failed(1)),
    (ROOM + 1, true, CREDIT_AND_END_3, Told::Done(3, 0)),
    (ROOM + 1, false, CREDIT_AND_END_3, Told::Done(3, 0)),
    (ROOM + 2, false, CREDIT_AND_END_3, Told::Done(3, 1)),
    (ROOM + 1, true, CREDIT_1, Told::Done(1, 0)),
    (ROOM + 1, true, END_1, Told::Failed(1)),
    (ROOM + 1, false, END_3, Told::Done(3, 1)),
    (0, true, DATA_AND_END_1, Told::Done(1, 0)),
    (0, true, DATA_AND_END_3, Told::Done(3, 0)),
    (0, false, DATA_AND_END_3, Told::Done(3, 0)),
    (0, true, END_1, Told::Failed(1)),
];

fn is_told(event: &ConnEvent<Owing>, told: &Told) -> bool {
    match event {
        ConnEvent::Done(number, handler) => matches!(told,
            Told::Done(other, lost) if other == number && *lost == handler.lost),
        ConnEvent::Broken(number, cause) => matches!(told,
            Told::Failed(other) if other == number && *cause == Cause::Handler(HandlerFault { number: 7 })),
        _ => false,
    }
}

fn is_told_alone(events: &[ConnEvent<Owing>], told: &Told) -> bool {
    match events.first() {
        Some(event) => events.len() == 1 && is_told(event, told),
        None => false,
    }
}

/// Whether the piece is told so, once the connection is up, with two handlers, each of which gave what there was room
/// for.
fn tells(core: &mut ConnCore<Owings>, piece: &[u8], told: &Told) -> bool {
    let is_open = came(core.feed(OTHER)) && came(core.feed(OPENS));
    is_open && holds(core.feed(piece), |events| is_told_alone(events, told))
}

fn listener(alloc: Global, protocols: Owings) -> Option<ConnCore<Owings>> {
    match PublicKey::read(alloc, KEY) {
        Ok(key) => ConnCore::new(alloc, ConnRole::Listener, key, protocols).ok(),
        Err(_) => None,
    }
}

fn is_so(alloc: Global, owed: usize, fails: bool, piece: &[u8], told: &Told) -> bool {
    let core = listener(alloc, Owings { alloc, owed, fails });
    lend(core, |core| tells(core, piece, told)) == Some(true)
}

#[test]
fn a_handler_gives_before_it_hears_the_end(rt: HostRuntime) {
    for (number, (owed, fails, piece, told)) in ROWS.iter().enumerate() {
        let held = is_so(rt.alloc(), *owed, *fails, *piece, told);
        asserts::holds(&rt, ("row", number), held);
    }
}
