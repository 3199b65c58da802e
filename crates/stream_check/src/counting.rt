//! A handler that counts its calls, and what makes it.

ghost use Rattle.std.specs.Prelude.{◌≡◌, [], ◌∷◌, ⊤, false, codes, if◌then◌else◌};

use handlers::{Handler, HandlerFault, Protocols};
use peer_ids::PeerId;
use std::alloc::{AllocError, Global};
use std::cell::Cell;
use std::rc::Rc;

/// How many handlers were made, and of all calls of theirs: how many, the bytes taken, the ends, the greatest room; and
/// how often they were asked whether they are finished.
#[derive(Clone, Copy)]
pub(crate) struct Counts {
    pub(crate) made: u32,
    pub(crate) calls: u32,
    pub(crate) bytes: usize,
    pub(crate) ends: u32,
    pub(crate) room: usize,
    pub(crate) asked: u32,
}

pub(crate) const NONE: Counts = Counts {
    made: 0,
    calls: 0,
    bytes: 0,
    ends: 0,
    room: 0,
    asked: 0,
};

/// Counts one call of a handler.
fn count(counts: &Cell<Counts>, bytes: usize, ends: u32, room: usize) {
    let old = counts.get();
    counts.set(Counts {
        made: old.made,
        calls: old.calls.saturating_add(1),
        bytes: old.bytes.saturating_add(bytes),
        ends: old.ends.saturating_add(ends),
        room: old.room.max(room),
        asked: old.asked,
    });
}

/// A handler that counts its calls, gives nothing, and is never finished. The first of the bytes that came last names
/// the call that fails, and before any came its protocols do.
#[derive(Drop)]
pub(crate) struct Counting {
    alloc: Global,
    counts: Rc<Cell<Counts>>,
    closes: bool,
    heard: u8,
}

impl Counting {
    fn unless(&self, letter: u8) -> Result<(), HandlerFault> {
        if self.heard == letter {
            return Err(HandlerFault { number: letter });
        }
        Ok(())
    }
}

impl Handler for Counting {
    ghost steps = { λ _ _ _. ⊤ };

    ghost fails = { λ _ _ _. ⊤ };

    ghost is_closed = { λ handler. handler.closes };

    ghost is_finished = { λ _. false };

    fn take(&mut self, bytes: &[u8]) -> Result<(), HandlerFault> {
        count(&self.counts, bytes.len(), 0, 0);
        if let Some(first) = bytes.first() {
            self.heard = *first;
        }
        self.unless(b't')
    }

    fn end(&mut self) -> Result<(), HandlerFault> {
        count(&self.counts, 0, 1, 0);
        self.unless(b'e')
    }

    fn give(&mut self, room: usize) -> Result<Vec<u8>, HandlerFault> {
        count(&self.counts, 0, 0, room);
        match self.unless(b'g') {
            Ok(()) => Ok(Vec::new(self.alloc)),
            Err(fault) => Err(fault),
        }
    }

    fn closed(&self) -> bool {
        self.closes
    }

    fn finished(&self) -> bool {
        let mut counts = self.counts.get();
        counts.asked = counts.asked.saturating_add(1);
        self.counts.set(counts);
        false
    }
}

/// The protocol `/mute`, where it is known, and no other. It counts its handlers, which are closed from the start or
/// never. The call of this letter fails before any bytes came.
#[derive(Drop)]
pub(crate) struct Countings {
    pub(crate) alloc: Global,
    pub(crate) counts: Rc<Cell<Counts>>,
    pub(crate) is_known: bool,
    pub(crate) is_eager: bool,
    pub(crate) closes: bool,
    pub(crate) failing: u8,
}

impl Countings {
    fn make(&self) -> Result<Counting, AllocError> {
        let counts = self.counts.clone()?;
        let mut more = counts.get();
        more.made = more.made.saturating_add(1);
        counts.set(more);
        Ok(Counting {
            alloc: self.alloc,
            counts,
            closes: self.closes,
            heard: self.failing,
        })
    }
}

static NAMES: [&str; 1] = ["/mute"];

static NO_NAMES: [&str; 0] = [];

impl Protocols for Countings {
    type H = Counting;

    ghost listed = { λ p. if p.is_known then codes "/mute" ∷ [] else [] };

    ghost is_eager = { λ p _. p.is_eager };

    ghost makes_inbound = { λ _ _ _ _. ⊤ };

    ghost makes_outbound = { λ _ _ _ _. ⊤ };

    ghost leads_inbound = { λ old _ _ _ new. new ≡ old };

    ghost leads_outbound = { λ old _ _ _ new. new ≡ old };

    fn names(&self) -> &[&str] {
        if self.is_known { &NAMES } else { &NO_NAMES }
    }

    fn eager(&self, _index: usize) -> bool {
        self.is_eager
    }

    fn inbound(&mut self, _index: usize, _peer: PeerId) -> Result<Counting, AllocError> {
        self.make()
    }

    fn outbound(&mut self, _index: usize, _peer: PeerId) -> Result<Counting, AllocError> {
        self.make()
    }
}
