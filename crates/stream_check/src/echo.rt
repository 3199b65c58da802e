//! The handler of most tests, and what makes it for /x and /y.

ghost use Rattle.std.specs.Prelude.{◌≡◌, ◌∷◌, [], codes, ⊤, ◌&&◌, ◌==◌, false, vec_len};

use handlers::{Handler, HandlerFault, Protocols};
use peer_ids::PeerId;
use std::alloc::{AllocError, Global};

/// A handler that gives back what it is handed.
#[derive(Drop)]
pub(crate) struct Echo {
    alloc: Global,
    pub(crate) owed: Vec<u8>,
    ended: bool,
    /// It fails where it is handed more than this at once.
    most: usize,
}

impl Echo {
    /// One that owes nothing.
    pub(crate) fn new(alloc: Global, most: usize) -> Echo {
        Echo {
            alloc,
            owed: Vec::new(alloc),
            ended: false,
            most,
        }
    }
}

impl Handler for Echo {
    ghost steps = { λ _ _ _. ⊤ };

    ghost fails = { λ _ _ _. ⊤ };

    ghost is_closed = { λ echo. echo.ended && (vec_len echo.owed == 0) };

    ghost is_finished = { λ echo. echo.ended && (vec_len echo.owed == 0) };

    fn take(&mut self, bytes: &[u8]) -> Result<(), HandlerFault> {
        if bytes.len() > self.most || self.owed.extend_from_slice(bytes).is_err() {
            return Err(HandlerFault { number: 7 });
        }
        Ok(())
    }

    fn end(&mut self) -> Result<(), HandlerFault> {
        self.ended = true;
        Ok(())
    }

    fn give(&mut self, room: usize) -> Result<Vec<u8>, HandlerFault> {
        let count = room.min(self.owed.len());
        let mut bytes = Vec::new(self.alloc);
        if bytes.extend_from_slice(&self.owed[..count]).is_err() {
            return Err(HandlerFault { number: 0 });
        }
        self.owed.drain(..count);
        Ok(bytes)
    }

    fn closed(&self) -> bool {
        self.ended && self.owed.is_empty()
    }

    fn finished(&self) -> bool {
        self.ended && self.owed.is_empty()
    }
}

pub(crate) const NAMES: [&str; 2] = ["/x", "/y"];

/// What makes the handlers, each of which may be handed so many bytes at once.
#[derive(Drop)]
pub(crate) struct Echoes {
    pub(crate) alloc: Global,
    pub(crate) most: usize,
}

impl Protocols for Echoes {
    type H = Echo;

    ghost listed = { λ _. codes "/x" ∷ codes "/y" ∷ [] };

    ghost is_eager = { λ _ _. false };

    ghost makes_inbound = { λ _ _ _ _. ⊤ };

    ghost makes_outbound = { λ _ _ _ _. ⊤ };

    ghost leads_inbound = { λ old _ _ _ new. new ≡ old };

    ghost leads_outbound = { λ old _ _ _ new. new ≡ old };

    fn names(&self) -> &[&str] {
        &NAMES
    }

    fn eager(&self, _index: usize) -> bool {
        false
    }

    fn inbound(&mut self, _index: usize, _peer: PeerId) -> Result<Echo, AllocError> {
        Ok(Echo::new(self.alloc, self.most))
    }

    fn outbound(&mut self, _index: usize, _peer: PeerId) -> Result<Echo, AllocError> {
        Ok(Echo::new(self.alloc, self.most))
    }
}
