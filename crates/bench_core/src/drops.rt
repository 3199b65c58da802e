//! A protocol whose handler drops what it takes.

ghost use Rattle.std.specs.Prelude.{◌≡◌, ⊤, [], ◌∷◌, false, codes};

use handlers::{Handler, HandlerFault, Protocols};
use peer_ids::PeerId;
use std::alloc::{AllocError, Global};

/// Drops what it takes, and gives nothing.
#[derive(Drop)]
pub struct Dropper {
    alloc: Global,
}

impl Handler for Dropper {
    ghost steps = { λ _ _ _. ⊤ };

    ghost fails = { λ _ _ _. ⊤ };

    ghost is_closed = { λ _. false };

    ghost is_finished = { λ _. false };

    fn take(&mut self, _bytes: &[u8]) -> Result<(), HandlerFault> {
        Ok(())
    }

    fn end(&mut self) -> Result<(), HandlerFault> {
        Ok(())
    }

    fn give(&mut self, _room: usize) -> Result<Vec<u8>, HandlerFault> {
        Ok(Vec::new(self.alloc))
    }

    fn closed(&self) -> bool {
        false
    }

    fn finished(&self) -> bool {
        false
    }
}

/// The one protocol, `/drop`.
#[derive(Drop)]
pub struct Drops {
    pub alloc: Global,
}

static NAMES: [&str; 1] = ["/drop"];

impl Protocols for Drops {
    type H = Dropper;

    ghost listed = { λ _. codes "/drop" ∷ [] };

    ghost is_eager = { λ _ _. false };

    ghost makes_inbound = { λ _ _ _ _. ⊤ };

    ghost makes_outbound = { λ _ _ _ _. ⊤ };

    ghost leads_inbound = { λ old _ _ _ new. new ≡ old };

    ghost leads_outbound = { λ old _ _ _ new. new ≡ old };

    fn names(&self) -> &[&str] {
        &NAMES
    }

    fn eager(&self, _index: usize) -> bool {
        false
    }

    fn inbound(&mut self, _index: usize, _peer: PeerId) -> Result<Dropper, AllocError> {
        Ok(Dropper { alloc: self.alloc })
    }

    fn outbound(&mut self, _index: usize, _peer: PeerId) -> Result<Dropper, AllocError> {
        Ok(Dropper { alloc: self.alloc })
    }
}
