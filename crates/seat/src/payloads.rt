//! What pings send: random bytes.

use node_protocols::Payloads;
use rand::rngs::StdRng;
use rand_core::{Rng, SeedableRng};

/// Gives random bytes (libp2p ping 1.0.0, "Protocol").
#[derive(Debug, Drop)]
pub struct RandomPayloads(StdRng);

impl RandomPayloads {
    /// Payloads that come of a seed which this generator gives.
    pub fn of(rng: &mut StdRng) -> RandomPayloads {
        RandomPayloads(StdRng::from_rng(rng))
    }
}

impl Payloads for RandomPayloads {
    ghost gives = { λ _ _. Unit {0} };

    ghost steps = { λ _ _ _. Unit {0} };

    fn next(&mut self) -> [u8; 32] {
        let mut payload = [0; 32];
        self.0.fill_bytes(&mut payload);
        payload
    }
}
