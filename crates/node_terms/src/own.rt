//! What a node is.

ghost use Rattle.std.specs.Prelude.{◌≡◌, IfOk, IfErr};
ghost use Rattle.peer_ids.specs.PeerId.{canonical_of, id_of};

use crate::ending::PeerEnding;
use peer_ids::{PeerId, PublicKey};
use rand::rngs::StdRng;
use std::alloc::AllocGlobal;
use std::random::RandomSource;

/// What a driver is made with.
#[derive(Drop)]
pub struct Setup {
    /// The message of its node's own key.
    pub key: Vec<u8>,
    /// The name and version of its program, as `node/0.1.0`.
    pub agent: Vec<u8>,
    /// Where the bytes of its pings come from.
    pub rng: StdRng,
}

/// What a node is.
#[derive(Drop)]
pub struct Own<'a> {
    /// Its public key.
    pub key: PublicKey,
    /// The name and version of its program, as `node/0.1.0`.
    pub agent: &'a str,
}

impl Own<'_> {
    /// The node's own peer.
    pub fn peer(&self) -> PeerId
        ensures { result ≡ id_of self.now.key }
    {
        PeerId::of_key(&self.key)
    }

    /// What its driver is made with.
    pub fn setup<R: RandomSource + AllocGlobal>(&self, rt: &R) -> Result<Setup, PeerEnding>
        ensures key { IfOk result (λ setup. setup.key.items ≡ canonical_of self.now.key) }
        ensures agent { IfOk result (λ setup. setup.agent.items ≡ self.now.agent.now) }
        ensures refused { IfErr result (λ ending. ending ≡ PeerEnding.Failed) }
    {
        Ok(Setup {
            key: self.key.canonical()?,
            agent: Vec::from_slice(rt.alloc(), self.agent.as_bytes())?,
            rng: rand::make_rng::<StdRng, R>(rt)?,
        })
    }
}
