//! What a node that listens is told.

ghost use Rattle.std.specs.Prelude.{◌≡◌, ◌≢◌, IsSomeAnd, IfSome, IfOk, IfErr, OnOk, OnErr};

use crate::ending::PeerEnding;
use node_place::Place;
use peer_ids::PeerId;
use pool_state::{Config, Limits, Refusal};

/// What a node that listens is told.
#[derive(Drop)]
pub struct ListenTerms {
    /// Where it listens.
    pub place: Place,
    /// What limits its connections.
    pub limits: Limits,
    /// Whether only allowed peers may connect.
    pub allow_only: bool,
    /// The peers that it blocks.
    pub blocked: Vec<PeerId>,
    /// The peers that it allows.
    pub allowed: Vec<PeerId>,
}

impl ListenTerms {
    /// What the pool of a node of this peer is made with. Where its address names a peer, that is the node's own, or
    /// it is refused as Mismatch.
    pub fn config(&self, own: PeerId) -> Result<Config, PeerEnding>
        ensures config { IfOk result (λ config. config ≡ record {
          own = own;
          limits = self.now.limits;
          first_conn = 1;
          first_front = 0;
          allow_only = self.now.allow_only;
        }) }
        ensures named { OnOk result (IfSome self.now.place.peer (λ named. named ≡ own)) }
        ensures refused { IfErr result (λ ending. ending ≡ PeerEnding.Refused Refusal.Mismatch) }
        ensures another { OnErr result (IsSomeAnd self.now.place.peer (λ named. named ≢ own)) }
    {
        match self.place.peer {
            Some(named) if named != own => Err(PeerEnding::Refused(Refusal::Mismatch)),
            _ => Ok(Config {
                own,
                limits: self.limits,
                first_conn: 1,
                first_front: 0,
                allow_only: self.allow_only,
            }),
        }
    }
}
