//! What makes the handlers of a node's streams.

ghost use Rattle.std.specs.Prelude.{◌≡◌, ◌≢◌, ◌⊎◌, ◌↔◌, ◌<◌, ◌==◌, ℕ, List, length, IfOk, IfErr, OnErr, Err};
ghost use Rattle.identify_h.specs.Messages.{written};
ghost use Rattle.identify_h.specs.Sending.{most_bytes};
ghost use Rattle.ping_h.specs.Rounds.{round};
ghost use Rattle.node_protocols.specs.Own.{protocol_names, own_message};
ghost use Rattle.node_protocols.specs.Makes.{Tells, Hears, MakesInbound, MakesOutbound};
ghost use Rattle.node_protocols.specs.Makes.{LeadsInbound, LeadsOutbound};

use crate::handler::NodeHandler;
use crate::names::{IDENTIFY, NAMES, PING, PUSH};
use crate::own::{own_identify, own_len};
use crate::payloads::Payloads;
use handlers::Protocols;
use identify_h::{Identify, IdentifyFault, IdentifyIn, IdentifyOut, MOST_BYTES};
use peer_ids::{PeerId, PublicKey};
use ping_h::{PingEcho, PingOut};
use std::alloc::{AllocError, Global};
use std::marker::Model;

/// The protocols of a node: 0 is identify, 1 its push, and 2 is ping, which alone is eager. Contracts see what the node
/// says of itself, and where its pings' bytes come from.
pub struct NodeProtocols<R: Payloads> {
    alloc: Global,
    own: Identify,
    payloads: R,
}

// By hand, so that the proof of who lets go of it is that of a call, and not of all that it holds.
impl<R: Payloads> Drop for NodeProtocols<R> {
    fn drop(self) {
        let Self {
            alloc: _,
            own: _own,
            payloads: _payloads,
        } = self;
    }
}

impl<R: Payloads> Model for NodeProtocols<R> {
    ghost use Rattle.std.specs.Prelude.{◌≤◌, length};
    ghost use Rattle.identify_h.specs.Messages.{written};
    ghost use Rattle.identify_h.specs.Sending.{most_bytes};
    ghost use Rattle.node_protocols.specs.Makes.{Node};

    ghost Value = { Node R };

    ghost view = { λ p. record { own = p.own; payloads = p.payloads } };

    ghost invariant = { λ p. length (written p.own) ≤ most_bytes };
}

impl<R: Payloads> NodeProtocols<R> {
    /// The protocols of a node that has this key, whose program has this name and version, as `node/0.1.0`. What it
    /// says of itself is made here, and has the key, the three names, `node/1.0.0` as the version of its protocols, and
    /// the agent (libp2p identify 1.0.0, "The Identify Message"). Where that would have more than 16384 bytes it is
    /// [`IdentifyFault::TooLong`], before memory is asked for; its only other refusal is
    /// [`IdentifyFault::OutOfMemory`].
    pub fn new(
        alloc: Global,
        key: PublicKey,
        agent: &str,
        payloads: R,
    ) -> Result<NodeProtocols<R>, IdentifyFault>
        ensures own { IfOk result (λ node. node.own ≡ own_message key agent.now) }
        ensures payloads { IfOk result (λ node. node.payloads ≡ payloads) }
        ensures too_long { (result ≡ Err IdentifyFault.TooLong)
            ↔ (most_bytes < length (written (own_message key agent.now))) }
        ensures refused { IfErr result (λ fault. (fault ≡ IdentifyFault.TooLong)
            ⊎ (fault ≡ IdentifyFault.OutOfMemory)) }
    {
        if own_len(&key, agent) > MOST_BYTES {
            return Err(IdentifyFault::TooLong);
        }
        match own_identify(alloc, key, agent) {
            Ok(own) => Ok(NodeProtocols {
                alloc,
                own,
                payloads,
            }),
            Err(_) => Err(IdentifyFault::OutOfMemory),
        }
    }

    /// What reads what this peer says of itself.
    fn reads(&self, peer: PeerId) -> NodeHandler
        ensures { Hears peer result }
    {
        NodeHandler::Reads(IdentifyIn::new(self.alloc, peer))
    }

    /// What sends what the node says of itself.
    fn sends(&self) -> Result<NodeHandler, AllocError>
        ensures { IfOk result (Tells self.now.own) }
    {
        match IdentifyOut::new(self.alloc, &self.own) {
            Ok(out) => Ok(NodeHandler::Sends(out)),
            Err(_) => Err(AllocError),
        }
    }
}

impl<R: Payloads> Protocols for NodeProtocols<R> {
    type H = NodeHandler;

    ghost listed = { λ _. protocol_names };

    ghost is_eager = { λ _ index. index == 2 };

    ghost makes_inbound = { λ node. MakesInbound node.own };

    ghost makes_outbound = { λ node. MakesOutbound node.own (R.gives node.payloads) };

    ghost leads_inbound = { LeadsInbound };

    ghost leads_outbound = { LeadsOutbound R.steps };

    fn names(&self) -> &[&str] {
        &NAMES
    }

    fn eager(&self, index: usize) -> bool {
        index == PING
    }

    fn inbound(&mut self, index: usize, peer: PeerId) -> Result<NodeHandler, AllocError>
        requires { index < 3 }
        ensures made { IfOk result (MakesInbound self.old.own index peer) }
        ensures step { IfOk result (λ handler. LeadsInbound self.old index peer handler self.new) }
        ensures kept { self.new ≡ self.old }
        ensures memory { OnErr result (index ≡ 0) }
    {
        match index {
            IDENTIFY => self.sends(),
            PUSH => Ok(self.reads(peer)),
            _ => Ok(NodeHandler::Echoes(PingEcho::new(self.alloc))),
        }
    }

    fn outbound(&mut self, index: usize, peer: PeerId) -> Result<NodeHandler, AllocError>
        requires { index < 3 }
        ensures made { IfOk result (MakesOutbound self.old.own (R.gives self.old.payloads) index peer) }
        ensures step { IfOk result (λ handler. LeadsOutbound R.steps self.old index peer handler self.new) }
        ensures kept { index ≢ 2 → self.new ≡ self.old }
        ensures own { self.new.own ≡ self.old.own }
        ensures payloads { (bytes : List ℕ) → R.gives self.new.payloads bytes → R.gives self.old.payloads bytes }
        // A ping asks for its bytes once.
        ensures once { index ≡ 2 → IfOk result (λ handler. (payload : List ℕ)
            × R.steps self.old.payloads payload self.new.payloads × (handler ≡ NodeHandler.Pings (round payload))) }
        ensures memory { OnErr result (index ≡ 1) }
    {
        match index {
            IDENTIFY => Ok(self.reads(peer)),
            PUSH => self.sends(),
            _ => Ok(NodeHandler::Pings(PingOut::new(self.alloc, self.payloads.next()))),
        }
    }
}
