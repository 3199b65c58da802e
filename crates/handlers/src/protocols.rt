//! What makes handlers.

ghost use Rattle.std.specs.Prelude.{◌≡◌, ℕ, Bool, ◌<◌, List, length, map, IfOk, OnErr};
ghost use Rattle.std.specs.List.{All};
ghost use Rattle.handlers.specs.Names.{IsName};

use crate::handler::Handler;
use peer_ids::PeerId;
use std::alloc::AllocError;

/// The protocols of a connection: their names, and what makes the handlers of their streams.
///
/// A value that needs memory keeps the allocator that it was made with; `names` and `eager` need none.
pub trait Protocols: Drop {
    type H: Handler;

    /// The names, in the order by whose indexes the protocols are known.
    ghost listed: { Self → List (List ℕ) };

    /// A stream of this protocol that this end opens is served before the other end has answered.
    ghost is_eager: { Self → ℕ → Bool };

    /// What may be made for a protocol and a peer: the handler of a stream that the peer opened, and of one that this
    /// end opened.
    ghost makes_inbound: { Self → ℕ → List ℕ → Self.H → Type 0 };

    ghost makes_outbound: { Self → ℕ → List ℕ → Self.H → Type 0 };

    /// Making this handler, once, for a protocol and a peer leads from the first value to the second: that of a stream
    /// that the peer opened, and of one that this end opened.
    ghost leads_inbound: { Self → ℕ → List ℕ → Self.H → Self → Type 0 };

    ghost leads_outbound: { Self → ℕ → List ℕ → Self.H → Self → Type 0 };

    /// The names, the same at every call. There may be none.
    fn names(&self) -> &[&str]
        ensures names { map (λ name. name.now) result.now ≡ listed self.now }
        ensures sized { All IsName (listed self.now) };

    /// Whether a stream of this protocol is served before the other end has answered.
    fn eager(&self, index: usize) -> bool
        requires { index < length (listed self.now) }
        ensures { result ≡ is_eager self.now index };

    /// Makes the handler of a stream that the peer opened. Its only refusal is want of memory, and changes nothing.
    fn inbound(&mut self, index: usize, peer: PeerId) -> Result<Self::H, AllocError>
        requires { index < length (listed self.old) }
        ensures names { listed self.new ≡ listed self.old }
        ensures eager { is_eager self.new ≡ is_eager self.old }
        ensures made { IfOk result (makes_inbound self.old index peer) }
        ensures step { IfOk result (λ handler. leads_inbound self.old index peer handler self.new) }
        ensures refused { OnErr result (self.new ≡ self.old) }
        // What may be made later might have been made before.
        ensures kept_inbound { (at : ℕ) (to : List ℕ) (handler : Self.H) → makes_inbound self.new at to handler
            → makes_inbound self.old at to handler }
        ensures kept_outbound { (at : ℕ) (to : List ℕ) (handler : Self.H) → makes_outbound self.new at to handler
            → makes_outbound self.old at to handler };

    /// Makes the handler of a stream that this end opened. Its only refusal is want of memory, and changes nothing.
    fn outbound(&mut self, index: usize, peer: PeerId) -> Result<Self::H, AllocError>
        requires { index < length (listed self.old) }
        ensures names { listed self.new ≡ listed self.old }
        ensures eager { is_eager self.new ≡ is_eager self.old }
        ensures made { IfOk result (makes_outbound self.old index peer) }
        ensures step { IfOk result (λ handler. leads_outbound self.old index peer handler self.new) }
        ensures refused { OnErr result (self.new ≡ self.old) }
        // What may be made later might have been made before.
        ensures kept_inbound { (at : ℕ) (to : List ℕ) (handler : Self.H) → makes_inbound self.new at to handler
            → makes_inbound self.old at to handler }
        ensures kept_outbound { (at : ℕ) (to : List ℕ) (handler : Self.H) → makes_outbound self.new at to handler
            → makes_outbound self.old at to handler };
}
