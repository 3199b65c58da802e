//! An end of an exchange.

ghost use Rattle.std.specs.Prelude.{◌≡◌, ◌≢◌, ◌↔◌, ◌≤◌, ◌<◌, ◌+◌, ℕ, true, false, List, [], ◌++◌};
ghost use Rattle.std.specs.Prelude.{length, Some, None, Result, Ok, Err, IsOk, IfOk, IfErr};
ghost use Rattle.std.specs.Prelude.{OnErr, IfSome};
ghost use Rattle.peer_ids.specs.Key.{Key};
ghost use Rattle.peer_ids.specs.PeerId.{id_of};
ghost use Rattle.plaintext_x.specs.Exchange.{Exchanges, RunsOut, Stands, Whenever, is_proven};

use crate::body::{message, proven_key};
use crate::fault::ExchangeFault;
use peer_ids::{PeerId, PublicKey};
use std::alloc::{AllocError, Global};
use std::marker::Model;
use std::mem;
use varint_proto::Incoming;

/// The key of another end, which has shown the peer id of that key. It is made by an exchange alone. Contracts see the
/// key.
#[derive(Debug, Drop)]
pub struct Proven {
    key: PublicKey,
    peer: PeerId,
}

impl Model for Proven {
    ghost use Rattle.std.specs.Prelude.{◌≡◌};
    ghost use Rattle.peer_ids.specs.Key.{Key};
    ghost use Rattle.peer_ids.specs.PeerId.{id_of};

    ghost Value = { Key };

    ghost view = { λ a. a.key };

    ghost invariant = { λ a. a.peer ≡ id_of a.key };
}

impl Proven {
    /// The other end's key. Takes no memory.
    pub fn key(&self) -> &PublicKey
        ensures { result.now ≡ self.now }
    {
        &self.key
    }

    /// The peer id of that key. Takes no memory.
    pub fn peer(&self) -> PeerId
        ensures { result ≡ id_of self.now }
    {
        self.peer
    }
}

/// The largest length of a message, of this project's profile.
const LONGEST: usize = 8192;

/// Where the reading of the other end's message stands.
#[derive(Debug, Drop)]
enum Standing {
    Reading,
    Done(Proven),
    Failed,
}

/// One end of an exchange: it sends its id and its key, and reads those of the other end.
#[derive(Debug)]
pub struct Exchange {
    standing: Standing,
    incoming: Incoming,
    output: Vec<u8>,
    alloc: Global,
}

// By hand, so that the proof of who lets go of it is that of a call, and not of all that it holds.
impl Drop for Exchange {
    fn drop(self) {
        let Self {
            standing: _standing,
            incoming: _incoming,
            output: _output,
            alloc: _,
        } = self;
    }
}

impl Model for Exchange {
    ghost use Rattle.plaintext_x.specs.Exchange.{Exchanging};
    ghost use Rattle.plaintext_x.specs.Standing.{answer_of};

    ghost Value = { Exchanging };

    ghost view = { λ a. record { incoming = a.incoming; answer = answer_of a.standing; pending = a.output.items } };
}

impl Exchange {
    /// An end with this key. It has written its message.
    pub fn new(alloc: Global, own: &PublicKey) -> Result<Exchange, AllocError>
        ensures fresh { IfOk result (λ exchange. (exchange.answer ≡ Some None) × Stands own.now exchange [] 0 []) }
    {
        Ok(Exchange {
            standing: Standing::Reading,
            incoming: Incoming::new(alloc, LONGEST),
            output: message(alloc, own)?,
            alloc,
        })
    }

    /// Takes the next piece of the input. How many of its bytes belong to the exchange, and whether the other end is
    /// proven. Nothing behind the message is read.
    pub fn feed(&mut self, piece: &[u8]) -> Result<(usize, bool), ExchangeFault>
        ensures pending { self.new.pending ≡ self.old.pending }
        // After a fault, and after the proof.
        ensures failed { self.old.answer ≡ None → (result ≡ Err ExchangeFault.Failed) × (self.new ≡ self.old) }
        ensures proven { (key : Key) → self.old.answer ≡ Some (Some key)
            → (result ≡ Ok (0, true)) × (self.new ≡ self.old) }
        ensures answer { IfOk result (λ step. (step.1 ≡ is_proven self.new.answer) × (self.new.answer ≢ None)) }
        ensures fails { OnErr result (self.new.answer ≡ None) }
        ensures within { IfOk result (λ step. step.0 ≤ length piece.now) }

        // The answer and the bytes used are those of the whole input so far, however it was cut.
        ensures stands { (own : Key) (input : List ℕ) (used : ℕ) (taken : List ℕ)
            → Stands own self.old input used taken
            → IfOk result (λ step. Stands own self.new (input ++ piece.now) (used + step.0) taken) }
        ensures outcome { Whenever self.old (λ input used. IfOk result (λ step. IfSome self.new.answer (λ answer.
            Exchanges (input ++ piece.now) (Ok answer) (used + step.0)))) }
        ensures fault { self.old.answer ≡ Some None → Whenever self.old (λ input used. IfErr result (λ fault.
            fault ≢ ExchangeFault.OutOfMemory
            → Exchanges (input ++ piece.now) (Err fault) (length (input ++ piece.now)))) }
        // Where memory is refused a front of the piece was read, and the byte behind it asks for memory.
        ensures memory { self.old.answer ≡ Some None → Whenever self.old (λ input used.
            result ≡ Err ExchangeFault.OutOfMemory → RunsOut input piece.now) }
    {
        match &self.standing {
            Standing::Failed => return Err(ExchangeFault::Failed),
            Standing::Done(_) => return Ok((0, true)),
            Standing::Reading => {}
        }
        self.standing = Standing::Failed;
        let (used, whole) = self.incoming.feed(piece)?;
        if !whole {
            self.standing = Standing::Reading;
            return Ok((used, false));
        }
        let (key, peer) = proven_key(self.alloc, self.incoming.body())?;
        self.standing = Standing::Done(Proven { key, peer });
        Ok((used, true))
    }

    /// The output that waits to be sent. Takes no memory.
    pub fn take_output(&mut self) -> Vec<u8>
        ensures output { result.items ≡ self.old.pending }
        ensures kept { self.new ≡ record self.old { pending = [] } }
        ensures stands { (own : Key) (input : List ℕ) (used : ℕ) (taken : List ℕ)
            → Stands own self.old input used taken
            → Stands own self.new input used (taken ++ result.items) }
    {
        mem::replace(&mut self.output, Vec::new(self.alloc))
    }

    /// What the other end has proven, or the exchange itself before that and after a fault. Takes no memory.
    pub fn into_proven(self) -> Result<Proven, Exchange>
        ensures proven { IfOk result (λ proven. self.answer ≡ Some (Some proven)) }
        ensures back { IfErr result (λ exchange. exchange ≡ self) }
        ensures when { IsOk result ↔ (is_proven self.answer ≡ true) }
    {
        let Exchange {
            standing,
            incoming,
            output,
            alloc,
        } = self;
        match standing {
            Standing::Done(proven) => Ok(proven),
            standing => Err(Exchange {
                standing,
                incoming,
                output,
                alloc,
            }),
        }
    }
}
