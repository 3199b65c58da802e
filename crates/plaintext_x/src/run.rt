//! A whole exchange, from the first byte on.

ghost use Rattle.std.specs.Prelude.{◌≡◌, ◌≢◌, ℕ, length, Ok, Err, IfOk, IfErr};
ghost use Rattle.std.specs.List.{flat_map};
ghost use Rattle.plaintext_x.specs.Exchange.{Exchanges, message_of};

use crate::exchange::{Exchange, Proven};
use crate::fault::ExchangeFault;
use peer_ids::PublicKey;
use std::alloc::Global;

/// What an end of an exchange came to.
#[derive(Debug, Drop)]
pub struct Exchanged {
    /// What the other end has proven, or nothing where more bytes are needed.
    pub proven: Option<Proven>,
    /// All that this end wrote.
    pub output: Vec<u8>,
}

/// What an end with this key comes to by all that the other end sends, in any pieces.
pub fn exchange_keys(
    alloc: Global,
    own: &PublicKey,
    pieces: &[&[u8]],
) -> Result<Exchanged, ExchangeFault>
    ensures outcome { IfOk result (λ done. (used : ℕ)
        × Exchanges (flat_map (λ piece. piece.now) pieces.now) (Ok done.proven) used) }
    ensures output { IfOk result (λ done. done.output.items ≡ message_of own.now) }
    ensures fault { IfErr result (λ fault. fault ≢ ExchangeFault.OutOfMemory
        → Exchanges (flat_map (λ piece. piece.now) pieces.now) (Err fault)
        (length (flat_map (λ piece. piece.now) pieces.now))) }
{
    let mut exchange = Exchange::new(alloc, own)?;
    for piece in pieces {
        exchange.feed(piece)?;
    }
    let output = exchange.take_output();
    let proven = exchange.into_proven().ok();
    Ok(Exchanged { proven, output })
}
