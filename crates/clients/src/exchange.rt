//! Two ends prove their keys to each other.

ghost use Rattle.std.specs.Prelude.{◌≡◌, ◌⊎◌, length, Some, IfOk, IfErr};
ghost use Rattle.peer_ids.specs.Key.{Key, IsAllowed};
ghost use Rattle.peer_ids.specs.ReadsKey.{SpellsKey};
ghost use Rattle.plaintext_x.specs.Exchange.{message_of};

use peer_ids::PublicKey;
use plaintext_x::laws::{one_outcome, own_is_proven};
use plaintext_x::{Exchange, ExchangeFault, Exchanged, Proven, exchange_keys};
use std::alloc::Global;

/// An end is told what another end has sent: it is proven the other's key, and only memory may be wanting.
fn prove_to(alloc: Global, own: &PublicKey, sent: &[u8]) -> Result<Exchanged, ExchangeFault>
    ensures proven { (key : Key) → IsAllowed key.kind (length key.body) → sent.now ≡ message_of key
        → IfOk result (λ done. done.proven ≡ Some key) }
    ensures output { IfOk result (λ done. done.output.items ≡ message_of own.now) }
    ensures fault { (key : Key) → IsAllowed key.kind (length key.body) → sent.now ≡ message_of key
        → IfErr result (λ why. why ≡ ExchangeFault.OutOfMemory) }
{
    own_is_proven();
    one_outcome();
    exchange_keys(alloc, own, &[sent])
}

/// Two ends that have exchanged their keys.
#[derive(Drop)]
pub struct Both {
    pub one: PublicKey,
    pub other: PublicKey,
    /// What the one has proven to the other, and the other to the one.
    pub one_proven: Option<Proven>,
    pub other_proven: Option<Proven>,
}

/// Reads two keys and exchanges them: each end is proven the other's. Only a message that spells no key, and want of
/// memory, are refused.
pub fn prove_both(alloc: Global, one: &[u8], other: &[u8]) -> Result<Both, ExchangeFault>
    ensures keys { IfOk result (λ both. SpellsKey one.now both.one × SpellsKey other.now both.other) }
    ensures one_proven { IfOk result (λ both. both.one_proven ≡ Some both.one) }
    ensures other_proven { IfOk result (λ both. both.other_proven ≡ Some both.other) }
    ensures fault { IfErr result (λ why. (why ≡ ExchangeFault.BadKey) ⊎ (why ≡ ExchangeFault.OutOfMemory)) }
{
    let one = PublicKey::read(alloc, one)?;
    let other = PublicKey::read(alloc, other)?;
    let mut exchange = Exchange::new(alloc, &one)?;
    let sent = exchange.take_output();
    let heard = prove_to(alloc, &other, &sent)?;
    let answered = prove_to(alloc, &one, &heard.output)?;
    Ok(Both {
        one,
        other,
        one_proven: heard.proven,
        other_proven: answered.proven,
    })
}
