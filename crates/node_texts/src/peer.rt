//! `node id` and `node hash`: from the bytes of a key to the text of its id, and back to the multihash.

ghost use Rattle.std.specs.Prelude.{◌≡◌, ◌≢◌, ◌↔◌, ◌%◌, ℕ, List, length, Ok, Err, IsTrue, IfOk, string_bytes};
ghost use Rattle.std.specs.List.{AllPass};
ghost use Rattle.std.specs.Char.{is_ascii_hexdigit};
ghost use Rattle.hex.specs.Hex.{decode_of, encode_lower};
ghost use Rattle.peer_ids.specs.Base32.{IsIdText};
ghost use Rattle.peer_ids.specs.PeerId.{id_of};
ghost use Rattle.peer_ids.specs.Key.{Key};
ghost use Rattle.peer_ids.specs.ReadsKey.{SpellsKey, RefusesKey};
ghost use Rattle.peer_ids.specs.ReadsText.{ReadsId};

use peer_ids::{IdFault, KeyFault, PeerId, PublicKey};
use std::alloc::{AllocError, Global};
use thiserror::Error;

/// Why a key message in hexadecimal has no id text.
#[derive(Clone, Copy, Debug, PartialEq, Eq, Error)]
pub enum IdRefused {
    /// The text isn't pairs of hexadecimal digits.
    #[error("NotHex")]
    NotHex,
    /// The bytes are no key.
    #[error("{0:?}")]
    Key(KeyFault),
    /// The bytes or the text could not be stored.
    #[error("OutOfMemory")]
    OutOfMemory,
}

/// Why a text has no multihash in hexadecimal.
#[derive(Clone, Copy, Debug, PartialEq, Eq, Error)]
pub enum HashRefused {
    /// The text is no peer id.
    #[error("{0:?}")]
    Id(IdFault),
    /// The digits could not be stored.
    #[error("OutOfMemory")]
    OutOfMemory,
}

/// Whether a text is pairs of hexadecimal digits. It takes no memory.
pub fn are_pairs(hex: &str) -> bool
    ensures pairs { IsTrue result ↔ ((length hex.now % 2 ≡ 0) × AllPass is_ascii_hexdigit hex.now) }
{
    hex.len() % 2 == 0 && hex.bytes().all(|byte| byte.is_ascii_hexdigit())
}

/// The key that a message in hexadecimal spells. Memory is asked for only where the text is hexadecimal: for the
/// message, so that its want comes before a fault of the key, then for the key.
pub fn key_of(alloc: Global, hex: &str) -> Result<PublicKey, IdRefused>
    ensures found { IfOk result (λ key. (bytes : List ℕ) × (decode_of hex.now ≡ Ok bytes) × SpellsKey bytes key) }
    ensures not_hex { (result ≡ Err IdRefused.NotHex) ↔ ((bytes : List ℕ)
        → ¬ (decode_of hex.now ≡ Ok bytes)) }
    ensures no_key { (fault : KeyFault) → result ≡ Err (IdRefused.Key fault) → (fault ≢ KeyFault.OutOfMemory)
        × (bytes : List ℕ) × (decode_of hex.now ≡ Ok bytes) × RefusesKey bytes fault }
    ensures memory { result ≡ Err IdRefused.OutOfMemory → (bytes : List ℕ) × (decode_of hex.now ≡ Ok bytes) }
{
    if !are_pairs(hex) {
        return Err(IdRefused::NotHex);
    }
    let Ok(bytes) = hex::decode(alloc, hex) else {
        return Err(IdRefused::OutOfMemory);
    };
    match PublicKey::read(alloc, &bytes) {
        Ok(key) => Ok(key),
        Err(KeyFault::OutOfMemory) => Err(IdRefused::OutOfMemory),
        Err(fault) => Err(IdRefused::Key(fault)),
    }
}

/// The text of the id of the key that a message in hexadecimal spells. Memory is asked for only where the text is
/// hexadecimal: for the message, so that its want comes before a fault of the key, then for the key, then for the text.
pub fn id_text(alloc: Global, hex: &str) -> Result<String, IdRefused>
    ensures found { IfOk result (λ text. (bytes : List ℕ) × (key : Key) × (decode_of hex.now ≡ Ok bytes)
        × SpellsKey bytes key
        × IsIdText (string_bytes text) (id_of key)) }
    ensures not_hex { (result ≡ Err IdRefused.NotHex) ↔ ((bytes : List ℕ)
        → ¬ (decode_of hex.now ≡ Ok bytes)) }
    ensures no_key { (fault : KeyFault) → result ≡ Err (IdRefused.Key fault) → (fault ≢ KeyFault.OutOfMemory)
        × (bytes : List ℕ) × (decode_of hex.now ≡ Ok bytes) × RefusesKey bytes fault }
    ensures memory { result ≡ Err IdRefused.OutOfMemory → (bytes : List ℕ) × (decode_of hex.now ≡ Ok bytes) }
{
    let key = key_of(alloc, hex)?;
    match PeerId::of_key(&key).to_text(alloc) {
        Ok(text) => Ok(text),
        Err(AllocError) => Err(IdRefused::OutOfMemory),
    }
}

/// The multihash of the id whose text this is, in hexadecimal. Memory is asked for only for the digits.
pub fn hash_hex(alloc: Global, text: &str) -> Result<String, HashRefused>
    ensures found { IfOk result (λ digits. (multihash : List ℕ) × ReadsId text.now (Ok multihash)
        × (string_bytes digits ≡ encode_lower multihash)) }
    ensures refused { (fault : IdFault) → (result ≡ Err (HashRefused.Id fault)) ↔ ReadsId text.now (Err fault) }
    ensures memory { result ≡ Err HashRefused.OutOfMemory → (multihash : List ℕ)
        × ReadsId text.now (Ok multihash) }
{
    let id = match PeerId::from_text(text) {
        Ok(id) => id,
        Err(fault) => return Err(HashRefused::Id(fault)),
    };
    match hex::encode(alloc, id.as_bytes()) {
        Ok(digits) => Ok(digits),
        Err(AllocError) => Err(HashRefused::OutOfMemory),
    }
}
