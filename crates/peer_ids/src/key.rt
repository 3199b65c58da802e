//! Public keys.

ghost use Rattle.std.specs.Prelude.{◌≡◌, ◌≢◌, ◌⊎◌, ◌↔◌, ◌<◌, List, length, vec_len, IsSome, IfSome, IfOk, IfErr};
ghost use Rattle.std.specs.Option.{option_copied};
ghost use Rattle.varint_proto.specs.declared.fault.WireFault.{WireFault};
ghost use Rattle.varint_proto.specs.Message.{Entry, IsMessage, FaultIn, last_varint, last_body};

use crate::fault::KeyFault;
use crate::kind::KeyType;
use std::alloc::{AllocError, Global};
use std::marker::Model;
use varint_proto::{Fields, WireFault, write_body, write_number};

/// A public key. Its data has a length that its type allows.
#[derive(Debug)]
pub struct PublicKey {
    kind: KeyType,
    body: Vec<u8>,
}

// By hand, so that the proof of who lets go of it is that of a call, and not of all that it holds.
impl Drop for PublicKey {
    fn drop(self) {
        let Self {
            kind: _,
            body: _body,
        } = self;
    }
}

impl Model for PublicKey {
    ghost use Rattle.std.specs.Prelude.{length};
    ghost use Rattle.peer_ids.specs.Key.{Key, IsAllowed};

    ghost Value = { Key };

    ghost view = { λ a. record { kind = a.kind; body = a.body.items } };

    ghost invariant = { λ a. IsAllowed a.kind (length a.body.items) };
}

/// The last type and the last data of a message.
fn last_parts(bytes: &[u8]) -> Result<(Option<u64>, Option<&[u8]>), WireFault>
    ensures found { IfOk result (λ parts. (fields : List Entry) × IsMessage bytes.now fields
        × (parts.0 ≡ last_varint 1 fields) × (option_copied parts.1 ≡ last_body 2 fields)) }
    ensures fault { IfErr result (FaultIn bytes.now) }
{
    let mut kind = None;
    let mut body = None;
    let mut fields = Fields::new(bytes);
    while let Some(field) = fields.next()? {
        kind = field.varint(1).or(kind);
        body = field.body(2).or(body);
    }
    Ok((kind, body))
}

ghost use Rattle.peer_ids.specs.Key.{Key, IsAllowed};
ghost use Rattle.peer_ids.specs.ReadsKey.{SpellsKey, RefusesKey};
ghost use Rattle.peer_ids.specs.declared.fault.KeyFault.{KeyFault};
ghost use Rattle.peer_ids.specs.PeerId.{canonical_of};

/// The key that a message spells.
fn key_in(alloc: Global, bytes: &[u8]) -> Result<PublicKey, KeyFault>
    ensures found { IfOk result (SpellsKey bytes.now) }
    ensures fault { IfErr result (RefusesKey bytes.now) }
{
    let (number, body) = last_parts(bytes)?;
    let number = number.ok_or(KeyFault::NoType)?;
    let body = body.ok_or(KeyFault::NoData)?;
    let kind = KeyType::from_number(number).ok_or(KeyFault::UnknownType)?;
    if !kind.allows(body.len()) {
        return Err(KeyFault::BadLength);
    }
    let body = Vec::from_slice(alloc, body)?;
    Ok(PublicKey { kind, body })
}

impl PublicKey {
    /// The key of this type with this data, or `None` where a key of this type has no data of that length.
    pub fn new(kind: KeyType, body: Vec<u8>) -> Option<PublicKey>
        ensures allowed { IsSome result ↔ IsAllowed kind (vec_len body) }
        ensures parts { IfSome result (λ key. (key.kind ≡ kind) × (key.body ≡ body.items)) }
    {
        if !kind.allows(body.len()) {
            return None;
        }
        Some(PublicKey { kind, body })
    }

    /// The Ed25519 key of these 32 bytes, unless memory was refused.
    pub fn ed25519(alloc: Global, bytes: &[u8; 32]) -> Result<PublicKey, AllocError>
        ensures { IfOk result (λ key. (key.kind ≡ KeyType.Ed25519) × (key.body ≡ bytes.now)) }
    {
        let body = Vec::from_slice(alloc, bytes)?;
        Ok(PublicKey {
            kind: KeyType::Ed25519,
            body,
        })
    }

    /// Reads a key message. Where several faults hold, the lowest is answered.
    pub fn read(alloc: Global, bytes: &[u8]) -> Result<PublicKey, KeyFault>
        ensures found { IfOk result (SpellsKey bytes.now) }
        ensures fault { IfErr result (RefusesKey bytes.now) }

        // The key that they spell, unless memory runs out, and no other, and the fault that they have.
        ensures only_key { (key : Key) → SpellsKey bytes.now key
            → (result ≡ Ok key) ⊎ (result ≡ Err KeyFault.OutOfMemory) }
        ensures only_fault { (fault : KeyFault) → fault ≢ KeyFault.OutOfMemory
            → RefusesKey bytes.now fault → result ≡ Err fault }
    {
        key_in(alloc, bytes)
    }

    /// The type of the key.
    pub fn kind(&self) -> KeyType
        ensures { result ≡ self.now.kind }
    {
        self.kind
    }

    /// The data of the key: 32 bytes of an Ed25519 key, else 1 to 4096 bytes.
    pub fn body(&self) -> &[u8]
        ensures { result.now ≡ self.now.body }
    {
        &self.body
    }

    /// The canonical key message of this key, unless memory was refused.
    pub fn canonical(&self) -> Result<Vec<u8>, AllocError>
        ensures { IfOk result (λ bytes. bytes.items ≡ canonical_of self.now) }
    {
        let mut out = Vec::new(*self.body.allocator());
        write_number(&mut out, 1, u64::from(self.kind.number()))?;
        write_body(&mut out, 2, &self.body)?;
        Ok(out)
    }
}
