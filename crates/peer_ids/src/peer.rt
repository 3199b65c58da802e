//! Peer ids.

ghost use Rattle.std.specs.Prelude.{◌≡◌, ◌≤◌, ◌++◌, ◌↔◌, length, IsOk, IfOk, IfErr, string_bytes};
ghost use Rattle.peer_ids.specs.Base32.{IsIdText, id_text};
ghost use Rattle.peer_ids.specs.declared.kind.KeyType.TheVariants.{Ed25519};
ghost use Rattle.peer_ids.specs.PeerId.{id_of, canonical_of, multihash_of, IsMultihash};

use crate::base32::{are_letters, decode, encode};
use crate::fault::IdFault;
use crate::key::PublicKey;
use crate::short::Short;
use arrayvec::{ArrayString, ArrayVec};
use sha2::{Digest, Sha256};
use std::alloc::{AllocError, Global};
use std::cmp::Ordering;
use std::fmt;
use std::marker::Model;
use std::str::FromStr;
use varint_proto::spell;

/// The id of a peer: an identity or SHA2-256 multihash of at most 44 bytes (libp2p, "Peer Ids and Keys").
/// Contracts see the multihash.
#[derive(Copy, Debug, Hash)]
pub struct PeerId {
    multihash: Short,
}

impl Model for PeerId {
    ghost use Rattle.std.specs.Prelude.{List, ℕ};
    ghost use Rattle.peer_ids.specs.PeerId.{IsMultihash};

    ghost Value = { List ℕ };

    ghost view = { λ a. a.multihash };

    ghost invariant = { λ a. IsMultihash a.multihash };

    ghost inverse = { λ v. record { multihash = v } };
}

/// What stands before the data in the canonical message of a key.
fn header_of(key: &PublicKey) -> Short
    ensures fits { length result ≤ 13 }
    ensures header { result ++ key.now.body ≡ canonical_of key.now }
{
    let (spelling, len) = spell(key.body().len() as u64);
    let mut header = Short::new();
    header.push(&[8, key.kind().number(), 18]);
    header.push(&spelling[..len]);
    header
}

/// The multihash of two pieces taken as one.
fn multihash(front: &[u8], rest: &[u8]) -> Short
    requires { length front.now ≤ 42 }
    ensures value { result ≡ multihash_of (front.now ++ rest.now) }
    ensures valid { IsMultihash result }
{
    let mut multihash = Short::new();
    if rest.len() <= 42 - front.len() {
        multihash.push(&[0, (front.len() + rest.len()) as u8]);
        multihash.push(front);
        multihash.push(rest);
    } else {
        let mut hasher = Sha256::new();
        hasher.update(front);
        hasher.update(rest);
        multihash.push(&[18, 32]);
        multihash.push(&hasher.finalize());
    }
    multihash
}

ghost use Rattle.std.specs.Prelude.{◌≢◌, ◌∷◌, List, ℕ, Result, IsTrue, IfSome, IfNone};
ghost use Rattle.peer_ids.specs.declared.fault.IdFault.{IdFault};
ghost use Rattle.peer_ids.specs.ReadsText.{BytesFault, IsCount, ReadsId};

/// What stands behind the letter b.
fn behind_b(text: &[u8]) -> Option<&[u8]>
    ensures found { IfSome result (λ letters. text.now ≡ 98 ∷ letters.now) }
    ensures none { IfNone result ((letters : List ℕ) → text.now ≢ 98 ∷ letters) }
{
    match text {
        [b'b', letters @ ..] => Some(letters),
        _ => None,
    }
}

/// Whether a text has this many letters behind its b.
fn is_count(letters: usize) -> bool
    ensures { IsTrue result ↔ IsCount letters }
{
    letters <= 74 && 5 * letters % 8 < 5
}

/// The id behind the bytes 01 72.
fn id_behind(bytes: &[u8]) -> Result<PeerId, IdFault>
    ensures found { IfOk result (λ multihash. (bytes.now ≡ 1 ∷ 114 ∷ multihash) × IsMultihash multihash) }
    ensures fault { IfErr result (BytesFault bytes.now) }
{
    match bytes {
        [0x01, 0x72, multihash @ ..] => PeerId::from_bytes(multihash),
        _ => Err(IdFault::BadPrefix),
    }
}

/// The id that a text spells.
fn id_in(text: &[u8]) -> Result<PeerId, IdFault>
    ensures { ReadsId text.now result }
{
    let Some(letters) = behind_b(text) else {
        return Err(IdFault::NotB);
    };
    if !are_letters(letters) {
        return Err(IdFault::NotBase32);
    }
    if !is_count(letters.len()) {
        return Err(IdFault::BadLength);
    }
    let (bytes, len, left) = decode(letters);
    if left != 0 {
        return Err(IdFault::TrailingBits);
    }
    id_behind(&bytes[..len])
}

impl PeerId {
    /// The id of a key.
    pub fn of_key(key: &PublicKey) -> PeerId
        ensures { result ≡ id_of key.now }
    {
        let header = header_of(key);
        PeerId {
            multihash: multihash(header.as_slice(), key.body()),
        }
    }

    /// The id of the Ed25519 key of these 32 bytes: they stand in it. It takes no memory.
    pub fn of_ed25519(key: &[u8; 32]) -> PeerId
        ensures id { result ≡ id_of (record { kind = Ed25519; body = key.now }) }
        ensures bytes { result ≡ 0 ∷ 36 ∷ 8 ∷ 1 ∷ 18 ∷ 32 ∷ key.now }
    {
        PeerId {
            multihash: multihash(&[0x08, 0x01, 0x12, 0x20], key),
        }
    }

    /// The id of this multihash, or [`IdFault::BadHash`] where no peer id is that. It takes no memory.
    pub fn from_bytes(bytes: &[u8]) -> Result<PeerId, IdFault>
        ensures found { IfOk result (λ id. id ≡ bytes.now) }
        ensures exact { IsOk result ↔ IsMultihash bytes.now }
        ensures fault { IfErr result (λ fault. fault ≡ IdFault.BadHash) }
    {
        let is_multihash = match bytes {
            [0, len, digest @ ..] => *len <= 42 && digest.len() == *len as usize,
            [18, 32, digest @ ..] => digest.len() == 32,
            _ => false,
        };
        if !is_multihash {
            return Err(IdFault::BadHash);
        }
        let mut multihash = Short::new();
        multihash.push(bytes);
        Ok(PeerId { multihash })
    }

    /// The id whose text this is. Where several faults hold, the lowest is answered. It takes no memory.
    pub fn from_text(text: &str) -> Result<PeerId, IdFault>
        ensures reads { ReadsId text.now result }
        ensures only { (other : Result (List ℕ) IdFault) → ReadsId text.now other → result ≡ other }
    {
        id_in(text.as_bytes())
    }

    /// The multihash, of at most 44 bytes.
    pub fn as_bytes(&self) -> &[u8]
        ensures value { result.now ≡ self.now }
        ensures valid { IsMultihash self.now }
        ensures short { length self.now ≤ 44 }
    {
        self.multihash.as_slice()
    }

    /// The text of the id: `b`, and the base32 of `01 72` and the multihash. It takes no memory.
    fn text(&self) -> ArrayString<75>
        ensures spelt { IsIdText result.bytes self.now }
        ensures is { result.bytes ≡ id_text self.now }
    {
        let mut bytes: ArrayVec<u8, 46> = ArrayVec::new();
        bytes.push(0x01);
        bytes.push(0x72);
        match bytes.try_extend_from_slice(self.as_bytes()) {
            Ok(()) => {}
            Err(_) => unreachable!(),
        }
        let mut text = ArrayString::new();
        text.push('b');
        encode(&mut text, bytes.as_slice());
        text
    }

    /// The text of the id, on the heap, unless memory was refused.
    pub fn to_text(&self, alloc: Global) -> Result<String, AllocError>
        ensures { IfOk result (λ text. IsIdText (string_bytes text) self.now) }
    {
        String::from_str(alloc, self.text().as_str())
    }
}

/// A clone is the same id. It takes no memory.
impl Clone for PeerId {
    ghost use Rattle.std.specs.Prelude.{⊤};

    ghost is_clone = { λ id copy. copy ≡ id };

    ghost is_infallible = { λ _. ⊤ };

    fn clone(&self) -> Result<PeerId, AllocError> {
        Ok(*self)
    }
}

impl PartialEq for PeerId {
    ghost use Rattle.std.specs.Str.{bytes_eq};
    ghost use Rattle.std.proofs.Common.{rules};
    ghost use Rattle.std.specs.Cmp.Rules.{comparing};

    ghost eq = { λ a b. bytes_eq a b };

    ghost laws = { Prim.search (comparing, rules) };

    fn eq(&self, other: &PeerId) -> bool {
        self.as_bytes() == other.as_bytes()
    }
}

impl Eq for PeerId {
    ghost use Rattle.std.proofs.Common.{rules};
    ghost use Rattle.std.specs.Cmp.Rules.{comparing};

    ghost laws = { Prim.search (comparing, rules) };
}

/// Ids are ordered as their multihashes, byte by byte.
impl Ord for PeerId {
    ghost use Rattle.std.proofs.Common.{rules};
    ghost use Rattle.std.specs.Cmp.Rules.{comparing};
    ghost use Rattle.std.specs.Cmp.Lexicographic.{slice_cmp};
    ghost use Rattle.std.specs.Ordering.{nat_cmp};

    ghost cmp = { λ a b. slice_cmp nat_cmp a b };

    ghost total = { Prim.search (comparing, rules) };

    ghost matches_partial_cmp = { Prim.search (comparing, rules) };

    ghost matches_eq = { Prim.search (comparing, rules) };

    fn cmp(&self, other: &PeerId) -> Ordering {
        self.as_bytes().cmp(other.as_bytes())
    }
}

impl PartialOrd for PeerId {
    ghost use Rattle.std.proofs.Common.{rules};
    ghost use Rattle.std.specs.Cmp.Rules.{comparing};
    ghost use Rattle.std.specs.Cmp.{partial_order_from_own_ties};
    ghost use Rattle.std.specs.Cmp.Lexicographic.{slice_cmp};
    ghost use Rattle.std.specs.Ordering.{nat_cmp};
    ghost use Rattle.std.specs.Prelude.{Some};

    ghost partial_cmp = { λ a b. Some (slice_cmp nat_cmp a b) };

    ghost laws = { partial_order_from_own_ties (Prim.search (comparing, rules)) (Prim.search (comparing, rules)) };

    fn partial_cmp(&self, other: &PeerId) -> Option<Ordering> {
        Some(self.cmp(other))
    }
}

/// Prints the text of the id.
impl fmt::Display for PeerId {
    ghost use Rattle.std.specs.Prelude.{Some};
    ghost use Rattle.std.specs.Fmt.{styled_text};
    ghost use Rattle.peer_ids.specs.Base32.{id_text};

    ghost output = { λ id. Some (id_text id) };

    ghost styled_output = { λ id s. Some (styled_text s (id_text id)) };

    fn fmt<W: fmt::Write>(&self, f: &mut fmt::Formatter<W>) -> fmt::Result {
        f.pad(self.text().as_str())
    }
}

/// Reads the text of an id, as `from_text` does.
impl FromStr for PeerId {
    type Err = IdFault;

    ghost from_str_gives = { λ text result. ReadsId text result };

    fn from_str(text: &str) -> Result<PeerId, IdFault> {
        PeerId::from_text(text)
    }
}

impl Default for PeerId {
    ghost use Rattle.std.specs.Prelude.{[], ◌∷◌};

    ghost is_default = { λ id. id ≡ 0 ∷ 0 ∷ [] };

    /// The id of the empty multihash, which is no key's: a blank for tables of ids.
    fn default() -> PeerId {
        let mut multihash = Short::new();
        multihash.push(&[0, 0]);
        PeerId { multihash }
    }
}
