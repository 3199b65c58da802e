//! The identify message.

ghost use Rattle.std.specs.Prelude.{◌≡◌, ◌≢◌, ◌⊎◌, ◌++◌, ◌<◌, ◌+◌, ◌*◌, ◌^◌, ◌-◌, Option, Some, None, Ok};
ghost use Rattle.std.specs.Prelude.{Err, IsSome, IfOk, IfErr, OnOk, OnErr, length, min, []};
ghost use Rattle.std.specs.Option.{option_map};
ghost use Rattle.std.specs.List.{flat_map};
ghost use Rattle.varint_proto.specs.declared.fault.WireFault.{WireFault};
ghost use Rattle.varint_proto.specs.Message.{FaultIn, shortest_field, IsTag};
ghost use Rattle.peer_ids.specs.PeerId.{canonical_of};
ghost use Rattle.identify_h.specs.Messages.{Message, IsKeyOf, RefusesKeyOf, Spells, Refuses, HasBadKey, SaysSomething};
ghost use Rattle.identify_h.specs.Messages.{written, body_if, bodies_of, merged, newer_list};
ghost use Rattle.identify_h.specs.Parts.{texts, text};

use crate::fault::IdentifyFault;
use crate::parts::{bodies, last_parts, owned};
use peer_ids::{PeerId, PublicKey};
use std::alloc::{AllocError, Global};
use std::marker::Model;
use varint_proto::{field_len, write_body};

/// What a node says of itself. Texts and addresses are kept as bytes, and are not parsed. Contracts see the lists and
/// the bytes.
#[derive(Debug, Drop)]
pub struct Identify {
    /// The node's public key.
    pub key: Option<PublicKey>,
    /// The addresses that it listens on, as multiaddr bytes.
    pub listen: Vec<Vec<u8>>,
    /// The names of its protocols.
    pub protocols: Vec<Vec<u8>>,
    /// The other end's address, as the node sees it.
    pub observed: Option<Vec<u8>>,
    /// The version of its protocols, such as `ipfs/0.1.0`.
    pub version: Option<Vec<u8>>,
    /// The name and version of its program.
    pub agent: Option<Vec<u8>>,
}

impl Model for Identify {
    ghost use Rattle.identify_h.specs.Messages.{Message};
    ghost use Rattle.identify_h.specs.Parts.{texts, text};

    ghost Value = { Message };

    ghost view = { λ i. record {
      key = i.key;
      listen = texts i.listen.items;
      protocols = texts i.protocols.items;
      observed = text i.observed;
      version = text i.version;
      agent = text i.agent;
    } };
}

/// The key that a message spells, where it is that of the peer.
fn own_key(alloc: Global, bytes: &[u8], peer: PeerId) -> Result<PublicKey, IdentifyFault>
    ensures key { IfOk result (λ key. IsKeyOf peer (Some bytes.now) (Some key)) }
    ensures fault { IfErr result (RefusesKeyOf peer bytes.now) }
{
    let key = PublicKey::read(alloc, bytes)?;
    if PeerId::of_key(&key) != peer {
        return Err(IdentifyFault::OtherKey);
    }
    Ok(key)
}

/// Appends the field where it is there.
fn write_if(body: &mut Vec<u8>, number: u32, part: &Option<Vec<u8>>) -> Result<(), AllocError>
    requires { IsTag (8 * number + 2) }
    ensures written { OnOk result (body.new.items
        ≡ body.old.items ++ flat_map shortest_field (body_if number (text part.now))) }
    ensures memory { OnErr result (IsSome (text part.now)) }
{
    match part {
        None => Ok(()),
        Some(bytes) => write_body(body, number, bytes),
    }
}

/// Appends a field for each entry.
fn write_all(body: &mut Vec<u8>, number: u32, list: &[Vec<u8>]) -> Result<(), AllocError>
    requires { IsTag (8 * number + 2) }
    ensures written { OnOk result (body.new.items
        ≡ body.old.items ++ flat_map shortest_field (bodies_of number (texts list.now))) }
    ensures memory { OnErr result (texts list.now ≢ []) }
{
    for bytes in list {
        write_body(body, number, bytes)?;
    }
    Ok(())
}

/// How many bytes the field of the key has where it is there.
fn key_len(key: &Option<PublicKey>) -> usize
    ensures { result ≡ length (flat_map shortest_field (body_if 1 (option_map canonical_of key.now))) }
{
    match key {
        None => 0,
        // Its type is one byte, behind a tag of one byte.
        Some(key) => field_len(1, 2 + field_len(2, key.body().len())),
    }
}

/// How many bytes the field has where it is there.
fn len_if(number: u32, part: &Option<Vec<u8>>) -> usize
    requires { IsTag (8 * number + 2) }
    ensures { result ≡ length (flat_map shortest_field (body_if number (text part.now))) }
{
    match part {
        None => 0,
        Some(bytes) => field_len(number, bytes.len()),
    }
}

/// How many bytes the fields of the entries have, `usize::MAX` where there are more.
fn len_of_all(number: u32, list: &[Vec<u8>]) -> usize
    requires { IsTag (8 * number + 2) }
    ensures { result ≡ min (length (flat_map shortest_field (bodies_of number (texts list.now)))) (2 ^ 64 - 1) }
{
    let mut len = 0usize;
    for bytes in list {
        len = len.saturating_add(field_len(number, bytes.len()));
    }
    len
}

impl Identify {
    /// Reads the bodies of an identify stream, joined. A key that is there must be that of the connection's peer.
    pub fn read(alloc: Global, bytes: &[u8], peer: PeerId) -> Result<Identify, IdentifyFault>
        ensures found { IfOk result (Spells peer bytes.now) }
        ensures fault { IfErr result (Refuses peer bytes.now) }

        // The message that they spell, unless memory runs out, and no other, and the fault that they have.
        ensures only_message { (m : Message) → Spells peer bytes.now m
            → (result ≡ Ok m) ⊎ (result ≡ Err IdentifyFault.OutOfMemory) }
        ensures only_wire { (fault : WireFault) → FaultIn bytes.now fault → result ≡ Err IdentifyFault.Wire }
        ensures only_key { Refuses peer bytes.now IdentifyFault.OtherKey
            → (result ≡ Err IdentifyFault.OtherKey) ⊎ (result ≡ Err IdentifyFault.OutOfMemory) }
        // Memory is asked for a key that is well spelt, so its want never stands for one that isn't.
        ensures only_bad_key { HasBadKey bytes.now → result ≡ Err IdentifyFault.OtherKey }
    {
        Identify::read_in(alloc, bytes, peer)
    }

    fn read_in(alloc: Global, bytes: &[u8], peer: PeerId) -> Result<Identify, IdentifyFault>
        ensures found { IfOk result (Spells peer bytes.now) }
        ensures fault { IfErr result (Refuses peer bytes.now) }
    {
        let parts = last_parts(bytes)?;
        let key = match parts.key {
            None => None,
            Some(spelling) => Some(own_key(alloc, spelling, peer)?),
        };
        let listen = bodies(alloc, bytes, 2)?;
        let protocols = bodies(alloc, bytes, 3)?;
        let observed = owned(alloc, parts.observed)?;
        let version = owned(alloc, parts.version)?;
        let agent = owned(alloc, parts.agent)?;
        Ok(Identify {
            key,
            listen,
            protocols,
            observed,
            version,
            agent,
        })
    }

    /// The body of the message that says this, without its length: the fields that are there, by rising number, each in
    /// its shortest spelling.
    pub fn write(&self) -> Result<Vec<u8>, AllocError>
        ensures written { IfOk result (λ body. body.items ≡ written self.now) }
        // What says nothing asks for none.
        ensures memory { OnErr result (SaysSomething self.now) }
    {
        let mut body = Vec::new(*self.listen.allocator());
        self.append_to(&mut body)?;
        Ok(body)
    }

    /// Appends that body.
    pub(crate) fn append_to(&self, out: &mut Vec<u8>) -> Result<(), AllocError>
        ensures written { OnOk result (out.new.items ≡ out.old.items ++ written self.now) }
        ensures memory { OnErr result (SaysSomething self.now) }
    {
        if let Some(key) = &self.key {
            write_body(out, 1, &key.canonical()?)?;
        }
        write_all(out, 2, &self.listen)?;
        write_all(out, 3, &self.protocols)?;
        write_if(out, 4, &self.observed)?;
        write_if(out, 5, &self.version)?;
        write_if(out, 6, &self.agent)
    }

    /// How many bytes that body has, `usize::MAX` where there are more. Takes no memory.
    pub(crate) fn written_len(&self) -> usize
        ensures { result ≡ min (length (written self.now)) (2 ^ 64 - 1) }
    {
        key_len(&self.key)
            .saturating_add(len_of_all(2, &self.listen))
            .saturating_add(len_of_all(3, &self.protocols))
            .saturating_add(len_if(4, &self.observed))
            .saturating_add(len_if(5, &self.version))
            .saturating_add(len_if(6, &self.agent))
    }

    /// What is known once a push has come: each field of the push that is there, else the known one. A list without
    /// entries isn't there. Takes no memory.
    pub fn merged_with(self, push: Identify) -> Identify
        ensures { result ≡ merged self push }
    {
        Identify {
            key: push.key.or(self.key),
            listen: newer(self.listen, push.listen),
            protocols: newer(self.protocols, push.protocols),
            observed: push.observed.or(self.observed),
            version: push.version.or(self.version),
            agent: push.agent.or(self.agent),
        }
    }
}

/// The newer list, where it has entries.
fn newer(known: Vec<Vec<u8>>, pushed: Vec<Vec<u8>>) -> Vec<Vec<u8>>
    ensures { texts result.items ≡ newer_list (texts known.items) (texts pushed.items) }
{
    if pushed.is_empty() { known } else { pushed }
}
