//! What a node says of itself.

ghost use Rattle.std.specs.Prelude.{◌≡◌, ◌<◌, ◌+◌, ◌-◌, ◌^◌, length, min, IfOk};
ghost use Rattle.varint_proto.specs.Message.{shortest_field, entry, Bytes};
ghost use Rattle.peer_ids.specs.PeerId.{canonical_of};
ghost use Rattle.identify_h.specs.Messages.{written};
ghost use Rattle.identify_h.specs.Parts.{texts};
ghost use Rattle.node_protocols.specs.Own.{protocol_names, own_message};

use crate::names::{IDENTIFY, NAMES, PING, PUSH, VERSION};
use identify_h::Identify;
use peer_ids::PublicKey;
use std::alloc::{AllocError, Global};
use varint_proto::field_len;

/// How many bytes the field of the key has.
fn key_len(key: &PublicKey) -> usize
    ensures { result ≡ length (shortest_field (entry 1 (Bytes (canonical_of key.now)))) }
{
    // Its type is one byte, behind a tag of one byte.
    field_len(1, 2 + field_len(2, key.body().len()))
}

/// How many bytes the fields of the names and of the version have.
const FIXED_LEN: usize = 67;

/// How many bytes the message of this key and agent has, `usize::MAX` where there are more.
pub(crate) fn own_len(key: &PublicKey, agent: &str) -> usize
    ensures { result ≡ min (length (written (own_message key.now agent.now))) (2 ^ 64 - 1) }
{
    key_len(key)
        .saturating_add(FIXED_LEN)
        .saturating_add(field_len(6, agent.len()))
}

/// The names of a node's protocols.
fn own_names(alloc: Global) -> Result<Vec<Vec<u8>>, AllocError>
    ensures { IfOk result (λ names. texts names.items ≡ protocol_names) }
{
    let identify = Vec::from_slice(alloc, NAMES[IDENTIFY].as_bytes())?;
    let push = Vec::from_slice(alloc, NAMES[PUSH].as_bytes())?;
    let ping = Vec::from_slice(alloc, NAMES[PING].as_bytes())?;
    Ok(Vec::from_array(alloc, [identify, push, ping])?)
}

/// The message of this key and agent.
pub(crate) fn own_identify(
    alloc: Global,
    key: PublicKey,
    agent: &str,
) -> Result<Identify, AllocError>
    ensures { IfOk result (λ own. own ≡ own_message key agent.now) }
{
    let protocols = own_names(alloc)?;
    let version = Vec::from_slice(alloc, VERSION.as_bytes())?;
    let agent = Vec::from_slice(alloc, agent.as_bytes())?;
    Ok(Identify {
        key: Some(key),
        listen: Vec::new(alloc),
        protocols,
        observed: None,
        version: Some(version),
        agent: Some(agent),
    })
}
