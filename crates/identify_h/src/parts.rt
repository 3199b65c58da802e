//! The fields of an identify message, as they lie in its bytes.

ghost use Rattle.std.specs.Prelude.{◌≡◌, List, Option, Some, None, IsSome, IfOk, IfErr, OnErr};
ghost use Rattle.std.specs.Option.{option_copied};
ghost use Rattle.varint_proto.specs.Message.{Entry, IsMessage, FaultIn, last_body, all_bodies};
ghost use Rattle.identify_h.specs.Messages.{HasText};
ghost use Rattle.identify_h.specs.Parts.{AreLast, texts, text};

use crate::fault::IdentifyFault;
use std::alloc::{AllocError, Global};
use varint_proto::{Fields, WireFault};

/// The last field of each number that may stand once.
#[derive(Clone, Copy, Debug)]
pub struct LastParts<'a> {
    pub key: Option<&'a [u8]>,
    pub observed: Option<&'a [u8]>,
    pub version: Option<&'a [u8]>,
    pub agent: Option<&'a [u8]>,
}

/// Reads those fields.
pub fn last_parts(bytes: &[u8]) -> Result<LastParts, WireFault>
    ensures found { IfOk result (λ parts. (fields : List Entry) × IsMessage bytes.now fields × AreLast fields parts) }
    ensures fault { IfErr result (FaultIn bytes.now) }
{
    let mut key = None;
    let mut observed = None;
    let mut version = None;
    let mut agent = None;
    let mut fields = Fields::new(bytes);
    'fields: while let Some(field) = fields.next()? {
        key = field.body(1).or(key);
        observed = field.body(4).or(observed);
        version = field.body(5).or(version);
        agent = field.body(6).or(agent);
    }
    Ok(LastParts {
        key,
        observed,
        version,
        agent,
    })
}

/// All bodies of a number in a message, in order.
pub fn bodies(alloc: Global, bytes: &[u8], number: u32) -> Result<Vec<Vec<u8>>, IdentifyFault>
    ensures found { IfOk result (λ list. (fields : List Entry) → IsMessage bytes.now fields
        → texts list.items ≡ all_bodies number fields) }
    ensures memory { IfErr result (λ fault. (fields : List Entry) → IsMessage bytes.now fields
        → (fault ≡ IdentifyFault.OutOfMemory) × IsSome (last_body number fields)) }
{
    let mut list = Vec::new(alloc);
    let mut fields = Fields::new(bytes);
    'fields: while let Some(field) = fields.next()? {
        if let Some(body) = field.body(number) {
            list.push(Vec::from_slice(alloc, body)?)?;
        }
    }
    Ok(list)
}

/// A copy of a part that is there. An empty one takes no memory.
pub fn owned(alloc: Global, part: Option<&[u8]>) -> Result<Option<Vec<u8>>, AllocError>
    ensures copy { IfOk result (λ copy. text copy ≡ option_copied part.entry) }
    ensures memory { OnErr result (HasText (option_copied part.entry)) }
{
    match part {
        None => Ok(None),
        Some(bytes) => {
            let mut copy = Vec::new(alloc);
            copy.extend_from_slice(bytes)?;
            Ok(Some(copy))
        }
    }
}
