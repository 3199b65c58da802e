//! Messages as tests write them down.

use identify_h::*;
use peer_ids::{KeyType, PeerId, PublicKey};
use std::alloc::{AllocError, Global};

/// Parts, each so often.
pub type Parts<'a> = &'a [(usize, &'a [u8])];

/// What a message says: its key has so many bytes of 7, a list has a part for each entry, and a text is parts, joined.
#[derive(Clone, Copy)]
pub struct Said<'a> {
    pub key: Option<(KeyType, usize)>,
    pub listen: Parts<'a>,
    pub protocols: Parts<'a>,
    pub observed: Option<Parts<'a>>,
    pub version: Option<Parts<'a>>,
    pub agent: Option<Parts<'a>>,
}

/// Nothing is said.
pub const NOTHING: Said<'static> = Said {
    key: None,
    listen: &[],
    protocols: &[],
    observed: None,
    version: None,
    agent: None,
};

/// Version abc and agent x, and nothing else.
pub const ABC_X: Said<'static> = Said {
    version: Some(&[(1, b"abc")]),
    agent: Some(&[(1, b"x")]),
    ..NOTHING
};

/// All but version and agent is said. The body of this alone has 70 bytes.
pub const MOST: Said<'static> = Said {
    key: Some((KeyType::Ed25519, 32)),
    listen: &[(1, &[4, 127, 0, 0, 1]), (1, &[])],
    protocols: &[(1, b"/ipfs/ping/1.0.0")],
    observed: Some(&[(1, &[6, 0, 80])]),
    ..NOTHING
};

/// The parts, each as often as it is to stand, in one.
pub fn joined(alloc: Global, parts: Parts) -> Result<Vec<u8>, AllocError> {
    let mut all = Vec::new(alloc);
    for (times, bytes) in parts {
        for _ in 0..*times {
            all.extend_from_slice(*bytes)?;
        }
    }
    Ok(all)
}

/// The same, each an entry of its own.
pub fn entries(alloc: Global, parts: Parts) -> Result<Vec<Vec<u8>>, AllocError> {
    let mut all = Vec::new(alloc);
    for (times, bytes) in parts {
        for _ in 0..*times {
            all.push(Vec::from_slice(alloc, *bytes)?)?;
        }
    }
    Ok(all)
}

/// The parts in one, where there are any.
pub fn text(alloc: Global, parts: Option<Parts>) -> Result<Option<Vec<u8>>, AllocError> {
    match parts {
        Some(parts) => Ok(Some(joined(alloc, parts)?)),
        None => Ok(None),
    }
}

/// A key of this type and length, all bytes 7.
pub fn key(alloc: Global, kind: KeyType, len: usize) -> Option<PublicKey> {
    PublicKey::new(kind, vec![in alloc; 7u8; len].ok()?)
}

/// Puts what came into its place, if it came. What stood there is let go of here alone, whatever it is.
fn put<T: Drop>(place: &mut T, came: Option<T>) -> bool {
    match came {
        Some(came) => {
            *place = came;
            true
        }
        None => false,
    }
}

fn say_key(alloc: Global, message: &mut Identify, said: &Said) -> bool {
    match said.key {
        Some((kind, len)) => {
            message.key = key(alloc, kind, len);
            message.key.is_some()
        }
        None => true,
    }
}

/// Puts what is said into the message, and answers whether memory was there.
pub fn say(alloc: Global, message: &mut Identify, said: &Said) -> bool {
    let are_listed = put(&mut message.listen, entries(alloc, said.listen).ok())
        && put(&mut message.protocols, entries(alloc, said.protocols).ok());
    let is_observed = put(&mut message.observed, text(alloc, said.observed).ok());
    let is_version = put(&mut message.version, text(alloc, said.version).ok());
    let is_agent = put(&mut message.agent, text(alloc, said.agent).ok());
    say_key(alloc, message, said) && are_listed && is_observed && is_version && is_agent
}

/// There is none where memory is wanting, or a key of this length.
pub fn message(alloc: Global, said: &Said) -> Option<Identify> {
    let mut message = Identify {
        key: None,
        listen: Vec::new(alloc),
        protocols: Vec::new(alloc),
        observed: None,
        version: None,
        agent: None,
    };
    if say(alloc, &mut message, said) {
        Some(message)
    } else {
        None
    }
}

/// Whose message this is: where it has no key, it may be anybody's.
pub fn peer_of(message: &Identify) -> PeerId {
    match &message.key {
        Some(key) => PeerId::of_key(key),
        None => PeerId::of_ed25519(&[1; 32]),
    }
}

/// Whether both are written alike. What is written says one message alone.
pub fn is_same(one: &Identify, other: &Identify) -> bool {
    match (one.write(), other.write()) {
        (Ok(one), Ok(other)) => one == other,
        _ => false,
    }
}

/// Whether these bytes are the parts.
pub fn is_joined(alloc: Global, bytes: &[u8], parts: Parts) -> bool {
    match joined(alloc, parts) {
        Ok(all) => all.as_slice() == bytes,
        Err(_) => false,
    }
}

/// Whether what was made, if it was, holds. Whatever it is, it is let go of here alone: else each function that owns it
/// has to prove that of each way out.
pub fn lent<T: Drop, F: FnOnce(&T) -> bool + Drop>(made: Option<T>, holds: F) -> bool
    requires { F.IsAlwaysCallable holds }
{
    match made {
        Some(made) => holds(&made),
        None => false,
    }
}
