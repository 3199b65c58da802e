//! Why a key or a peer id is not read.

ghost use Rattle.std.specs.Prelude.{◌≡◌};
ghost use Rattle.peer_ids.specs.declared.fault.KeyFault.TheVariants.{Wire, OutOfMemory};

use std::alloc::AllocError;
use thiserror::Error;
use varint_proto::WireFault;

/// Why bytes are no public key. `fault as u8` is its number; of several that hold the lowest is given.
#[derive(Clone, Copy, Debug, PartialEq, Eq, Hash, Error)]
pub enum KeyFault {
    /// The bytes are no protobuf message.
    #[error("a key is no protobuf message")]
    Wire = 1,
    /// The message has no type.
    #[error("a key has no type")]
    NoType,
    /// The message has no data.
    #[error("a key has no data")]
    NoData,
    /// The type is none of the four.
    #[error("a key has an unknown type")]
    UnknownType,
    /// The data has a length that keys of this type don't have.
    #[error("a key has data of a wrong length")]
    BadLength,
    /// The key could not be stored.
    #[error("out of memory")]
    OutOfMemory,
}

impl From<WireFault> for KeyFault {
    ghost from_gives = { λ _ e. e ≡ Wire };

    fn from(_fault: WireFault) -> KeyFault {
        KeyFault::Wire
    }
}

impl From<AllocError> for KeyFault {
    ghost from_gives = { λ _ e. e ≡ OutOfMemory };

    fn from(_e: AllocError) -> KeyFault {
        KeyFault::OutOfMemory
    }
}

/// Why bytes or a text are no peer id. `fault as u8` is its number; of several that hold the lowest is given.
#[derive(Clone, Copy, Debug, PartialEq, Eq, Hash, Error)]
pub enum IdFault {
    /// The text doesn't begin with the letter b.
    #[error("a peer id doesn't begin with b")]
    NotB = 1,
    /// A letter is none of a to z and 2 to 7.
    #[error("a peer id has a letter that isn't base32")]
    NotBase32,
    /// No whole bytes give so many letters, or there are more than 74 behind the b.
    #[error("a peer id has a wrong number of letters")]
    BadLength,
    /// Unused bits of the last letter are set.
    #[error("a peer id has unused bits set")]
    TrailingBits,
    /// The bytes don't begin with 01 72, the version and the codec of a peer id.
    #[error("a peer id doesn't begin with 01 72")]
    BadPrefix,
    /// The multihash is none of a peer id.
    #[error("a peer id has no multihash of one")]
    BadHash,
}
