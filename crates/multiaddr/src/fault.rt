//! Why bytes or a text are no address.

ghost use Rattle.std.specs.Prelude.{◌≡◌};
ghost use Rattle.multiaddr.specs.declared.fault.AddrFault.TheVariants.{OutOfMemory};

use std::alloc::AllocError;
use thiserror::Error;

/// Why bytes or a text are no address, or an address has no text. `fault as u8` is its number. The first faulty
/// part from the left decides.
#[derive(Clone, Copy, Debug, PartialEq, Eq, Hash, Error)]
pub enum AddrFault {
    /// There is nothing to read.
    #[error("an address has no parts")]
    Empty = 1,
    /// A text names a protocol that isn't in the table, or an address with such a part has no text.
    #[error("an address has an unknown protocol")]
    UnknownProtocol,
    /// The bytes or the text end within a part.
    #[error("an address ends within a part")]
    Cut,
    /// A part's value isn't one of its protocol, or its code or length isn't well spelt.
    #[error("an address has a bad value")]
    BadValue,
    /// The bytes or the text could not be stored.
    #[error("out of memory")]
    OutOfMemory,
}

impl From<AllocError> for AddrFault {
    ghost from_gives = { λ _ e. e ≡ OutOfMemory };

    fn from(_e: AllocError) -> AddrFault {
        AddrFault::OutOfMemory
    }
}
