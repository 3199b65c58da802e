//! Why an exchange fails.

ghost use Rattle.std.specs.Prelude.{◌≡◌};
ghost use Rattle.peer_ids.specs.declared.fault.KeyFault.{KeyFault};
ghost use Rattle.varint_proto.specs.declared.fault.IncomingRefused.{IncomingRefused};
ghost use Rattle.plaintext_x.specs.declared.fault.ExchangeFault.TheVariants.{Wire, OutOfMemory};
ghost use Rattle.plaintext_x.specs.Exchange.{of_key_fault, of_refused};

use peer_ids::KeyFault;
use std::alloc::{AllocError, AllocFailed};
use thiserror::Error;
use varint_proto::{IncomingRefused, WireFault};

/// Why an exchange fails. `fault as u8` is its number; of several that hold the lowest is given.
#[derive(Clone, Copy, Debug, PartialEq, Eq, Hash, Error)]
pub enum ExchangeFault {
    /// A call after a fault.
    #[error("the exchange failed before")]
    Failed = 1,
    /// The message is longer than 8192 bytes.
    #[error("the message is too long")]
    TooLong,
    /// The length or the message is badly spelt.
    #[error("the message is badly spelt")]
    Wire,
    /// The message has no id.
    #[error("the message has no id")]
    NoId,
    /// The message has no key.
    #[error("the message has no key")]
    NoKey,
    /// The key isn't read.
    #[error("the key is not read")]
    BadKey,
    /// The id isn't that of the key.
    #[error("the id is not that of the key")]
    Differs,
    /// A growth was refused.
    #[error("out of memory")]
    OutOfMemory,
}

impl From<WireFault> for ExchangeFault {
    ghost from_gives = { λ _ e. e ≡ Wire };

    fn from(_fault: WireFault) -> ExchangeFault {
        ExchangeFault::Wire
    }
}

impl From<IncomingRefused> for ExchangeFault {
    ghost from_gives = { λ refused e. e ≡ of_refused refused };

    fn from(refused: IncomingRefused) -> ExchangeFault {
        match refused {
            IncomingRefused::Failed => ExchangeFault::Failed,
            IncomingRefused::BadLength => ExchangeFault::Wire,
            IncomingRefused::TooLong => ExchangeFault::TooLong,
            IncomingRefused::OutOfMemory => ExchangeFault::OutOfMemory,
        }
    }
}

impl From<KeyFault> for ExchangeFault {
    ghost from_gives = { λ fault e. e ≡ of_key_fault fault };

    fn from(fault: KeyFault) -> ExchangeFault {
        match fault {
            KeyFault::OutOfMemory => ExchangeFault::OutOfMemory,
            _ => ExchangeFault::BadKey,
        }
    }
}

impl From<AllocError> for ExchangeFault {
    ghost from_gives = { λ _ e. e ≡ OutOfMemory };

    fn from(_e: AllocError) -> ExchangeFault {
        ExchangeFault::OutOfMemory
    }
}

impl<T: Drop> From<AllocFailed<T>> for ExchangeFault {
    ghost from_gives = { λ _ e. e ≡ OutOfMemory };

    fn from(_e: AllocFailed<T>) -> ExchangeFault {
        ExchangeFault::OutOfMemory
    }
}
