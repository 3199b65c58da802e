//! Why identify fails.

ghost use Rattle.std.specs.Prelude.{◌≡◌};
ghost use Rattle.identify_h.specs.declared.fault.IdentifyFault.TheVariants.{Wire, OutOfMemory};
ghost use Rattle.identify_h.specs.Faults.{number_of, of_key_fault, of_incoming};

use handlers::HandlerFault;
use peer_ids::KeyFault;
use std::alloc::{AllocError, AllocFailed};
use thiserror::Error;
use varint_proto::{IncomingRefused, WireFault};

/// Why identify fails. `fault as u8` is its number, which is that of the handler's fault.
#[derive(Clone, Copy, Debug, PartialEq, Eq, Hash, Error)]
pub enum IdentifyFault {
    /// A call after a fault, or bytes or an end behind the end.
    #[error("identify failed or ended before")]
    Failed = 1,
    /// The bodies have more than 16384 bytes together.
    #[error("the messages are too long")]
    TooLong,
    /// There are more than 10 messages.
    #[error("there are too many messages")]
    TooMany,
    /// A length, or the joined bodies, are badly spelt.
    #[error("a message is badly spelt")]
    Wire,
    /// The key isn't read, or isn't that of the connection's peer.
    #[error("the key is not that of the peer")]
    OtherKey,
    /// The stream ended before the first message or within one.
    #[error("the stream ended within a message")]
    Cut,
    /// A growth was refused.
    #[error("out of memory")]
    OutOfMemory,
}

/// The handler's fault of this number.
pub(crate) fn failing(fault: IdentifyFault) -> HandlerFault
    ensures { result.number ≡ number_of fault }
{
    HandlerFault {
        number: fault as u8,
    }
}

impl From<WireFault> for IdentifyFault {
    ghost from_gives = { λ _ e. e ≡ Wire };

    fn from(_fault: WireFault) -> IdentifyFault {
        IdentifyFault::Wire
    }
}

impl From<KeyFault> for IdentifyFault {
    ghost from_gives = { λ fault e. e ≡ of_key_fault fault };

    fn from(fault: KeyFault) -> IdentifyFault {
        match fault {
            KeyFault::OutOfMemory => IdentifyFault::OutOfMemory,
            _ => IdentifyFault::OtherKey,
        }
    }
}

impl From<IncomingRefused> for IdentifyFault {
    ghost from_gives = { λ refused e. e ≡ of_incoming refused };

    fn from(refused: IncomingRefused) -> IdentifyFault {
        match refused {
            IncomingRefused::Failed => IdentifyFault::Failed,
            IncomingRefused::BadLength => IdentifyFault::Wire,
            IncomingRefused::TooLong => IdentifyFault::TooLong,
            IncomingRefused::OutOfMemory => IdentifyFault::OutOfMemory,
        }
    }
}

impl From<AllocError> for IdentifyFault {
    ghost from_gives = { λ _ e. e ≡ OutOfMemory };

    fn from(_e: AllocError) -> IdentifyFault {
        IdentifyFault::OutOfMemory
    }
}

impl<T: Drop> From<AllocFailed<T>> for IdentifyFault {
    ghost from_gives = { λ _ e. e ≡ OutOfMemory };

    fn from(_e: AllocFailed<T>) -> IdentifyFault {
        IdentifyFault::OutOfMemory
    }
}
