//! Why a negotiation fails.

ghost use Rattle.std.specs.Prelude.{◌≡◌};
ghost use Rattle.ms_select.specs.declared.fault.SelectFault.TheVariants.{OutOfMemory};
ghost use Rattle.varint_proto.specs.declared.fault.IncomingRefused.{IncomingRefused};
ghost use Rattle.ms_select.specs.Messages.{of_refused};

use std::alloc::{AllocError, AllocFailed};
use thiserror::Error;
use varint_proto::IncomingRefused;

/// Why a negotiation fails. `fault as u8` is its number.
#[derive(Clone, Copy, Debug, PartialEq, Eq, Hash, Error)]
pub enum SelectFault {
    /// A call after a fault.
    #[error("the negotiation failed before")]
    Failed = 1,
    /// The length of a message isn't from 1 to 1024, or isn't a well spelt varint. Of a constructor: a name isn't of 1
    /// to 1023 bytes.
    #[error("a message or a name has a bad length")]
    BadLength,
    /// The last byte of a message isn't a newline.
    #[error("a message has no newline")]
    NoNewline,
    /// The first message of the other end isn't the header.
    #[error("the first message is not the header")]
    BadHeader,
    /// An answer to a dialer is neither a refusal nor its standing proposal.
    #[error("the answer is no proposal")]
    NotProposed,
    /// A growth was refused.
    #[error("out of memory")]
    OutOfMemory,
}

impl From<IncomingRefused> for SelectFault {
    ghost from_gives = { λ refused e. e ≡ of_refused refused };

    fn from(refused: IncomingRefused) -> SelectFault {
        match refused {
            IncomingRefused::Failed => SelectFault::Failed,
            IncomingRefused::BadLength | IncomingRefused::TooLong => SelectFault::BadLength,
            IncomingRefused::OutOfMemory => SelectFault::OutOfMemory,
        }
    }
}

impl From<AllocError> for SelectFault {
    ghost from_gives = { λ _ e. e ≡ OutOfMemory };

    fn from(_e: AllocError) -> SelectFault {
        SelectFault::OutOfMemory
    }
}

impl<T: Drop> From<AllocFailed<T>> for SelectFault {
    ghost from_gives = { λ _ e. e ≡ OutOfMemory };

    fn from(_e: AllocFailed<T>) -> SelectFault {
        SelectFault::OutOfMemory
    }
}
