//! What bytes can have wrong with them, and why a number isn't written.

ghost use Rattle.std.specs.Prelude.{◌≡◌};
ghost use Rattle.varint_proto.specs.declared.fault.VarintRefused.TheVariants.{OutOfMemory};
ghost use Rattle.varint_proto.specs.declared.fault.IncomingRefused.TheVariants as incoming;

use std::alloc::AllocError;
use thiserror::Error;

/// Why bytes are no varint, or no protobuf message. `fault as u8` is its number.
#[derive(Clone, Copy, Debug, PartialEq, Eq, Hash, Error)]
pub enum WireFault {
    /// A varint doesn't end within its limit, or its value doesn't fit.
    #[error("a varint is too long")]
    TooLong = 1,
    /// A varint has a shorter spelling. `read_varint` alone answers this.
    #[error("a varint has a shorter spelling")]
    NotShortest,
    /// The bytes end within a field.
    #[error("the bytes end within a field")]
    Cut,
    /// A field's number is 0, or its tag doesn't fit 32 bits.
    #[error("a field has a number out of range")]
    BadNumber,
    /// A wire type is none of 0, 1, 2 and 5.
    #[error("a field has an unknown wire type")]
    BadWire,
}

/// Why a varint was not written. `refused as u8` is its number.
#[derive(Clone, Copy, Debug, PartialEq, Eq, Hash, Error)]
pub enum VarintRefused {
    /// The number is 2^63 or more.
    #[error("a number of 2^63 or more has no varint")]
    TooLarge = 1,
    /// The vector could not grow.
    #[error("out of memory")]
    OutOfMemory,
}

/// Why a message that comes in is refused. `refused as u8` is its number.
#[derive(Clone, Copy, Debug, PartialEq, Eq, Hash, Error)]
pub enum IncomingRefused {
    /// A call after a fault.
    #[error("the message failed before")]
    Failed = 1,
    /// The length is no well spelt varint.
    #[error("the length of the message is badly spelt")]
    BadLength,
    /// The length is above the limit.
    #[error("the message is too long")]
    TooLong,
    /// Room for the body was refused.
    #[error("out of memory")]
    OutOfMemory,
}

impl From<AllocError> for IncomingRefused {
    ghost from_gives = { λ _ e. e ≡ incoming.OutOfMemory };

    fn from(_e: AllocError) -> IncomingRefused {
        IncomingRefused::OutOfMemory
    }
}

impl From<AllocError> for VarintRefused {
    ghost from_gives = { λ _ e. e ≡ OutOfMemory };

    fn from(_e: AllocError) -> VarintRefused {
        VarintRefused::OutOfMemory
    }
}
