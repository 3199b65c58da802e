//! Why a stream goes on no more.

ghost use Rattle.std.specs.Prelude.{◌≡◌};
ghost use Rattle.streams.specs.declared.stop.Cause.TheVariants.{Handler};
ghost use Rattle.streams.specs.declared.stop.Stop.TheVariants.{Broken, OutOfMemory};
ghost use Rattle.streams.specs.Stops.{of_select};

use handlers::HandlerFault;
use ms_select::SelectFault;
use std::alloc::AllocError;
use thiserror::Error;

/// Why a stream is given up.
#[derive(Clone, Copy, Debug, PartialEq, Eq, Error)]
pub enum Cause {
    /// Its talk has this fault, which isn't want of memory; `Failed` where a call was out of turn.
    #[error("no protocol is settled: {0}")]
    Select(SelectFault),
    /// Its handler has this fault, which may be want of memory.
    #[error("{0}")]
    Handler(HandlerFault),
    /// The other end has reset it.
    #[error("the other end has reset the stream")]
    Reset,
    /// The other end has ended it before a protocol was settled.
    #[error("the stream ended before a protocol was settled")]
    Ended,
}

/// Why a stream goes on no more.
#[derive(Clone, Copy, Debug, PartialEq, Eq, Error)]
pub enum Stop {
    /// It is given up.
    #[error("the stream is broken: {0}")]
    Broken(Cause),
    /// A growth was refused, to its talk or to itself.
    #[error("out of memory")]
    OutOfMemory,
}

impl From<SelectFault> for Stop {
    ghost from_gives = { λ fault stop. stop ≡ of_select fault };

    fn from(fault: SelectFault) -> Stop {
        match fault {
            SelectFault::OutOfMemory => Stop::OutOfMemory,
            fault => Stop::Broken(Cause::Select(fault)),
        }
    }
}

impl From<HandlerFault> for Stop {
    ghost from_gives = { λ fault stop. stop ≡ Broken (Handler fault) };

    fn from(fault: HandlerFault) -> Stop {
        Stop::Broken(Cause::Handler(fault))
    }
}

impl From<AllocError> for Stop {
    ghost from_gives = { λ _ stop. stop ≡ OutOfMemory };

    fn from(_e: AllocError) -> Stop {
        Stop::OutOfMemory
    }
}
