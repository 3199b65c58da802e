//! Why a ping fails.

ghost use Rattle.std.specs.Prelude.{◌≡◌};
ghost use Rattle.ping_h.specs.Faults.{number_of};

use handlers::HandlerFault;
use thiserror::Error;

/// Why a ping fails. `fault as u8` is its number, which is that of the handler's fault.
#[derive(Clone, Copy, Debug, PartialEq, Eq, Hash, Error)]
pub enum PingFault {
    /// A call after a fault, or bytes or an end behind the end.
    #[error("the ping failed or ended before")]
    Failed = 1,
    /// A byte differs from the one that was sent, or stands past the 32nd.
    #[error("the echo differs from the ping")]
    WrongEcho,
    /// The stream ended within a round.
    #[error("the stream ended within a round")]
    Cut,
    /// A growth was refused.
    #[error("out of memory")]
    OutOfMemory,
}

/// The handler's fault of this number.
pub(crate) fn failing(fault: PingFault) -> HandlerFault
    ensures { result.number ≡ number_of fault }
{
    HandlerFault {
        number: fault as u8,
    }
}
