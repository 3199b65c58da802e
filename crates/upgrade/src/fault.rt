//! Why an upgrade fails.

ghost use Rattle.std.specs.Prelude.{◌≡◌};
ghost use Rattle.upgrade.specs.declared.fault.UpgradeFault.TheVariants.{OutOfMemory};
ghost use Rattle.upgrade.specs.Stages.{of_select, of_exchange};

use ms_select::SelectFault;
use plaintext_x::ExchangeFault;
use std::alloc::AllocError;
use thiserror::Error;

/// Why an upgrade fails.
#[derive(Clone, Copy, Debug, PartialEq, Eq, Hash, Error)]
pub enum UpgradeFault {
    /// A call after a fault, or once the connection is up.
    #[error("the upgrade is over")]
    Failed,
    /// One of both talks has this fault, which isn't want of memory.
    #[error("no protocol is settled: {0}")]
    Select(SelectFault),
    /// The other end doesn't know the protocol that was asked for.
    #[error("the other end does not know the protocol")]
    NoneLeft,
    /// The exchange has this fault, which isn't want of memory.
    #[error("no key is proven: {0}")]
    Exchange(ExchangeFault),
    /// A growth was refused.
    #[error("out of memory")]
    OutOfMemory,
}

impl From<SelectFault> for UpgradeFault {
    ghost from_gives = { λ fault e. e ≡ of_select fault };

    fn from(fault: SelectFault) -> UpgradeFault {
        match fault {
            SelectFault::OutOfMemory => UpgradeFault::OutOfMemory,
            fault => UpgradeFault::Select(fault),
        }
    }
}

impl From<ExchangeFault> for UpgradeFault {
    ghost from_gives = { λ fault e. e ≡ of_exchange fault };

    fn from(fault: ExchangeFault) -> UpgradeFault {
        match fault {
            ExchangeFault::OutOfMemory => UpgradeFault::OutOfMemory,
            fault => UpgradeFault::Exchange(fault),
        }
    }
}

impl From<AllocError> for UpgradeFault {
    ghost from_gives = { λ _ e. e ≡ OutOfMemory };

    fn from(_e: AllocError) -> UpgradeFault {
        UpgradeFault::OutOfMemory
    }
}
