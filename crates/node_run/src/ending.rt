//! Why a run of two nodes ends early.

use node_terms::PeerEnding;
use std::alloc::AllocError;
use std::io;

/// Why a run of two nodes ended early.
#[derive(Clone, Copy, Debug, PartialEq, Eq)]
pub enum RunEnding {
    /// The line of this number, from 1 on, is of no known form.
    Line(u64),
    /// A node was to dial one that doesn't listen.
    Input,
    /// An await gave up.
    GaveUp,
    /// A write failed, or a growth of the program's own or a socket was refused.
    Failed,
}

impl From<io::Error> for RunEnding {
    fn from(_error: io::Error) -> RunEnding {
        RunEnding::Failed
    }
}

impl From<AllocError> for RunEnding {
    fn from(_error: AllocError) -> RunEnding {
        RunEnding::Failed
    }
}

impl From<PeerEnding> for RunEnding {
    fn from(_ending: PeerEnding) -> RunEnding {
        RunEnding::Failed
    }
}
