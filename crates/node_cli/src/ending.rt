//! Why a run of `node` ends early, and the line that tells it.

use multiaddr::AddrFault;
use node_dial::PeerEnding;
use node_place::PlaceFault;
use node_run::RunEnding;
use node_texts::{HashRefused, IdRefused};
use script_lines::Stopped;
use std::io;
use thiserror::Error;

/// Why a run ended early, with the line that tells it.
#[derive(Debug, Drop, Error)]
pub enum Ending {
    /// The key has no id.
    #[error("refused {0}")]
    Id(IdRefused),
    /// The text of an id has no multihash.
    #[error("refused {0}")]
    Hash(HashRefused),
    /// The address is none.
    #[error("refused {0:?}")]
    Addr(AddrFault),
    /// The address names no place of a node.
    #[error("refused {0}")]
    Place(PlaceFault),
    /// The run of a node ended for this.
    #[error("refused {0}")]
    Peer(PeerEnding),
    /// The line of this number, from 1 on, is of no known form.
    #[error("refused line {0}")]
    Line(u64),
    /// The input is too long, or it can't be read or held.
    #[error("refused input")]
    Input,
    /// An await gave up.
    #[error("await gave up")]
    GaveUp,
    /// A write failed, or a growth of the program's own or a socket was refused.
    #[error("a write failed")]
    Unwritten,
}

impl From<IdRefused> for Ending {
    fn from(refused: IdRefused) -> Ending {
        Ending::Id(refused)
    }
}

impl From<HashRefused> for Ending {
    fn from(refused: HashRefused) -> Ending {
        Ending::Hash(refused)
    }
}

impl From<AddrFault> for Ending {
    fn from(fault: AddrFault) -> Ending {
        Ending::Addr(fault)
    }
}

impl From<io::Error> for Ending {
    fn from(_error: io::Error) -> Ending {
        Ending::Unwritten
    }
}

impl From<RunEnding> for Ending {
    fn from(ending: RunEnding) -> Ending {
        match ending {
            RunEnding::Line(number) => Ending::Line(number),
            RunEnding::Input => Ending::Input,
            RunEnding::GaveUp => Ending::GaveUp,
            RunEnding::Failed => Ending::Unwritten,
        }
    }
}

impl From<Stopped> for Ending {
    fn from(stopped: Stopped) -> Ending {
        match stopped {
            Stopped::Line(number) => Ending::Line(number),
            Stopped::Unwritten => Ending::Unwritten,
            Stopped::Unread => Ending::Input,
        }
    }
}

impl From<PlaceFault> for Ending {
    fn from(fault: PlaceFault) -> Ending {
        Ending::Place(fault)
    }
}

impl From<PeerEnding> for Ending {
    fn from(ending: PeerEnding) -> Ending {
        match ending {
            PeerEnding::Failed => Ending::Unwritten,
            ending => Ending::Peer(ending),
        }
    }
}
