//! Why the run of a node ends early.

ghost use Rattle.std.specs.Prelude.{◌≡◌};
ghost use Rattle.node_terms.specs.Endings.{EndsIdentify, EndsPing, IsIdentifyFault, IsPingFault};
ghost use Rattle.node_terms.specs.Endings.{ending_of_conn, ending_of_stream};
ghost use Rattle.node_terms.specs.declared.ending.PeerEnding.TheVariants.{Failed};

use conn_log::ConnFault;
use handlers::HandlerFault;
use identify_h::IdentifyFault;
use ms_select::SelectFault;
use ping_h::PingFault;
use pool_state::Refusal;
use reports::{ConnEnd, StreamEnd};
use std::alloc::AllocError;
use std::io;
use streams::Cause;
use thiserror::Error;

/// Why the run of a node ended early. Each is told by its name.
#[derive(Clone, Copy, Debug, PartialEq, Eq, Error)]
pub enum PeerEnding {
    /// The address can't be listened at.
    #[error("{0:?}")]
    Unbound(io::ErrorKind),
    /// No socket is connected.
    #[error("NoConnection")]
    NoConnection,
    /// The peer isn't the one that is expected, or is otherwise refused.
    #[error("{0:?}")]
    Refused(Refusal),
    /// The connection failed.
    #[error("{0:?}")]
    Fault(ConnFault),
    /// The peer shut the connection before all was done.
    #[error("Shut")]
    Shut,
    /// The peer doesn't take what is written.
    #[error("Untaken")]
    Untaken,
    /// The peer doesn't know the protocol.
    #[error("NotSpoken")]
    NotSpoken,
    /// The stream's talk failed.
    #[error("{0:?}")]
    Select(SelectFault),
    /// A ping failed.
    #[error("{0:?}")]
    Ping(PingFault),
    /// What the peer said of itself isn't read.
    #[error("{0:?}")]
    Identify(IdentifyFault),
    /// The peer has reset or ended the stream.
    #[error("Reset")]
    Reset,
    /// The peer didn't answer in time.
    #[error("NoAnswer")]
    NoAnswer,
    /// A write failed, or a growth or a socket of the program's own was refused.
    #[error("a write failed")]
    Failed,
}

impl From<io::Error> for PeerEnding {
    ghost from_gives = { λ _ ending. ending ≡ Failed };

    fn from(_error: io::Error) -> PeerEnding {
        PeerEnding::Failed
    }
}

impl From<AllocError> for PeerEnding {
    ghost from_gives = { λ _ ending. ending ≡ Failed };

    fn from(_error: AllocError) -> PeerEnding {
        PeerEnding::Failed
    }
}

impl PeerEnding {
    /// What the end of the connection means, before all was done.
    pub fn of_conn(end: ConnEnd) -> PeerEnding
        ensures { result ≡ ending_of_conn end }
    {
        match end {
            ConnEnd::NoConnection => PeerEnding::NoConnection,
            ConnEnd::Refused(refusal) => PeerEnding::Refused(refusal),
            ConnEnd::Fault(fault) => PeerEnding::Fault(fault),
            ConnEnd::Shut | ConnEnd::Closed => PeerEnding::Shut,
            ConnEnd::Untaken => PeerEnding::Untaken,
        }
    }

    /// What the end of a ping's stream means, where the ping isn't done.
    pub fn of_ping(end: StreamEnd) -> PeerEnding
        ensures { EndsPing end result }
    {
        match end {
            StreamEnd::Broken(Cause::Handler(HandlerFault { number })) => {
                PeerEnding::Ping(ping_fault(number))
            }
            end => PeerEnding::of_stream(end),
        }
    }

    /// What the end of an identify stream means, where no message was read.
    pub fn of_identify(end: StreamEnd) -> PeerEnding
        ensures { EndsIdentify end result }
    {
        match end {
            StreamEnd::Broken(Cause::Handler(HandlerFault { number })) => {
                PeerEnding::Identify(identify_fault(number))
            }
            end => PeerEnding::of_stream(end),
        }
    }

    /// The same, where it isn't for its handler.
    fn of_stream(end: StreamEnd) -> PeerEnding
        ensures { result ≡ ending_of_stream end }
    {
        match end {
            StreamEnd::Refused => PeerEnding::NotSpoken,
            StreamEnd::Broken(Cause::Select(fault)) => PeerEnding::Select(fault),
            StreamEnd::Broken(Cause::Reset | Cause::Ended) => PeerEnding::Reset,
            StreamEnd::Broken(Cause::Handler(_)) | StreamEnd::Done | StreamEnd::Unopened(_) => {
                PeerEnding::Failed
            }
        }
    }
}

/// The fault of a ping that has this number.
fn ping_fault(number: u8) -> PingFault
    ensures { IsPingFault number result }
{
    match number {
        2 => PingFault::WrongEcho,
        3 => PingFault::Cut,
        4 => PingFault::OutOfMemory,
        _ => PingFault::Failed,
    }
}

/// The fault of an identify stream that has this number.
fn identify_fault(number: u8) -> IdentifyFault
    ensures { IsIdentifyFault number result }
{
    match number {
        2 => IdentifyFault::TooLong,
        3 => IdentifyFault::TooMany,
        4 => IdentifyFault::Wire,
        5 => IdentifyFault::OtherKey,
        6 => IdentifyFault::Cut,
        7 => IdentifyFault::OutOfMemory,
        _ => IdentifyFault::Failed,
    }
}
