//! What runs a node: its connections over sockets, driven by what a swarm's listings show.
//!
//! A [`Driver`] takes the sockets that come to its listener, dials where a listing shows a connection that is to be
//! dialed, opens a stream for each that a listing shows as asked for, and ends what a listing shows as closing. It
//! tells the swarm what comes of each: `accept`, `settle`, `note`, `done` and `gone`. It makes no call without such an
//! event. It is polled by hand, and waits at its sockets.
//!
//! To its owner it reports why connections ended, and how the streams ended that were asked for.
//!
//! What a peer can make it hold, `seat` says.
#![tactic(auto)]

mod driver;

pub use callers::{Caller, Fresh, Looking, Member, SwarmUse, with_swarm};
pub use driver::Driver;
pub use node_terms::Setup;
pub use reports::{ConnEnd, MOST_REPORTS, Report, StreamEnd};
pub use seat::RandomPayloads;
