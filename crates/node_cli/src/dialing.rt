//! The run of `node ping` and `node identify`.

use crate::Ending;
use node_dial::{Own, dial};
use node_place::place_of;
use node_words::Dialer;
use std::alloc::AllocGlobal;
use std::io::Write;
use std::net::Net;
use std::random::RandomSource;
use std::sync::Wait;
use std::time::{Clock, Duration};

/// The name and version of the program.
const AGENT: &str = "node/0.1.0";

/// How long a peer may take for a step, in seconds.
const LIMIT: u64 = 10;

/// Dials the peer, and prints what comes of it.
pub fn run_dialer<R, O>(rt: &R, dialer: Dialer<'_>, output: &mut O) -> Result<(), Ending>
where
    R: AllocGlobal + Wait + Clock + Net + RandomSource,
    O: Write,
{
    let Dialer { addr, key, errand } = dialer;
    let place = place_of(rt.alloc(), addr)?;
    let own = Own { key, agent: AGENT };
    Ok(dial(rt, own, place, errand, Duration::from_secs(LIMIT), output)?)
}
