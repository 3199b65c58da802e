//! The run of `node listen`.

use crate::Ending;
use node_listen::{ListenTerms, Own, Watched, listen};
use node_place::place_of;
use node_words::Listener;
use std::alloc::AllocGlobal;
use std::io::Write;
use std::net::Net;
use std::random::RandomSource;
use std::sync::Wait;
use std::time::Clock;

/// Listens and serves until the input ends.
pub fn run_listener<R, I, O>(
    rt: &R,
    listener: Listener<'_>,
    input: &mut I,
    output: &mut O,
) -> Result<(), Ending>
where
    R: AllocGlobal + Wait + Clock + Net + RandomSource,
    I: Watched,
    O: Write,
{
    let Listener {
        addr,
        key,
        agent,
        limits,
        allow_only,
        blocked,
        allowed,
    } = listener;
    let place = place_of(rt.alloc(), addr)?;
    let told = ListenTerms {
        place,
        limits,
        allow_only,
        blocked,
        allowed,
    };
    Ok(listen(rt, Own { key, agent }, told, input, output)?)
}
