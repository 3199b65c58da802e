//! Two nodes whose listings are frozen: nothing is seen of what comes, so the script gives up.

use driver::{Fresh, Looking};
use node_run::{RunEnding, run};
use std::alloc::AllocGlobal;
use std::net::Net;
use std::random::RandomSource;
use std::sync::Wait;
use std::test::*;
use std::time::Clock;
use swarm_calls::{Identity, Ledgers, NoGate, Pass, Swarm};

/// One node dials the other, and waits until that is seen.
const SCRIPT: &str = "b listen\na dial\na await live 1\n";

/// A caller sees only what its own last call saw.
#[derive(Clone, Copy, Debug, Drop)]
struct Frozen;

impl Looking for Frozen {
    fn renew<J: Identity, L: Ledgers>(&self, _swarm: &Swarm<NoGate, J, L>, pass: &mut Pass<J, L>) {
        // What a listing says of the pass: it has seen a legal history before.
        let _ = pass.listing();
    }
}

/// Whether the script prints this, and ends so.
fn prints<R, K>(rt: &R, looking: &K, printed: &[u8], ending: Result<(), RunEnding>) -> bool
where
    R: Wait + Clock + Net + RandomSource + AllocGlobal,
    K: Looking,
{
    let mut output = Vec::new(rt.alloc());
    run(rt, looking, SCRIPT.as_bytes(), &mut output) == ending && output.as_slice() == printed
}

#[test]
fn a_frozen_listing_gives_up(rt: HostRuntime) {
    let held = prints(&rt, &Fresh, b"b listening\na conn 1\na live 1\n", Ok(()));
    assert!(rt; held, "a fresh listing");
    let held = prints(
        &rt,
        &Frozen,
        b"b listening\na conn 1\n",
        Err(RunEnding::GaveUp),
    );
    assert!(rt; held, "a frozen one");
}
