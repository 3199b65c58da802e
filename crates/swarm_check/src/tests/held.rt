//! What the gate holds, and when.

use super::gate::Watch;
use super::{Asked, call, make};
use plaintext_x::Proven;
use pool_state::{Refusal, Reply};
use std::rt::Clock;
use std::sync::Wait;
use std::thread;
use std::time::Duration;
use swarm_calls::{Gate, Identity, Ledgers, Pass, Swarm};

/// Waits until a call of caller 1 is held, looking at most 10,000 times, 1 ms apart.
pub fn wait_for_the_first<C: Clock>(clock: &C, watch: &Watch) {
    for _ in 0..10_000 {
        if watch.held().0 > 0 {
            return;
        }
        thread::sleep(clock, Duration::from_millis(1));
    }
}

/// Each call but Settle.
static CALLS: [Asked; 11] = [
    Asked::Dial(None),
    Asked::Accept,
    Asked::Ask(1, 0),
    Asked::Done(1, 0),
    Asked::HangUp(0x11),
    Asked::Block(0x22),
    Asked::Unblock(0x22),
    Asked::Gone(1),
    Asked::Allow(0x11),
    Asked::Disallow(0x11),
    Asked::Note(2, "x"),
];

/// Makes the call. Whether the gate has held so many calls then, of caller 1 and of caller 2.
fn is_held<G: Gate, J: Identity, L: Ledgers, R: Wait>(
    rt: &R,
    swarm: &Swarm<G, J, L>,
    pass: &mut Pass<J, L>,
    asked: Asked,
    watch: &Watch,
    held: (u64, u64),
) -> bool {
    let Some(call) = call(asked) else {
        return false;
    };
    make(rt, swarm, pass, &call);
    watch.held() == (held.0, held.1, 0)
}

/// How many calls are held as they must be, each of which both callers make.
fn hold_in_turn<G: Gate, J: Identity, L: Ledgers, R: Wait>(
    rt: &R,
    swarm: &Swarm<G, J, L>,
    one: &mut Pass<J, L>,
    two: &mut Pass<J, L>,
    watch: &Watch,
) -> usize {
    for (index, asked) in CALLS.iter().enumerate() {
        let before = index as u64;
        let behind = before.saturating_add(1);
        let first = is_held(rt, swarm, one, *asked, watch, (behind, before));
        let second = is_held(rt, swarm, two, *asked, watch, (behind, behind));
        if !first || !second {
            return index;
        }
    }
    CALLS.len()
}

/// Whether a Settle of each is held, and then the front is at its end, and no call is held any more.
fn hold_settles<G: Gate, J: Identity, L: Ledgers, R: Wait>(
    rt: &R,
    swarm: &Swarm<G, J, L>,
    one: &mut Pass<J, L>,
    two: &mut Pass<J, L>,
    proven: &Proven,
    watch: &Watch,
) -> bool {
    swarm.settle(rt, one, 1, proven);
    swarm.settle(rt, two, 2, proven);
    let are_held = watch.held() == (12, 12, 0);
    let spent = Reply::Refused(Refusal::Spent);
    let is_spent = swarm.accept(rt, one) == spent && swarm.settle(rt, two, 2, proven) == spent;
    are_held && is_spent && watch.held() == (12, 12, 0)
}

/// Each call of either caller is held once, with its caller's number, and refused or not. One that is turned away isn't
/// held. Gives how many kinds of calls are held so.
pub fn hold_each_call<G: Gate, J: Identity, L: Ledgers, R: Wait>(
    rt: &R,
    swarm: &Swarm<G, J, L>,
    one: &mut Pass<J, L>,
    two: &mut Pass<J, L>,
    proven: &Proven,
    watch: &Watch,
) -> usize {
    let held = hold_in_turn(rt, swarm, one, two, watch);
    let are_settled = hold_settles(rt, swarm, one, two, proven, watch);
    held.saturating_add(are_settled as usize)
}
