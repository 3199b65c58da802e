//! Worked rows.

use super::asserts::holds;
use super::{Asked, Script, call, config, make, peer_if, play, proven};
use plaintext_x::Proven;
use pool_state::{Call, Config, ConnSide, Phase, Pool, Refusal, Reply, Row};
use std::alloc::Global;
use std::sync::Wait;
use std::test::*;
use swarm_calls::{Closed, Identity, Ledgers, NewRefused, NoGate, Pass, Swarm};

// ---- two callers

/// What one of two callers does, or both.
#[derive(Clone, Copy)]
enum Act {
    /// This caller makes a call, which is answered so.
    Make(usize, Asked, Reply),
    /// This caller lists.
    List(usize),
    /// Both meet.
    Meet,
}

/// An act, and the fronts of both passes behind it.
struct Beat(Act, u64, u64);

/// What two callers do in turn, the rows that both list behind that, and how many calls they made. A row is told by its
/// number, its side and its peer: nothing was asked for on it.
struct TwoCallers {
    beats: &'static [Beat],
    rows: &'static [(u32, ConnSide, Option<u8>)],
    calls: u64,
}

static TWO_CALLERS: [TwoCallers; 3] = [
    // Caller 1 dials, and both list it; then both dial another peer, of whom one connection may stand.
    TwoCallers {
        beats: &[
            Beat(Act::Make(1, Asked::Dial(Some(0x11)), Reply::Conn(1)), 1, 0),
            Beat(Act::List(1), 1, 0),
            Beat(Act::List(2), 1, 1),
            Beat(Act::Make(2, Asked::Dial(Some(0x22)), Reply::Conn(2)), 1, 2),
            Beat(
                Act::Make(
                    1,
                    Asked::Dial(Some(0x22)),
                    Reply::Refused(Refusal::PeerFull),
                ),
                3,
                2,
            ),
            Beat(Act::Meet, 3, 3),
        ],
        rows: &[
            (1, ConnSide::Dialer, Some(0x11)),
            (2, ConnSide::Dialer, Some(0x22)),
        ],
        calls: 3,
    },
    // They meet where nobody has called, and again behind a call of each; then the front of one stays while the other
    // calls.
    TwoCallers {
        beats: &[
            Beat(Act::Meet, 0, 0),
            Beat(Act::Make(1, Asked::Dial(Some(0x11)), Reply::Conn(1)), 1, 0),
            Beat(Act::Make(2, Asked::Accept, Reply::Conn(2)), 1, 2),
            Beat(Act::Meet, 2, 2),
            Beat(Act::List(1), 2, 2),
            Beat(Act::Make(2, Asked::HangUp(0x22), Reply::Count(0)), 2, 3),
            Beat(Act::Make(2, Asked::Block(0x22), Reply::Count(0)), 2, 4),
            Beat(Act::List(2), 2, 4),
            Beat(Act::List(1), 4, 4),
        ],
        rows: &[
            (1, ConnSide::Dialer, Some(0x11)),
            (2, ConnSide::Listener, None),
        ],
        calls: 4,
    },
    // A dial of one and an accept of the other: behind a meeting both fronts are 2, and each lists both.
    TwoCallers {
        beats: &[
            Beat(Act::Make(1, Asked::Dial(Some(0x11)), Reply::Conn(1)), 1, 0),
            Beat(Act::Make(2, Asked::Accept, Reply::Conn(2)), 1, 2),
            Beat(Act::Meet, 2, 2),
        ],
        rows: &[
            (1, ConnSide::Dialer, Some(0x11)),
            (2, ConnSide::Listener, None),
        ],
        calls: 2,
    },
];

impl Script for TwoCallers {
    fn play<J: Identity, L: Ledgers, R: Wait>(
        &self,
        rt: &R,
        swarm: &Swarm<NoGate, J, L>,
        passes: &mut [Pass<J, L>],
    ) -> usize {
        go(rt, swarm, passes, self)
    }

    fn rows(&self) -> usize {
        self.beats.len().saturating_add(1)
    }

    fn is_closed(&self, closed: &Closed) -> bool {
        closed.calls == self.calls && are_rows(closed.listing.conns.as_slice(), self.rows)
    }
}

/// How many beats go so, and one more where both callers list the rows then.
fn go<J: Identity, L: Ledgers, R: Wait>(
    rt: &R,
    swarm: &Swarm<NoGate, J, L>,
    passes: &mut [Pass<J, L>],
    script: &TwoCallers,
) -> usize {
    let [one, two] = passes else {
        return 0;
    };
    for (row, beat) in script.beats.iter().enumerate() {
        if !goes_so(rt, swarm, one, two, beat) {
            return row;
        }
    }
    let are_listed = list_both(swarm, one, two, script.rows);
    script.beats.len().saturating_add(are_listed as usize)
}

/// Whether the act comes to what it says.
fn goes_so<J: Identity, L: Ledgers, R: Wait>(
    rt: &R,
    swarm: &Swarm<NoGate, J, L>,
    one: &mut Pass<J, L>,
    two: &mut Pass<J, L>,
    beat: &Beat,
) -> bool {
    let Beat(act, first, second) = beat;
    let is_so = match act {
        Act::Make(1, asked, reply) => makes(rt, swarm, one, *asked, *reply),
        Act::Make(_, asked, reply) => makes(rt, swarm, two, *asked, *reply),
        Act::List(1) => swarm.list(one).front == one.front(),
        Act::List(_) => {
            swarm.renew(two);
            two.listing().front == two.front()
        }
        Act::Meet => {
            swarm.meet(rt, one, two);
            one.front() == two.front()
        }
    };
    is_so && one.front() == *first && two.front() == *second
}

fn makes<J: Identity, L: Ledgers, R: Wait>(
    rt: &R,
    swarm: &Swarm<NoGate, J, L>,
    pass: &mut Pass<J, L>,
    asked: Asked,
    reply: Reply,
) -> bool {
    match call(asked) {
        Some(call) => make(rt, swarm, pass, &call) == reply,
        None => false,
    }
}

fn list_both<J: Identity, L: Ledgers>(
    swarm: &Swarm<NoGate, J, L>,
    one: &mut Pass<J, L>,
    two: &mut Pass<J, L>,
    rows: &[(u32, ConnSide, Option<u8>)],
) -> bool {
    let listing = swarm.list(one);
    swarm.list(two) == listing && are_rows(listing.conns.as_slice(), rows)
}

fn are_rows(shown: &[Row], rows: &[(u32, ConnSide, Option<u8>)]) -> bool {
    let mut held = shown.len() == rows.len();
    for (place, row) in rows.iter().enumerate() {
        held = held && shown.get(place) == Some(&pending(*row));
    }
    held
}

fn pending(row: (u32, ConnSide, Option<u8>)) -> Row {
    let (conn, role, byte) = row;
    Row {
        conn,
        role,
        phase: Phase::Pending,
        peer: peer_if(byte),
        ..Row::default()
    }
}

#[test]
fn two_callers_share_one_history(rt: HostRuntime) -> Result<(), Fail> {
    for (number, script) in TWO_CALLERS.iter().enumerate() {
        let held = play(&rt, rt.alloc(), config(1)?, 2, script);
        let all = script.beats.len().saturating_add(2);
        holds(&rt, (number, held), held == Ok(all));
    }
    Ok(())
}

// ---- calls in turn

/// So many callers, and calls in turn: who makes it, and what it is answered. A Settle settles what a proof of the key
/// of bytes 11 proves. Then how many calls are made, or why there is no swarm.
#[derive(Clone, Copy)]
struct Steps {
    per_peer: usize,
    first_front: u64,
    allow_only: bool,
    callers: usize,
    steps: &'static [(usize, Asked, Reply)],
    calls: u64,
    refused: Option<NewRefused>,
}

const STEPS_OF_TWO: Steps = Steps {
    per_peer: 1,
    first_front: 0,
    allow_only: false,
    callers: 2,
    steps: &[],
    calls: 0,
    refused: None,
};

static STEPS: [Steps; 7] = [
    // One caller settles nothing.
    Steps {
        callers: 1,
        steps: &[
            (1, Asked::HangUp(0x22), Reply::Count(0)),
            (1, Asked::Block(0x22), Reply::Count(0)),
            (1, Asked::Unblock(0x22), Reply::Count(1)),
            (1, Asked::Settle(1, 0x11), Reply::Refused(Refusal::NoConn)),
        ],
        calls: 4,
        ..STEPS_OF_TWO
    },
    // Each call is made.
    Steps {
        steps: &[
            (1, Asked::Accept, Reply::Conn(1)),
            (2, Asked::Ask(1, 0), Reply::Refused(Refusal::NotLive)),
            (1, Asked::Dial(Some(0x22)), Reply::Conn(2)),
            (2, Asked::Settle(2, 0x11), Reply::Refused(Refusal::Mismatch)),
            (1, Asked::Settle(1, 0x11), Reply::Done),
            (2, Asked::Ask(1, 2), Reply::Done),
            (1, Asked::Done(1, 2), Reply::Done),
            (1, Asked::Done(1, 0), Reply::Refused(Refusal::NothingAsked)),
            (2, Asked::Note(1, "x"), Reply::Done),
            (1, Asked::HangUp(0x22), Reply::Count(1)),
            (1, Asked::Block(0x11), Reply::Count(1)),
            (2, Asked::Dial(Some(0x11)), Reply::Refused(Refusal::Blocked)),
            (2, Asked::Unblock(0x11), Reply::Count(1)),
            (1, Asked::Allow(0x11), Reply::Count(1)),
            (2, Asked::Disallow(0x11), Reply::Count(0)),
            (2, Asked::Gone(2), Reply::Done),
            (1, Asked::Gone(2), Reply::Refused(Refusal::NoConn)),
        ],
        calls: 17,
        ..STEPS_OF_TWO
    },
    // Allowed peers alone.
    Steps {
        per_peer: 8,
        allow_only: true,
        steps: &[
            (
                1,
                Asked::Dial(Some(0x11)),
                Reply::Refused(Refusal::NotAllowed),
            ),
            (2, Asked::Accept, Reply::Conn(1)),
            (
                1,
                Asked::Settle(1, 0x11),
                Reply::Refused(Refusal::NotAllowed),
            ),
            (2, Asked::Allow(0x11), Reply::Count(1)),
            (1, Asked::Allow(0x11), Reply::Count(0)),
            (1, Asked::Settle(1, 0x11), Reply::Done),
            (
                2,
                Asked::Dial(Some(0x22)),
                Reply::Refused(Refusal::NotAllowed),
            ),
            (2, Asked::Dial(None), Reply::Conn(2)),
            (1, Asked::Disallow(0x22), Reply::Count(0)),
            (2, Asked::Disallow(0x11), Reply::Count(1)),
            (1, Asked::Ask(1, 0), Reply::Refused(Refusal::Closing)),
            (
                1,
                Asked::Settle(2, 0x11),
                Reply::Refused(Refusal::NotAllowed),
            ),
        ],
        calls: 12,
        ..STEPS_OF_TWO
    },
    // The call at the last front has its reply.
    Steps {
        first_front: u64::MAX - 1,
        steps: &[
            (1, Asked::Dial(None), Reply::Conn(1)),
            (2, Asked::Block(0x11), Reply::Refused(Refusal::Spent)),
        ],
        calls: 1,
        ..STEPS_OF_TWO
    },
    // A swarm has one to eight callers.
    Steps {
        callers: 0,
        refused: Some(NewRefused::BadCallers),
        ..STEPS_OF_TWO
    },
    Steps {
        callers: 9,
        refused: Some(NewRefused::BadCallers),
        ..STEPS_OF_TWO
    },
    Steps {
        callers: 8,
        ..STEPS_OF_TWO
    },
];

impl Steps {
    /// How many rows hold, and one more where the end is as it must be.
    fn outcome(&self) -> Result<usize, NewRefused> {
        match self.refused {
            Some(refused) => Err(refused),
            None => Ok(self.steps.len().saturating_add(1)),
        }
    }
}

/// Calls in turn. Each reply and each listing after a call are those of a pool of one thread as well.
#[derive(Drop)]
struct Playing<'a> {
    config: Config,
    proven: Proven,
    script: &'a Steps,
}

impl Script for Playing<'_> {
    fn play<J: Identity, L: Ledgers, R: Wait>(
        &self,
        rt: &R,
        swarm: &Swarm<NoGate, J, L>,
        passes: &mut [Pass<J, L>],
    ) -> usize {
        let mut pool = Pool::new(self.config);
        self.go(rt, swarm, passes, &mut pool)
    }

    fn rows(&self) -> usize {
        self.script.steps.len()
    }

    fn is_closed(&self, closed: &Closed) -> bool {
        closed.calls == self.script.calls && closed.listing == self.pool().listing()
    }
}

impl Playing<'_> {
    /// The pool of one thread behind all steps.
    fn pool(&self) -> Pool {
        let mut pool = Pool::new(self.config);
        for (_, asked, _) in self.script.steps.iter() {
            if let Some(call) = call(*asked) {
                pool.apply(call);
            }
        }
        pool
    }

    /// How many steps go so.
    fn go<J: Identity, L: Ledgers, R: Wait>(
        &self,
        rt: &R,
        swarm: &Swarm<NoGate, J, L>,
        passes: &mut [Pass<J, L>],
        pool: &mut Pool,
    ) -> usize {
        for (row, (caller, asked, reply)) in self.script.steps.iter().enumerate() {
            let Some(pass) = passes.get_mut(caller.wrapping_sub(1)) else {
                return row;
            };
            let Some(call) = call(*asked) else {
                return row;
            };
            if !takes(rt, swarm, pass, &self.proven, &call, *reply, pool) {
                return row;
            }
        }
        self.script.steps.len()
    }
}

/// Whether the call is answered so, and the pass lists what the pool does then.
fn takes<J: Identity, L: Ledgers, R: Wait>(
    rt: &R,
    swarm: &Swarm<NoGate, J, L>,
    pass: &mut Pass<J, L>,
    proven: &Proven,
    call: &Call,
    reply: Reply,
    pool: &mut Pool,
) -> bool {
    let came = make_at_last(rt, swarm, pass, proven, call);
    let is_answered = came == Some(reply) && pool.apply(*call) == reply;
    is_answered && pass.listing() == pool.show() && swarm.list(pass) == pool.listing()
}

/// Makes the call, and again where memory was refused, unless that has changed something.
fn make_at_last<J: Identity, L: Ledgers, R: Wait>(
    rt: &R,
    swarm: &Swarm<NoGate, J, L>,
    pass: &mut Pass<J, L>,
    proven: &Proven,
    call: &Call,
) -> Option<Reply> {
    let (before, front) = (swarm.list(pass), pass.front());
    let reply = make_or_settle(rt, swarm, pass, proven, call);
    if reply != Reply::Refused(Refusal::OutOfMemory) {
        return Some(reply);
    }
    if swarm.list(pass) != before || pass.front() != front {
        return None;
    }
    Some(make_or_settle(rt, swarm, pass, proven, call))
}

fn make_or_settle<J: Identity, L: Ledgers, R: Wait>(
    rt: &R,
    swarm: &Swarm<NoGate, J, L>,
    pass: &mut Pass<J, L>,
    proven: &Proven,
    call: &Call,
) -> Reply {
    match call {
        Call::Settle(conn, _) => swarm.settle(rt, pass, *conn, proven),
        _ => make(rt, swarm, pass, call),
    }
}

fn play_steps<R: Wait>(
    rt: &R,
    alloc: Global,
    script: &Steps,
) -> Result<Result<usize, NewRefused>, Fail> {
    let config = Config {
        first_front: script.first_front,
        allow_only: script.allow_only,
        ..config(script.per_peer)?
    };
    let playing = Playing {
        config,
        proven: proven(alloc, 0x11)?,
        script,
    };
    Ok(play(rt, alloc, config, script.callers, &playing))
}

#[test]
fn calls_in_turn(rt: HostRuntime) -> Result<(), Fail> {
    for (number, script) in STEPS.iter().enumerate() {
        let held = play_steps(&rt, rt.alloc(), script)?;
        holds(&rt, (number, held), held == script.outcome());
    }
    Ok(())
}

/// A swarm that is made and dropped.
#[derive(Drop)]
struct Nothing;

impl Script for Nothing {
    fn play<J: Identity, L: Ledgers, R: Wait>(
        &self,
        _rt: &R,
        _swarm: &Swarm<NoGate, J, L>,
        _passes: &mut [Pass<J, L>],
    ) -> usize {
        0
    }

    /// More than hold, so that it isn't closed.
    fn rows(&self) -> usize {
        1
    }

    fn is_closed(&self, _closed: &Closed) -> bool {
        false
    }
}

/// It says something where a growth is refused: by `rt try --test --fail-alloc N`.
#[test]
fn want_of_memory_is_no_want_of_a_place(rt: HostRuntime) -> Result<(), Fail> {
    let made = play(&rt, rt.alloc(), config(1)?, 8, &Nothing);
    let is_so = made == Ok(0) || made == Err(NewRefused::OutOfMemory);
    holds(&rt, made, is_so);
    Ok(())
}

static REFUSALS: [(NewRefused, usize); 3] = [
    (NewRefused::BadCallers, 1),
    (NewRefused::OutOfMemory, 2),
    (NewRefused::NoPlace, 3),
];

#[test]
fn numbers_of_refusals(rt: HostRuntime) {
    for (refused, number) in REFUSALS.iter() {
        holds(&rt, *number, *refused as usize == *number);
    }
}
