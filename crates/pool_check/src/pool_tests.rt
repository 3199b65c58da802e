//! Scripts and rows of a pool. A function counts how many rows hold, from the first on, so that a test fails with the
//! number of the first row that doesn't: one assertion is proved far sooner than one for each row.

use crate::all_hold;
use peer_ids::PeerId;
use pool_state::*;
use std::test::*;

/// The id of the Ed25519 key of 32 bytes that are all `byte`.
fn peer(byte: u8) -> PeerId {
    PeerId::of_ed25519(&[byte; 32])
}

// ---- scripts

/// The name of an agent.
#[derive(Clone, Copy)]
enum Name {
    X,
    Y,
    Spaced,
}

fn agent(name: Name) -> Option<Agent> {
    match name {
        Name::X => Agent::from_bytes(b"x"),
        Name::Y => Agent::from_bytes(b"y"),
        Name::Spaced => Agent::from_bytes(b"a b"),
    }
}

/// A call that names a peer by the byte of its key. It is kept small: a table costs its proof by its bytes.
#[derive(Clone, Copy)]
enum Asked {
    Dial(Option<u8>),
    Accept,
    Settle(u32, u8),
    Ask(u32, u8),
    Done(u32, u8),
    HangUp(u8),
    Block(u8),
    Unblock(u8),
    Gone(u32),
    Allow(u8),
    Disallow(u8),
    Note(u32, Name),
}

fn peer_if(byte: Option<u8>) -> Option<PeerId> {
    match byte {
        Some(byte) => Some(peer(byte)),
        None => None,
    }
}

fn call(asked: Asked) -> Option<Call> {
    let call = match asked {
        Asked::Dial(byte) => Call::Dial(peer_if(byte)),
        Asked::Accept => Call::Accept,
        Asked::Settle(conn, byte) => Call::Settle(conn, peer(byte)),
        Asked::Ask(conn, index) => Call::Ask(conn, index),
        Asked::Done(conn, index) => Call::Done(conn, index),
        Asked::HangUp(byte) => Call::HangUp(peer(byte)),
        Asked::Block(byte) => Call::Block(peer(byte)),
        Asked::Unblock(byte) => Call::Unblock(peer(byte)),
        Asked::Gone(conn) => Call::Gone(conn),
        Asked::Allow(byte) => Call::Allow(peer(byte)),
        Asked::Disallow(byte) => Call::Disallow(peer(byte)),
        Asked::Note(conn, name) => Call::Note(conn, agent(name)?),
    };
    Some(call)
}

/// A connection on which nothing is asked for: its number, the side, the phase, the peer and the agent.
struct Stood(u32, ConnSide, Phase, Option<u8>, Option<Name>);

fn row(stood: &Stood) -> Row {
    let Stood(conn, role, phase, byte, name) = stood;
    Row {
        conn: *conn,
        role: *role,
        phase: *phase,
        peer: peer_if(*byte),
        asked: [0; 3],
        done: [0; 3],
        agent: match name {
            Some(name) => agent(*name),
            None => None,
        },
    }
}

/// The front, the rows, and the bytes of the peers who are blocked and who are allowed.
struct Shown {
    front: u64,
    rows: &'static [Stood],
    blocked: &'static [u8],
    allowed: &'static [u8],
}

enum Step {
    /// The call is answered so.
    Call(Asked, Reply),
    /// The call is made so often, and is answered by the connections from 1 on.
    Admits(Asked, u32),
    /// These calls are made in turn, so many times, and are answered so.
    Turns(u32, &'static [(Asked, Reply)]),
    /// The peers of these bytes, up to the last, are blocked and allowed in turn.
    Lists(u8, u8),
    Shows(&'static Shown),
    /// There are so many rows, and so many peers, who are blocked and who are allowed, the same ones.
    Counts(u16, u16),
}

/// What happens to a pool of the node whose id is that of zeros.
#[derive(Clone, Copy)]
struct Script {
    limits: [usize; 7],
    first_conn: u32,
    first_front: u64,
    allow_only: bool,
    steps: &'static [Step],
}

/// The widest limits, from the first number and front.
const WIDEST: Script = Script {
    limits: [256, 8, 64, 64, 256, 256, 64],
    first_conn: 1,
    first_front: 0,
    allow_only: false,
    steps: &[],
};

static SCRIPTS: [Script; 17] = [
    // Each refusal, in the order of their numbers.
    Script {
        limits: [2, 1, 1, 1, 256, 256, 64],
        steps: &[
            Step::Call(Asked::Dial(Some(0x11)), Reply::Conn(1)),
            Step::Call(Asked::Dial(Some(0x11)), Reply::Refused(Refusal::PeerFull)),
            Step::Call(Asked::Accept, Reply::Conn(2)),
            Step::Call(Asked::Accept, Reply::Refused(Refusal::Full)),
            Step::Call(Asked::Settle(2, 0x11), Reply::Refused(Refusal::PeerFull)),
            Step::Call(Asked::Settle(1, 0x22), Reply::Refused(Refusal::Mismatch)),
            Step::Call(Asked::Settle(1, 0x11), Reply::Done),
            Step::Call(Asked::Settle(1, 0x11), Reply::Refused(Refusal::NotPending)),
            Step::Call(Asked::Ask(1, 2), Reply::Done),
            Step::Call(Asked::Ask(1, 2), Reply::Refused(Refusal::StreamsFull)),
            Step::Call(Asked::Done(1, 0), Reply::Refused(Refusal::NothingAsked)),
            Step::Call(Asked::Done(1, 2), Reply::Done),
            Step::Call(Asked::Ask(2, 0), Reply::Refused(Refusal::NotLive)),
            Step::Call(Asked::Block(0x22), Reply::Count(0)),
            Step::Call(Asked::Block(0x33), Reply::Refused(Refusal::BlockFull)),
            Step::Call(Asked::Block(0x22), Reply::Count(0)),
            Step::Call(Asked::Settle(2, 0x22), Reply::Refused(Refusal::Blocked)),
            Step::Call(Asked::HangUp(0x11), Reply::Count(1)),
            Step::Call(Asked::Ask(1, 2), Reply::Refused(Refusal::Closing)),
            Step::Call(Asked::Unblock(0x22), Reply::Count(1)),
            Step::Call(Asked::Gone(1), Reply::Done),
            Step::Call(Asked::Gone(1), Reply::Refused(Refusal::NoConn)),
            Step::Call(Asked::Dial(Some(0)), Reply::Refused(Refusal::SelfPeer)),
            Step::Shows(&Shown {
                front: 23,
                rows: &[Stood(2, ConnSide::Listener, Phase::Pending, None, None)],
                blocked: &[],
                allowed: &[],
            }),
        ],
        ..WIDEST
    },
    // A block closes pending rows.
    Script {
        steps: &[
            Step::Call(Asked::Dial(Some(0x11)), Reply::Conn(1)),
            Step::Call(Asked::Accept, Reply::Conn(2)),
            Step::Call(Asked::Block(0x11), Reply::Count(1)),
            Step::Call(Asked::Settle(1, 0x11), Reply::Refused(Refusal::Closing)),
            Step::Call(Asked::Settle(2, 0x11), Reply::Refused(Refusal::Blocked)),
            Step::Shows(&Shown {
                front: 5,
                rows: &[
                    Stood(1, ConnSide::Dialer, Phase::Closing, Some(0x11), None),
                    Stood(2, ConnSide::Listener, Phase::Pending, None, None),
                ],
                blocked: &[0x11],
                allowed: &[],
            }),
            Step::Call(Asked::HangUp(0x22), Reply::Count(0)),
            Step::Call(Asked::HangUp(0), Reply::Refused(Refusal::SelfPeer)),
            Step::Call(Asked::Settle(2, 0x22), Reply::Done),
            Step::Call(Asked::Ask(2, 3), Reply::Refused(Refusal::BadProtocol)),
        ],
        ..WIDEST
    },
    // The last front, and the last number.
    Script {
        first_front: u64::MAX - 1,
        steps: &[
            Step::Call(Asked::Dial(None), Reply::Conn(1)),
            Step::Call(Asked::Block(0x11), Reply::Refused(Refusal::Spent)),
            Step::Shows(&Shown {
                front: u64::MAX,
                rows: &[Stood(1, ConnSide::Dialer, Phase::Pending, None, None)],
                blocked: &[],
                allowed: &[],
            }),
        ],
        ..WIDEST
    },
    Script {
        first_conn: u32::MAX,
        steps: &[
            Step::Call(Asked::Accept, Reply::Conn(u32::MAX)),
            Step::Call(Asked::Accept, Reply::Refused(Refusal::IdsExhausted)),
        ],
        ..WIDEST
    },
    // Allowed peers alone.
    Script {
        limits: [64, 8, 64, 64, 1, 256, 1],
        allow_only: true,
        steps: &[
            Step::Call(Asked::Accept, Reply::Conn(1)),
            Step::Call(Asked::Accept, Reply::Refused(Refusal::SideFull)),
            Step::Call(Asked::Dial(Some(0x11)), Reply::Refused(Refusal::NotAllowed)),
            Step::Call(Asked::Allow(0x11), Reply::Count(1)),
            Step::Call(Asked::Allow(0x11), Reply::Count(0)),
            Step::Call(Asked::Allow(0x22), Reply::Refused(Refusal::AllowFull)),
            Step::Call(Asked::Dial(Some(0x11)), Reply::Conn(2)),
            Step::Call(Asked::Settle(1, 0x22), Reply::Refused(Refusal::NotAllowed)),
            Step::Call(Asked::Settle(1, 0x11), Reply::Done),
            Step::Call(Asked::Disallow(0x11), Reply::Count(2)),
            Step::Call(Asked::Settle(2, 0x11), Reply::Refused(Refusal::Closing)),
            Step::Shows(&Shown {
                front: 11,
                rows: &[
                    Stood(1, ConnSide::Listener, Phase::Closing, Some(0x11), None),
                    Stood(2, ConnSide::Dialer, Phase::Closing, Some(0x11), None),
                ],
                blocked: &[],
                allowed: &[],
            }),
        ],
        ..WIDEST
    },
    // A full table, and sides that are full.
    Script {
        steps: &[
            Step::Admits(Asked::Accept, 256),
            Step::Call(Asked::Accept, Reply::Refused(Refusal::Full)),
            Step::Counts(256, 0),
            // A number that is alike in its last byte is another.
            Step::Call(Asked::Gone(1), Reply::Done),
            Step::Call(Asked::Accept, Reply::Conn(257)),
            Step::Call(Asked::Settle(1, 0x11), Reply::Refused(Refusal::NoConn)),
            Step::Call(Asked::Settle(257, 0x11), Reply::Done),
            Step::Call(Asked::Accept, Reply::Refused(Refusal::Full)),
            Step::Counts(256, 0),
        ],
        ..WIDEST
    },
    Script {
        limits: [256, 8, 64, 64, 255, 256, 64],
        steps: &[
            Step::Admits(Asked::Accept, 255),
            Step::Call(Asked::Accept, Reply::Refused(Refusal::SideFull)),
            Step::Call(Asked::Dial(None), Reply::Conn(256)),
            Step::Call(Asked::Accept, Reply::Refused(Refusal::Full)),
        ],
        ..WIDEST
    },
    Script {
        limits: [256, 8, 64, 64, 256, 255, 64],
        steps: &[
            Step::Admits(Asked::Dial(None), 255),
            Step::Call(Asked::Dial(None), Reply::Refused(Refusal::SideFull)),
            Step::Call(Asked::Accept, Reply::Conn(256)),
            Step::Call(Asked::Dial(None), Reply::Refused(Refusal::Full)),
        ],
        ..WIDEST
    },
    Script {
        steps: &[
            Step::Admits(Asked::Dial(None), 256),
            Step::Call(Asked::Dial(None), Reply::Refused(Refusal::Full)),
        ],
        ..WIDEST
    },
    // A peer has eight connections.
    Script {
        steps: &[
            Step::Admits(Asked::Dial(Some(0x11)), 8),
            Step::Call(Asked::Dial(Some(0x11)), Reply::Refused(Refusal::PeerFull)),
            Step::Call(Asked::Accept, Reply::Conn(9)),
            Step::Call(Asked::Settle(9, 0x11), Reply::Refused(Refusal::PeerFull)),
            Step::Call(Asked::Settle(8, 0x11), Reply::Done),
            Step::Call(Asked::HangUp(0x11), Reply::Count(8)),
        ],
        ..WIDEST
    },
    // A connection has 64 streams.
    Script {
        steps: &[
            Step::Call(Asked::Accept, Reply::Conn(1)),
            Step::Call(Asked::Settle(1, 0x11), Reply::Done),
            Step::Turns(
                21,
                &[
                    (Asked::Ask(1, 0), Reply::Done),
                    (Asked::Ask(1, 1), Reply::Done),
                    (Asked::Ask(1, 2), Reply::Done),
                ],
            ),
            Step::Call(Asked::Ask(1, 0), Reply::Done),
            Step::Call(Asked::Ask(1, 1), Reply::Refused(Refusal::StreamsFull)),
            Step::Call(Asked::Done(1, 2), Reply::Done),
            Step::Call(Asked::Ask(1, 1), Reply::Done),
            Step::Call(Asked::Ask(1, 2), Reply::Refused(Refusal::StreamsFull)),
        ],
        ..WIDEST
    },
    // It may have had any number of streams before.
    Script {
        steps: &[
            Step::Call(Asked::Accept, Reply::Conn(1)),
            Step::Call(Asked::Settle(1, 0x11), Reply::Done),
            Step::Turns(
                300,
                &[
                    (Asked::Ask(1, 0), Reply::Done),
                    (Asked::Done(1, 0), Reply::Done),
                ],
            ),
            Step::Call(Asked::Done(1, 0), Reply::Refused(Refusal::NothingAsked)),
            // Numbers that differ in one byte are those of other connections.
            Step::Call(Asked::Ask(257, 0), Reply::Refused(Refusal::NoConn)),
            Step::Call(Asked::Ask(65537, 0), Reply::Refused(Refusal::NoConn)),
            Step::Call(Asked::Gone(16777217), Reply::Refused(Refusal::NoConn)),
        ],
        ..WIDEST
    },
    // Each list has 64 peers.
    Script {
        steps: &[
            Step::Lists(0x40, 0x7f),
            Step::Call(Asked::Block(0x11), Reply::Refused(Refusal::BlockFull)),
            Step::Call(Asked::Allow(0x11), Reply::Refused(Refusal::AllowFull)),
            Step::Call(Asked::Block(0x7f), Reply::Count(0)),
            Step::Call(Asked::Allow(0x7f), Reply::Count(0)),
            Step::Call(Asked::Unblock(0x7f), Reply::Count(1)),
            Step::Call(Asked::Disallow(0x7f), Reply::Count(0)),
            Step::Call(Asked::Block(0x11), Reply::Count(0)),
            Step::Call(Asked::Allow(0x11), Reply::Count(1)),
            Step::Counts(0, 64),
        ],
        ..WIDEST
    },
    // An agent is noted while the connection is live.
    Script {
        steps: &[
            Step::Call(Asked::Dial(None), Reply::Conn(1)),
            Step::Call(Asked::Note(1, Name::X), Reply::Refused(Refusal::NotLive)),
            Step::Call(Asked::Settle(1, 0x11), Reply::Done),
            Step::Call(Asked::Note(1, Name::Spaced), Reply::Done),
            Step::Shows(&Shown {
                front: 4,
                rows: &[Stood(
                    1,
                    ConnSide::Dialer,
                    Phase::Live,
                    Some(0x11),
                    Some(Name::Spaced),
                )],
                blocked: &[],
                allowed: &[],
            }),
            Step::Call(Asked::Note(2, Name::X), Reply::Refused(Refusal::NoConn)),
            Step::Call(Asked::HangUp(0x11), Reply::Count(1)),
            Step::Call(Asked::Note(1, Name::Y), Reply::Refused(Refusal::Closing)),
        ],
        ..WIDEST
    },
    // No call leads to this node itself.
    Script {
        steps: &[
            Step::Call(Asked::Accept, Reply::Conn(1)),
            Step::Call(Asked::Dial(Some(0)), Reply::Refused(Refusal::SelfPeer)),
            Step::Call(Asked::Settle(1, 0), Reply::Refused(Refusal::SelfPeer)),
            Step::Call(Asked::HangUp(0), Reply::Refused(Refusal::SelfPeer)),
            Step::Call(Asked::Block(0), Reply::Refused(Refusal::SelfPeer)),
            Step::Call(Asked::Unblock(0), Reply::Refused(Refusal::SelfPeer)),
            Step::Call(Asked::Allow(0), Reply::Refused(Refusal::SelfPeer)),
            Step::Call(Asked::Disallow(0), Reply::Refused(Refusal::SelfPeer)),
            Step::Shows(&Shown {
                front: 8,
                rows: &[Stood(1, ConnSide::Listener, Phase::Pending, None, None)],
                blocked: &[],
                allowed: &[],
            }),
        ],
        ..WIDEST
    },
    // A connection that has ended, and is gone.
    Script {
        steps: &[
            Step::Call(Asked::Dial(Some(0x11)), Reply::Conn(1)),
            Step::Call(Asked::Accept, Reply::Conn(2)),
            Step::Call(Asked::Block(0x11), Reply::Count(1)),
            Step::Call(Asked::Gone(2), Reply::Done),
            Step::Call(Asked::Gone(2), Reply::Refused(Refusal::NoConn)),
        ],
        ..WIDEST
    },
    // The front comes to its end.
    Script {
        first_front: u64::MAX - 4,
        steps: &[
            Step::Call(Asked::Accept, Reply::Conn(1)),
            Step::Call(Asked::Settle(1, 0x11), Reply::Done),
            Step::Call(Asked::Settle(1, 0x11), Reply::Refused(Refusal::NotPending)),
            Step::Call(Asked::Block(0x11), Reply::Count(1)),
            Step::Call(Asked::Gone(1), Reply::Refused(Refusal::Spent)),
            Step::Shows(&Shown {
                front: u64::MAX,
                rows: &[Stood(1, ConnSide::Listener, Phase::Closing, Some(0x11), None)],
                blocked: &[0x11],
                allowed: &[],
            }),
        ],
        ..WIDEST
    },
];

/// A pool, one that is told each reply, and a copy of the listing that follows.
#[derive(Drop)]
struct Pools {
    pool: Pool,
    told: Pool,
    copy: Listing,
}

/// The limits of these seven numbers, in the order of `Limits::new`.
pub fn limits(of: [usize; 7]) -> Option<Limits> {
    Limits::new(of[0], of[1], of[2], of[3], of[4], of[5], of[6])
}

fn begin(script: &Script) -> Option<Pools> {
    let config = Config {
        own: peer(0),
        limits: limits(script.limits)?,
        first_conn: script.first_conn,
        first_front: script.first_front,
        allow_only: script.allow_only,
    };
    let pool = Pool::new(config);
    let copy = pool.listing();
    Some(Pools {
        pool,
        told: Pool::new(config),
        copy,
    })
}

impl Pools {
    /// Whether the call is answered so, also beforehand, and the other pool and the copy show the same then.
    fn is_answered(&mut self, call: Call, reply: Reply) -> bool {
        let is_answered = self.pool.reply(call) == reply && self.pool.apply(call) == reply;
        self.told.commit(&call, &reply);
        self.copy.add(call, reply);
        let is_shown = self.told.show() == self.pool.show();
        is_answered && is_shown && self.copy.copied() == self.pool.listing()
    }

    fn answers(&mut self, asked: Asked, reply: Reply) -> bool {
        match call(asked) {
            Some(call) => self.is_answered(call, reply),
            None => false,
        }
    }

    fn admits(&mut self, asked: Asked, count: u32) -> bool {
        let mut held = true;
        for before in 0..count {
            held = self.answers(asked, Reply::Conn(before.saturating_add(1))) && held;
        }
        held
    }

    fn takes_turns(&mut self, times: u32, calls: &[(Asked, Reply)]) -> bool {
        let mut held = true;
        for _ in 0..times {
            for (asked, reply) in calls {
                held = self.answers(*asked, *reply) && held;
            }
        }
        held
    }

    fn lists(&mut self, first: u8, last: u8) -> bool {
        let mut held = true;
        for byte in first..=last {
            held = self.answers(Asked::Block(byte), Reply::Count(0)) && held;
            held = self.answers(Asked::Allow(byte), Reply::Count(1)) && held;
        }
        held
    }

    fn plays(&mut self, step: &Step) -> bool {
        match step {
            Step::Call(asked, reply) => self.answers(*asked, *reply),
            Step::Admits(asked, count) => self.admits(*asked, *count),
            Step::Turns(times, calls) => self.takes_turns(*times, *calls),
            Step::Lists(first, last) => self.lists(*first, *last),
            Step::Shows(shown) => shows(&self.pool.listing(), shown),
            Step::Counts(rows, peers) => counts(&self.pool.listing(), *rows, *peers),
        }
    }

    /// How many steps hold, from the first on.
    fn steps_held(&mut self, steps: &[Step]) -> usize {
        let mut held = 0usize;
        for (row, step) in steps.iter().enumerate() {
            if self.plays(step) && held == row {
                held = held.saturating_add(1);
            }
        }
        held
    }
}

fn are_rows(rows: &[Row], stood: &[Stood]) -> bool {
    let mut held = rows.len() == stood.len();
    for (place, stood) in stood.iter().enumerate() {
        held = held && rows.get(place) == Some(&row(stood));
    }
    held
}

fn shows(listing: &Listing, shown: &Shown) -> bool {
    let are_listed = are_peers(&listing.blocked, shown.blocked)
        && are_peers(&listing.allowed, shown.allowed);
    listing.front == shown.front && are_rows(&listing.conns, shown.rows) && are_listed
}

fn counts(listing: &Listing, rows: u16, peers: u16) -> bool {
    let is_same = listing.blocked.as_slice() == listing.allowed.as_slice();
    let is_long = listing.conns.len() == usize::from(rows);
    is_long && listing.blocked.len() == usize::from(peers) && is_same
}

fn are_peers(peers: &[PeerId], bytes: &[u8]) -> bool {
    let mut held = peers.len() == bytes.len();
    for (place, byte) in bytes.iter().enumerate() {
        held = held && peers.get(place) == Some(&peer(*byte));
    }
    held
}

fn script_held(script: &Script) -> usize {
    match begin(script) {
        Some(mut pools) => pools.steps_held(script.steps),
        None => 0,
    }
}

/// How many scripts hold, from the first on, and how many steps of the first that doesn't.
fn scripts_held() -> (usize, usize) {
    let mut held = (0usize, 0usize);
    for (number, script) in SCRIPTS.iter().enumerate() {
        if held.0 == number {
            held.1 = script_held(script);
            if held.1 == script.steps.len() {
                held.0 = held.0.saturating_add(1);
            }
        }
    }
    held
}

#[test]
fn scripts(rt: HostRuntime) {
    let (number, row) = scripts_held();
    assert!(rt; number == SCRIPTS.len(), "script {number}, row {row}");
}

// ---- peers that are alike

/// The id of a key whose bytes are 0x11 but for this one.
fn peer_but_for(place: usize, byte: u8) -> PeerId {
    let mut key = [0x11; 32];
    if let Some(changed) = key.get_mut(place) {
        *changed = byte;
    }
    PeerId::of_ed25519(&key)
}

/// The id of a multihash of this code and size whose digest is 0x11 but for this byte.
fn digest_but_for(code: u8, size: u8, place: usize, byte: u8) -> Option<PeerId> {
    let mut multihash = [0x11; 44];
    multihash[0] = code;
    multihash[1] = size;
    let changed = multihash.get_mut(place.saturating_add(2))?;
    *changed = byte;
    PeerId::from_bytes(multihash.get(..usize::from(size).saturating_add(2))?).ok()
}

/// Whether a node and two peers are three peers to a pool.
fn are_three(own: PeerId, one: PeerId, other: PeerId) -> Option<bool> {
    let config = Config {
        own,
        limits: limits(WIDEST.limits)?,
        first_conn: 1,
        first_front: 0,
        allow_only: true,
    };
    let mut pool = Pool::new(config);
    Some(are_two(&mut pool, one, other) && are_two_still(&mut pool, one, other))
}

fn are_two(pool: &mut Pool, one: PeerId, other: PeerId) -> bool {
    pool.apply(Call::Allow(one)) == Reply::Count(1)
        && pool.apply(Call::Dial(Some(other))) == Reply::Refused(Refusal::NotAllowed)
        && pool.apply(Call::Allow(other)) == Reply::Count(1)
        && pool.apply(Call::Dial(Some(one))) == Reply::Conn(1)
        && pool.apply(Call::Dial(Some(other))) == Reply::Conn(2)
}

fn are_two_still(pool: &mut Pool, one: PeerId, other: PeerId) -> bool {
    pool.apply(Call::Settle(1, other)) == Reply::Refused(Refusal::Mismatch)
        && pool.apply(Call::Block(other)) == Reply::Count(1)
        && pool.apply(Call::Settle(1, one)) == Reply::Done
        && pool.apply(Call::Unblock(one)) == Reply::Count(0)
        && pool.apply(Call::Disallow(other)) == Reply::Count(0)
        && pool.apply(Call::HangUp(one)) == Reply::Count(1)
}

/// How many bytes tell three peers apart, from the first on.
fn places_held() -> usize {
    let mut held = 0usize;
    for place in 0..32usize {
        let (own, one) = (peer_but_for(place, 0x22), peer_but_for(place, 0x11));
        let are_three = are_three(own, one, peer_but_for(place, 0x33)) == Some(true);
        if held == place && are_three {
            held = held.saturating_add(1);
        }
    }
    held
}

#[test]
fn peers_that_differ_in_one_byte(rt: HostRuntime) {
    all_hold(&rt, places_held(), 32);
}

/// Whether three ids of this code and size that differ in this byte of their digests are three peers to a pool.
fn are_three_digests(code: u8, size: u8, place: usize) -> Option<bool> {
    let own = digest_but_for(code, size, place, 0x22)?;
    let one = digest_but_for(code, size, place, 0x11)?;
    are_three(own, one, digest_but_for(code, size, place, 0x33)?)
}

/// How many bytes of such digests tell three peers apart, from the first on.
fn digests_held(code: u8, size: u8) -> usize {
    let mut held = 0usize;
    for place in 0..usize::from(size) {
        if held == place && are_three_digests(code, size, place) == Some(true) {
            held = held.saturating_add(1);
        }
    }
    held
}

/// Whether ids of one digest, of which the one is that of a hash and the other the digest itself, are two peers.
fn are_two_hashes() -> Option<bool> {
    let (hashed, itself) = (
        digest_but_for(18, 32, 0, 0x11)?,
        digest_but_for(0, 32, 0, 0x11)?,
    );
    let third = digest_but_for(0, 31, 0, 0x11)?;
    let held = are_three(hashed, itself, third)? && are_three(third, hashed, itself)?;
    Some(held && are_three(itself, third, hashed)?)
}

#[test]
fn peers_of_other_hashes_and_lengths(rt: HostRuntime) {
    all_hold(&rt, digests_held(18, 32), 32);
    all_hold(&rt, digests_held(0, 1), 1);
    all_hold(&rt, digests_held(0, 42), 42);
    assert!(rt; are_two_hashes() == Some(true));
}
