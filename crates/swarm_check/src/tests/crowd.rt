//! Many threads at once: what each caller saw of its calls makes one history, which a pool of one thread repeats, and
//! each listing shows that pool after a beginning of the history.

use super::{make, peer};
use peer_ids::PeerId;
use pool_state::{Call, Config, Listing, Pool, Reply};
use std::alloc::{AllocError, Global};
use std::sync::Wait;
use swarm_calls::{Gate, Identity, Ledgers, Pass, Swarm};

/// A call as its caller saw it: the front that its pass had then, and the reply.
#[derive(Clone, Copy, Drop)]
pub struct Made {
    front: u64,
    call: Call,
    reply: Reply,
}

/// What a caller counts in a listing: its front, how many connections stood, and how many peers were blocked and
/// allowed.
#[derive(Clone, Copy, PartialEq, Drop)]
pub struct Counts {
    front: u64,
    conns: usize,
    blocked: usize,
    allowed: usize,
}

fn counts_of(listing: &Listing) -> Counts {
    Counts {
        front: listing.front,
        conns: listing.conns.len(),
        blocked: listing.blocked.len(),
        allowed: listing.allowed.len(),
    }
}

/// What one caller saw, and whether that is all of it: memory may be refused.
#[derive(Drop)]
pub struct Told {
    made: Vec<Made>,
    listed: Vec<Counts>,
    is_whole: bool,
}

impl Told {
    /// A caller that was told nothing.
    pub fn new(alloc: Global) -> Told {
        Told {
            made: Vec::new(alloc),
            listed: Vec::new(alloc),
            is_whole: true,
        }
    }

    /// Notes what a listing showed.
    pub fn show(&mut self, listing: &Listing) {
        let is_kept = self.listed.push(counts_of(listing)).is_ok();
        self.is_whole &= is_kept;
    }

    /// Whether one call was made, with this reply.
    pub fn is_answered(&self, reply: Reply) -> bool {
        match self.made.as_slice() {
            [made] => made.reply == reply,
            _ => false,
        }
    }

    /// Whether one call was made, with this reply, and the front was that then.
    pub fn is_answered_at(&self, front: u64, reply: Reply) -> bool {
        match self.made.as_slice() {
            [made] => made.front == front && made.reply == reply,
            _ => false,
        }
    }

    /// Whether there were so many listings, all up to this front.
    pub fn has_listed(&self, count: u64, front: u64) -> bool {
        match self.listed.as_slice() {
            [.., last] => last.front == front && self.listed.len() as u64 == count,
            [] => false,
        }
    }
}

/// The next of a row of numbers that look like chance.
fn next(seed: u64) -> u64 {
    seed.wrapping_mul(6_364_136_223_846_793_005)
        .wrapping_add(1_442_695_040_888_963_407)
}

/// One of the calls, by the number.
fn some_call(number: u64, peers: &[PeerId; 3]) -> Call {
    let peer = peers[((number >> 40) % 3) as usize];
    let conn = ((number >> 20) % 64) as u32;
    let index = ((number >> 50) % 3) as u8;
    match (number >> 33) % 11 {
        0 | 1 => Call::Dial(Some(peer)),
        2 => Call::Accept,
        3 => Call::Ask(conn, index),
        4 => Call::Done(conn, index),
        5 => Call::HangUp(peer),
        6 => Call::Block(peer),
        7 => Call::Unblock(peer),
        8 => Call::Allow(peer),
        9 => Call::Disallow(peer),
        _ => Call::Gone(conn),
    }
}

/// Makes a call, and keeps what is seen of it.
pub fn call_once<G: Gate, J: Identity, L: Ledgers, R: Wait>(
    rt: &R,
    swarm: &Swarm<G, J, L>,
    pass: &mut Pass<J, L>,
    call: &Call,
    told: &mut Told,
) {
    let reply = make(rt, swarm, pass, call);
    let front = pass.front();
    let call = *call;
    let is_kept = told.made.push(Made { front, call, reply }).is_ok();
    told.is_whole &= is_kept;
}

/// Makes so many calls, and lists after every eighth.
pub fn call_often<G: Gate, J: Identity, L: Ledgers, R: Wait>(
    rt: &R,
    swarm: &Swarm<G, J, L>,
    pass: &mut Pass<J, L>,
    calls: u64,
    told: &mut Told,
) {
    let peers = [peer(0x11), peer(0x22), peer(0x33)];
    let mut number = next(pass.number() as u64);
    for round in 0..calls {
        number = next(number);
        call_once(rt, swarm, pass, &some_call(number, &peers), told);
        if round % 8 == 0 {
            told.show(&swarm.list(pass));
        }
    }
}

/// The history that the callers saw, by the fronts, and what was listed at each.
#[derive(Drop)]
pub struct History {
    made: Vec<Option<Made>>,
    listed: Vec<Option<Counts>>,
}

impl History {
    /// A history with room for so many calls.
    pub fn blank(alloc: Global, calls: u64) -> Result<History, AllocError> {
        let made = blanks::<Made>(alloc, calls)?;
        let listed = blanks::<Counts>(alloc, calls)?;
        Ok(History { made, listed })
    }

    /// Writes down a call. False where another saw one at this front.
    fn put_call(&mut self, made: &Made) -> bool {
        match self.made.as_mut_slice().get_mut(place_of(made.front)) {
            Some(place) => {
                let is_new = place.is_none();
                *place = Some(*made);
                is_new
            }
            None => false,
        }
    }

    /// Writes down what was listed. False where another saw something else at this front.
    fn put_counts(&mut self, counts: &Counts) -> bool {
        match self.listed.as_mut_slice().get_mut(place_of(counts.front)) {
            Some(place) => {
                let is_same = place.is_none() || *place == Some(*counts);
                *place = Some(*counts);
                is_same
            }
            None => false,
        }
    }

    /// Writes down what a caller saw. False where that isn't all, or doesn't go with what others saw.
    pub fn note(&mut self, told: &Told) -> bool {
        let mut is_one = told.is_whole;
        for made in told.made.iter() {
            is_one = self.put_call(made) && is_one;
        }
        for counts in told.listed.iter() {
            is_one = self.put_counts(counts) && is_one;
        }
        is_one
    }

    /// A pool that is called in turn answers what the callers saw, and lists what they saw listed.
    pub fn repeats(&self, config: Config) -> bool {
        let mut pool = Pool::new(config);
        let mut held = true;
        for (made, shown) in self.made.iter().zip(self.listed.iter()) {
            held = held && repeats_one(&mut pool, made, shown);
        }
        held
    }
}

/// Whether there is a call, which the pool answers so, and lists so behind it where that was seen.
fn repeats_one(pool: &mut Pool, made: &Option<Made>, shown: &Option<Counts>) -> bool {
    let is_answered = match made {
        Some(made) => pool.apply(made.call) == made.reply,
        None => false,
    };
    let is_listed = match shown {
        Some(shown) => *shown == counts_of(&pool.listing()),
        None => true,
    };
    is_answered && is_listed
}

/// So many places that hold nothing yet.
fn blanks<T: Drop>(alloc: Global, count: u64) -> Result<Vec<Option<T>>, AllocError> {
    let mut places = Vec::new(alloc);
    for _ in 0..count {
        if places.push(None).is_err() {
            return Err(AllocError);
        }
    }
    Ok(places)
}

/// The place of the call after which this is the front.
fn place_of(front: u64) -> usize {
    (front as usize).wrapping_sub(1)
}
