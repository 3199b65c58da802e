//! The swarm: the pool that threads share.

ghost use Rattle.std.specs.Prelude.{◌≡◌, ◌≢◌, ◌+◌, ◌-◌, ◌<◌, ◌≤◌, ◌^◌, ◌⊎◌, ◌↔◌, ◌==◌, [], drop, length, true, false};
ghost use Rattle.std.specs.Prelude.{List};
ghost use Rattle.std.specs.Prelude.{IfOk, IfErr, OnOk};
ghost use Rattle.std.specs.List.{list_any};
ghost use Rattle.peer_ids.specs.PeerId.{id_of};
ghost use Rattle.pool_state.specs.At.{Stands};
ghost use Rattle.pool_state.specs.History.{Entry};
ghost use Rattle.pool_state.specs.Shown.{Shown};
ghost use Rattle.pool_state.specs.declared.call.Call.TheVariants as call;
ghost use Rattle.swarm_calls.specs.declared.swarm.NewRefused.TheVariants.{BadCallers};
ghost use Rattle.swarm_calls.specs.Ledgers.{AreNew, amount_of, caller_of};
ghost use Rattle.swarm_calls.specs.Snapshots.{IsShown};
ghost use Rattle.swarm_calls.specs.Calls.{AllHere, IsCalled, IsWhole, Later, SameCalls, newcomers};

use crate::history::{Beginning, BlankHistory};
use crate::identity::Identity;
use crate::inside::Inside;
use crate::ledgers::{BlankLedgers, Ledgers, Tally};
use crate::pass::Pass;
use crate::rule::SwarmWriter;
use crate::snapshot::Snapshot;
use left_right::writer::Writer;
use peer_ids::PeerId;
use plaintext_x::Proven;
use pool_state::{Agent, Call, Config, Listing, Pool, Reply};
use std::alloc::{AllocError, Global};
use std::marker::Model;
use std::sync::atomic::{AtomicU64, Ordering};
use std::sync::{Mutex, Wait};

/// Why there is no swarm.
#[derive(Clone, Copy, Debug, PartialEq, Eq)]
pub enum NewRefused {
    /// The number of callers is none of 1 to 8.
    BadCallers = 1,
    /// A growth was refused.
    OutOfMemory = 2,
    /// `left_right` gave a pass no place to read. It never stands for want of memory.
    NoPlace = 3,
}

/// What a swarm ends with.
#[derive(Debug, Drop)]
pub struct Closed {
    /// The listing of the whole history.
    pub listing: Listing,
    /// The length of the history.
    pub calls: u64,
}

/// Where a pool call may be held. Each pool call that publishes calls it with its pass's number, under the lock, before
/// it asks for memory and before its publishing step: a call that was held may yet be answered OutOfMemory.
pub trait Gate: Drop {
    /// Holds the call of the caller of this number, from 1 to 8, as long as it likes.
    fn hold<R: Wait>(&self, rt: &R, caller: usize);
}

/// It holds nobody.
#[derive(Clone, Copy, Debug, Drop)]
pub struct NoGate;

impl Gate for NoGate {
    fn hold<R: Wait>(&self, _rt: &R, _caller: usize) {}
}

/// A pool that up to eight callers share, by a pass each. Contracts see the number of its callers. A pass fits the
/// swarm that made it, and no other: an identity has one history, which one swarm takes, and nothing whose type names
/// an identity leaves the function that is generic in it.
///
/// Each pool call answers what a pool does: a reply, or why it was refused (`pool_state::Refusal`). Spent and
/// OutOfMemory add nothing to the history.
pub struct Swarm<G: Gate, J: Identity, L: Ledgers> {
    gate: G,
    callers: usize,
    // How long the published history is. It is written under the lock, behind each publishing step, and read without
    // it: no clause rests on it.
    length: AtomicU64,
    inside: Mutex<Inside<J, L>>,
}

// By hand, so that the proof of who lets go of it is that of a call, and not of all that it holds.
impl<G: Gate, J: Identity, L: Ledgers> Drop for Swarm<G, J, L> {
    fn drop(self) {
        let Self {
            gate: _gate,
            callers: _,
            length: _length,
            inside: _inside,
        } = self;
    }
}

impl<G: Gate, J: Identity, L: Ledgers> Model for Swarm<G, J, L> {
    ghost use Rattle.std.specs.Prelude.{◌≡◌, ◌≤◌, ℕ};

    ghost Value = { ℕ };

    ghost view = { λ s. s.callers };

    ghost invariant = { λ s. (s.callers ≡ J.callers) × (s.callers ≤ 8) };
}

impl<G: Gate, J: Identity, L: Ledgers> Swarm<G, J, L> {
    /// A swarm with an empty history, and the passes of callers 1 to `callers`, which have seen nothing. The history
    /// and the ledgers are those that the types name. [`NewRefused::BadCallers`] exactly where `callers` is none of 1
    /// to 8; else it may want memory.
    pub fn new<R: Wait>(
        rt: &R,
        alloc: Global,
        config: Config,
        callers: usize,
        gate: G,
        history: BlankHistory,
        ledgers: BlankLedgers,
    ) -> Result<(Swarm<G, J, L>, Vec<Pass<J, L>>), NewRefused>
        requires history { history ≡ J.book }
        requires config { config ≡ J.config }
        requires callers { callers ≡ J.callers }
        requires first { (ledgers.first.name ≡ L.First.name) × (ledgers.first.parts ≡ L.First.parts) }
        requires second { (ledgers.second.name ≡ L.Second.name) × (ledgers.second.parts ≡ L.Second.parts) }
        requires third { (ledgers.third.name ≡ L.Third.name) × (ledgers.third.parts ≡ L.Third.parts) }
        requires fourth { (ledgers.fourth.name ≡ L.Fourth.name) × (ledgers.fourth.parts ≡ L.Fourth.parts) }
        requires fifth { (ledgers.fifth.name ≡ L.Fifth.name) × (ledgers.fifth.parts ≡ L.Fifth.parts) }
        requires sixth { (ledgers.sixth.name ≡ L.Sixth.name) × (ledgers.sixth.parts ≡ L.Sixth.parts) }
        requires seventh { (ledgers.seventh.name ≡ L.Seventh.name) × (ledgers.seventh.parts ≡ L.Seventh.parts) }
        requires eighth { (ledgers.eighth.name ≡ L.Eighth.name) × (ledgers.eighth.parts ≡ L.Eighth.parts) }
        ensures callers { (result ≡ Err BadCallers) ↔ ((callers ≡ 0) ⊎ (8 < callers)) }
        ensures swarm { IfOk result (λ r. r.0 ≡ callers) }
        ensures passes { IfOk result (λ r. r.1.items ≡ newcomers callers) }
    {
        if callers == 0 || callers > 8 {
            return Err(NewRefused::BadCallers);
        }
        let BlankHistory { length, beginning } = history;
        let (pool, shown) = start::<J>(config, beginning);
        let Ok(writer) = writer_of(alloc, &shown) else {
            return Err(NewRefused::OutOfMemory);
        };
        let (books, tallies) = ledgers.open::<L>();
        let passes = match deal(alloc, &writer, &shown, tallies, callers) {
            Ok(passes) => passes,
            Err(refused) => {
                writer.take(rt);
                return Err(refused);
            }
        };
        let inside = Mutex::new(Inside {
            pool,
            length,
            books,
            writer,
        });
        Ok((
            Swarm {
                gate,
                callers,
                length: AtomicU64::new(0),
                inside,
            },
            passes,
        ))
    }

    // Each pool call: it is made under the lock.
    fn make<R: Wait>(&self, rt: &R, pass: &mut Pass<J, L>, call: &Call) -> Reply
        ensures { IsCalled J.config J.callers call.now pass.old result pass.new }
    {
        let mut inside = self.inside.lock(rt);
        let reply = inside.make(rt, &self.gate, pass, call);
        self.length.store(pass.length(), Ordering::SeqCst);
        reply
    }

    /// Admits a connection that this end dials, to the peer that is expected, if one is.
    pub fn dial<R: Wait>(&self, rt: &R, pass: &mut Pass<J, L>, peer: Option<PeerId>) -> Reply
        ensures { IsCalled J.config J.callers (call.Dial peer) pass.old result pass.new }
    {
        self.make(rt, pass, &Call::Dial(peer))
    }

    /// Admits a connection that the other end dialed.
    pub fn accept<R: Wait>(&self, rt: &R, pass: &mut Pass<J, L>) -> Reply
        ensures { IsCalled J.config J.callers call.Accept pass.old result pass.new }
    {
        self.make(rt, pass, &Call::Accept)
    }

    /// The other end of the connection of this number has proven to be a peer: that of the exchange's proof.
    pub fn settle<R: Wait>(
        &self,
        rt: &R,
        pass: &mut Pass<J, L>,
        conn: u32,
        proven: &Proven,
    ) -> Reply
        ensures { IsCalled J.config J.callers (call.Settle conn (id_of proven.now)) pass.old result pass.new }
    {
        self.make(rt, pass, &Call::Settle(conn, proven.peer()))
    }

    /// Asks for one more stream of a protocol, by its index from 0 to 2, on a connection.
    pub fn ask<R: Wait>(&self, rt: &R, pass: &mut Pass<J, L>, conn: u32, index: u8) -> Reply
        ensures { IsCalled J.config J.callers (call.Ask conn index) pass.old result pass.new }
    {
        self.make(rt, pass, &Call::Ask(conn, index))
    }

    /// A stream that was asked for is over: the connection's number and the index of the protocol.
    pub fn done<R: Wait>(&self, rt: &R, pass: &mut Pass<J, L>, conn: u32, index: u8) -> Reply
        ensures { IsCalled J.config J.callers (call.Done conn index) pass.old result pass.new }
    {
        self.make(rt, pass, &Call::Done(conn, index))
    }

    /// Closes the connections of a peer.
    pub fn hang_up<R: Wait>(&self, rt: &R, pass: &mut Pass<J, L>, peer: PeerId) -> Reply
        ensures { IsCalled J.config J.callers (call.HangUp peer) pass.old result pass.new }
    {
        self.make(rt, pass, &Call::HangUp(peer))
    }

    /// Closes the connections of a peer and keeps it out, until it is unblocked.
    pub fn block<R: Wait>(&self, rt: &R, pass: &mut Pass<J, L>, peer: PeerId) -> Reply
        ensures { IsCalled J.config J.callers (call.Block peer) pass.old result pass.new }
    {
        self.make(rt, pass, &Call::Block(peer))
    }

    /// Lets a blocked peer in again.
    pub fn unblock<R: Wait>(&self, rt: &R, pass: &mut Pass<J, L>, peer: PeerId) -> Reply
        ensures { IsCalled J.config J.callers (call.Unblock peer) pass.old result pass.new }
    {
        self.make(rt, pass, &Call::Unblock(peer))
    }

    /// The connection of this number has ended.
    pub fn gone<R: Wait>(&self, rt: &R, pass: &mut Pass<J, L>, conn: u32) -> Reply
        ensures { IsCalled J.config J.callers (call.Gone conn) pass.old result pass.new }
    {
        self.make(rt, pass, &Call::Gone(conn))
    }

    /// Lets a peer in where only allowed peers may connect.
    pub fn allow<R: Wait>(&self, rt: &R, pass: &mut Pass<J, L>, peer: PeerId) -> Reply
        ensures { IsCalled J.config J.callers (call.Allow peer) pass.old result pass.new }
    {
        self.make(rt, pass, &Call::Allow(peer))
    }

    /// Takes the allowance of a peer away, and closes its connections where only allowed peers may connect.
    pub fn disallow<R: Wait>(&self, rt: &R, pass: &mut Pass<J, L>, peer: PeerId) -> Reply
        ensures { IsCalled J.config J.callers (call.Disallow peer) pass.old result pass.new }
    {
        self.make(rt, pass, &Call::Disallow(peer))
    }

    /// The peer of a connection has named its agent.
    pub fn note<R: Wait>(&self, rt: &R, pass: &mut Pass<J, L>, conn: u32, agent: Agent) -> Reply
        ensures { IsCalled J.config J.callers (call.Note conn agent) pass.old result pass.new }
    {
        self.make(rt, pass, &Call::Note(conn, agent))
    }

    /// Lets the caller see what is published, which is no less than it had seen. It waits for nobody and takes no
    /// memory; where nothing was published since, it changes nothing. `Pass::listing` then shows it.
    pub fn renew(&self, pass: &mut Pass<J, L>)
        ensures later { Later J.config J.callers pass.old pass.new }
        ensures own { SameCalls pass.old pass.new }
    {
        pass.renew(self.length.load(Ordering::SeqCst));
    }

    /// The listing of what the caller has then seen, which is no less than it had seen: `renew`, and a copy of the
    /// pass's listing. It waits for nobody, takes no memory and always answers.
    pub fn list(&self, pass: &mut Pass<J, L>) -> Listing
        ensures later { Later J.config J.callers pass.old pass.new }
        ensures own { SameCalls pass.old pass.new }
        ensures shown { result ≡ Shown J.config pass.new.seen }
    {
        self.renew(pass);
        pass.listing().copied()
    }

    /// Afterwards both callers have seen one history. It adds no call.
    pub fn meet<R: Wait>(&self, rt: &R, one: &mut Pass<J, L>, other: &mut Pass<J, L>)
        ensures same { one.new.seen ≡ other.new.seen }
        ensures one { Later J.config J.callers one.old one.new × SameCalls one.old one.new }
        ensures other { Later J.config J.callers other.old other.new × SameCalls other.old other.new }
    {
        let mut inside = self.inside.lock(rt);
        inside.show(rt, one);
        inside.show(rt, other);
    }

    /// Ends the swarm, and frees what it holds. Where the pass of a caller is missing, all is handed back: a swarm of
    /// which a pass was lost can't be closed. One that is dropped leaks what it has published.
    pub fn close<R: Wait>(
        self,
        rt: &R,
        passes: Vec<Pass<J, L>>,
    ) -> Result<Closed, (Swarm<G, J, L>, Vec<Pass<J, L>>)>
        ensures here { IfOk result (λ r. AllHere self passes.items) }
        ensures missing { IfErr result (λ r. ¬ AllHere self passes.items) }
        ensures back { IfErr result (λ r. (r.0 ≡ self) × (r.1.items ≡ passes.items)) }
        ensures closed { IfOk result (λ r. (history : List Entry) × IsWhole J.config self passes.items history
            × (r.listing ≡ Shown J.config history) × (r.calls ≡ length history)) }
    {
        if !all_here(passes.as_slice(), self.callers) {
            return Err((self, passes));
        }
        let Swarm {
            gate: _gate,
            callers: _,
            length: _length,
            inside,
        } = self;
        Ok(inside.into_inner().close(rt, passes))
    }
}

// The pool of the empty history, and what is shown of it.
fn start<J: Identity>(config: Config, beginning: Beginning) -> (Pool, Snapshot)
    requires book { beginning.book ≡ J.book }
    requires empty { beginning.log ≡ [] }
    requires config { config ≡ J.config }
    ensures pool { Stands J.config [] result.0 }
    ensures shown { IsShown J.book J.config J.callers result.1 }
    ensures empty { result.1.beginning.log ≡ [] }
{
    let pool = Pool::new(config);
    let listing = pool.listing();
    let shown = Snapshot {
        beginning,
        count: 0,
        listing,
        calls: [0; 8],
        last: None,
    };
    (pool, shown)
}

fn all_here<J: Identity, L: Ledgers>(passes: &[Pass<J, L>], callers: usize) -> bool
    requires { callers < 2 ^ 32 }
    ensures yes { result ≡ true → AllHere callers passes.now }
    ensures no { result ≡ false → ¬ AllHere callers passes.now }
{
    for caller in 1..callers + 1 {
        if !is_here(passes, caller) {
            return false;
        }
    }
    true
}

fn is_here<J: Identity, L: Ledgers>(passes: &[Pass<J, L>], caller: usize) -> bool
    ensures { result ≡ list_any (λ p. p.number == caller) passes.now }
{
    passes.iter().any(|p| p.number() == caller)
}

// The passes of callers 1 to `callers`.
fn deal<J: Identity, L: Ledgers>(
    alloc: Global,
    writer: &SwarmWriter<J>,
    shown: &Snapshot,
    tallies: [Tally<L>; 8],
    callers: usize,
) -> Result<Vec<Pass<J, L>>, NewRefused>
    requires shown { IsShown J.book J.config J.callers shown.now × (shown.now.beginning.log ≡ []) }
    requires callers { (callers ≡ J.callers) × (callers ≤ 8) }
    requires tallies { AreNew 1 tallies × (length tallies ≡ 8) }
    ensures passes { IfOk result (λ v. v.items ≡ newcomers callers) }
    ensures refused { IfErr result (λ e. e ≢ BadCallers) }
{
    let Ok(mut rest) = Vec::from_array(alloc, tallies) else {
        return Err(NewRefused::OutOfMemory);
    };
    let mut passes = Vec::new(alloc);
    let mut number = 0;
    while number < callers {
        let tally = rest.remove(0);
        number += 1;
        seat(&mut passes, writer, shown, tally)?;
    }
    Ok(passes)
}

// Adds the pass of the share's caller, behind those of the callers before it.
fn seat<J: Identity, L: Ledgers>(
    passes: &mut Vec<Pass<J, L>>,
    writer: &SwarmWriter<J>,
    shown: &Snapshot,
    tally: Tally<L>,
) -> Result<(), NewRefused>
    requires shown { IsShown J.book J.config J.callers shown.now × (shown.now.beginning.log ≡ []) }
    requires tally { (amount_of tally ≡ 0) × (caller_of tally ≤ J.callers) }
    requires passes { passes.old.items ≡ newcomers (caller_of tally - 1) }
    ensures passes { OnOk result (passes.new.items ≡ newcomers (caller_of tally)) }
    ensures refused { IfErr result (λ e. e ≢ BadCallers) }
{
    let Ok(reader) = writer.factory().reader() else {
        return Err(NewRefused::NoPlace);
    };
    let pass = Pass {
        reader: Some(reader),
        tally,
        kept: shown.copied(),
    };
    match passes.push(pass) {
        Ok(()) => Ok(()),
        Err(_) => Err(NewRefused::OutOfMemory),
    }
}

// A writer that has published the copy.
fn writer_of<J: Identity>(alloc: Global, shown: &Snapshot) -> Result<SwarmWriter<J>, AllocError>
    requires { IsShown J.book J.config J.callers shown.now }
    ensures { IfOk result (λ w. (w.desk.shown.value ≡ shown.now) × (drop w.behind w.log.items ≡ [])) }
{
    Writer::new(alloc, shown.copied(), shown.copied(), 8)
}
