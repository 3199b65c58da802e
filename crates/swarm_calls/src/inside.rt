//! What lies under the swarm's lock.

ghost use Rattle.std.specs.Prelude.{◌≡◌, ◌≢◌, ◌+◌, ◌<◌, ◌≤◌, ◌++◌, ◌∷◌, [], drop, length, true, false};
ghost use mathlib.Core.List.{IsPrefix};
ghost use Rattle.pool_state.specs.History.{entry};
ghost use Rattle.pool_state.specs.Shown.{Shown, IsLegal, reply_after};
ghost use Rattle.pool_state.specs.declared.call.Reply.TheVariants.{Refused};
ghost use Rattle.pool_state.specs.declared.call.Refusal.TheVariants.{Spent};
ghost use Rattle.swarm_calls.specs.History.{IsOf};
ghost use Rattle.swarm_calls.specs.Steps.{beginning};
ghost use Rattle.swarm_calls.specs.Snapshots.{IsShown};
ghost use Rattle.swarm_calls.specs.Calls.{past, Later, SameCalls, IsCalled, IsWhole};

use crate::addition::Addition;
use crate::entry::Entry;
use crate::history::Length;
use crate::identity::Identity;
use crate::ledgers::{Books, Ledgers};
use crate::pass::Pass;
use crate::rule::{ShowsSwarm, SwarmWriter};
use crate::snapshot::Operation;
use crate::swarm::{Closed, Gate};
use core::mem::replace_with;
use pool_state::laws::added_is_shown;
use pool_state::{Call, Pool, Refusal, Reply};
use std::marker::Model;
use std::mem::ManuallyDrop;
use std::sync::Wait;

/// What lies under the lock. Contracts see the published history.
pub struct Inside<J: Identity, L: Ledgers> {
    pub(crate) pool: Pool,
    pub(crate) length: Length,
    pub(crate) books: Books<L>,
    pub(crate) writer: SwarmWriter<J>,
}

impl<J: Identity, L: Ledgers> Model for Inside<J, L> {
    ghost use Rattle.std.specs.Prelude.{◌≡◌, List, [], drop};
    ghost use Rattle.pool_state.specs.History.{Entry};
    ghost use Rattle.swarm_calls.specs.Locked.{IsLocked};

    ghost Value = { List Entry };

    ghost view = { λ i. i.writer.desk.shown.value.beginning.log };

    ghost invariant = { λ i. IsLocked J.book J.config J.callers i.length i.pool i.books i.writer.desk.shown.value
        × (drop i.writer.behind i.writer.log.items ≡ []) };
}

// A swarm that is dropped and not closed leaks its writer: both copies, the log, and the board of the readers' places.
// To free them the writer waits for the readers, and a drop has no handle to wait by.
impl<J: Identity, L: Ledgers> Drop for Inside<J, L> {
    fn drop(self) {
        let Self {
            pool: _pool,
            length: _length,
            books: _books,
            writer,
        } = self;
        let _leaked = unsafe { ManuallyDrop::new_unchecked(writer) };
    }
}

// Appends, and waits for memory where there is none. No more than four operations are ever in the log, one of which was
// just appended. A push within the capacity succeeds, by a contract of std; that its first growth makes four places is
// read from std's code (and from the size of an operation, which `snapshot` pins).
fn append<J: Identity, R: Wait>(rt: &R, writer: &mut SwarmWriter<J>, next: Operation)
    ensures desk { writer.new.desk ≡ writer.old.desk }
    ensures pending { drop writer.new.behind writer.new.log.items
        ≡ drop writer.old.behind writer.old.log.items ++ next ∷ [] }
{
    let mut next = next;
    for _ in rt.forever() {
        match writer.append(next) {
            Ok(()) => return,
            Err(back) => next = back,
        }
    }
    unreachable!()
}

// Publishes the history with the entry in one step. False where memory was refused, and nothing is changed: an
// operation that does nothing is appended first, and the entry joins the history once that growth was made.
fn publish<J: Identity, R: Wait>(
    rt: &R,
    mut writer: SwarmWriter<J>,
    length: &Length,
    entry: Entry,
) -> (SwarmWriter<J>, bool)
    requires pending { drop writer.behind writer.log.items ≡ [] }
    requires swarm { IsShown J.book J.config J.callers writer.desk.shown.value × (length.now ≡ J.book) }
    requires caller { (1 ≤ entry.caller) × (entry.caller ≤ 8) }
    requires among { entry.caller ≤ J.callers }
    requires reply { (entry.reply ≡ reply_after J.config writer.desk.shown.value.beginning.log entry.call)
        × (entry.reply ≢ Refused Spent) }
    ensures pending { drop result.0.behind result.0.log.items ≡ [] }
    ensures shown { result.1 ≡ true → IsShown J.book J.config J.callers result.0.desk.shown.value }
    ensures yes { result.1 ≡ true
        → result.0.desk.shown.value.beginning ≡ beginning J.book (writer.desk.shown.value.beginning.log
        ++ entry ∷ []) }
    ensures no { result.1 ≡ false → result.0.desk.shown.value ≡ writer.desk.shown.value }
{
    if writer.append(None).is_err() {
        return (writer, false);
    }
    let published = writer.published();
    let _front = published.front();
    let after = length.add(rt, &published.beginning, published.count, &entry);
    append(rt, &mut writer, Some(Addition { entry, after }));
    added_is_shown();
    let (writer, _absorbed) = writer.publish_as::<ShowsSwarm<J>, R>(rt);
    (writer, true)
}

impl<J: Identity, L: Ledgers> Inside<J, L> {
    /// Lets the pass see what is published.
    pub fn show<R: Wait>(&mut self, rt: &R, pass: &mut Pass<J, L>)
        ensures same { self.new ≡ self.old }
        ensures seen { pass.new ≡ past pass.old.number self.old }
        ensures later { Later J.config J.callers pass.old pass.new }
        ensures own { SameCalls pass.old pass.new }
    {
        let published = self.writer.published();
        self.length.compare(
            rt,
            &pass.kept.beginning,
            &published.beginning,
            published.count,
        );
        self.books.audit(&mut pass.tally);
        pass.kept.catch_up::<J>(published);
    }

    /// Makes a call: asks the pool for its reply, and publishes both in one step.
    pub fn make<G: Gate, R: Wait>(
        &mut self,
        rt: &R,
        gate: &G,
        pass: &mut Pass<J, L>,
        call: &Call,
    ) -> Reply
        ensures called { IsCalled J.config J.callers call.now pass.old result pass.new }
        // Refused or not, the pass has then seen all that stood under the lock.
        ensures seen { IsPrefix self.old pass.new.seen }
    {
        self.show(rt, pass);
        let _front = pass.front();
        let reply = self.pool.reply(*call);
        if let Reply::Refused(Refusal::Spent) = reply {
            return reply;
        }
        gate.hold(rt, pass.number());
        if !self.publish(rt, pass, call, reply) {
            return Reply::Refused(Refusal::OutOfMemory);
        }
        reply
    }

    // Publishes the call, unless memory is refused.
    fn publish<R: Wait>(&mut self, rt: &R, pass: &mut Pass<J, L>, call: &Call, reply: Reply) -> bool
        requires seen { pass.old.seen ≡ self.old }
        requires reply { (reply ≡ reply_after J.config self.old call.now) × (reply ≢ Refused Spent) }
        ensures yes { result ≡ true
            → pass.new ≡ past pass.old.number (self.old ++ entry pass.old.number call.now reply ∷ []) }
        ensures no { result ≡ false → pass.new ≡ pass.old }
    {
        let made = Entry::new(pass.tally.caller(), *call, reply);
        let length = &self.length;
        let published = replace_with(&mut self.writer, made.copied(), |writer, made| {
            publish(rt, writer, length, made)
        });
        if published {
            self.books.count(&mut pass.tally, 1);
            self.pool.commit(call, &reply);
            let after = &self.writer.published().beginning;
            pass.kept.follow(after, &made);
            added_is_shown();
        }
        published
    }

    /// Ends the writer, once each pass has seen what is published.
    pub fn close<R: Wait>(self, rt: &R, passes: Vec<Pass<J, L>>) -> Closed
        ensures whole { IsWhole J.config J.callers passes.items self }
        ensures listing { result.listing ≡ Shown J.config self }
        ensures calls { result.calls ≡ length self }
    {
        let mut inside = self;
        for mut pass in passes {
            inside.show(rt, &mut pass);
        }
        inside.end(rt)
    }

    // Ends the writer.
    fn end<R: Wait>(self, rt: &R) -> Closed
        ensures listing { result.listing ≡ Shown J.config self }
        ensures calls { result.calls ≡ length self }
        ensures legal { IsLegal J.config self }
        ensures callers { IsOf J.callers self }
    {
        let Self {
            pool: _pool,
            length: _length,
            books: _books,
            writer,
        } = self;
        let published = writer.take(rt);
        Closed {
            listing: published.listing.copied(),
            calls: published.count,
        }
    }
}
