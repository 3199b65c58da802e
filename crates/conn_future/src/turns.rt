//! A turn of a poll: at most one call of the link.

ghost use Rattle.std.specs.Prelude.{◌≡◌, ◌≢◌, ◌+◌, ◌<◌, ◌⊎◌, ℕ, List, true, false, [], length, IfOk};
ghost use Rattle.futures.specs.Task.{Covers, Keeps};
ghost use Rattle.conn_future.specs.Stages.{is_live, WaitsAt, Came};
ghost use Rattle.futures.specs.declared.task.context.Context.{Context};
ghost use Rattle.conn_future.specs.declared.turns.Waits.{Waits};
ghost use Rattle.conn_future.specs.Turning.{HasWaited, Makes, MadeTo, OnAgain, OnGoing, OnWait, faults_of};
ghost use Rattle.conn_future.specs.Turning.{Turns, EndsFor, ClosesBy, DrainsBy};

use crate::conn::Conn;
use crate::stage::Stage;
use bytes::BytesMut;
use conn_link::Link;
use conn_log::ConnEvent;
use futures::task::{Context, Poll};
use handlers::{Handler, Protocols};
use std::alloc::{AllocError, Global};

/// Which calls of the link were pending in this poll.
#[derive(Drop)]
pub(crate) struct Waits {
    pub(crate) reading: bool,
    pub(crate) writing: bool,
}

/// What a turn leads to.
#[derive(Drop)]
pub(crate) enum Turn<H> {
    /// Another turn.
    Again,
    /// The poll gives this.
    Give(Option<ConnEvent<H>>),
    /// A call of the link failed: the poll gives that.
    Failed,
    /// No call of the link is left in this poll.
    Wait,
}

/// How many bytes a read takes at most.
const READ_SIZE: usize = 8192;

/// A buffer for a read.
pub(crate) fn buffer(alloc: Global) -> Result<Vec<u8>, AllocError>
    ensures { IfOk result (λ buffer. length buffer.items ≡ 8192) }
{
    vec![in alloc; 0; READ_SIZE]
}

impl<L: Link, P: Protocols> Conn<L, P> {
    // One call that writes.
    fn write(&mut self, cx: &mut Context<'_>, waits: &mut Waits) -> Turn<P::H>
        requires live { is_live self.old.stage ≡ true }
        requires none_held { self.old.held.items ≡ [] }
        requires can_wait { waits.old.writing ≡ false }
        requires some { self.old.unsent.items ≢ [] }
        ensures follows { Turns L.Link P.Protocols P.H.Handler self.old result self.new }
        ensures goes_on { OnGoing result ((self.new.stage ≡ self.old.stage) × (self.new.held.items ≡ [])) }
        ensures failures { L.failed self.new.link ≡ L.failed self.old.link + faults_of result }
        ensures unshut { L.is_shut self.new.link → L.is_shut self.old.link }
        ensures shutting { self.old.stage ≡ Stage.Shutting
            → DrainsBy L.Link P.Protocols P.H.Handler self.old result self.new }
        ensures no_wait { OnWait result ⊥ }
        ensures waits { HasWaited waits.old cx.old (L.reads_at self.old.link) (L.writes_at self.old.link)
            → OnAgain result (HasWaited waits.new cx.new (L.reads_at self.new.link) (L.writes_at self.new.link)) }
        ensures stage { is_live self.new.stage ≡ true → self.new.stage ≡ self.old.stage }
        ensures closes { self.old.stage ≡ Stage.Shutting → ClosesBy L.Link P.Protocols P.H.Handler result self.new }
        ensures why { self.old.stage ≡ Stage.Going → EndsFor L.Link P.Protocols P.H.Handler result self.new }
        ensures moved { (given : List ℕ) × (took : List ℕ) × L.moves self.old.link given took self.new.link }
        ensures came { is_live self.new.stage ≡ false → result ≡ Turn.Failed }
        ensures called { (waited : ℕ) (first : L) (before : Context) (count : ℕ)
            → Makes L.calls waits.old waited (length self.old.unsent.items) first before self.old.link cx.old count
            → Makes L.calls waits.new waited (length self.new.unsent.items) first before self.new.link cx.new
            (count + 1) }
        ensures kept { Keeps cx.old cx.new }
    {
        match self.link.poll_write(cx, self.unsent.as_slice()) {
            Poll::Ready(Ok(count)) => {
                self.unsent.advance(count);
                Turn::Again
            }
            Poll::Ready(Err(_fault)) => {
                self.unsent = BytesMut::new(self.alloc);
                self.stage = Stage::Over;
                Turn::Failed
            }
            Poll::Pending => {
                waits.writing = true;
                Turn::Again
            }
        }
    }

    // One call that reads.
    fn read(&mut self, cx: &mut Context<'_>, waits: &mut Waits) -> Turn<P::H>
        requires going { self.old.stage ≡ Stage.Going }
        requires none_held { self.old.held.items ≡ [] }
        requires can_wait { waits.old.reading ≡ false }
        requires written { waits.old.writing ≡ false → self.old.unsent.items ≡ [] }
        ensures follows { Turns L.Link P.Protocols P.H.Handler self.old result self.new }
        ensures goes_on { OnGoing result ((self.new.stage ≡ self.old.stage) × (self.new.held.items ≡ [])) }
        ensures failures { L.failed self.new.link ≡ L.failed self.old.link + faults_of result }
        ensures unshut { L.is_shut self.new.link → L.is_shut self.old.link }
        ensures no_wait { OnWait result ⊥ }
        ensures waits { HasWaited waits.old cx.old (L.reads_at self.old.link) (L.writes_at self.old.link)
            → OnAgain result (HasWaited waits.new cx.new (L.reads_at self.new.link) (L.writes_at self.new.link)) }
        ensures stage { is_live self.new.stage ≡ true → self.new.stage ≡ self.old.stage }
        ensures why { self.old.stage ≡ Stage.Going → EndsFor L.Link P.Protocols P.H.Handler result self.new }
        ensures moved { (given : List ℕ) × (took : List ℕ) × L.moves self.old.link given took self.new.link }
        ensures came { is_live self.new.stage ≡ false
            → (result ≡ Turn.Failed) ⊎ Came L.Link self.old.link self.new.link }
        ensures called { (waited : ℕ) (first : L) (before : Context) (count : ℕ)
            → Makes L.calls waits.old waited (length self.old.unsent.items) first before self.old.link cx.old count
            → Makes L.calls waits.new waited (length self.new.unsent.items) first before self.new.link cx.new
            (count + 1) }
        ensures kept { Keeps cx.old cx.new }
    {
        match self.link.poll_read(cx, self.buffer.as_mut_slice()) {
            Poll::Ready(Ok(0)) => self.end(),
            Poll::Ready(Ok(count)) => self.hear(count),
            Poll::Ready(Err(_fault)) => {
                self.unsent = BytesMut::new(self.alloc);
                self.stage = Stage::Over;
                Turn::Failed
            }
            Poll::Pending => {
                waits.reading = true;
                Turn::Again
            }
        }
    }

    // One call that shuts the link.
    fn close(&mut self, cx: &mut Context<'_>) -> Turn<P::H>
        requires shutting { self.old.stage ≡ Stage.Shutting }
        requires none_held { self.old.held.items ≡ [] }
        requires none_left { self.old.unsent.items ≡ [] }
        ensures follows { Turns L.Link P.Protocols P.H.Handler self.old result self.new }
        ensures goes_on { OnGoing result ((self.new.stage ≡ self.old.stage) × (self.new.held.items ≡ [])) }
        ensures failures { L.failed self.new.link ≡ L.failed self.old.link + faults_of result }
        ensures shutting { self.old.stage ≡ Stage.Shutting
            → DrainsBy L.Link P.Protocols P.H.Handler self.old result self.new }
        ensures no_turn { OnAgain result ⊥ }
        ensures covers { OnWait result (Covers cx.new (WaitsAt (L.reads_at self.new.link) (L.writes_at self.new.link)
            (L.shuts_at self.new.link) self.new.stage self.new.unsent.items)) }
        ensures stage { is_live self.new.stage ≡ true → self.new.stage ≡ self.old.stage }
        ensures closes { self.old.stage ≡ Stage.Shutting → ClosesBy L.Link P.Protocols P.H.Handler result self.new }
        ensures called { (waited : ℕ) (first : L) (before : Context) (count : ℕ) (waits : Waits)
            → Makes L.calls waits waited (length self.old.unsent.items) first before self.old.link cx.old count
            → MadeTo L.calls waited (is_live self.new.stage) first before self.new.link cx.new (count + 1) }
        ensures kept { Keeps cx.old cx.new }
    {
        match self.link.poll_shut(cx) {
            Poll::Ready(Ok(())) => {
                self.unsent = BytesMut::new(self.alloc);
                self.stage = Stage::Over;
                Turn::Give(Some(ConnEvent::Shut))
            }
            Poll::Ready(Err(_fault)) => {
                self.unsent = BytesMut::new(self.alloc);
                self.stage = Stage::Over;
                Turn::Failed
            }
            Poll::Pending => Turn::Wait,
        }
    }

    // At most one call of the link: it writes what is left first.
    pub(crate) fn turn(&mut self, cx: &mut Context<'_>, waits: &mut Waits) -> Turn<P::H>
        requires live { is_live self.old.stage ≡ true }
        requires none_held { self.old.held.items ≡ [] }
        ensures follows { Turns L.Link P.Protocols P.H.Handler self.old result self.new }
        ensures goes_on { OnGoing result ((self.new.stage ≡ self.old.stage) × (self.new.held.items ≡ [])) }
        ensures failures { L.failed self.new.link ≡ L.failed self.old.link + faults_of result }
        ensures unshut { self.old.stage ≢ Stage.Shutting → L.is_shut self.new.link → L.is_shut self.old.link }
        ensures shutting { self.old.stage ≡ Stage.Shutting
            → DrainsBy L.Link P.Protocols P.H.Handler self.old result self.new }
        ensures waits { HasWaited waits.old cx.old (L.reads_at self.old.link) (L.writes_at self.old.link)
            → OnAgain result (HasWaited waits.new cx.new (L.reads_at self.new.link) (L.writes_at self.new.link)) }
        ensures covers { HasWaited waits.old cx.old (L.reads_at self.old.link) (L.writes_at self.old.link)
            → OnWait result (Covers cx.new (WaitsAt (L.reads_at self.new.link) (L.writes_at self.new.link)
            (L.shuts_at self.new.link) self.new.stage self.new.unsent.items)) }
        ensures stage { is_live self.new.stage ≡ true → self.new.stage ≡ self.old.stage }
        ensures closes { self.old.stage ≡ Stage.Shutting → ClosesBy L.Link P.Protocols P.H.Handler result self.new }
        ensures why { self.old.stage ≡ Stage.Going → EndsFor L.Link P.Protocols P.H.Handler result self.new }
        ensures moved { self.old.stage ≡ Stage.Going
            → (given : List ℕ) × (took : List ℕ) × L.moves self.old.link given took self.new.link }
        ensures came { self.old.stage ≡ Stage.Going → is_live self.new.stage ≡ false
            → (result ≡ Turn.Failed) ⊎ Came L.Link self.old.link self.new.link }
        ensures called { (waited : ℕ) (first : L) (before : Context) (count : ℕ)
            → Makes L.calls waits.old waited (length self.old.unsent.items) first before self.old.link cx.old count
            → OnAgain result (Makes L.calls waits.new waited (length self.new.unsent.items) first before self.new.link
            cx.new (count + 1)) }
        ensures calls { (waited : ℕ) (first : L) (before : Context) (count : ℕ)
            → Makes L.calls waits.old waited (length self.old.unsent.items) first before self.old.link cx.old count
            → MadeTo L.calls waited (is_live self.new.stage) first before self.new.link cx.new (count + 1) }
        ensures kept { Keeps cx.old cx.new }
    {
        if !self.unsent.is_empty() && !waits.writing {
            return self.write(cx, waits);
        }
        match self.stage {
            Stage::Going if !waits.reading => self.read(cx, waits),
            Stage::Shutting if self.unsent.is_empty() => self.close(cx),
            Stage::Going | Stage::Shutting | Stage::Starved | Stage::Over => Turn::Wait,
        }
    }
}
