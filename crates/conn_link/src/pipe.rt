//! A link in memory.

ghost use Rattle.std.specs.Prelude.{◌≡◌, ◌≢◌, ◌+◌, ◌-◌, ◌<◌, ◌≤◌, ◌^◌, ◌++◌, ◌⊎◌, [], true, false, not, ◌||◌};
ghost use Rattle.std.specs.Prelude.{length, drop, take, min, Ok};
ghost use Rattle.std.specs.List.{All};
ghost use Rattle.std.specs.Vec.{vec_capacity, vec_len};
ghost use Rattle.futures.specs.Poll.{OnPending};
ghost use Rattle.futures.specs.Task.{IsArmed, Keeps};
ghost use Rattle.conn_link.specs.Moving.{count_moved, bytes_moved, counted, found_end};
ghost use Rattle.conn_link.specs.Piping.{Piped, PipeMoves, PipeCalls, HasEnded, IsShut, CanGo, answer_by, failure};
ghost use Rattle.conn_link.specs.PipeLaws.{none_moved, moved_on, none_called, called_on, ended_stays, shut_stays};

use crate::link::{Link, LinkFault, finds_end};
use crate::script::Script;
use crate::step::PipeStep;
use crate::unread::Unread;
use futures::task::{Context, Poll};
use std::alloc::Global;
use std::marker::Model;

/// A link in memory, whose reads and writes go by lists of steps.
///
/// Each read takes the next step of its list, and each write of its own. Past the end of the list a call moves all that
/// it can, and past the end of the input a read gives the end. A write that is refused memory counts as a failure.
#[derive(Debug, Drop)]
pub struct Pipe {
    unread: Unread,
    written: Vec<u8>,
    reads: Script,
    writes: Script,
    failures: u64,
    has_ended: bool,
    is_open: bool,
}

impl Model for Pipe {
    ghost Value = { Piped };

    ghost view = { λ a. record {
      unread = a.unread;
      written = a.written.items;
      room = vec_capacity a.written - vec_len a.written;
      reads = a.reads;
      writes = a.writes;
      failures = a.failures;
      has_ended = a.has_ended;
      is_open = a.is_open;
    } };

    ghost invariant = { λ a. All CanGo a.reads × All CanGo a.writes × (a.has_ended ≡ true → a.unread ≡ []) };
}

impl Pipe {
    /// A pipe that gives this input, by these steps of its reads and these of its writes.
    pub fn new(alloc: Global, input: Vec<u8>, reads: Vec<PipeStep>, writes: Vec<PipeStep>) -> Pipe
        requires reads { All CanGo reads.items }
        requires writes { All CanGo writes.items }
        ensures input { result.unread ≡ input.items }
        ensures written { (result.written ≡ []) × (result.room ≡ 0) }
        ensures steps { (result.reads ≡ reads.items) × (result.writes ≡ writes.items) }
        ensures fresh { (result.failures ≡ 0) × (result.has_ended ≡ false) × (result.is_open ≡ true) }
    {
        Pipe {
            unread: Unread::new(input),
            written: Vec::new(alloc),
            reads: Script::new(reads),
            writes: Script::new(writes),
            failures: 0,
            has_ended: false,
            is_open: true,
        }
    }

    /// All bytes that were written.
    pub fn written(&self) -> &[u8]
        ensures { result.now ≡ self.now.written }
    {
        self.written.as_slice()
    }

    /// Whether it was shut.
    pub fn is_shut(&self) -> bool
        ensures { result ≡ not self.now.is_open }
    {
        !self.is_open
    }
}

impl Link for Pipe {
    ghost moves = { PipeMoves };

    ghost calls = { PipeCalls };

    ghost has_ended = { HasEnded };

    ghost is_shut = { IsShut };

    ghost failed = { λ pipe. pipe.failures };

    // It waits nowhere: a pending call asks to be polled again.
    ghost reads_at = { λ _ _. ⊥ };

    ghost writes_at = { λ _ _. ⊥ };

    ghost shuts_at = { λ _ _. ⊥ };

    ghost moves_nothing = { none_moved };

    ghost moves_on = { moved_on };

    ghost calls_none = { none_called };

    ghost calls_on = { called_on };

    ghost stays_ended = { ended_stays };

    ghost stays_shut = { shut_stays };

    fn poll_read(
        &mut self,
        cx: &mut Context<'_>,
        buffer: &mut [u8],
    ) -> Poll<Result<usize, LinkFault>>
        ensures answer { result ≡ answer_by self.old.reads (min (length buffer.old) (length self.old.unread)) }
        ensures given { buffer.new ≡ take (count_moved result) self.old.unread ++ drop (count_moved result) buffer.old }
        ensures after { self.new ≡ record self.old {
          unread = drop (count_moved result) self.old.unread;
          reads = drop 1 self.old.reads;
          failures = counted self.old.failures result;
          has_ended = self.old.has_ended || found_end (length buffer.old) result;
        } }
        ensures end { found_end (length buffer.old) result ≡ true → HasEnded self.new }
        ensures found { HasEnded self.new → HasEnded self.old ⊎ (found_end (length buffer.old) result ≡ true) }
        ensures again { OnPending result ((cx.new.is_woken ≡ true) × IsArmed cx.new) }
        ensures calm { result ≢ Poll.Pending → cx.new ≡ cx.old }
        ensures kept { Keeps cx.old cx.new }
    {
        let able = buffer.len().min(self.unread.len());
        let polled = self.reads.poll(cx, able);
        match &polled {
            Poll::Ready(Ok(count)) => {
                self.has_ended = self.has_ended || finds_end(buffer.len(), *count);
                self.unread.fill(&mut buffer[..*count]);
            }
            Poll::Ready(Err(_fault)) => count_failure(&mut self.failures),
            Poll::Pending => {}
        }
        polled
    }

    fn poll_write(&mut self, cx: &mut Context<'_>, bytes: &[u8]) -> Poll<Result<usize, LinkFault>>
        // It fails otherwise only where memory is asked for, and refused.
        ensures answer { count_moved (answer_by self.old.writes (length bytes.now)) ≤ self.old.room
            → result ≡ answer_by self.old.writes (length bytes.now) }
        ensures memory { result ≢ answer_by self.old.writes (length bytes.now) → result ≡ failure }
        ensures after { self.new ≡ record self.old {
          written = self.old.written ++ bytes_moved result bytes.now;
          room = self.new.room;
          writes = drop 1 self.old.writes;
          failures = counted self.old.failures result;
        } }
        ensures room { self.old.room ≤ self.new.room + count_moved result }
        // A pending call takes no memory.
        ensures still { OnPending result (self.new.room ≡ self.old.room) }
        ensures again { OnPending result ((cx.new.is_woken ≡ true) × IsArmed cx.new) }
        ensures calm { result ≢ Poll.Pending → cx.new ≡ cx.old }
        ensures kept { Keeps cx.old cx.new }
    {
        let polled = self.writes.poll(cx, bytes.len());
        match &polled {
            Poll::Ready(Ok(count)) => {
                if self.written.extend_from_slice(&bytes[..*count]).is_err() {
                    count_failure(&mut self.failures);
                    return Poll::Ready(Err(LinkFault));
                }
            }
            Poll::Ready(Err(_fault)) => count_failure(&mut self.failures),
            Poll::Pending => {}
        }
        polled
    }

    fn poll_shut(&mut self, _cx: &mut Context<'_>) -> Poll<Result<(), LinkFault>>
        ensures answer { result ≡ Poll.Ready (Ok tt) }
        ensures after { self.new ≡ record self.old { is_open = false } }
        ensures calm { _cx.new ≡ _cx.old }
    {
        self.is_open = false;
        Poll::Ready(Ok(()))
    }

    fn failures(&self) -> u64
        ensures { result ≡ self.now.failures }
    {
        self.failures
    }
}

// A count that is full stays.
fn count_failure(failures: &mut u64)
    ensures { failures.new ≡ min (failures.old + 1) (2 ^ 64 - 1) }
{
    *failures = failures.saturating_add(1);
}
