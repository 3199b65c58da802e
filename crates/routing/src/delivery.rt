//! Delivering what came to one stream.

ghost use Rattle.std.specs.Prelude.{◌≡◌, ◌⊎◌, ◌||◌, ℕ, ◌≤◌, true, false, List, ◌++◌, length, drop, Some, None};
ghost use Rattle.std.specs.Prelude.{Ok, IfOk, OnErr};
ghost use Rattle.handlers.specs.Calls.{Take, End};
ghost use Rattle.yamux_session.specs.declared.event.Role.{Role};
ghost use Rattle.yamux_session.specs.History.{Item};
ghost use Rattle.yamux_session.specs.Data.{written};
ghost use Rattle.yamux_session.specs.State.{Stands as SessionStands, Whenever};
ghost use Rattle.streams.specs.Streams.{Past};
ghost use Rattle.streams.specs.State.{Stands, is_talking, is_over, awaits_handler};
ghost use Rattle.serving.specs.Served.{MayGrow, WasAnswered};
ghost use Rattle.dispatch.specs.Dispatch.{IsKnown, MakingRunsOut, makes_once};
ghost use Rattle.streams.specs.declared.stop.Cause.{Cause};
ghost use Rattle.routing.specs.Routing.{Came, Takes, Ends, Delivers};
ghost use Rattle.routing.specs.Routing.{RunsOutServing, RunsOutTaking, RunsOutEnding, ServingRunsOut};

use crate::delivered::{Delivered, Outcome};
use dispatch::{Direction, negotiate};
use handlers::{Handler, Protocols};
use peer_ids::PeerId;
use serving::serve;
use std::alloc::AllocError;
use streams::{Heard, Stop, Stream};
use yamux_session::Session;

/// What a stream that stops comes to: it is given up, or memory is wanting.
fn stopped<H: Handler>(stop: Stop) -> Result<Outcome<H>, AllocError>
    ensures broken { IfOk result (λ outcome.
        (cause : Cause) × (stop ≡ Stop.Broken cause) × (outcome ≡ Outcome.Broken cause)) }
    ensures memory { OnErr result (stop ≡ Stop.OutOfMemory) }
{
    match stop {
        Stop::Broken(cause) => Ok(Outcome::Broken(cause)),
        Stop::OutOfMemory => Err(AllocError),
    }
}

/// Delivers credit to a stream: its handler is asked for as many bytes as there is credit, and what it gives is
/// written. It is called once the stream is there, and whenever its credit has grown.
///
/// Its only error is want of memory, and ends the connection. A stream that is broken is done with: its handler was
/// dropped.
pub fn deliver_credit<H: Handler>(
    session: &mut Session,
    number: u32,
    stream: &mut Stream<H>,
) -> Result<Outcome<H>, AllocError>
    ensures came { (role : Role) (past : List Item) (fed sent : List ℕ) (so_far : Past H)
        → SessionStands role past fed sent session.old → Stands H.steps stream.old so_far
        → so_far.sent ≡ written role past number → IfOk result (λ outcome.
        Came H.steps H.fails H.is_closed H.is_finished role past fed sent number so_far stream.old session.old
        outcome session.new stream.new) }
    ensures memory { OnErr result (Whenever session.old (λ role past. MayGrow role past number)) }
    // So want of memory stands for no fault of the handler: it has answered.
    ensures answered { OnErr result (Whenever session.old (λ role past.
        WasAnswered H.steps H.is_closed role past number stream.old)) }
    // It says what was done until then, and for what memory is wanting.
    ensures runs_out { (role : Role) (past : List Item) (fed sent : List ℕ) (so_far : Past H)
        → SessionStands role past fed sent session.old → Stands H.steps stream.old so_far
        → so_far.sent ≡ written role past number → OnErr result
        (RunsOutServing H.steps H.is_closed H.is_finished role past fed sent number session.old so_far stream.old
        session.new stream.new) }
    ensures idle { session.old.failed || is_over stream.old.stage ≡ true
        → (result ≡ Ok Outcome.Going) × (session.new ≡ session.old) × (stream.new ≡ stream.old) }
{
    match serve(session, number, stream) {
        Ok(None) => Ok(Outcome::Going),
        Ok(Some(handler)) => Ok(Outcome::Done(handler)),
        Err(stop) => stopped(stop),
    }
}

/// Hands data to the handler, and serves the stream.
fn taken<H: Handler>(
    session: &mut Session,
    number: u32,
    stream: &mut Stream<H>,
    bytes: &[u8],
) -> Result<Outcome<H>, AllocError>
    ensures takes { (role : Role) (past : List Item) (fed sent : List ℕ) (so_far : Past H)
        → SessionStands role past fed sent session.old → Stands H.steps stream.old so_far → so_far.ended ≡ false
        → is_talking stream.old.stage ≡ false → awaits_handler stream.old.stage ≡ false
        → so_far.sent ≡ written role past number → IfOk result (λ outcome.
        Takes H.steps H.fails H.is_closed H.is_finished role past fed sent number so_far bytes.now stream.old
        session.old outcome session.new stream.new) }
    ensures memory { OnErr result (Whenever session.old (λ role past. MayGrow role past number)) }
    ensures runs_out { (role : Role) (past : List Item) (fed sent : List ℕ) (so_far : Past H)
        → SessionStands role past fed sent session.old → Stands H.steps stream.old so_far → so_far.ended ≡ false
        → so_far.sent ≡ written role past number → OnErr result ((is_talking stream.old.stage ≡ false)
        × RunsOutTaking H.steps H.is_closed H.is_finished role past fed sent number session.old so_far bytes.now
        stream.old session.new stream.new) }
{
    match stream.take(bytes) {
        Ok(()) => deliver_credit(session, number, stream),
        Err(stop) => stopped(stop),
    }
}

/// Tells the handler the end of the data, and serves the stream. An end within the talk breaks the stream.
fn ended<H: Handler>(
    session: &mut Session,
    number: u32,
    stream: &mut Stream<H>,
) -> Result<Outcome<H>, AllocError>
    ensures ends { (role : Role) (past : List Item) (fed sent : List ℕ) (so_far : Past H)
        → SessionStands role past fed sent session.old → Stands H.steps stream.old so_far → so_far.ended ≡ false
        → awaits_handler stream.old.stage ≡ false → so_far.sent ≡ written role past number → IfOk result (λ outcome.
        Ends H.steps H.fails H.is_closed H.is_finished role past fed sent number so_far stream.old session.old outcome
        session.new stream.new) }
    ensures memory { OnErr result (Whenever session.old (λ role past. MayGrow role past number)) }
    ensures runs_out { (role : Role) (past : List Item) (fed sent : List ℕ) (so_far : Past H)
        → SessionStands role past fed sent session.old → Stands H.steps stream.old so_far → so_far.ended ≡ false
        → so_far.sent ≡ written role past number → OnErr result ((is_talking stream.old.stage ≡ false)
        × RunsOutEnding H.steps H.is_closed H.is_finished role past fed sent number session.old so_far stream.old
        session.new stream.new) }
{
    match stream.end() {
        Ok(()) => deliver_credit(session, number, stream),
        Err(stop) => stopped(stop),
    }
}

/// Whether nothing is delivered: the session has failed, or the stream is over, or awaits its handler.
fn is_idle<H: Handler>(session: &Session, stream: &Stream<H>) -> bool
    ensures { result ≡ (session.now.failed || (is_over stream.now.stage || awaits_handler stream.now.stage)) }
{
    session.has_failed() || stream.is_over() || stream.awaits_handler()
}

/// Delivers the end of the data to a stream: to its handler. Then the stream is served. An end within the talk breaks
/// the stream. Where the session has failed, or the stream is over or awaits its handler, nothing is done.
///
/// Its only error is want of memory, and ends the connection. A stream that is broken is done with: its handler was
/// dropped.
pub fn deliver_end<H: Handler>(
    session: &mut Session,
    number: u32,
    stream: &mut Stream<H>,
) -> Result<Outcome<H>, AllocError>
    ensures ends { (role : Role) (past : List Item) (fed sent : List ℕ) (so_far : Past H)
        → SessionStands role past fed sent session.old → Stands H.steps stream.old so_far → so_far.ended ≡ false
        → awaits_handler stream.old.stage ≡ false → so_far.sent ≡ written role past number → IfOk result (λ outcome.
        Ends H.steps H.fails H.is_closed H.is_finished role past fed sent number so_far stream.old session.old outcome
        session.new stream.new) }
    ensures memory { OnErr result (Whenever session.old (λ role past. MayGrow role past number)) }
    // So want of memory stands for no fault of the handler, and for no end within the talk.
    ensures runs_out { (role : Role) (past : List Item) (fed sent : List ℕ) (so_far : Past H)
        → SessionStands role past fed sent session.old → Stands H.steps stream.old so_far → so_far.ended ≡ false
        → so_far.sent ≡ written role past number → OnErr result ((is_talking stream.old.stage ≡ false)
        × RunsOutEnding H.steps H.is_closed H.is_finished role past fed sent number session.old so_far stream.old
        session.new stream.new) }
    ensures idle { session.old.failed || (is_over stream.old.stage || awaits_handler stream.old.stage) ≡ true
        → (result ≡ Ok Outcome.Going) × (session.new ≡ session.old) × (stream.new ≡ stream.old) }
{
    if is_idle(session, stream) {
        return Ok(Outcome::Going);
    }
    ended(session, number, stream)
}

/// What stands behind so many bytes of a piece.
fn behind(piece: &[u8], used: usize) -> &[u8]
    requires { used ≤ length piece.now }
    ensures { result.now ≡ drop used piece.now }
{
    &piece[used..]
}

/// Hands data to the talk while nothing is decided, and behind it to the handler, and serves the stream.
fn heard<P: Protocols>(
    session: &mut Session,
    number: u32,
    protocols: &mut P,
    direction: Direction,
    peer: PeerId,
    stream: &mut Stream<P::H>,
    bytes: &[u8],
) -> Result<Delivered<P::H>, AllocError>
    ensures names { P.listed protocols.new ≡ P.listed protocols.old }
    ensures eager { P.is_eager protocols.new ≡ P.is_eager protocols.old }
    ensures delivers { (role : Role) (past : List Item) (fed sent : List ℕ) (so_far : Past P.H)
        → SessionStands role past fed sent session.old → Stands P.H.steps stream.old so_far → so_far.ended ≡ false
        → awaits_handler stream.old.stage ≡ false → IsKnown (P.listed protocols.old) direction so_far.side
        → so_far.sent ≡ written role past number → IfOk result (λ delivered.
        Delivers P.H.steps P.H.fails P.H.is_closed P.H.is_finished role past fed sent number
        (makes_once P.makes_inbound P.makes_outbound P.leads_inbound P.leads_outbound direction peer protocols.old
        protocols.new) (protocols.new ≡ protocols.old) so_far bytes.now stream.old session.old delivered session.new
        stream.new) }
    ensures memory { (role : Role) (past : List Item) (fed sent : List ℕ) (so_far : Past P.H)
        → SessionStands role past fed sent session.old → Stands P.H.steps stream.old so_far → so_far.ended ≡ false
        → IsKnown (P.listed protocols.old) direction so_far.side → so_far.sent ≡ written role past number
        → OnErr result ((MayGrow role past number
        × ServingRunsOut P.H.steps P.H.is_closed P.H.is_finished role past fed sent number session.old
        (makes_once P.makes_inbound P.makes_outbound P.leads_inbound P.leads_outbound direction peer protocols.old
        protocols.new) (protocols.new ≡ protocols.old) so_far bytes.now stream.old session.new stream.new)
        ⊎ ((is_talking stream.old.stage ≡ true) × (protocols.new ≡ protocols.old) × (session.new ≡ session.old)
        × ((more : List ℕ) × (stream.new.waiting ≡ stream.old.waiting ++ more))
        × MakingRunsOut P.H.steps so_far stream.old bytes.now stream.new.waiting)) }
{
    if !stream.talks() {
        let outcome = taken(session, number, stream, bytes)?;
        return Ok(Delivered::by_none(outcome));
    }
    match negotiate(protocols, direction, peer, stream, bytes) {
        Ok(Heard::Going) => Ok(Delivered::by_none(deliver_credit(session, number, stream)?)),
        Ok(Heard::Refused) => Ok(Delivered::by_none(Outcome::Refused)),
        Ok(Heard::Agreed { index, used }) => {
            let outcome = taken(session, number, stream, behind(bytes, used))?;
            Ok(Delivered {
                agreed: Some(index),
                outcome,
            })
        }
        Err(stop) => Ok(Delivered::by_none(stopped(stop)?)),
    }
}

/// Delivers data to a stream: to its talk while nothing is decided, and behind it to its handler. Then the stream is
/// served. Where the session has failed, or the stream is over or awaits its handler, nothing is done.
///
/// Its only error is want of memory, and ends the connection. A stream that was refused or is broken is done with: its
/// handler was dropped.
pub fn deliver<P: Protocols>(
    session: &mut Session,
    number: u32,
    protocols: &mut P,
    direction: Direction,
    peer: PeerId,
    stream: &mut Stream<P::H>,
    bytes: &[u8],
) -> Result<Delivered<P::H>, AllocError>
    ensures names { P.listed protocols.new ≡ P.listed protocols.old }
    ensures eager { P.is_eager protocols.new ≡ P.is_eager protocols.old }
    ensures delivers { (role : Role) (past : List Item) (fed sent : List ℕ) (so_far : Past P.H)
        → SessionStands role past fed sent session.old → Stands P.H.steps stream.old so_far → so_far.ended ≡ false
        → awaits_handler stream.old.stage ≡ false → IsKnown (P.listed protocols.old) direction so_far.side
        → so_far.sent ≡ written role past number → IfOk result (λ delivered.
        Delivers P.H.steps P.H.fails P.H.is_closed P.H.is_finished role past fed sent number
        (makes_once P.makes_inbound P.makes_outbound P.leads_inbound P.leads_outbound direction peer protocols.old
        protocols.new) (protocols.new ≡ protocols.old) so_far bytes.now stream.old session.old delivered session.new
        stream.new) }
    ensures memory { (role : Role) (past : List Item) (fed sent : List ℕ) (so_far : Past P.H)
        → SessionStands role past fed sent session.old → Stands P.H.steps stream.old so_far → so_far.ended ≡ false
        → IsKnown (P.listed protocols.old) direction so_far.side → so_far.sent ≡ written role past number
        → OnErr result ((MayGrow role past number
        × ServingRunsOut P.H.steps P.H.is_closed P.H.is_finished role past fed sent number session.old
        (makes_once P.makes_inbound P.makes_outbound P.leads_inbound P.leads_outbound direction peer protocols.old
        protocols.new) (protocols.new ≡ protocols.old) so_far bytes.now stream.old session.new stream.new)
        ⊎ ((is_talking stream.old.stage ≡ true) × (protocols.new ≡ protocols.old) × (session.new ≡ session.old)
        × ((more : List ℕ) × (stream.new.waiting ≡ stream.old.waiting ++ more))
        × MakingRunsOut P.H.steps so_far stream.old bytes.now stream.new.waiting)) }
    ensures idle { session.old.failed || (is_over stream.old.stage || awaits_handler stream.old.stage) ≡ true
        → (result ≡ Ok (record { agreed = None; outcome = Outcome.Going })) × (session.new ≡ session.old)
        × (stream.new ≡ stream.old) × (protocols.new ≡ protocols.old) }
{
    if is_idle(session, stream) {
        return Ok(Delivered::by_none(Outcome::Going));
    }
    heard(session, number, protocols, direction, peer, stream, bytes)
}
