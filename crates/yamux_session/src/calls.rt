//! A whole session, from its first call to its last.

ghost use Rattle.std.specs.Prelude.{◌≡◌, ◌<◌, IfOk, OnErr, Ok, Err, length};
ghost use Rattle.yamux_session.specs.declared.event.Role.{Role};
ghost use Rattle.yamux_session.specs.Runs.{Point, Stands, Answers, Runs, done_or};

use crate::event::{ActRefused, Event, Role};
use crate::session::Session;
use std::alloc::{AllocError, Global};

/// A call of a session.
#[derive(Debug, Drop)]
pub enum Act {
    /// `feed` of these bytes.
    Feed(Vec<u8>),
    /// `open_stream`.
    Start,
    /// `write` of these bytes on a stream.
    Write(u32, Vec<u8>),
    /// `taken` of so many bytes of a stream.
    Taken(u32, usize),
    /// `close` of a stream.
    Close(u32),
    /// `reset` of a stream.
    Reset(u32),
    /// `go_away` with this code.
    GoAway(u32),
}

/// What a call of a session answered.
#[derive(Debug, Drop)]
pub enum ActAnswer {
    /// The events of a `feed`.
    Events(Vec<Event>),
    /// The number of the stream that was opened.
    Stream(u32),
    /// How many bytes of a `write` were let through.
    Count(usize),
    /// The act was done.
    Done,
    /// The call was refused.
    Refused(ActRefused),
}

/// A session that has run.
#[derive(Debug, Drop)]
pub struct Ran {
    /// The answer of each call, in order.
    pub answers: Vec<ActAnswer>,
    /// All output.
    pub output: Vec<u8>,
}

/// The answer of an act without a value.
fn done(outcome: Result<(), ActRefused>) -> ActAnswer
    ensures { result ≡ done_or outcome }
{
    match outcome {
        Ok(()) => ActAnswer::Done,
        Err(refused) => ActAnswer::Refused(refused),
    }
}

/// Makes one call.
fn perform(session: &mut Session, act: &Act) -> ActAnswer
    ensures { (role : Role) (point : Point) → Stands role point session.old
        → (next : Point) × Answers role point act.now result next × Stands role next session.new }
{
    match act {
        Act::Feed(bytes) => match session.feed(bytes) {
            Ok(told) => ActAnswer::Events(told),
            Err(refused) => ActAnswer::Refused(refused),
        },
        Act::Start => match session.open_stream() {
            Ok(stream) => ActAnswer::Stream(stream),
            Err(refused) => ActAnswer::Refused(refused),
        },
        Act::Write(stream, bytes) => match session.write(*stream, bytes) {
            Ok(count) => ActAnswer::Count(count),
            Err(refused) => ActAnswer::Refused(refused),
        },
        Act::Taken(stream, count) => done(session.taken(*stream, *count)),
        Act::Close(stream) => done(session.close(*stream)),
        Act::Reset(stream) => done(session.reset(*stream)),
        Act::GoAway(code) => done(session.go_away(*code)),
    }
}

/// Makes these calls of a new session, in order. [`AllocError`] is answered only where the list of answers couldn't
/// grow.
pub fn run(alloc: Global, role: Role, acts: &[Act]) -> Result<Ran, AllocError>
    ensures ran { IfOk result (λ ran. Runs role acts.now ran.answers.items ran.output.items) }
    ensures memory { OnErr result (0 < length acts.now) }
{
    let mut session = Session::new(alloc, role);
    let mut answers = Vec::new(alloc);
    for act in acts {
        answers.push(perform(&mut session, act))?;
    }
    let output = session.take_output();
    Ok(Ran { answers, output })
}
