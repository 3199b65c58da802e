//! Two sessions, each fed what the other has sent.

ghost use Rattle.std.specs.Prelude.{◌≡◌, false, [], IfOk, take};
ghost use Rattle.yamux_session.specs.declared.event.Role.TheVariants.{Client};
ghost use Rattle.yamux_session.specs.Arrives.{tellings};
ghost use Rattle.yamux_session.specs.State.{Stands};
ghost use Rattle.clients.specs.Sessions.{Asks, BothHear, HearPrefixes, Hears, Stops};

use std::alloc::Global;
use yamux_frames::laws::one_reading;
use yamux_session::laws::{
    no_fault, nothing_is_lost, received_data, sessions_stay_joined, they_go_on,
};
use yamux_session::{ActRefused, Event, Role, Session};

/// Two sessions that have talked, and what they were told.
#[derive(Drop)]
pub struct Conversation {
    pub client: Session,
    pub server: Session,
    /// The stream that the client opened.
    pub stream: u32,
    /// How many bytes of the question were let through, and how many of the answer.
    pub asked: usize,
    pub answered: usize,
    /// What the server was told of the first part of the client's output, and of the rest.
    pub first: Vec<Event>,
    pub rest: Vec<Event>,
    /// What the client was told of the server's output between these, and of what came behind.
    pub early: Vec<Event>,
    pub late: Vec<Event>,
}

/// A new client opens a stream and writes on it. Answers the stream, and how many of the bytes were let through.
pub fn ask(client: &mut Session, question: &[u8]) -> Result<(u32, usize), ActRefused>
    ensures { IfOk result (λ asked. Stands Client [] [] [] client.old
        → Asks asked.0 (take asked.1 question.now) client.new) }
{
    let stream = client.open_stream()?;
    let count = client.write(stream, question)?;
    sessions_stay_joined();
    Ok((stream, count))
}

/// A session is fed what the other has sent.
pub fn hear(session: &mut Session, piece: &[u8]) -> Result<Vec<Event>, ActRefused>
    ensures { IfOk result (λ told. Hears session.old piece.now (tellings told.items) session.new) }
{
    sessions_stay_joined();
    they_go_on();
    one_reading();
    session.feed(piece)
}

/// The client asks, and the server is fed its output in two parts, of which the first has `cut` bytes, and answers.
/// Then the client is fed what the server has sent between the two, and what it has sent behind them.
pub fn converse(
    alloc: Global,
    question: &[u8],
    answer: &[u8],
    cut: usize,
) -> Result<Conversation, ActRefused>
    ensures { IfOk result (λ talk. BothHear question.now answer.now talk) }
{
    let mut client = Session::new(alloc, Role::Client);
    let mut server = Session::new(alloc, Role::Server);
    let (stream, asked) = ask(&mut client, question)?;
    let output = client.take_output();
    let (front, behind) = output.split_at(cut.min(output.len()));
    let first = hear(&mut server, front)?;
    let between = server.take_output();
    let rest = hear(&mut server, behind)?;
    let answered = server.write(stream, answer)?;
    let last = server.take_output();
    let early = hear(&mut client, &between)?;
    let late = hear(&mut client, &last)?;
    sessions_stay_joined();
    no_fault();
    nothing_is_lost();
    received_data();
    Ok(Conversation {
        client,
        server,
        stream,
        asked,
        answered,
        first,
        rest,
        early,
        late,
    })
}

/// A client that has heard all that a server sent, which may have run out of memory.
#[derive(Drop)]
pub struct Stopped {
    pub client: Session,
    /// The stream that the client opened.
    pub stream: u32,
    /// How many bytes of the question were let through, and how many of the answer.
    pub asked: usize,
    pub answered: usize,
    /// The events of the first part of the client's output, and of the rest, unless memory ran out there.
    pub first: Vec<Event>,
    pub rest: Option<Vec<Event>>,
    /// The events of the server's output.
    pub heard: Vec<Event>,
}

/// A session is fed what the other has sent, and may run out of memory.
fn hear_or_stop(session: &mut Session, piece: &[u8]) -> Option<Vec<Event>>
    ensures { session.old.failed ≡ false → Stops session.old piece.now session.new }
{
    sessions_stay_joined();
    match session.feed(piece) {
        Ok(told) => Some(told),
        Err(_) => None,
    }
}

/// A new client asks. The server is fed its output in two parts, of which the first has `cut` bytes, and answers between
/// them; at the second it may run out of memory. The client is fed all that the server has sent.
pub fn converse_out_of_memory(
    alloc: Global,
    question: &[u8],
    answer: &[u8],
    cut: usize,
) -> Result<Stopped, ActRefused>
    ensures { IfOk result (λ stopped. HearPrefixes question.now answer.now stopped) }
{
    let mut client = Session::new(alloc, Role::Client);
    let mut server = Session::new(alloc, Role::Server);
    let (stream, asked) = ask(&mut client, question)?;
    let output = client.take_output();
    let (front, behind) = output.split_at(cut.min(output.len()));
    let first = hear(&mut server, front)?;
    let answered = server.write(stream, answer)?;
    let rest = hear_or_stop(&mut server, behind);
    let sent = server.take_output();
    let heard = hear(&mut client, &sent)?;
    sessions_stay_joined();
    no_fault();
    received_data();
    Ok(Stopped {
        client,
        stream,
        asked,
        answered,
        first,
        rest,
        heard,
    })
}
