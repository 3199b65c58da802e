//! A whole connection, from its first call to its last.

ghost use Rattle.std.specs.Prelude.{◌≡◌, ◌++◌, ◌∷◌, [], ℕ, List, IfOk, OnOk};
ghost use Rattle.peer_ids.specs.Key.{Key};
ghost use Rattle.upgrade.specs.declared.role.ConnRole.{ConnRole};
ghost use Rattle.conn_core.specs.Runs.{Point, IsAt, Answers, Runs, events_or, stream_or};

use crate::connection::ConnCore;
use conn_log::{ConnEvent, ConnRefused};
use handlers::{Handler, Protocols};
use peer_ids::PublicKey;
use std::alloc::{AllocError, Global};
use upgrade::ConnRole;

/// A call of a connection.
#[derive(Debug, Drop)]
pub enum ConnAct {
    /// `feed` of these bytes.
    Feed(Vec<u8>),
    /// `ask` for the protocol of this index.
    Ask(usize),
    /// `ended`.
    Ended,
}

/// What a call of a connection answered.
#[derive(Drop)]
pub enum ConnAnswer<H> {
    /// The events of a `feed`, or of `ended`.
    Events(Vec<ConnEvent<H>>),
    /// The number of the stream that was opened.
    Stream(u32),
    /// The call was refused.
    Refused(ConnRefused),
}

/// A connection that has run.
#[derive(Drop)]
pub struct ConnRan<H> {
    /// The answer of each call, in order.
    pub answers: Vec<ConnAnswer<H>>,
    /// All output.
    pub output: Vec<u8>,
    /// The handlers that are held still, each with the number of its stream, in the order in which they were made.
    pub handlers: Vec<(u32, H)>,
}

/// The answer of a call that tells events.
fn told<H: Handler>(outcome: Result<Vec<ConnEvent<H>>, ConnRefused>) -> ConnAnswer<H>
    ensures { result ≡ events_or outcome }
{
    match outcome {
        Ok(events) => ConnAnswer::Events(events),
        Err(refused) => ConnAnswer::Refused(refused),
    }
}

/// The answer of a call that opens a stream.
fn opened<H: Handler>(outcome: Result<u32, ConnRefused>) -> ConnAnswer<H>
    ensures { result ≡ stream_or outcome }
{
    match outcome {
        Ok(number) => ConnAnswer::Stream(number),
        Err(refused) => ConnAnswer::Refused(refused),
    }
}

/// Puts an answer behind the others.
fn push<H: Handler>(
    answers: &mut Vec<ConnAnswer<H>>,
    answer: ConnAnswer<H>,
) -> Result<(), AllocError>
    ensures { OnOk result (answers.new.items ≡ answers.old.items ++ answer ∷ []) }
{
    match answers.push(answer) {
        Ok(()) => Ok(()),
        Err(_) => Err(AllocError),
    }
}

/// Makes one call. Behind it the end stands where the definition of a run says.
pub fn perform<P: Protocols>(core: &mut ConnCore<P>, act: &ConnAct) -> ConnAnswer<P::H>
    ensures { (start : P) (role : ConnRole) (own : Key) (taken : List ℕ) (point : Point P.H)
        → IsAt P.H.steps P.H.fails P.H.is_closed P.H.is_finished P.makes_inbound P.makes_outbound P.listed P.is_eager
        P.leads_inbound P.leads_outbound start role own taken point core.old → (next : Point P.H) × Answers P.H.steps
        P.H.fails P.H.is_closed P.H.is_finished P.makes_inbound P.makes_outbound P.listed P.is_eager P.leads_inbound
        P.leads_outbound start role own point act.now result next × IsAt P.H.steps P.H.fails P.H.is_closed
        P.H.is_finished P.makes_inbound P.makes_outbound P.listed P.is_eager P.leads_inbound P.leads_outbound start role
        own taken next core.new }
{
    match act {
        ConnAct::Feed(bytes) => told(core.feed(bytes)),
        ConnAct::Ask(index) => opened(core.ask(*index)),
        ConnAct::Ended => told(core.ended()),
    }
}

/// Makes these calls of a new end, in order. [`AllocError`] is answered only where a growth of its own was refused: the
/// end couldn't be made, or the list of answers or of handlers couldn't grow.
pub fn run<P: Protocols>(
    alloc: Global,
    role: ConnRole,
    key: PublicKey,
    protocols: P,
    acts: &[ConnAct],
) -> Result<ConnRan<P::H>, AllocError>
    ensures ran { IfOk result (λ ran. Runs P.H.steps P.H.fails P.H.is_closed P.H.is_finished P.makes_inbound
        P.makes_outbound P.listed P.is_eager P.leads_inbound P.leads_outbound protocols role key acts.now
        ran.answers.items ran.output.items ran.handlers.items) }
{
    let Ok(core) = ConnCore::new(alloc, role, key, protocols) else {
        return Err(AllocError);
    };
    let mut core = core;
    let mut answers = Vec::new(alloc);
    for act in acts {
        push(&mut answers, perform(&mut core, act))?;
    }
    let output = core.take_output();
    let handlers = core.into_handlers()?;
    Ok(ConnRan {
        answers,
        output,
        handlers,
    })
}
