//! The parts of an upgrade, each with the bytes that the part before left.

ghost use Rattle.std.specs.Prelude.{◌≡◌, ◌≢◌, ℕ, ◌≤◌, List, [], ◌++◌, length, drop, Some, None, Err};
ghost use Rattle.std.specs.Prelude.{IfOk, IfErr, IfSome, OnOk, OnErr};
ghost use Rattle.ms_select.specs.Listening.{IsName};
ghost use Rattle.peer_ids.specs.Key.{Key};
ghost use Rattle.plaintext_x.specs.Exchange.{message_of, Stands as ExchangeStands};
ghost use Rattle.talks.specs.Talks.{Side};
ghost use Rattle.talks.specs.State.{Stands as TalkStands};
ghost use Rattle.upgrade.specs.declared.role.ConnRole.{ConnRole};
ghost use Rattle.upgrade.specs.Upgrades.{side_of, Grows};
ghost use Rattle.upgrade.specs.Stages.{IsWaiting, Hears, Leads, StandsIn};

use crate::fault::UpgradeFault;
use crate::role::ConnRole;
use ms_select::{Answer, SelectFault};
use peer_ids::PublicKey;
use plaintext_x::{Exchange, Proven};
use std::alloc::{AllocError, Global};
use talks::Talk;

/// The protocol of the first talk.
pub(crate) const PLAINTEXT: &str = "/plaintext/2.0.0";

/// The protocol of the second talk.
const YAMUX: &str = "/yamux/1.0.0";

/// The part of an upgrade in which an end is.
#[derive(Debug, Drop)]
pub(crate) enum Stage {
    /// The talk on plaintext.
    Greeting(Talk),
    /// The exchange.
    Proving(Exchange),
    /// The talk on yamux, with the end that has proven its key.
    Muxing(Talk, Proven),
    /// The connection is up, or the upgrade has failed.
    Over,
}

/// What comes of a piece.
#[derive(Debug, Drop)]
pub(crate) enum Next {
    /// More bytes are needed.
    Waits(Stage),
    /// The connection is up, and so many bytes of the piece are the session's.
    Up { left: usize, proven: Proven },
}

/// What an end knows from the beginning.
#[derive(Debug, Drop)]
pub(crate) struct End {
    pub(crate) role: ConnRole,
    pub(crate) key: PublicKey,
    pub(crate) alloc: Global,
}

/// What stands behind so many bytes.
fn behind(piece: &[u8], used: usize) -> &[u8]
    requires { used ≤ length piece.now }
    ensures { result.now ≡ drop used piece.now }
{
    &piece[used..]
}

/// Moves what the talk has written behind the output.
fn keep_output(output: &mut Vec<u8>, talk: &mut Talk) -> Result<(), AllocError>
    ensures kept { OnOk result (output.new.items ≡ output.old.items ++ talk.old.pending) }
    ensures refused { OnErr result (output.new.items ≡ output.old.items) }
    ensures waits { OnErr result (output.old.items ≢ []) }
    ensures some { OnErr result (talk.old.pending ≢ []) }
    ensures side { talk.new.side ≡ talk.old.side }
    ensures answer { talk.new.answer ≡ talk.old.answer }
    ensures none_waits { talk.new.pending ≡ [] }
    ensures stands { (input : List ℕ) (taken : List ℕ) → TalkStands talk.old input taken
        → TalkStands talk.new input (taken ++ talk.old.pending) }
{
    let more = talk.take_output();
    if more.is_empty() {
        return Ok(());
    }
    if output.is_empty() {
        *output = more;
        return Ok(());
    }
    output.extend_from_slice(&more)
}

/// The talk of an end on this protocol, whose first bytes stand behind the output.
pub(crate) fn begin_talk(end: &End, name: &str, output: &mut Vec<u8>) -> Result<Talk, UpgradeFault>
    requires name { IsName name.now }
    ensures fresh { IfOk result (λ talk. (more : List ℕ) × (output.new.items ≡ output.old.items ++ more)
        × IsWaiting (side_of end.now.role name.now) talk [] more) }
    ensures refused { IfErr result (λ fault. (fault ≡ UpgradeFault.OutOfMemory)
        × (output.new.items ≡ output.old.items)) }
{
    let mut talk = match end.role {
        ConnRole::Dialer => Talk::ask(end.alloc, name, 0)?,
        ConnRole::Listener => Talk::answer(end.alloc, &[name])?,
    };
    keep_output(output, &mut talk)?;
    Ok(talk)
}

/// The exchange of an end, whose message stands behind the output.
fn begin_exchange(end: &End, output: &mut Vec<u8>) -> Result<Exchange, AllocError>
    ensures fresh { IfOk result (λ exchange. (exchange.answer ≡ Some None)
        × ExchangeStands end.now.key exchange [] 0 (message_of end.now.key)) }
    ensures written { OnOk result (output.new.items ≡ output.old.items ++ message_of end.now.key) }
    ensures refused { OnErr result (output.new.items ≡ output.old.items) }
{
    let mut exchange = Exchange::new(end.alloc, &end.key)?;
    output.extend_from_slice(&exchange.take_output())?;
    Ok(exchange)
}

/// A talk takes a piece, and what it writes stands behind the output. How many bytes are the talk's, once it agrees.
fn hear(talk: &mut Talk, output: &mut Vec<u8>, piece: &[u8]) -> Result<Option<usize>, UpgradeFault>
    ensures within { IfOk result (λ used. IfSome used (λ n. n ≤ length piece.now)) }
    ensures heard { (side : Side) (input before : List ℕ) → IsWaiting side talk.old input before
        → (more : List ℕ) × (output.new.items ≡ output.old.items ++ more)
        × Hears side talk.new input piece.now result output.new.items (before ++ more) }
    ensures grows { Grows output.old.items output.new.items }
{
    let heard = talk.hear(piece);
    // What the talk wrote before a fault is kept too.
    keep_output(output, talk)?;
    let step = heard?;
    match step.answer {
        Answer::Going => Ok(None),
        Answer::Agreed(_) => Ok(Some(step.used)),
        Answer::NoneLeft => Err(UpgradeFault::NoneLeft),
    }
}

/// The second talk takes a piece.
fn mux(output: &mut Vec<u8>, talk: Talk, proven: Proven, piece: &[u8]) -> Result<Next, UpgradeFault>
    ensures grows { Grows output.old.items output.new.items }
    ensures leads { (role : ConnRole) (own : Key) (input taken : List ℕ)
        → StandsIn (Stage.Muxing talk proven) role own input (taken ++ output.old.items)
        → Leads role own input piece.now result output.new.items (taken ++ output.new.items) }
{
    let mut talk = talk;
    match hear(&mut talk, output, piece)? {
        None => Ok(Next::Waits(Stage::Muxing(talk, proven))),
        Some(used) => Ok(Next::Up {
            left: behind(piece, used).len(),
            proven,
        }),
    }
}

/// The exchange takes a piece, and where it proves a key the second talk takes the rest.
fn prove(
    end: &End,
    output: &mut Vec<u8>,
    exchange: Exchange,
    piece: &[u8],
) -> Result<Next, UpgradeFault>
    ensures grows { Grows output.old.items output.new.items }
    ensures leads { (input taken : List ℕ)
        → StandsIn (Stage.Proving exchange) end.now.role end.now.key input (taken ++ output.old.items)
        → Leads end.now.role end.now.key input piece.now result output.new.items (taken ++ output.new.items) }
{
    let mut exchange = exchange;
    let (used, _) = exchange.feed(piece)?;
    match exchange.into_proven() {
        Ok(proven) => {
            let talk = begin_talk(end, YAMUX, output)?;
            mux(output, talk, proven, behind(piece, used))
        }
        Err(exchange) => Ok(Next::Waits(Stage::Proving(exchange))),
    }
}

/// The first talk takes a piece, and where it agrees the exchange takes the rest.
fn greet(end: &End, output: &mut Vec<u8>, talk: Talk, piece: &[u8]) -> Result<Next, UpgradeFault>
    ensures grows { Grows output.old.items output.new.items }
    ensures leads { (input taken : List ℕ)
        → StandsIn (Stage.Greeting talk) end.now.role end.now.key input (taken ++ output.old.items)
        → Leads end.now.role end.now.key input piece.now result output.new.items (taken ++ output.new.items) }
{
    let mut talk = talk;
    match hear(&mut talk, output, piece)? {
        None => Ok(Next::Waits(Stage::Greeting(talk))),
        Some(used) => {
            let exchange = begin_exchange(end, output)?;
            prove(end, output, exchange, behind(piece, used))
        }
    }
}

/// The part in which an end is takes a piece.
pub(crate) fn take_on(
    end: &End,
    stage: Stage,
    output: &mut Vec<u8>,
    piece: &[u8],
) -> Result<Next, UpgradeFault>
    ensures over { stage ≡ Stage.Over → (result ≡ Err UpgradeFault.Failed) × (output.new.items ≡ output.old.items) }
    ensures grows { Grows output.old.items output.new.items }
    ensures leads { (input taken : List ℕ)
        → StandsIn stage end.now.role end.now.key input (taken ++ output.old.items)
        → Leads end.now.role end.now.key input piece.now result output.new.items (taken ++ output.new.items) }
{
    match stage {
        Stage::Greeting(talk) => greet(end, output, talk, piece),
        Stage::Proving(exchange) => prove(end, output, exchange, piece),
        Stage::Muxing(talk, proven) => mux(output, talk, proven, piece),
        Stage::Over => Err(UpgradeFault::Failed),
    }
}
