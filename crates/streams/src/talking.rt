//! The talk of a stream, whose output waits for credit.

ghost use Rattle.std.specs.Prelude.{◌≡◌, ◌≢◌, ℕ, ◌<◌, ◌≤◌, List, [], ◌++◌, length, take, drop, Ok, IfOk, OnOk, OnErr};
ghost use Rattle.ms_select.specs.declared.answer.Answer.{Answer};
ghost use Rattle.talks.specs.Talks.{Side};
ghost use Rattle.talks.specs.State.{Stands as TalkStands};
ghost use Rattle.streams.specs.Streams.{IsGoing};
ghost use Rattle.streams.specs.InTalk.{TalkHears, heard_by};

use crate::heard::Heard;
use crate::stop::Stop;
use ms_select::{Answer, Step};
use std::alloc::{AllocError, Global};
use talks::Talk;

/// Moves what the talk wrote behind what waits.
fn keep_output(waiting: &mut Vec<u8>, talk: &mut Talk) -> Result<(), AllocError>
    ensures ok { OnOk result (waiting.new.items ≡ waiting.old.items ++ talk.old.pending) }
    ensures err { OnErr result (waiting.new.items ≡ waiting.old.items) }
    ensures waits { OnErr result (waiting.old.items ≢ []) }
    ensures some { OnErr result (talk.old.pending ≢ []) }
    ensures side { talk.new.side ≡ talk.old.side }
    ensures answer { talk.new.answer ≡ talk.old.answer }
    ensures none_waits { talk.new.pending ≡ [] }
    ensures stands { (input : List ℕ) (taken : List ℕ) → TalkStands talk.old input taken
        → TalkStands talk.new input (taken ++ talk.old.pending) }
{
    let more = talk.take_output();
    if waiting.is_empty() {
        *waiting = more;
        return Ok(());
    }
    if more.is_empty() {
        return Ok(());
    }
    waiting.extend_from_slice(&more)
}

/// What a talk tells that answers this.
fn told(step: Step) -> Heard
    ensures { result ≡ heard_by step.answer step.used }
{
    match step.answer {
        Answer::Going => Heard::Going,
        Answer::Agreed(index) => Heard::Agreed {
            index,
            used: step.used,
        },
        Answer::NoneLeft => Heard::Refused,
    }
}

/// A talk takes a piece. What it writes stands behind what waits, also before a fault.
pub(crate) fn hear_talk(talk: &mut Talk, waiting: &mut Vec<u8>, piece: &[u8]) -> Result<Heard, Stop>
    ensures within { (index : ℕ) (used : ℕ) → result ≡ Ok (Heard.Agreed index used) → used ≤ length piece.now }
    ensures kept { (more : List ℕ) × (waiting.new.items ≡ waiting.old.items ++ more) }
    ensures hears { (side : Side) (got output : List ℕ) → IsGoing side talk.old got output
        → TalkHears side talk.new got output waiting.old.items piece.now result waiting.new.items }
{
    let heard = talk.hear(piece);
    keep_output(waiting, talk)?;
    let step = heard?;
    Ok(told(step))
}

/// A copy of the first so many bytes of what waits.
pub(crate) fn front_of(alloc: Global, waiting: &[u8], count: usize) -> Result<Vec<u8>, AllocError>
    requires { count ≤ length waiting.now }
    ensures ok { IfOk result (λ front. front.items ≡ take count waiting.now) }
    ensures err { OnErr result (0 < count) }
{
    let mut front = Vec::new(alloc);
    front.extend_from_slice(&waiting[..count])?;
    Ok(front)
}

/// Drops the first so many bytes of what waits.
pub(crate) fn drop_front(waiting: &mut Vec<u8>, count: usize)
    requires { count ≤ length waiting.old.items }
    ensures { waiting.new.items ≡ drop count waiting.old.items }
{
    if count > 0 {
        waiting.drain(..count);
    }
}

/// These bytes, and the others behind them.
pub(crate) fn joined(front: Vec<u8>, behind: Vec<u8>) -> Result<Vec<u8>, AllocError>
    ensures ok { IfOk result (λ bytes. bytes.items ≡ front.items ++ behind.items) }
    ensures err { OnErr result (0 < length front.items) }
{
    if front.is_empty() {
        return Ok(behind);
    }
    let mut bytes = front;
    bytes.extend_from_slice(&behind)?;
    Ok(bytes)
}
