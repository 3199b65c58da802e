//! What a side answers to a text of the other end.

ghost use Rattle.std.specs.Prelude.{◌≡◌, ◌<◌, ◌≤◌, length, map, string_bytes, Ok, Err, IfOk, IfErr};
ghost use Rattle.std.specs.Option.{option_copied};
ghost use Rattle.std.specs.List.{All};
ghost use Rattle.ms_select.specs.Messages.{longest, IsShort};
ghost use Rattle.ms_select.specs.Sides.{answer_room};
ghost use Rattle.ms_select.specs.Verdicts.{on_proposal, on_reply, verdict_of};

use crate::answer::Answer;
use crate::fault::SelectFault;
use crate::message::{HEADER, NA};
use crate::names::{choice, name_at};

/// The sides of a negotiation (multistream-select 1.0, "Protocol Negotiation").
#[derive(Clone, Copy, Debug, PartialEq, Eq)]
pub enum Role {
    /// Proposes its names, one after the other: the end that asks.
    Dialer,
    /// Echoes a name that it supports, and answers `na` to another: the end that is asked.
    Listener,
}

/// Where a text leaves a side, and the text that it sends then.
#[derive(Clone, Copy, Debug)]
pub(crate) struct Verdict<'a> {
    pub(crate) answer: Answer,
    pub(crate) reply: Option<&'a [u8]>,
}

/// A listener's answer to a proposal: its echo where it knows the name.
fn on_proposal<'a>(names: &[String], text: &'a [u8]) -> Verdict<'a>
    ensures { (result.answer, option_copied result.reply) ≡ on_proposal (map string_bytes names.now) text.now }
{
    match choice(names, text) {
        Some(index) => Verdict {
            answer: Answer::Agreed(index),
            reply: Some(text),
        },
        None => Verdict {
            answer: Answer::Going,
            reply: Some(NA),
        },
    }
}

/// A dialer's answer to the reply to its standing proposal: the next name after a refusal.
fn on_reply<'a>(
    names: &'a [String],
    refusals: usize,
    text: &[u8],
) -> Result<Verdict<'a>, SelectFault>
    requires { refusals < length names.now }
    ensures verdict { IfOk result (λ verdict.
        on_reply (map string_bytes names.now) refusals text.now ≡ Ok (verdict.answer, option_copied verdict.reply)) }
    ensures fault { IfErr result (λ fault. on_reply (map string_bytes names.now) refusals text.now ≡ Err fault) }
{
    if text == NA {
        let next = refusals + 1;
        if next == names.len() {
            return Ok(Verdict {
                answer: Answer::NoneLeft,
                reply: None,
            });
        }
        return Ok(Verdict {
            answer: Answer::Going,
            reply: Some(name_at(names, next)),
        });
    }
    if text != name_at(names, refusals) {
        return Err(SelectFault::NotProposed);
    }
    Ok(Verdict {
        answer: Answer::Agreed(refusals),
        reply: None,
    })
}

/// What a side answers to a text, of which the first has to be the header.
pub(crate) fn verdict_on<'a>(
    role: Role,
    begun: bool,
    names: &'a [String],
    refusals: usize,
    text: &'a [u8],
) -> Result<Verdict<'a>, SelectFault>
    requires { role ≡ Role.Dialer → refusals < length names.now }
    ensures verdict { IfOk result (λ verdict.
        verdict_of role begun (map string_bytes names.now) refusals text.now
        ≡ Ok (verdict.answer, option_copied verdict.reply)) }
    ensures fault { IfErr result (λ fault.
        verdict_of role begun (map string_bytes names.now) refusals text.now ≡ Err fault) }
{
    if !begun {
        if text != HEADER {
            return Err(SelectFault::BadHeader);
        }
        return Ok(Verdict {
            answer: Answer::Going,
            reply: None,
        });
    }
    match role {
        Role::Listener => Ok(on_proposal(names, text)),
        Role::Dialer => on_reply(names, refusals, text),
    }
}

/// The most bytes that are answered to a message of this length.
pub(crate) fn answer_room(role: Role, names: &[String], count: usize, len: usize) -> usize
    requires limit { len ≤ longest }
    requires short { All IsShort (map string_bytes names.now) }
    requires name { role ≡ Role.Dialer → count < length names.now }
    ensures value { result ≡ answer_room role (map string_bytes names.now) count len }
    ensures within { result < 65536 }
{
    match role {
        Role::Listener => len + 4,
        Role::Dialer => {
            let next = count + 1;
            if next == names.len() {
                return 0;
            }
            name_at(names, next).len() + 3
        }
    }
}
