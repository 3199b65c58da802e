//! Whole talks, from the first byte on.

ghost use Rattle.std.specs.Prelude.{◌≡◌, ◌≢◌, ℕ, List, [], map, Some, Ok, Err, IfOk, IfErr};
ghost use Rattle.std.specs.List.{All, flat_map};
ghost use Rattle.ms_select.specs.Listening.{IsName};
ghost use Rattle.talks.specs.Talks.{Asks, Answers, Faults, ComesTo};
ghost use Rattle.talks.specs.State.{Stands};

use crate::talk::Talk;
use ms_select::{Answer, SelectFault};
use std::alloc::Global;

/// What a talk came to.
#[derive(Debug, Drop)]
pub struct Talked {
    /// What was decided, or that it goes on.
    pub answer: Answer,
    /// All that the end wrote in it.
    pub output: Vec<u8>,
}

/// What a talk that has heard nothing comes to by all that the other end sends, in any pieces.
fn whole_talk(talk: Talk, pieces: &[&[u8]]) -> Result<Talked, SelectFault>
    requires going { talk.answer ≡ Some Answer.Going }
    requires stands { Stands talk [] [] }
    ensures outcome { IfOk result (λ talked. (first : List ℕ)
        × ComesTo talk.side (flat_map (λ piece. piece.now) pieces.now) first (Ok talked.answer) talked.output.items) }
    ensures fault { IfErr result (λ fault. fault ≢ SelectFault.OutOfMemory → (output : List ℕ)
        × Faults talk.side (flat_map (λ piece. piece.now) pieces.now) fault output) }
{
    let mut talk = talk;
    let mut answer = Answer::Going;
    for piece in pieces {
        answer = talk.hear(piece)?.answer;
    }
    Ok(Talked {
        answer,
        output: talk.take_output(),
    })
}

/// What an end that asks for this name comes to by all that the other end sends, in any pieces.
pub fn asked(
    alloc: Global,
    name: &str,
    index: usize,
    pieces: &[&[u8]],
) -> Result<Talked, SelectFault>
    ensures outcome { IfOk result (λ talked. (first : List ℕ)
        × ComesTo (Asks name.now index) (flat_map (λ piece. piece.now) pieces.now) first (Ok talked.answer)
        talked.output.items) }
    ensures fault { IfErr result (λ fault. fault ≢ SelectFault.OutOfMemory → IsName name.now
        → (output : List ℕ) × Faults (Asks name.now index) (flat_map (λ piece. piece.now) pieces.now) fault output) }
    ensures bad_length { ¬ IsName name.now → result ≡ Err SelectFault.BadLength }
{
    whole_talk(Talk::ask(alloc, name, index)?, pieces)
}

/// What an end that answers with these names comes to by all that the other end sends, in any pieces.
pub fn answered(alloc: Global, names: &[&str], pieces: &[&[u8]]) -> Result<Talked, SelectFault>
    ensures outcome { IfOk result (λ talked. (first : List ℕ)
        × ComesTo (Answers (map (λ name. name.now) names.now)) (flat_map (λ piece. piece.now) pieces.now) first
        (Ok talked.answer) talked.output.items) }
    ensures fault { IfErr result (λ fault. fault ≢ SelectFault.OutOfMemory → All (λ name. IsName name.now) names.now
        → (output : List ℕ) × Faults (Answers (map (λ name. name.now) names.now))
        (flat_map (λ piece. piece.now) pieces.now) fault output) }
    ensures bad_length { ¬ All (λ name. IsName name.now) names.now → result ≡ Err SelectFault.BadLength }
{
    whole_talk(Talk::answer(alloc, names)?, pieces)
}
