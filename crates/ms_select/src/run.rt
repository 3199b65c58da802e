//! Whole negotiations, from the first byte on.

ghost use Rattle.std.specs.Prelude.{◌≡◌, ◌≢◌, ◌<◌, ℕ, List, [], length, map, Some, Ok, Err, IsOk, IfOk, IfErr, OnErr};
ghost use Rattle.std.specs.List.{All, flat_map};
ghost use Rattle.ms_select.specs.Listening.{IsName, Listens};
ghost use Rattle.ms_select.specs.Dialing.{Dials};
ghost use Rattle.ms_select.specs.Sides.{Comes, Stands};

use crate::answer::Answer;
use crate::dialer::Dialer;
use crate::fault::SelectFault;
use crate::listener::Listener;
use crate::side::Side;
use std::alloc::Global;

/// What a side of a negotiation came to.
#[derive(Debug, Drop)]
pub struct Talk {
    /// What was decided, or that it goes on.
    pub answer: Answer,
    /// All that it wrote.
    pub output: Vec<u8>,
}

/// What a side that has heard nothing comes to by all that the other end sends, in any pieces.
fn whole_talk(side: Side, start: Answer, pieces: &[&[u8]]) -> Result<Talk, SelectFault>
    requires start { side.answer ≡ Some start }
    requires stands { Stands side [] 0 [] }
    ensures outcome { IfOk result (λ talk. (used : ℕ)
        × Comes side.role side.names (flat_map (λ piece. piece.now) pieces.now) (Ok talk.answer) used
        talk.output.items) }
    ensures fault { IfErr result (λ fault. fault ≢ SelectFault.OutOfMemory → (output : List ℕ)
        × Comes side.role side.names (flat_map (λ piece. piece.now) pieces.now) (Err fault)
        (length (flat_map (λ piece. piece.now) pieces.now)) output) }
    ensures decided { start ≢ Answer.Going → IsOk result }
{
    let mut side = side;
    let mut answer = start;
    for piece in pieces {
        answer = side.feed(piece)?.answer;
    }
    Ok(Talk {
        answer,
        output: side.take_output(),
    })
}

/// What a listener of these names comes to by all that the other end sends, in any pieces. It fails as
/// [`Listener::new`] and [`Listener::feed`] do.
pub fn listen(alloc: Global, names: &[&str], pieces: &[&[u8]]) -> Result<Talk, SelectFault>
    ensures outcome { IfOk result (λ talk. (used : ℕ)
        × Listens (map (λ name. name.now) names.now) (flat_map (λ piece. piece.now) pieces.now) (Ok talk.answer) used
        talk.output.items) }
    ensures fault { IfErr result (λ fault. fault ≢ SelectFault.OutOfMemory → All (λ name. IsName name.now) names.now
        → (output : List ℕ) × Listens (map (λ name. name.now) names.now) (flat_map (λ piece. piece.now) pieces.now)
        (Err fault) (length (flat_map (λ piece. piece.now) pieces.now)) output) }
    ensures bad_length { ¬ All (λ name. IsName name.now) names.now → result ≡ Err SelectFault.BadLength }
{
    let listener = Listener::new(alloc, names)?;
    whole_talk(listener.side, Answer::Going, pieces)
}

/// What a dialer of these names comes to by all that the other end sends, in any pieces. It fails as [`Dialer::new`]
/// and [`Dialer::feed`] do.
pub fn dial(alloc: Global, names: &[&str], pieces: &[&[u8]]) -> Result<Talk, SelectFault>
    ensures outcome { IfOk result (λ talk. (used : ℕ)
        × Dials (map (λ name. name.now) names.now) (flat_map (λ piece. piece.now) pieces.now) (Ok talk.answer) used
        talk.output.items) }
    ensures fault { IfErr result (λ fault. fault ≢ SelectFault.OutOfMemory → All (λ name. IsName name.now) names.now
        → (output : List ℕ) × Dials (map (λ name. name.now) names.now) (flat_map (λ piece. piece.now) pieces.now)
        (Err fault) (length (flat_map (λ piece. piece.now) pieces.now)) output) }
    ensures bad_length { ¬ All (λ name. IsName name.now) names.now → result ≡ Err SelectFault.BadLength }
    ensures memory { OnErr result (0 < length names.now) }
{
    let dialer = Dialer::new(alloc, names)?;
    let start = if names.is_empty() {
        Answer::NoneLeft
    } else {
        Answer::Going
    };
    whole_talk(dialer.side, start, pieces)
}
