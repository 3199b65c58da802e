//! The talk of an end.

ghost use Rattle.std.specs.Prelude.{◌≡◌, ◌≢◌, ◌⊎◌, ◌↔◌, ◌≤◌, ℕ, List, [], ◌∷◌, ◌++◌, length, take, map, Result};
ghost use Rattle.std.specs.Prelude.{Some, None, Ok, Err, IfOk, IfErr, OnErr};
ghost use Rattle.std.specs.List.{All};
ghost use Rattle.ms_select.specs.declared.answer.Answer.{Answer};
ghost use Rattle.ms_select.specs.declared.fault.SelectFault.{SelectFault};
ghost use Rattle.ms_select.specs.Messages.{header, spelled};
ghost use Rattle.ms_select.specs.Listening.{IsName};
ghost use Rattle.talks.specs.Talks.{Asks, Answers, Talks, Faults, ComesTo, RunsOut};
ghost use Rattle.talks.specs.State.{Stands, Whenever, used_of, answer_of};
ghost use Rattle.talks.specs.Fields.{first_of, talking, told};
ghost use Rattle.talks.specs.Hearing.{Hears};

use ms_select::{Answer, Dialer, Listener, SelectFault, Step};
use std::alloc::Global;
use std::marker::Model;

/// What an end does in its talk.
#[derive(Debug, Drop)]
enum Kind {
    /// It asks for its only name, of this index in the list of the connection.
    Asking(Dialer, usize),
    /// It answers with all its names.
    Answering(Listener),
}

/// The talk of an end, until a protocol is settled.
#[derive(Debug)]
pub struct Talk {
    kind: Kind,
}

// By hand, so that the proof of who lets go of it is that of a call, and not of all that it holds.
impl Drop for Talk {
    fn drop(self) {
        let Self { kind: _kind } = self;
    }
}

impl Model for Talk {
    ghost use Rattle.talks.specs.State.{Talking};

    ghost Value = { Talking };

    ghost use Rattle.talks.specs.Fields.{talking_of, AsksOne};

    ghost view = { λ a. talking_of a.kind };

    ghost invariant = { λ a. AsksOne a.kind };
}

/// What a dialer of one name answers, as the end that asks for this index tells it.
fn told(answer: Answer, index: usize) -> Answer
    ensures { (name : List ℕ) → result ≡ told (Asks name index) answer }
{
    match answer {
        Answer::Agreed(_) => Answer::Agreed(index),
        Answer::Going | Answer::NoneLeft => answer,
    }
}

/// What an end that asks makes of a piece.
fn heard_by_dialer(dialer: &mut Dialer, index: usize, piece: &[u8]) -> Result<Step, SelectFault>
    requires { dialer.old.names ≡ first_of dialer.old.names ∷ [] }
    ensures names { dialer.new.names ≡ dialer.old.names }
    ensures hears { Hears (talking (Asks (first_of dialer.old.names) index) dialer.old)
        (talking (Asks (first_of dialer.old.names) index) dialer.new) piece.now result }
{
    let Step { used, answer } = dialer.feed(piece)?;
    Ok(Step {
        used,
        answer: told(answer, index),
    })
}

/// What an end that answers makes of a piece.
fn heard_by_listener(listener: &mut Listener, piece: &[u8]) -> Result<Step, SelectFault>
    ensures names { listener.new.names ≡ listener.old.names }
    ensures hears { Hears (talking (Answers listener.old.names) listener.old)
        (talking (Answers listener.old.names) listener.new) piece.now result }
{
    listener.feed(piece)
}

impl Talk {
    /// The talk of an end that asks for the protocol of this name, which has this index in the list of its connection.
    /// It has written all that it ever writes.
    pub fn ask(alloc: Global, name: &str, index: usize) -> Result<Talk, SelectFault>
        ensures side { IfOk result (λ talk. talk.side ≡ Asks name.now index) }
        ensures fresh { IfOk result (λ talk. (talk.answer ≡ Some Answer.Going) × Stands talk [] []) }
        ensures asked { IfOk result (λ talk. talk.pending ≡ spelled (header ∷ name.now ∷ [])) }
        ensures bad_length { (result ≡ Err SelectFault.BadLength) ↔ ¬ IsName name.now }
        ensures fault { IfErr result (λ fault. (fault ≡ SelectFault.BadLength) ⊎ (fault ≡ SelectFault.OutOfMemory)) }
    {
        let dialer = Dialer::new(alloc, &[name])?;
        Ok(Talk {
            kind: Kind::Asking(dialer, index),
        })
    }

    /// The talk of an end that answers, and knows these names. It has written the header.
    pub fn answer(alloc: Global, names: &[&str]) -> Result<Talk, SelectFault>
        ensures side { IfOk result (λ talk. talk.side ≡ Answers (map (λ name. name.now) names.now)) }
        ensures fresh { IfOk result (λ talk. (talk.answer ≡ Some Answer.Going) × Stands talk [] []) }
        ensures bad_length { (result ≡ Err SelectFault.BadLength) ↔ ¬ All (λ name. IsName name.now) names.now }
        ensures fault { IfErr result (λ fault. (fault ≡ SelectFault.BadLength) ⊎ (fault ≡ SelectFault.OutOfMemory)) }
    {
        let listener = Listener::new(alloc, names)?;
        Ok(Talk {
            kind: Kind::Answering(listener),
        })
    }

    /// Takes the next piece of the input. The step tells an index of the connection's list: an end that asks agrees on
    /// the one that it was made with. Only the bytes up to the deciding message are used, and nothing behind it is
    /// read.
    pub fn hear(&mut self, piece: &[u8]) -> Result<Step, SelectFault>
        ensures side { self.new.side ≡ self.old.side }
        // What is decided stands, and nothing more is used.
        ensures decided { (answer : Answer) → self.old.answer ≡ Some answer → answer ≢ Answer.Going
            → (result ≡ Ok (record { used = 0; answer = answer })) × (self.new ≡ self.old) }
        ensures failed { self.old.answer ≡ None → (result ≡ Err SelectFault.Failed) × (self.new ≡ self.old) }
        ensures answer { IfOk result (λ step. self.new.answer ≡ Some step.answer) }
        ensures fails { OnErr result (self.new.answer ≡ None) }
        ensures within { IfOk result (λ step. step.used ≤ length piece.now) }
        ensures all_used { IfOk result (λ step. step.answer ≡ Answer.Going → step.used ≡ length piece.now) }

        // Outcome and output are those of exactly the bytes that were used so far, however they were cut.
        ensures stands { (input : List ℕ) (taken : List ℕ) → Stands self.old input taken
            → IfOk result (λ step. Stands self.new (input ++ take step.used piece.now) taken) }
        ensures talks { Whenever self.old (λ input taken. IfOk result (λ step.
            Talks self.old.side (input ++ take step.used piece.now) (Ok step.answer) (taken ++ self.new.pending))) }
        ensures fault { self.old.answer ≡ Some Answer.Going → Whenever self.old (λ input taken.
            IfErr result (λ fault. fault ≢ SelectFault.OutOfMemory
            → Faults self.old.side (input ++ piece.now) fault (taken ++ self.new.pending))) }
        // Memory is refused nowhere but at the last byte of a length, which decides nothing.
        ensures memory { self.old.answer ≡ Some Answer.Going → Whenever self.old (λ input taken.
            result ≡ Err SelectFault.OutOfMemory
            → RunsOut self.old.side (taken ++ self.new.pending) input piece.now) }
        // But for want of memory it answers what the talk comes to by all of this, and nothing else.
        ensures only { self.old.answer ≡ Some Answer.Going → Whenever self.old (λ input taken.
            (first : List ℕ) (standing : Result Answer SelectFault) (output : List ℕ)
            → ComesTo self.old.side (input ++ piece.now) first standing output
            → result ≢ Err SelectFault.OutOfMemory
            → (first ≡ input ++ used_of result piece.now) × (standing ≡ answer_of result)
            × (output ≡ taken ++ self.new.pending)) }
    {
        match &mut self.kind {
            Kind::Asking(dialer, index) => heard_by_dialer(dialer, *index, piece),
            Kind::Answering(listener) => heard_by_listener(listener, piece),
        }
    }

    /// The output that waits to be sent, also behind a fault. Takes no memory.
    pub fn take_output(&mut self) -> Vec<u8>
        ensures output { result.items ≡ self.old.pending }
        ensures kept { self.new ≡ record self.old { pending = []; negotiating = self.new.negotiating } }
        ensures stands { (input : List ℕ) (taken : List ℕ) → Stands self.old input taken
            → Stands self.new input (taken ++ result.items) }
    {
        match &mut self.kind {
            Kind::Asking(dialer, _) => dialer.take_output(),
            Kind::Answering(listener) => listener.take_output(),
        }
    }
}
