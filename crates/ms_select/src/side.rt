//! What a dialer and a listener share: messages come in, and each is answered.

ghost use Rattle.std.specs.Prelude.{◌≡◌, ◌≢◌, ◌+◌, ◌<◌, ◌≤◌, ℕ, true, false, List, [], ◌++◌, length, take, map};
ghost use Rattle.std.specs.Prelude.{string_bytes, Some, None, Ok, Err, IsOk, IfOk, IfErr, OnOk, OnErr};
ghost use Rattle.std.specs.List.{All};
ghost use Rattle.varint_proto.specs.Incoming.{IsWhole, Stands as Arrives};
ghost use Rattle.ms_select.specs.Messages.{longest, IsShort};
ghost use Rattle.ms_select.specs.Sides.{Comes, Hears, StandsWith, Stands, Whenever, RunsOut, answer_room, next_count};
ghost use Rattle.ms_select.specs.declared.answer.Answer.{Answer};

use crate::answer::{Answer, Step};
use crate::fault::SelectFault;
use crate::message::{LONGEST, text_of};
use crate::output::Output;
use crate::verdict::{Role, Verdict, answer_room, verdict_on};
use std::alloc::Global;
use std::marker::Model;
use varint_proto::Incoming;

/// A side of a negotiation.
#[derive(Debug, Drop)]
pub(crate) struct Side {
    role: Role,
    names: Vec<String>,
    /// Whether the other end's header has come.
    begun: bool,
    /// How many names of a dialer were refused.
    count: usize,
    incoming: Incoming,
    answer: Option<Answer>,
    output: Output,
}

impl Model for Side {
    ghost use Rattle.std.specs.Prelude.{map, string_bytes};
    ghost use Rattle.ms_select.specs.Sides.{Negotiating};
    ghost use Rattle.ms_select.specs.Sound.{IsSound};

    ghost Value = { Negotiating };

    ghost view = { λ a. record {
      role = a.role;
      names = map string_bytes a.names.items;
      begun = a.begun;
      count = a.count;
      incoming = a.incoming;
      answer = a.answer;
      pending = a.output.pending;
      room = a.output.room;
    } };

    ghost invariant = { λ a. IsSound a.role (map string_bytes a.names.items) a.count a.incoming a.answer };
}

impl Side {
    /// A side that has written this and heard nothing.
    pub(crate) fn new(
        alloc: Global,
        role: Role,
        names: Vec<String>,
        answer: Answer,
        output: Output,
    ) -> Side
        requires short { All IsShort (map string_bytes names.items) }
        requires name { role ≡ Role.Dialer → answer ≡ Answer.Going → 0 < length names.items }
        ensures is { result ≡ record {
          role = role;
          names = map string_bytes names.items;
          begun = false;
          count = 0;
          incoming = result.incoming;
          answer = Some answer;
          pending = output.pending;
          room = output.room;
        } }
        ensures incoming { Arrives [] result.incoming × (result.incoming.limit ≡ longest)
            × (result.incoming.expected ≡ None) }
    {
        Side {
            role,
            names,
            begun: false,
            count: 0,
            incoming: Incoming::new(alloc, LONGEST),
            answer: Some(answer),
            output,
        }
    }

    /// Makes room for the answer to the message whose length has come by so many bytes, if by any.
    fn make_room(&mut self, digits: usize) -> Result<(), SelectFault>
        requires name { self.old.role ≡ Role.Dialer → self.old.count < length self.old.names }
        requires allowed { (len : ℕ) → self.old.incoming.expected ≡ Some len → len ≤ longest }
        ensures kept { self.new ≡ record self.old { room = self.new.room } }
        ensures room { OnOk result (0 < digits → (len : ℕ) → self.old.incoming.expected ≡ Some len → 0 < len
            → answer_room self.old.role self.old.names self.old.count len ≤ self.new.room) }
        ensures none { digits ≡ 0 → IsOk result × (self.new ≡ self.old) }
        ensures fault { IfErr result (λ fault. (fault ≡ SelectFault.OutOfMemory) × (0 < digits)
            × ((len : ℕ) × (0 < len) × (self.old.incoming.expected ≡ Some len))) }
    {
        if let Some(len) = self.incoming.announced()
            && len > 0
            && digits > 0
        {
            let room = answer_room(self.role, &self.names, self.count, len);
            self.output.reserve(room)?;
        }
        Ok(())
    }

    /// Goes on behind a message that decides nothing.
    fn go_on(&mut self)
        requires going { self.old.incoming.failed ≡ false }
        requires name { self.old.role ≡ Role.Dialer → self.old.begun ≡ true
            → self.old.count + 1 < length self.old.names }
        ensures kept { self.new ≡ record self.old {
          begun = true;
          incoming = self.new.incoming;
          count = next_count self.old.role self.old.begun self.old.count;
        } }
        ensures incoming { Arrives [] self.new.incoming × (self.new.incoming.limit ≡ longest)
            × (self.new.incoming.expected ≡ None) }
    {
        if self.begun && self.role == Role::Dialer {
            self.count += 1;
        }
        self.begun = true;
        self.incoming.begin_next(LONGEST);
    }

    /// Answers the message once it is whole. What it asks for was reserved when its length came.
    fn hear_message(&mut self, whole: bool) -> Result<Answer, SelectFault>
        requires going { self.old.incoming.failed ≡ false }
        requires name { self.old.role ≡ Role.Dialer → self.old.count < length self.old.names }
        requires allowed { (len : ℕ) → self.old.incoming.expected ≡ Some len → len ≤ longest }
        requires whole { whole ≡ true → IsWhole self.old.incoming }
        ensures role { self.new.role ≡ self.old.role }
        ensures names { self.new.names ≡ self.old.names }
        ensures answer { self.new.answer ≡ self.old.answer }
        ensures kept { OnErr result (self.new.pending ≡ self.old.pending) }
        ensures partial { whole ≡ false → (result ≡ Ok Answer.Going) × (self.new ≡ self.old) }
        ensures sound { whole ≡ true → IfOk result (λ answer. answer ≡ Answer.Going
            → (self.new.role ≡ Role.Dialer → self.new.count < length self.new.names)
            × (self.new.incoming.failed ≡ false) × (self.new.incoming.expected ≡ None)) }
        ensures stands { (input taken : List ℕ) (texts : List (List ℕ)) (rest : List ℕ)
            → whole ≡ true → Hears self.old input taken texts rest
            → IfOk result (λ answer. StandsWith (Some answer) self.new input (length input) taken) }
        ensures fault { (input taken : List ℕ) (texts : List (List ℕ)) (rest : List ℕ)
            → whole ≡ true → Hears self.old input taken texts rest
            → IfErr result (λ fault. (fault ≢ SelectFault.OutOfMemory)
            × Comes self.old.role self.old.names input (Err fault) (length input) (taken ++ self.old.pending)) }
    {
        if !whole {
            return Ok(Answer::Going);
        }
        let text = text_of(self.incoming.body())?;
        let Verdict { answer, reply } = verdict_on(
            self.role,
            self.begun,
            &self.names,
            self.count,
            text,
        )?;
        self.output.append_reply(reply)?;
        if answer == Answer::Going {
            self.go_on();
        }
        Ok(answer)
    }

    /// Takes the bytes of the piece up to the end of the message that comes in.
    fn hear(&mut self, piece: &[u8]) -> Result<Step, SelectFault>
        requires going { self.old.answer ≡ Some Answer.Going }
        requires some { 0 < length piece.now }
        ensures role { self.new.role ≡ self.old.role }
        ensures names { self.new.names ≡ self.old.names }
        ensures answer { IfOk result (λ step. self.new.answer ≡ Some step.answer) }
        ensures progress { IfOk result (λ step. 0 < step.used) }
        ensures within { IfOk result (λ step. step.used ≤ length piece.now) }
        ensures fails { OnErr result (self.new.answer ≡ None) }
        ensures kept { OnErr result (self.new.pending ≡ self.old.pending) }
        ensures stands { (input taken : List ℕ) → Stands self.old input (length input) taken → IfOk result (λ step.
            Stands self.new (input ++ take step.used piece.now) (length (input ++ take step.used piece.now)) taken) }
        ensures fault { (input taken : List ℕ) → Stands self.old input (length input) taken → IfErr result (λ fault.
            fault ≢ SelectFault.OutOfMemory → Comes self.old.role self.old.names (input ++ piece.now) (Err fault)
            (length (input ++ piece.now)) (taken ++ self.old.pending)) }
        ensures memory { (input taken : List ℕ) → Stands self.old input (length input) taken
            → result ≡ Err SelectFault.OutOfMemory
            → RunsOut self.old.role self.old.names (taken ++ self.old.pending) input piece.now }
    {
        self.answer = None;
        let digits = self.incoming.feed_length(piece)?;
        if self.incoming.announced().is_none() {
            self.answer = Some(Answer::Going);
            return Ok(Step {
                used: digits,
                answer: Answer::Going,
            });
        }
        self.make_room(digits)?;
        let (bytes, whole) = self.incoming.feed(&piece[digits..])?;
        let answer = self.hear_message(whole)?;
        self.answer = Some(answer);
        Ok(Step {
            used: digits + bytes,
            answer,
        })
    }

    /// Takes the next piece of the input. Only the bytes up to the deciding message are used, and nothing behind it is
    /// read.
    pub(crate) fn feed(&mut self, piece: &[u8]) -> Result<Step, SelectFault>
        ensures role { self.new.role ≡ self.old.role }
        ensures names { self.new.names ≡ self.old.names }
        ensures decided { (answer : Answer) → self.old.answer ≡ Some answer → answer ≢ Answer.Going
            → (result ≡ Ok (record { used = 0; answer = answer })) × (self.new ≡ self.old) }
        ensures failed { self.old.answer ≡ None → (result ≡ Err SelectFault.Failed) × (self.new ≡ self.old) }
        ensures answer { IfOk result (λ step. self.new.answer ≡ Some step.answer) }
        ensures fails { OnErr result (self.new.answer ≡ None) }
        ensures within { IfOk result (λ step. step.used ≤ length piece.now) }
        ensures all_used { IfOk result (λ step. step.answer ≡ Answer.Going → step.used ≡ length piece.now) }
        ensures stands { (input : List ℕ) (used : ℕ) (taken : List ℕ) → Stands self.old input used taken
            → IfOk result (λ step. Stands self.new (input ++ piece.now) (used + step.used) taken) }
        ensures comes { Whenever self.old (λ input used taken. IfOk result (λ step.
            Comes self.old.role self.old.names (input ++ piece.now) (Ok step.answer) (used + step.used)
            (taken ++ self.new.pending))) }
        ensures fault { self.old.answer ≡ Some Answer.Going → Whenever self.old (λ input used taken.
            IfErr result (λ fault. fault ≢ SelectFault.OutOfMemory
            → Comes self.old.role self.old.names (input ++ piece.now) (Err fault) (length (input ++ piece.now))
            (taken ++ self.new.pending))) }
        ensures memory { self.old.answer ≡ Some Answer.Going → Whenever self.old (λ input used taken.
            result ≡ Err SelectFault.OutOfMemory
            → RunsOut self.old.role self.old.names (taken ++ self.new.pending) input piece.now) }
    {
        match self.answer {
            None => return Err(SelectFault::Failed),
            Some(Answer::Going) => {}
            Some(answer) => return Ok(Step { used: 0, answer }),
        }
        let mut used = 0;
        while used < piece.len() {
            let Step { used: more, answer } = self.hear(&piece[used..])?;
            used += more;
            if answer != Answer::Going {
                return Ok(Step { used, answer });
            }
        }
        Ok(Step {
            used,
            answer: Answer::Going,
        })
    }

    /// The output that waits to be sent. Takes no memory.
    pub(crate) fn take_output(&mut self) -> Vec<u8>
        ensures output { result.items ≡ self.old.pending }
        ensures kept { self.new ≡ record self.old { pending = []; room = self.new.room } }
        ensures room { self.old.room ≤ self.new.room }
        ensures stands { (input : List ℕ) (used : ℕ) (taken : List ℕ) → Stands self.old input used taken
            → Stands self.new input used (taken ++ result.items) }
    {
        self.output.take()
    }

    /// Where the side stands.
    pub(crate) fn answer(&self) -> Option<Answer>
        ensures { result ≡ self.now.answer }
    {
        self.answer
    }

    /// How many names it has.
    pub(crate) fn count_names(&self) -> usize
        ensures { result ≡ length self.now.names }
    {
        self.names.len()
    }
}
