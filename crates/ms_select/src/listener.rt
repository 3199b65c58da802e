//! The side that is asked.

ghost use Rattle.std.specs.Prelude.{◌≡◌, ◌≢◌, ◌⊎◌, ◌↔◌, ◌≤◌, ◌<◌, ◌+◌, ℕ, List, [], ◌++◌, length, map};
ghost use Rattle.std.specs.Prelude.{Some, None, Ok, Err, IfOk, IfErr, OnOk, OnErr};
ghost use Rattle.std.specs.List.{All};
ghost use Rattle.ms_select.specs.Messages.{header, message};
ghost use Rattle.ms_select.specs.Listening.{IsName, Listens};
ghost use Rattle.ms_select.specs.Sides.{Stands, Whenever, RunsOut};
ghost use Rattle.ms_select.specs.declared.answer.Answer.{Answer};
ghost use Rattle.ms_select.specs.declared.verdict.Role.TheVariants as role;

use crate::answer::{Answer, Step};
use crate::fault::SelectFault;
use crate::message::HEADER;
use crate::names::checked_names;
use crate::output::Output;
use crate::side::Side;
use crate::verdict::Role;
use std::alloc::Global;
use std::marker::Model;

/// The listener of a negotiation: it sends the header, and answers each proposal, by its echo where it knows the name.
#[derive(Debug, Drop)]
pub struct Listener {
    pub(crate) side: Side,
}

impl Model for Listener {
    ghost use Rattle.ms_select.specs.Sides.{Negotiating};
    ghost use Rattle.std.specs.Prelude.{◌≡◌};
    ghost use Rattle.ms_select.specs.declared.verdict.Role.TheVariants as roles;

    ghost Value = { Negotiating };

    ghost view = { λ a. a.side };

    ghost invariant = { λ a. a.side.role ≡ roles.Listener };
}

/// The header.
fn header_output(alloc: Global) -> Result<Output, SelectFault>
    ensures ok { IfOk result (λ output. output.pending ≡ message header) }
    ensures fault { IfErr result (λ fault. fault ≡ SelectFault.OutOfMemory) }
{
    let mut output = Output::new(alloc);
    output.append_message(HEADER)?;
    Ok(output)
}

impl Listener {
    /// A listener that knows these names. It has written the header.
    ///
    /// [`SelectFault::BadLength`] where a name isn't of 1 to 1023 bytes, else [`SelectFault::OutOfMemory`] where a
    /// growth was refused.
    pub fn new(alloc: Global, names: &[&str]) -> Result<Listener, SelectFault>
        ensures names { IfOk result (λ talk. talk.names ≡ map (λ name. name.now) names.now) }
        ensures fresh { IfOk result (λ talk.
            (talk.role ≡ role.Listener) × (talk.answer ≡ Some Answer.Going) × Stands talk [] 0 []) }
        ensures bad_length { (result ≡ Err SelectFault.BadLength) ↔ ¬ All (λ name. IsName name.now) names.now }
        ensures checked { OnOk result (All (λ name. IsName name.now) names.now) }
        ensures fault { IfErr result (λ fault. (fault ≡ SelectFault.BadLength) ⊎ (fault ≡ SelectFault.OutOfMemory)) }
    {
        let names = checked_names(alloc, names)?;
        let output = header_output(alloc)?;
        Ok(Listener {
            side: Side::new(alloc, Role::Listener, names, Answer::Going, output),
        })
    }

    /// Takes the next piece of the input. Only the bytes up to the deciding message are used, and nothing behind it is
    /// read. The first fault of the input is answered, or want of memory, and from then on [`SelectFault::Failed`].
    pub fn feed(&mut self, piece: &[u8]) -> Result<Step, SelectFault>
        ensures names { self.new.names ≡ self.old.names }
        // What is decided stands, and nothing more is used.
        ensures decided { (answer : Answer) → self.old.answer ≡ Some answer → answer ≢ Answer.Going
            → (result ≡ Ok (record { used = 0; answer = answer })) × (self.new ≡ self.old) }
        ensures failed { self.old.answer ≡ None → (result ≡ Err SelectFault.Failed) × (self.new ≡ self.old) }
        ensures answer { IfOk result (λ step. self.new.answer ≡ Some step.answer) }
        ensures fails { OnErr result (self.new.answer ≡ None) }
        ensures within { IfOk result (λ step. step.used ≤ length piece.now) }
        ensures all_used { IfOk result (λ step. step.answer ≡ Answer.Going → step.used ≡ length piece.now) }

        // The answer, the bytes used and the output are those of the whole input so far, however it was cut.
        ensures stands { (input : List ℕ) (used : ℕ) (taken : List ℕ) → Stands self.old input used taken
            → IfOk result (λ step. Stands self.new (input ++ piece.now) (used + step.used) taken) }
        ensures listens { Whenever self.old (λ input used taken. IfOk result (λ step.
            Listens self.old.names (input ++ piece.now) (Ok step.answer) (used + step.used)
            (taken ++ self.new.pending))) }
        ensures fault { self.old.answer ≡ Some Answer.Going → Whenever self.old (λ input used taken.
            IfErr result (λ fault. fault ≢ SelectFault.OutOfMemory
            → Listens self.old.names (input ++ piece.now) (Err fault) (length (input ++ piece.now))
            (taken ++ self.new.pending))) }
        // Memory is refused nowhere but at the last byte of a length, which decides nothing.
        ensures memory { self.old.answer ≡ Some Answer.Going → Whenever self.old (λ input used taken.
            result ≡ Err SelectFault.OutOfMemory
            → RunsOut role.Listener self.old.names (taken ++ self.new.pending) input piece.now) }
    {
        self.side.feed(piece)
    }

    /// The output that waits to be sent. Takes no memory.
    pub fn take_output(&mut self) -> Vec<u8>
        ensures output { result.items ≡ self.old.pending }
        ensures kept { self.new ≡ record self.old { pending = []; room = self.new.room } }
        ensures room { self.old.room ≤ self.new.room }
        ensures stands { (input : List ℕ) (used : ℕ) (taken : List ℕ) → Stands self.old input used taken
            → Stands self.new input used (taken ++ result.items) }
    {
        self.side.take_output()
    }
}
