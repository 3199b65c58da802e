//! The side that asks.

ghost use Rattle.std.specs.Prelude.{◌≡◌, ◌≢◌, ◌⊎◌, ◌↔◌, ◌==◌, if◌then◌else◌, ◌≤◌, ◌<◌, ◌+◌, ℕ, List, [], ◌++◌, length};
ghost use Rattle.std.specs.Prelude.{map};
ghost use Rattle.std.specs.Prelude.{Some, None, Ok, Err, IsTrue, IfOk, IfErr, OnOk, OnErr};
ghost use Rattle.std.specs.List.{All};
ghost use Rattle.ms_select.specs.Messages.{header, message};
ghost use Rattle.ms_select.specs.Listening.{IsName};
ghost use Rattle.ms_select.specs.Dialing.{Dials, MaySend};
ghost use Rattle.ms_select.specs.Sides.{Stands, Whenever, RunsOut};
ghost use Rattle.ms_select.specs.declared.answer.Answer.{Answer};
ghost use Rattle.ms_select.specs.declared.verdict.Role.TheVariants as role;

use crate::answer::{Answer, Step};
use crate::fault::SelectFault;
use crate::message::HEADER;
use crate::names::{checked_names, name_at};
use crate::output::Output;
use crate::side::Side;
use crate::verdict::Role;
use std::alloc::Global;
use std::marker::Model;

/// The header and a proposal.
fn first_output(alloc: Global, name: &[u8]) -> Result<Output, SelectFault>
    requires { length name.now < 1024 }
    ensures ok { IfOk result (λ output. output.pending ≡ message header ++ message name.now) }
    ensures fault { IfErr result (λ fault. fault ≡ SelectFault.OutOfMemory) }
{
    let mut output = Output::new(alloc);
    output.append_message(HEADER)?;
    output.append_message(name)?;
    Ok(output)
}

/// The dialer of a negotiation: it sends the header and its first name together, and one further name after each
/// refusal.
#[derive(Debug, Drop)]
pub struct Dialer {
    pub(crate) side: Side,
}

impl Model for Dialer {
    ghost use Rattle.ms_select.specs.Sides.{Negotiating};
    ghost use Rattle.std.specs.Prelude.{◌≡◌};
    ghost use Rattle.ms_select.specs.declared.verdict.Role.TheVariants as roles;

    ghost Value = { Negotiating };

    ghost view = { λ a. a.side };

    ghost invariant = { λ a. a.side.role ≡ roles.Dialer };
}

impl Dialer {
    /// A dialer of these names, the first of which it likes best. It has written the header and that name. Without
    /// names it is at `NoneLeft` and writes nothing.
    ///
    /// [`SelectFault::BadLength`] where a name isn't of 1 to 1023 bytes, else [`SelectFault::OutOfMemory`] where a
    /// growth was refused.
    pub fn new(alloc: Global, names: &[&str]) -> Result<Dialer, SelectFault>
        ensures names { IfOk result (λ dial. dial.names ≡ map (λ name. name.now) names.now) }
        ensures answer { IfOk result (λ dial.
            dial.answer ≡ (if length names.now == 0 then Some Answer.NoneLeft else Some Answer.Going)) }
        ensures fresh { IfOk result (λ dial. (dial.role ≡ role.Dialer) × Stands dial [] 0 []) }
        ensures bad_length { (result ≡ Err SelectFault.BadLength) ↔ ¬ All (λ name. IsName name.now) names.now }
        ensures checked { OnOk result (All (λ name. IsName name.now) names.now) }
        ensures fault { IfErr result (λ fault. (fault ≡ SelectFault.BadLength) ⊎ (fault ≡ SelectFault.OutOfMemory)) }
        ensures memory { OnErr result (0 < length names.now) }
    {
        if names.is_empty() {
            return Ok(Dialer {
                side: Side::new(
                    alloc,
                    Role::Dialer,
                    Vec::new(alloc),
                    Answer::NoneLeft,
                    Output::new(alloc),
                ),
            });
        }
        let names = checked_names(alloc, names)?;
        let output = first_output(alloc, name_at(&names, 0))?;
        Ok(Dialer {
            side: Side::new(alloc, Role::Dialer, names, Answer::Going, output),
        })
    }

    /// Takes the next piece of the input. Only the bytes up to the deciding message are used, and nothing behind it is
    /// read. The first fault of the input is answered, or want of memory, and from then on [`SelectFault::Failed`].
    pub fn feed(&mut self, piece: &[u8]) -> Result<Step, SelectFault>
        ensures names { self.new.names ≡ self.old.names }
        // What is decided stands, and nothing more is used.
        ensures decided { (answer : Answer) → self.old.answer ≡ Some answer → answer ≢ Answer.Going
            → (result ≡ Ok (record { used = 0; answer = answer })) × (self.new ≡ self.old) }
        ensures failed { self.old.answer ≡ None → (result ≡ Err SelectFault.Failed) × (self.new ≡ self.old) }
        ensures answer { IfOk result (λ step. self.new.answer ≡ Some step.answer) }
        ensures fails { OnErr result (self.new.answer ≡ None) }
        ensures within { IfOk result (λ step. step.used ≤ length piece.now) }
        ensures all_used { IfOk result (λ step. step.answer ≡ Answer.Going → step.used ≡ length piece.now) }

        // The answer, the bytes used and the output are those of the whole input so far, however it was cut.
        ensures stands { (input : List ℕ) (used : ℕ) (taken : List ℕ) → Stands self.old input used taken
            → IfOk result (λ step. Stands self.new (input ++ piece.now) (used + step.used) taken) }
        ensures dials { Whenever self.old (λ input used taken. IfOk result (λ step.
            Dials self.old.names (input ++ piece.now) (Ok step.answer) (used + step.used)
            (taken ++ self.new.pending))) }
        ensures fault { self.old.answer ≡ Some Answer.Going → Whenever self.old (λ input used taken.
            IfErr result (λ fault. fault ≢ SelectFault.OutOfMemory
            → Dials self.old.names (input ++ piece.now) (Err fault) (length (input ++ piece.now))
            (taken ++ self.new.pending))) }
        // Memory is refused nowhere but at the last byte of a length, which decides nothing.
        ensures memory { self.old.answer ≡ Some Answer.Going → Whenever self.old (λ input used taken.
            result ≡ Err SelectFault.OutOfMemory
            → RunsOut role.Dialer self.old.names (taken ++ self.new.pending) input piece.now) }
    {
        self.side.feed(piece)
    }

    /// The output that waits to be sent. Takes no memory.
    pub fn take_output(&mut self) -> Vec<u8>
        ensures output { result.items ≡ self.old.pending }
        ensures kept { self.new ≡ record self.old { pending = []; room = self.new.room } }
        ensures room { self.old.room ≤ self.new.room }
        ensures stands { (input : List ℕ) (used : ℕ) (taken : List ℕ) → Stands self.old input used taken
            → Stands self.new input used (taken ++ result.items) }
    {
        self.side.take_output()
    }

    /// Whether an end may send more than the dialer wrote: once it has agreed, and before any answer where it has
    /// exactly one name. Takes no memory.
    pub fn may_send(&self) -> bool
        ensures { IsTrue result ↔ MaySend self.now.names self.now.answer }
    {
        match self.side.answer() {
            Some(Answer::Agreed(_)) => true,
            Some(Answer::Going) => self.side.count_names() == 1,
            Some(Answer::NoneLeft) | None => false,
        }
    }
}
