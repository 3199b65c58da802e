//! The upgrade of a connection.

ghost use Rattle.std.specs.Prelude.{◌≡◌, ◌≢◌, ◌≤◌, ℕ, List, [], ◌++◌, length, Option, Result, Ok, Err, IfOk, OnErr};
ghost use Rattle.peer_ids.specs.Key.{Key};
ghost use Rattle.upgrade.specs.Upgrades.{Upgrades, ComesTo, RunsOut, Grows};
ghost use Rattle.upgrade.specs.State.{Stands, Whenever, used_of, outcome_of};

use crate::fault::UpgradeFault;
use crate::role::ConnRole;
use crate::stages::{End, Next, PLAINTEXT, Stage, begin_talk, take_on};
use peer_ids::PublicKey;
use plaintext_x::Proven;
use std::alloc::Global;
use std::marker::Model;
use std::mem;

/// What comes of a piece.
#[derive(Debug, Drop)]
pub enum Progress {
    /// More bytes are needed.
    Going,
    /// The connection is up: so many bytes of the piece are the upgrade's, and the rest is the session's.
    Up {
        used: usize,
        /// The other end.
        proven: Proven,
    },
}

/// An end of a connection that comes up.
#[derive(Debug)]
pub struct Upgrade {
    end: End,
    stage: Stage,
    output: Vec<u8>,
}

// By hand, so that the proof of who lets go of it is that of a call, and not of all that it holds.
impl Drop for Upgrade {
    fn drop(self) {
        let Self {
            end: _end,
            stage: _stage,
            output: _output,
        } = self;
    }
}

impl Model for Upgrade {
    ghost use Rattle.upgrade.specs.State.{Upgrading};

    ghost Value = { Upgrading };

    ghost view = { λ a. record { role = a.end.role; own = a.end.key; pending = a.output.items; stage = a.stage } };
}

impl Upgrade {
    /// An end of this role, with this key. It has written the first bytes of its first talk.
    pub fn new(alloc: Global, role: ConnRole, key: PublicKey) -> Result<Upgrade, UpgradeFault>
        ensures role { IfOk result (λ upgrade. upgrade.role ≡ role) }
        ensures own { IfOk result (λ upgrade. upgrade.own ≡ key) }
        ensures fresh { IfOk result (λ upgrade. Stands upgrade [] []) }
        ensures memory { OnErr result (result ≡ Err UpgradeFault.OutOfMemory) }
    {
        let end = End { role, key, alloc };
        let mut output = Vec::new(alloc);
        let talk = begin_talk(&end, PLAINTEXT, &mut output)?;
        Ok(Upgrade {
            end,
            stage: Stage::Greeting(talk),
            output,
        })
    }

    /// Takes the next piece of the input. Nothing behind the bytes that bring the connection up is read.
    pub fn feed(&mut self, piece: &[u8]) -> Result<Progress, UpgradeFault>
        ensures role { self.new.role ≡ self.old.role }
        ensures own { self.new.own ≡ self.old.own }
        ensures within { (used : ℕ) (key : Key) → result ≡ Ok (Progress.Up used key) → used ≤ length piece.now }
        // Once the connection is up, and behind a fault, each call is refused.
        ensures over { self.old.stage ≡ Stage.Over
            → (result ≡ Err UpgradeFault.Failed) × (self.new ≡ self.old) }
        ensures ends { result ≢ Ok Progress.Going → self.new.stage ≡ Stage.Over }

        // Outcome and output are those of exactly the bytes that were used so far, however they were cut.
        ensures stands { Whenever self.old (λ input taken.
            result ≡ Ok Progress.Going → Stands self.new (input ++ piece.now) taken) }
        ensures upgrades { Whenever self.old (λ input taken. result ≢ Err UpgradeFault.OutOfMemory
            → Upgrades self.old.role self.old.own (input ++ used_of result piece.now) (outcome_of result)
            (taken ++ self.new.pending)) }
        // But for want of memory it answers what the upgrade comes to by all of this, and nothing else.
        ensures only { Whenever self.old (λ input taken. result ≢ Err UpgradeFault.OutOfMemory
            → (first : List ℕ) (outcome : Result (Option Key) UpgradeFault) (written : List ℕ)
            → ComesTo self.old.role self.old.own (input ++ piece.now) first outcome written
            → (first ≡ input ++ used_of result piece.now) × (outcome ≡ outcome_of result)
            × (written ≡ taken ++ self.new.pending)) }
        ensures memory { Whenever self.old (λ input taken. result ≡ Err UpgradeFault.OutOfMemory
            → RunsOut self.old.role self.old.own input piece.now self.new.pending (taken ++ self.new.pending)) }
        // No output that waits is dropped, whatever is answered.
        ensures grows { Grows self.old.pending self.new.pending }
    {
        let stage = mem::replace(&mut self.stage, Stage::Over);
        match take_on(&self.end, stage, &mut self.output, piece)? {
            Next::Waits(stage) => {
                self.stage = stage;
                Ok(Progress::Going)
            }
            Next::Up { left, proven } => Ok(Progress::Up {
                used: piece.len().saturating_sub(left),
                proven,
            }),
        }
    }

    /// The output that waits to be sent, also behind a fault. Takes no memory.
    pub fn take_output(&mut self) -> Vec<u8>
        ensures output { result.items ≡ self.old.pending }
        ensures kept { self.new ≡ record self.old { pending = [] } }
        ensures stands { (input : List ℕ) (taken : List ℕ) → Stands self.old input taken
            → Stands self.new input (taken ++ result.items) }
    {
        mem::replace(&mut self.output, Vec::new(self.end.alloc))
    }
}
