//! A caller's pass.

ghost use Rattle.std.specs.Prelude.{◌≡◌, ◌≤◌, ◌<◌, ◌^◌};
ghost use mathlib.Core.List.{IsPrefix};
ghost use Rattle.pool_state.specs.History.{front_of};
ghost use Rattle.pool_state.specs.Shown.{Shown, IsLegal};
ghost use Rattle.swarm_calls.specs.History.{mine, IsOf};
ghost use Rattle.swarm_calls.specs.Snapshots.{IsShown};
ghost use Rattle.swarm_calls.specs.Calls.{Later, SameCalls};

use crate::identity::Identity;
use crate::ledgers::{Ledgers, Tally};
use crate::rule::{ShowsSwarm, SwarmReader};
use crate::snapshot::Snapshot;
use pool_state::Listing;
use std::marker::Model;

/// A caller's right to make calls. Contracts see its number and the history that it has seen.
pub struct Pass<J: Identity, L: Ledgers> {
    // It is out of its place only while `renew` reads.
    pub(crate) reader: Option<SwarmReader<J>>,
    pub(crate) tally: Tally<L>,
    pub(crate) kept: Snapshot,
}

// By hand, so that the proof of who lets go of it is that of a call, and not of all that it holds.
impl<J: Identity, L: Ledgers> Drop for Pass<J, L> {
    fn drop(self) {
        let Self {
            reader: _reader,
            tally: _tally,
            kept: _kept,
        } = self;
    }
}

impl<J: Identity, L: Ledgers> Model for Pass<J, L> {
    ghost use Rattle.std.specs.Prelude.{◌≡◌, ◌≤◌, length};
    ghost use Rattle.swarm_calls.specs.Ledgers.{caller_of, amount_of};
    ghost use Rattle.swarm_calls.specs.Calls.{Past, past};
    ghost use Rattle.swarm_calls.specs.History.{mine, IsOf};
    ghost use Rattle.swarm_calls.specs.Snapshots.{IsShown};

    ghost Value = { Past };

    ghost view = { λ p. past (caller_of p.tally) p.kept.beginning.log };

    ghost invariant = { λ p. IsShown J.book J.config J.callers p.kept
        × (amount_of p.tally ≡ length (mine (caller_of p.tally) p.kept.beginning.log))
        × (caller_of p.tally ≤ J.callers) };
}

// Comes to show what the other snapshot shows, where that is longer and has as many entries of the caller.
fn renew<J: Identity>(kept: &mut Snapshot, other: &Snapshot, caller: usize)
    requires caller { (1 ≤ caller) × (caller ≤ 8) }
    requires kept { IsShown J.book J.config J.callers kept.old }
    requires other { IsShown J.book J.config J.callers other.now }
    ensures shown { IsShown J.book J.config J.callers kept.new }
    ensures begins { IsPrefix kept.old.beginning.log kept.new.beginning.log }
    ensures own { mine caller kept.new.beginning.log ≡ mine caller kept.old.beginning.log }
{
    if kept.count >= other.count || kept.calls[caller - 1] != other.calls[caller - 1] {
        return;
    }
    kept.beginning.begins(&other.beginning);
    kept.catch_up::<J>(other);
}

// Enters, and renews what is kept by what is published then.
fn look<J: Identity>(reader: SwarmReader<J>, kept: &mut Snapshot, caller: usize) -> SwarmReader<J>
    requires caller { (1 ≤ caller) × (caller ≤ 8) }
    requires kept { IsShown J.book J.config J.callers kept.old }
    ensures shown { IsShown J.book J.config J.callers kept.new }
    ensures begins { IsPrefix kept.old.beginning.log kept.new.beginning.log }
    ensures own { mine caller kept.new.beginning.log ≡ mine caller kept.old.beginning.log }
{
    match reader.enter_as::<ShowsSwarm<J>>() {
        Err(reader) => reader,
        Ok(reading) => {
            renew::<J>(kept, reading.get(), caller);
            reading.leave()
        }
    }
}

impl<J: Identity, L: Ledgers> Pass<J, L> {
    /// The caller's number, from 1 on.
    pub fn number(&self) -> usize
        ensures is { result ≡ self.now.number }
        ensures within { (1 ≤ result) × (result ≤ J.callers) }
    {
        self.tally.caller()
    }

    /// The front of the history that the caller has seen: the configuration's first front and one more for each entry.
    pub fn front(&self) -> u64
        ensures is { result ≡ front_of J.config self.now.seen }
        ensures fits { result < 2 ^ 64 }
    {
        self.kept.front()
    }

    /// The listing of what the caller has seen. The pass stays borrowed while it is looked at.
    pub fn listing(&self) -> &Listing
        ensures shown { result.now ≡ Shown J.config self.now.seen }
        // Of a pass that nothing else is known of: it has seen a legal history of the swarm's callers.
        ensures legal { IsLegal J.config self.now.seen }
        ensures callers { IsOf J.callers self.now.seen }
    {
        &self.kept.listing
    }

    // How long the history is that the caller has seen.
    pub(crate) fn length(&self) -> u64 {
        self.kept.count
    }

    // Sees what is published, where that is newer. It is said to be so long: where the pass has seen so much, it
    // doesn't enter.
    pub(crate) fn renew(&mut self, length: u64)
        ensures later { Later J.config J.callers self.old self.new }
        ensures own { SameCalls self.old self.new }
    {
        if self.kept.count >= length {
            return;
        }
        let caller = self.tally.caller();
        if let Some(reader) = self.reader.take() {
            self.reader = Some(look(reader, &mut self.kept, caller));
        }
    }
}
