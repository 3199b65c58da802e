//! What is published: a listing, with the history that it shows and the number of each caller's entries there.

ghost use Rattle.std.specs.Prelude.{◌≡◌, ◌<◌, ◌≤◌, ◌^◌};
ghost use mathlib.Core.List.{IsPrefix};
ghost use Rattle.pool_state.specs.Added.{more, more_at};
ghost use Rattle.swarm_calls.specs.Snapshots.{IsShown, followed};

use crate::addition::Addition;
use crate::entry::Entry;
use crate::history::Beginning;
use crate::identity::Identity;
use left_right::Absorb;
use pool_state::Listing;
use pool_state::laws::{added_is_shown, last_reply};
use std::alloc::AllocError;
use std::mem::size_of;

/// What is published, and what a pass keeps of it: the history's length, its listing, how many entries each caller has
/// there, and its last entry, if it has one.
pub struct Snapshot {
    pub beginning: Beginning,
    pub count: u64,
    pub listing: Listing,
    pub calls: [u64; 8],
    pub last: Option<Entry>,
}

// By hand, so that the proof of who lets go of it is that of a call, and not of all that it holds.
impl Drop for Snapshot {
    fn drop(self) {
        let Self {
            beginning: _beginning,
            count: _,
            listing: _listing,
            calls: _,
            last: _last,
        } = self;
    }
}

/// What is done to both published copies: an addition, or nothing.
pub type Operation = Option<Addition>;

// The writer's log makes four places by its first growth where an operation is no larger than this, and one where it
// is.
const _: () = prove!(size_of::<Operation>() <= 1024);

fn one_more(count: u64) -> u64
    ensures { result ≡ more count }
{
    if count < u64::MAX { count + 1 } else { count }
}

fn one_more_at(calls: &mut [u64; 8], index: usize)
    requires { index < 8 }
    ensures { calls.new ≡ more_at calls.old index }
{
    calls[index] = one_more(calls[index]);
}

fn last_copied(last: &Option<Entry>) -> Option<Entry>
    ensures { result ≡ last.now }
{
    match last {
        Some(entry) => Some(entry.copied()),
        None => None,
    }
}

impl Snapshot {
    /// An equal snapshot. It takes no memory.
    pub fn copied(&self) -> Snapshot
        ensures { result ≡ self.now }
    {
        Snapshot {
            beginning: self.beginning.copied(),
            count: self.count,
            listing: self.listing.copied(),
            calls: self.calls,
            last: last_copied(&self.last),
        }
    }

    /// Becomes equal to the other snapshot, in place. It takes no memory.
    pub fn copy_from(&mut self, other: &Snapshot)
        ensures { self.new ≡ other.now }
    {
        self.beginning = other.beginning.copied();
        self.count = other.count;
        self.listing.copy_from(&other.listing);
        self.calls = other.calls;
        self.last = last_copied(&other.last);
    }

    /// Follows an entry that joins the history, with the history that it makes.
    pub fn follow(&mut self, after: &Beginning, entry: &Entry)
        requires { (1 ≤ entry.now.caller) × (entry.now.caller ≤ 8) }
        ensures { self.new ≡ followed self.old after.now entry.now }
    {
        self.beginning = after.copied();
        self.count = one_more(self.count);
        self.listing.add(entry.call(), entry.reply());
        one_more_at(&mut self.calls, entry.caller() - 1);
        self.last = Some(entry.copied());
    }

    /// Comes to show the whole history, of which it shows a beginning. Where that is the whole already, it changes
    /// nothing. Where one entry is missing, it follows that, which costs less than the copy of all rows. It takes no
    /// memory.
    pub fn catch_up<J: Identity>(&mut self, all: &Snapshot)
        requires kept { IsShown J.book J.config J.callers self.old }
        requires all { IsShown J.book J.config J.callers all.now }
        requires begins { IsPrefix self.old.beginning.log all.now.beginning.log }
        ensures shown { IsShown J.book J.config J.callers self.new }
        ensures whole { self.new.beginning.log ≡ all.now.beginning.log }
    {
        if self.count < all.count {
            let missing = all.count - self.count;
            match &all.last {
                Some(entry) if missing == 1 => {
                    added_is_shown();
                    last_reply();
                    self.follow(&all.beginning, entry);
                }
                _ => self.copy_from(all),
            }
        }
    }

    /// The front of the listing.
    pub fn front(&self) -> u64
        ensures is { result ≡ self.now.listing.front }
        ensures fits { result < 2 ^ 64 }
    {
        self.listing.front
    }
}

impl Absorb<Operation> for Snapshot {
    ghost use Rattle.swarm_calls.specs.Snapshots.{absorbed};

    type State = Snapshot;

    ghost state = { λ s. s };

    ghost applied = { absorbed };

    ghost never_fails = { Unit {0} };

    fn absorb_first(&mut self, operation: &Operation, _other: &Snapshot) -> Result<(), AllocError> {
        if let Some(addition) = operation {
            self.follow(&addition.after, &addition.entry);
        }
        Ok(())
    }
}
