//! The one history of a swarm's calls. It exists in the proofs alone: what threads share of it is one word, its length.
//! Only who holds the swarm's lock changes the word.

ghost use Rattle.std.specs.Prelude.{◌≡◌, ◌+◌, ◌<◌, ◌≤◌, ◌^◌, ◌++◌, ◌∷◌, [], length, true};
ghost use mathlib.Core.List.{IsPrefix};
ghost use Rattle.swarm_calls.specs.Steps.{beginning};

use crate::entry::Entry;
use logbook::{Gain, Offer, Plain, Play, Rule, Seen, Start, Word};
use std::marker::Model;
use std::sync::Wait;

/// The rule of the word: it is the length of the history.
pub struct IsLength;

impl Rule<Entry, u64> for IsLength {
    ghost use Rattle.std.specs.Prelude.{[]};
    ghost use base.Fml.{ftrue};
    ghost use Rattle.swarm_calls.specs.Steps.{IsKept};

    ghost holds = { λ cells log. IsKept cells log };

    ghost first = { [] };

    ghost hinted = { λ n log. Unit {0} };

    ghost shows = { λ log. [] };

    ghost keeps = { λ names log. ftrue };

    ghost moves = { λ ask before after answer. Unit {0} };
}

/// Who takes a step gains nothing by it.
pub struct Nothing;

impl Gain<Entry, u64> for Nothing {
    ghost use base.Fml.{ftrue};

    ghost after = { λ names about answer. ftrue };
}

/// A step that looks at the length.
pub struct Look;

impl Play<Entry, u64> for Look {
    ghost use Rattle.swarm_calls.specs.Steps.{Looks};

    ghost then = { Looks };
}

/// A step that adds an entry.
pub struct Add;

impl Play<Entry, u64> for Add {
    ghost use Rattle.swarm_calls.specs.Steps.{Adds};

    ghost then = { Adds };
}

/// What a step asks for: the entry.
impl Plain<Entry, Entry, u64> for Add {
    ghost use Rattle.std.specs.Prelude.{None};

    ghost ask = { λ entry. entry };

    ghost state = { λ entry. None };
}

/// A new history, which is empty and of which no swarm knows yet. `Swarm::new` takes it. Contracts see which history it
/// is.
#[derive(Drop)]
pub struct BlankHistory {
    pub(crate) length: Length,
    pub(crate) beginning: Beginning,
}

impl Model for BlankHistory {
    ghost use Rattle.std.specs.Prelude.{◌≡◌, []};
    ghost use Rattle.logbook.specs.Pages.{Book};

    ghost Value = { Book };

    ghost view = { λ h. h.length };

    ghost invariant = { λ h. (h.beginning.book ≡ h.length) × (h.beginning.log ≡ []) };
}

impl BlankHistory {
    /// A new history. It takes no memory.
    pub fn new() -> BlankHistory {
        let (seen, mut first, _second) = Seen::open(Start::alone(), 0, 0);
        BlankHistory {
            length: Length {
                word: Word::tracked(0, &mut first),
            },
            beginning: Beginning { seen },
        }
    }
}

/// The length of the history. Contracts see which history it is.
#[derive(Drop)]
pub struct Length {
    word: Word<Entry, u64, IsLength>,
}

impl Model for Length {
    ghost use Rattle.std.specs.Prelude.{◌≡◌};
    ghost use Rattle.logbook.specs.Pages.{Book};
    ghost use Rattle.swarm_calls.specs.Steps.{word_of};

    ghost Value = { Book };

    ghost view = { λ l. l.word.book };

    ghost invariant = { λ l. l.word ≡ word_of l.word.book };
}

/// A beginning of the history, which was seen. It has no bytes.
#[derive(Drop)]
pub struct Beginning {
    seen: Seen<Entry, u64, IsLength>,
}

impl Model for Beginning {
    ghost use Rattle.swarm_calls.specs.Steps as steps;

    ghost Value = { steps.Beginning };

    ghost view = { λ b. steps.beginning b.seen.book b.seen.log };
}

impl Beginning {
    /// An equal beginning.
    pub fn copied(&self) -> Beginning
        ensures { result ≡ self.now }
    {
        Beginning {
            seen: self.seen.again(),
        }
    }

    /// Of two beginnings the one that is no shorter begins with the other.
    pub fn begins(&self, longer: &Beginning)
        requires book { longer.now.book ≡ self.now.book }
        requires length { length self.now.log ≤ length longer.now.log }
        ensures { IsPrefix self.now.log longer.now.log }
    {
        let mut both = self.seen.again();
        both.learn(&longer.seen);
    }

    // What both have seen.
    fn joined(&self, other: &Beginning) -> Beginning
        requires { other.now.book ≡ self.now.book }
        ensures book { result.book ≡ self.now.book }
        ensures this { IsPrefix self.now.log result.log }
        ensures that { IsPrefix other.now.log result.log }
    {
        let mut both = self.seen.again();
        both.learn(&other.seen);
        Beginning { seen: both }
    }
}

impl Length {
    // The length of the history, which is then seen whole.
    fn look(&self, beginning: &mut Beginning) -> u64
        requires { beginning.old.book ≡ self.now }
        ensures seen { IsPrefix beginning.old.log beginning.new.log }
        ensures length { result ≡ length beginning.new.log }
    {
        let mut offer: Offer<Entry, u64, IsLength, Nothing> = beginning
            .seen
            .plain::<Nothing, Entry, Add>(&Entry::blank());
        self.word
            .load::<Look, Nothing>(&mut beginning.seen, &mut offer)
    }

    // Adds the entry to all that was seen, or finds that the history is longer.
    fn try_add(&self, beginning: &mut Beginning, count: u64, entry: &Entry) -> bool
        requires book { beginning.old.book ≡ self.now }
        requires count { count ≡ length beginning.old.log }
        requires room { count + 1 < 2 ^ 64 }
        ensures book { beginning.new.book ≡ beginning.old.book }
        ensures added { result ≡ true → beginning.new.log ≡ beginning.old.log ++ entry.now ∷ [] }
    {
        let mut offer: Offer<Entry, u64, IsLength, Nothing> = beginning
            .seen
            .plain::<Nothing, Entry, Add>(entry);
        let mut pen = beginning.seen.no_pen();
        let found = self.word.compare_exchange::<Add, Nothing>(
            count,
            count + 1,
            &mut beginning.seen,
            &mut offer,
            &mut pen,
        );
        found == count
    }

    /// The beginning `all`, which is the whole history, begins with what was `seen`. The first look shows it, as nobody
    /// adds.
    pub fn compare<R: Wait>(&self, rt: &R, seen: &Beginning, all: &Beginning, count: u64)
        requires book { (seen.now.book ≡ self.now) × (all.now.book ≡ self.now) }
        requires count { count ≡ length all.now.log }
        ensures { IsPrefix seen.now.log all.now.log }
    {
        for _ in rt.forever() {
            let mut both = seen.joined(all);
            if self.look(&mut both) == count {
                return;
            }
        }
        unreachable!()
    }

    /// The history with the entry at its end, where `all` is the whole history. The first exchange adds it, as nobody
    /// else does.
    pub fn add<R: Wait>(&self, rt: &R, all: &Beginning, count: u64, entry: &Entry) -> Beginning
        requires book { all.now.book ≡ self.now }
        requires count { count ≡ length all.now.log }
        requires room { count + 1 < 2 ^ 64 }
        ensures { result ≡ beginning all.now.book (all.now.log ++ entry.now ∷ []) }
    {
        for _ in rt.forever() {
            let mut longer = all.copied();
            if self.try_add(&mut longer, count, entry) {
                return longer;
            }
        }
        unreachable!()
    }
}
