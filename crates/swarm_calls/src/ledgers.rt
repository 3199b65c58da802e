//! A ledger for each caller. Its book lies under the lock and counts the caller's entries in the history; its whole
//! share is the caller's, so that the caller knows that count.
ghost use Rattle.std.specs.Prelude.{◌≡◌, ◌+◌, ◌-◌, ◌<◌, ◌≤◌, [], ◌∷◌, length, slice_index, slice_set};
ghost use Rattle.swarm_calls.specs.Ledgers.{caller_of, amount_of, AreNew};

use std::marker::{Model, PhantomData};
use std::sync::ledger::{Blank, Book, Ledger, Share};

/// The ledgers of a swarm's callers. A swarm names them by one type, `Eight`, which the function that makes the swarm
/// writes.
pub trait Ledgers {
    type First: Ledger;

    type Second: Ledger;

    type Third: Ledger;

    type Fourth: Ledger;

    type Fifth: Ledger;

    type Sixth: Ledger;

    type Seventh: Ledger;

    type Eighth: Ledger;
}

/// The ledgers of callers 1 to 8. No value of it is made.
pub struct Eight<L1, L2, L3, L4, L5, L6, L7, L8> {
    of: PhantomData<(L1, L2, L3, L4, L5, L6, L7, L8)>,
}

impl<
    L1: Ledger,
    L2: Ledger,
    L3: Ledger,
    L4: Ledger,
    L5: Ledger,
    L6: Ledger,
    L7: Ledger,
    L8: Ledger,
> Ledgers for Eight<L1, L2, L3, L4, L5, L6, L7, L8> {
    type First = L1;

    type Second = L2;

    type Third = L3;

    type Fourth = L4;

    type Fifth = L5;

    type Sixth = L6;

    type Seventh = L7;

    type Eighth = L8;
}

/// The books of all callers. Contracts see their totals.
pub struct Books<L: Ledgers> {
    first: Book<L::First>,
    second: Book<L::Second>,
    third: Book<L::Third>,
    fourth: Book<L::Fourth>,
    fifth: Book<L::Fifth>,
    sixth: Book<L::Sixth>,
    seventh: Book<L::Seventh>,
    eighth: Book<L::Eighth>,
}

// By hand, so that the proof of who lets go of it is that of a call, and not of all eight.
impl<L: Ledgers> Drop for Books<L> {
    fn drop(self) {
        let Self {
            first: _first,
            second: _second,
            third: _third,
            fourth: _fourth,
            fifth: _fifth,
            sixth: _sixth,
            seventh: _seventh,
            eighth: _eighth,
        } = self;
    }
}

impl<L: Ledgers> Model for Books<L> {
    ghost use Rattle.std.specs.Prelude.{ℕ, List, [], ◌∷◌};

    ghost Value = { List ℕ };

    ghost view = { λ b. b.first.total ∷ b.second.total ∷ b.third.total ∷ b.fourth.total ∷ b.fifth.total ∷
        b.sixth.total ∷ b.seventh.total ∷ b.eighth.total ∷ [] };
}

/// The whole share of a ledger. Contracts see its amount.
#[derive(Drop)]
pub struct Whole<L: Ledger> {
    share: Share<L>,
}

impl<L: Ledger> Model for Whole<L> {
    ghost use Rattle.std.specs.Prelude.{ℕ, ◌≡◌, ◌<◌};

    ghost Value = { ℕ };

    ghost view = { λ w. w.share.amount };

    ghost invariant = { λ w. (w.share.parts ≡ L.parts) × (0 < L.parts) };
}

impl<L: Ledger> Whole<L> {
    // The book has counted as many entries as the share says, and counts so many more.
    fn count(&mut self, book: &mut Book<L>, more: u64)
        ensures same { self.old ≡ book.old.total }
        ensures book { book.new.total ≡ book.old.total + more }
        ensures amount { self.new ≡ self.old + more }
    {
        book.audit(&mut self.share);
        book.add(&mut self.share, more);
    }
}

/// The whole share of one caller's ledger.
pub enum Tally<L: Ledgers> {
    First(Whole<L::First>),
    Second(Whole<L::Second>),
    Third(Whole<L::Third>),
    Fourth(Whole<L::Fourth>),
    Fifth(Whole<L::Fifth>),
    Sixth(Whole<L::Sixth>),
    Seventh(Whole<L::Seventh>),
    Eighth(Whole<L::Eighth>),
}

// By hand, as that of `Books`.
impl<L: Ledgers> Drop for Tally<L> {
    fn drop(self) {
        match self {
            Tally::First(_whole) => {}
            Tally::Second(_whole) => {}
            Tally::Third(_whole) => {}
            Tally::Fourth(_whole) => {}
            Tally::Fifth(_whole) => {}
            Tally::Sixth(_whole) => {}
            Tally::Seventh(_whole) => {}
            Tally::Eighth(_whole) => {}
        }
    }
}

/// New ledgers, which no type stands for yet. `Swarm::new` takes them. Each has one part.
pub struct BlankLedgers {
    pub first: Blank,
    pub second: Blank,
    pub third: Blank,
    pub fourth: Blank,
    pub fifth: Blank,
    pub sixth: Blank,
    pub seventh: Blank,
    pub eighth: Blank,
    ghost parts: { (first.parts ≡ 1) × (second.parts ≡ 1) × (third.parts ≡ 1) × (fourth.parts ≡ 1)
        × (fifth.parts ≡ 1) × (sixth.parts ≡ 1)
        × (seventh.parts ≡ 1) × (eighth.parts ≡ 1) },
}

// By hand, as that of `Books`.
impl Drop for BlankLedgers {
    fn drop(self) {
        let Self {
            first: _first,
            second: _second,
            third: _third,
            fourth: _fourth,
            fifth: _fifth,
            sixth: _sixth,
            seventh: _seventh,
            eighth: _eighth,
        } = self;
    }
}

impl BlankLedgers {
    /// New ledgers. They take no memory.
    pub fn new() -> BlankLedgers {
        BlankLedgers {
            first: Blank::new(1),
            second: Blank::new(1),
            third: Blank::new(1),
            fourth: Blank::new(1),
            fifth: Blank::new(1),
            sixth: Blank::new(1),
            seventh: Blank::new(1),
            eighth: Blank::new(1),
        }
    }

    /// The books, all at 0, and the share of each caller.
    pub(crate) fn open<L: Ledgers>(self) -> (Books<L>, [Tally<L>; 8])
        requires first { (self.first.name ≡ L.First.name) × (self.first.parts ≡ L.First.parts) }
        requires second { (self.second.name ≡ L.Second.name) × (self.second.parts ≡ L.Second.parts) }
        requires third { (self.third.name ≡ L.Third.name) × (self.third.parts ≡ L.Third.parts) }
        requires fourth { (self.fourth.name ≡ L.Fourth.name) × (self.fourth.parts ≡ L.Fourth.parts) }
        requires fifth { (self.fifth.name ≡ L.Fifth.name) × (self.fifth.parts ≡ L.Fifth.parts) }
        requires sixth { (self.sixth.name ≡ L.Sixth.name) × (self.sixth.parts ≡ L.Sixth.parts) }
        requires seventh { (self.seventh.name ≡ L.Seventh.name) × (self.seventh.parts ≡ L.Seventh.parts) }
        requires eighth { (self.eighth.name ≡ L.Eighth.name) × (self.eighth.parts ≡ L.Eighth.parts) }
        ensures books { result.0 ≡ 0 ∷ 0 ∷ 0 ∷ 0 ∷ 0 ∷ 0 ∷ 0 ∷ 0 ∷ [] }
        ensures callers { AreNew 1 result.1 }
        ensures all { length result.1 ≡ 8 }
    {
        let Self {
            first,
            second,
            third,
            fourth,
            fifth,
            sixth,
            seventh,
            eighth,
        } = self;
        let (first, share1) = first.open::<L::First>();
        let (second, share2) = second.open::<L::Second>();
        let (third, share3) = third.open::<L::Third>();
        let (fourth, share4) = fourth.open::<L::Fourth>();
        let (fifth, share5) = fifth.open::<L::Fifth>();
        let (sixth, share6) = sixth.open::<L::Sixth>();
        let (seventh, share7) = seventh.open::<L::Seventh>();
        let (eighth, share8) = eighth.open::<L::Eighth>();
        (
            Books {
                first,
                second,
                third,
                fourth,
                fifth,
                sixth,
                seventh,
                eighth,
            },
            [
                Tally::First(Whole { share: share1 }),
                Tally::Second(Whole { share: share2 }),
                Tally::Third(Whole { share: share3 }),
                Tally::Fourth(Whole { share: share4 }),
                Tally::Fifth(Whole { share: share5 }),
                Tally::Sixth(Whole { share: share6 }),
                Tally::Seventh(Whole { share: share7 }),
                Tally::Eighth(Whole { share: share8 }),
            ],
        )
    }
}

impl<L: Ledgers> Books<L> {
    /// The caller's book counts as many entries as its share says.
    pub fn audit(&mut self, tally: &mut Tally<L>)
        ensures books { self.new ≡ self.old }
        ensures caller { caller_of tally.new ≡ caller_of tally.old }
        ensures same { amount_of tally.new ≡ amount_of tally.old }
        ensures amount { slice_index self.old (caller_of tally.old - 1) ≡ amount_of tally.old }
    {
        self.count(tally, 0);
    }

    /// The caller's book has counted as many entries as its share says, and counts so many more.
    pub fn count(&mut self, tally: &mut Tally<L>, more: u64)
        ensures same { slice_index self.old (caller_of tally.old - 1) ≡ amount_of tally.old }
        ensures books { self.new
            ≡ slice_set self.old (caller_of tally.old - 1) (slice_index self.old (caller_of tally.old - 1) + more) }
        ensures caller { caller_of tally.new ≡ caller_of tally.old }
        ensures amount { amount_of tally.new ≡ amount_of tally.old + more }
    {
        match tally {
            Tally::First(whole) => whole.count(&mut self.first, more),
            Tally::Second(whole) => whole.count(&mut self.second, more),
            Tally::Third(whole) => whole.count(&mut self.third, more),
            Tally::Fourth(whole) => whole.count(&mut self.fourth, more),
            Tally::Fifth(whole) => whole.count(&mut self.fifth, more),
            Tally::Sixth(whole) => whole.count(&mut self.sixth, more),
            Tally::Seventh(whole) => whole.count(&mut self.seventh, more),
            Tally::Eighth(whole) => whole.count(&mut self.eighth, more),
        }
    }
}

impl<L: Ledgers> Tally<L> {
    /// Whose it is.
    pub fn caller(&self) -> usize
        ensures is { result ≡ caller_of self.now }
        ensures within { (1 ≤ result) × (result ≤ 8) }
    {
        match self {
            Tally::First(_) => 1,
            Tally::Second(_) => 2,
            Tally::Third(_) => 3,
            Tally::Fourth(_) => 4,
            Tally::Fifth(_) => 5,
            Tally::Sixth(_) => 6,
            Tally::Seventh(_) => 7,
            Tally::Eighth(_) => 8,
        }
    }
}
