//! Negotiations, of either side.

use crate::tally::Tally;
use ms_select::{Answer, Dialer, Listener, SelectFault, Step};
use std::alloc::Global;

const HEADER: &[u8] = b"\x13/multistream/1.0.0\n";

const NA: &[u8] = b"\x03na\n";

const X: &[u8] = b"\x03/x\n";

const Y: &[u8] = b"\x03/y\n";

/// Either side of a negotiation.
trait Side {
    fn feed_side(&mut self, piece: &[u8]) -> Result<Step, SelectFault>;

    fn take_side(&mut self) -> Vec<u8>;
}

impl Side for Dialer {
    fn feed_side(&mut self, piece: &[u8]) -> Result<Step, SelectFault> {
        self.feed(piece)
    }

    fn take_side(&mut self) -> Vec<u8> {
        self.take_output()
    }
}

impl Side for Listener {
    fn feed_side(&mut self, piece: &[u8]) -> Result<Step, SelectFault> {
        self.feed(piece)
    }

    fn take_side(&mut self) -> Vec<u8> {
        self.take_output()
    }
}

/// One step of a row: a piece, what must be answered, and what is then written.
type Told = (
    &'static [u8],
    Result<(usize, Answer), SelectFault>,
    &'static [&'static [u8]],
);

/// Whether these are the parts, one behind the other.
fn is_joined(bytes: &[u8], parts: &[&[u8]]) -> bool {
    let mut rest = bytes;
    for part in parts {
        match rest.strip_prefix(*part) {
            Some(behind) => rest = behind,
            None => return false,
        }
    }
    rest.is_empty()
}

/// Plays the steps until memory is refused; from then on the side answers Failed.
fn play_side<S: Side>(tally: &mut Tally, row: &'static str, side: &mut S, steps: &[Told]) {
    for (piece, answer, written) in steps {
        match side.feed_side(piece) {
            Err(SelectFault::OutOfMemory) => {
                tally.refuse();
                tally.expect(row, side.feed_side(b"").err() == Some(SelectFault::Failed));
                return;
            }
            told => tally.expect(row, told.map(|step| (step.used, step.answer)) == *answer),
        }
        let output = side.take_side();
        tally.expect(row, is_joined(output.as_slice(), written));
    }
}

fn dialer(
    alloc: Global,
    tally: &mut Tally,
    row: &'static str,
    names: &[&str],
    first: &[&[u8]],
    steps: &[Told],
) {
    match Dialer::new(alloc, names) {
        Ok(mut side) => {
            let output = side.take_output();
            tally.expect(row, is_joined(output.as_slice(), first));
            play_side(tally, row, &mut side, steps);
        }
        Err(SelectFault::OutOfMemory) => tally.refuse(),
        Err(_) => tally.expect(row, false),
    }
}

fn listener(alloc: Global, tally: &mut Tally, row: &'static str, names: &[&str], steps: &[Told]) {
    match Listener::new(alloc, names) {
        Ok(mut side) => {
            let output = side.take_output();
            tally.expect(row, is_joined(output.as_slice(), &[HEADER]));
            play_side(tally, row, &mut side, steps);
        }
        Err(SelectFault::OutOfMemory) => tally.refuse(),
        Err(_) => tally.expect(row, false),
    }
}

/// Plays the rows of negotiations.
pub fn play(alloc: Global, tally: &mut Tally) {
    let plaintext: &[u8] = b"\x11/plaintext/2.0.0\n";
    let (all, last): (&[u8], &[u8]) = (b"\x11/plaintext/2.0.0", b"\nN");
    dialer(
        alloc,
        tally,
        "agreement inside a piece",
        &["/plaintext/2.0.0"],
        &[HEADER, plaintext],
        &[
            (HEADER, Ok((20, Answer::Going)), &[]),
            (all, Ok((17, Answer::Going)), &[]),
            (last, Ok((1, Answer::Agreed(0))), &[]),
        ],
    );
    dialer(
        alloc,
        tally,
        "the second name",
        &["/x", "/y"],
        &[HEADER, X],
        &[
            (HEADER, Ok((20, Answer::Going)), &[]),
            (NA, Ok((4, Answer::Going)), &[Y]),
            (Y, Ok((4, Answer::Agreed(1))), &[]),
        ],
    );
    dialer(
        alloc,
        tally,
        "none is left",
        &["/x", "/y"],
        &[HEADER, X],
        &[
            (HEADER, Ok((20, Answer::Going)), &[]),
            (NA, Ok((4, Answer::Going)), &[Y]),
            (NA, Ok((4, Answer::NoneLeft)), &[]),
        ],
    );
    listener(
        alloc,
        tally,
        "an unsupported name, then a supported one",
        &["/y"],
        &[
            (HEADER, Ok((20, Answer::Going)), &[]),
            (X, Ok((4, Answer::Going)), &[NA]),
            (Y, Ok((4, Answer::Agreed(0))), &[Y]),
        ],
    );
    listener(
        alloc,
        tally,
        "a bad length",
        &["/y"],
        &[
            (HEADER, Ok((20, Answer::Going)), &[]),
            (&[0], Err(SelectFault::BadLength), &[]),
            (&[0], Err(SelectFault::Failed), &[]),
        ],
    );
}
