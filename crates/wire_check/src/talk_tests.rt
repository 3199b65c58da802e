use crate::asserts::holds;
use ms_select::{Answer, SelectFault, Step};
use std::alloc::{AllocError, Global};
use std::test::*;
use talks::*;

/// The header as a message.
const M: &[u8] = b"\x13/multistream/1.0.0\n";

/// The header and the proposal or the echo of x, and of y.
const M_X: &[u8] = b"\x13/multistream/1.0.0\n\x03/x\n";

const M_Y: &[u8] = b"\x13/multistream/1.0.0\n\x03/y\n";

const M_NA: &[u8] = b"\x13/multistream/1.0.0\n\x03na\n";

/// Which end it is: it asks for /x, as what it numbers 2, or it knows /x and /y.
#[derive(Clone, Copy)]
enum End {
    Asks,
    Answers,
}

/// An input, the answer to it, how many bytes are used where it is no fault, and the output.
struct Row {
    end: End,
    input: &'static [u8],
    answer: Result<Answer, SelectFault>,
    used: u8,
    output: &'static [u8],
}

static ROWS: [Row; 17] = [
    Row {
        end: End::Asks,
        input: b"",
        answer: Ok(Answer::Going),
        used: 0,
        output: M_X,
    },
    Row {
        end: End::Asks,
        input: b"\x13/multistream/1.0.0\n\x03",
        answer: Ok(Answer::Going),
        used: 21,
        output: M_X,
    },
    Row {
        end: End::Asks,
        input: M_X,
        answer: Ok(Answer::Agreed(2)),
        used: 24,
        output: M_X,
    },
    // What follows the echo isn't used.
    Row {
        end: End::Asks,
        input: b"\x13/multistream/1.0.0\n\x03/x\nNext",
        answer: Ok(Answer::Agreed(2)),
        used: 24,
        output: M_X,
    },
    Row {
        end: End::Asks,
        input: M_NA,
        answer: Ok(Answer::NoneLeft),
        used: 24,
        output: M_X,
    },
    Row {
        end: End::Asks,
        input: b"\x13/multistream/1.0.0\n\x03na\n\x03/x\n",
        answer: Ok(Answer::NoneLeft),
        used: 24,
        output: M_X,
    },
    Row {
        end: End::Asks,
        input: M_Y,
        answer: Err(SelectFault::NotProposed),
        used: 0,
        output: M_X,
    },
    Row {
        end: End::Asks,
        input: b"\x03/x\n",
        answer: Err(SelectFault::BadHeader),
        used: 0,
        output: M_X,
    },
    Row {
        end: End::Asks,
        input: b"\x13/multistream/1.0.0\n\x81\x08",
        answer: Err(SelectFault::BadLength),
        used: 0,
        output: M_X,
    },
    Row {
        end: End::Answers,
        input: b"",
        answer: Ok(Answer::Going),
        used: 0,
        output: M,
    },
    Row {
        end: End::Answers,
        input: b"\x13/multistream/1.0.0\n\x03",
        answer: Ok(Answer::Going),
        used: 21,
        output: M,
    },
    Row {
        end: End::Answers,
        input: M_Y,
        answer: Ok(Answer::Agreed(1)),
        used: 24,
        output: M_Y,
    },
    Row {
        end: End::Answers,
        input: b"\x13/multistream/1.0.0\n\x03/z\n",
        answer: Ok(Answer::Going),
        used: 24,
        output: M_NA,
    },
    // An unknown name, and then another; what follows the agreement isn't used.
    Row {
        end: End::Answers,
        input: b"\x13/multistream/1.0.0\n\x03/z\n\x03/y\n\x03/x\n",
        answer: Ok(Answer::Agreed(1)),
        used: 28,
        output: b"\x13/multistream/1.0.0\n\x03na\n\x03/y\n",
    },
    Row {
        end: End::Answers,
        input: b"\x03/y\n",
        answer: Err(SelectFault::BadHeader),
        used: 0,
        output: M,
    },
    Row {
        end: End::Answers,
        input: b"\x13/multistream/1.0.0\n\x03/z\n\x00",
        answer: Err(SelectFault::BadLength),
        used: 0,
        output: M_NA,
    },
    Row {
        end: End::Answers,
        input: b"\x13/multistream/1.0.0\n\x02ab",
        answer: Err(SelectFault::NoNewline),
        used: 0,
        output: M,
    },
];

/// What a talk answered, how many bytes it has used, and all that it wrote.
#[derive(Drop)]
struct Came {
    talk: Talk,
    answer: Result<Answer, SelectFault>,
    used: usize,
    output: Vec<u8>,
}

impl Came {
    /// Hands a piece to the talk, unless it has failed. Its output is taken behind each piece.
    fn hears(&mut self, piece: &[u8]) -> bool {
        if self.answer.is_err() {
            return true;
        }
        match self.talk.hear(piece) {
            Ok(step) => {
                self.used = self.used.saturating_add(step.used);
                self.answer = Ok(step.answer);
            }
            Err(fault) => self.answer = Err(fault),
        }
        self.take_output()
    }

    fn take_output(&mut self) -> bool {
        let output = self.talk.take_output();
        self.output.extend_from_slice(&output).is_ok()
    }

    /// Whether what came next is answered as it must be: a decision is told again and uses nothing, a fault is for
    /// good.
    fn stays(&mut self) -> bool {
        match self.answer {
            Ok(Answer::Going) => true,
            Ok(answer) => self.talk.hear(M_X) == Ok(Step { used: 0, answer }),
            Err(_) => self.talk.hear(M_X) == Err(SelectFault::Failed),
        }
    }

    fn is_as(&self, row: &Row) -> bool {
        let is_used = row.answer.is_err() || self.used == usize::from(row.used);
        self.answer == row.answer && is_used && self.output.as_slice() == row.output
    }

    /// Whether the row comes to what it must, in pieces of this size, and stays there.
    fn plays(&mut self, row: &Row, size: usize) -> bool {
        let mut held = self.take_output();
        for piece in row.input.chunks(size.max(1)) {
            held = self.hears(piece) && held;
        }
        held && self.is_as(row) && self.stays()
    }
}

fn talk(alloc: Global, end: End) -> Result<Talk, SelectFault> {
    match end {
        End::Asks => Talk::ask(alloc, "/x", 2),
        End::Answers => Talk::answer(alloc, &["/x", "/y"]),
    }
}

fn begin(alloc: Global, end: End) -> Option<Came> {
    Some(Came {
        talk: talk(alloc, end).ok()?,
        answer: Ok(Answer::Going),
        used: 0,
        output: Vec::new(alloc),
    })
}

fn is_so(alloc: Global, row: &Row, size: usize) -> bool {
    match begin(alloc, row.end) {
        Some(mut came) => came.plays(row, size),
        None => false,
    }
}

#[test]
fn talks_however_the_input_is_cut(rt: HostRuntime) {
    for (number, row) in ROWS.iter().enumerate() {
        for size in [1, 7, 1024] {
            let held = is_so(rt.alloc(), row, size);
            holds(&rt, ("row", number, "in pieces of", size), held);
        }
    }
}

/// How long a name is, and whether a talk can be about it.
static LENGTHS: [(usize, bool); 4] = [(0, false), (1, true), (1023, true), (1024, false)];

fn name(alloc: Global, length: usize) -> Result<String, AllocError> {
    let mut name = String::new(alloc);
    for _ in 0..length {
        name.push('x')?;
    }
    Ok(name)
}

/// Whether there is a talk, or none for the length of a name.
fn is_begun(talk: Result<Talk, SelectFault>, good: bool) -> bool {
    match talk {
        Ok(_) => good,
        Err(fault) => fault == SelectFault::BadLength && !good,
    }
}

/// Whether a talk that asks, and one that answers, can be about a name of so many bytes, or neither can.
fn are_begun(alloc: Global, length: usize, good: bool) -> bool {
    match name(alloc, length) {
        Ok(name) => {
            let name = name.as_str();
            is_begun(Talk::ask(alloc, name, 0), good)
                && is_begun(Talk::answer(alloc, &["/x", name]), good)
        }
        Err(_) => false,
    }
}

#[test]
fn names_of_1_to_1023_bytes(rt: HostRuntime) {
    for (length, good) in LENGTHS.iter() {
        let held = are_begun(rt.alloc(), *length, *good);
        holds(&rt, ("a name of", length), held);
    }
}

/// A whole talk in pieces: what it comes to, and what it writes where it is no fault.
struct Cut {
    end: End,
    pieces: &'static [&'static [u8]],
    answer: Result<Answer, SelectFault>,
    output: &'static [u8],
}

static CUTS: [Cut; 6] = [
    Cut {
        end: End::Asks,
        pieces: &[M, b"\x03n", b"a\nNext"],
        answer: Ok(Answer::NoneLeft),
        output: M_X,
    },
    Cut {
        end: End::Asks,
        pieces: &[],
        answer: Ok(Answer::Going),
        output: M_X,
    },
    Cut {
        end: End::Asks,
        pieces: &[M, b"\x03/y\n", b"Next"],
        answer: Err(SelectFault::NotProposed),
        output: b"",
    },
    // Two ends agree.
    Cut {
        end: End::Asks,
        pieces: &[M_X],
        answer: Ok(Answer::Agreed(2)),
        output: M_X,
    },
    Cut {
        end: End::Answers,
        pieces: &[M_X],
        answer: Ok(Answer::Agreed(0)),
        output: M_X,
    },
    Cut {
        end: End::Answers,
        pieces: &[M, b"\x03/z\n"],
        answer: Ok(Answer::Going),
        output: M_NA,
    },
];

fn is_cut(alloc: Global, cut: &Cut) -> bool {
    let whole = match cut.end {
        End::Asks => asked(alloc, "/x", 2, cut.pieces),
        End::Answers => answered(alloc, &["/x", "/y"], cut.pieces),
    };
    match whole {
        Ok(whole) => cut.answer == Ok(whole.answer) && whole.output.as_slice() == cut.output,
        Err(fault) => cut.answer == Err(fault),
    }
}

#[test]
fn whole_talks_in_pieces(rt: HostRuntime) {
    for (number, cut) in CUTS.iter().enumerate() {
        holds(&rt, ("row", number), is_cut(rt.alloc(), cut));
    }
}
