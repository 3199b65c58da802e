use crate::asserts::holds;
use ms_select::*;
use std::alloc::Global;
use std::test::*;

/// The header as a message.
const M: &[u8] = b"\x13/multistream/1.0.0\n";

const M_NA: &[u8] = b"\x13/multistream/1.0.0\n\x03na\n";

const NA: &[u8] = b"\x03na\n";

/// The header, the proposal of x, and behind it that of y.
const M_X: &[u8] = b"\x13/multistream/1.0.0\n\x03/x\n";

const M_X_Y: &[u8] = b"\x13/multistream/1.0.0\n\x03/x\n\x03/y\n";

const M_X_Y_Z: &[u8] = b"\x13/multistream/1.0.0\n\x03/x\n\x03/y\n\x03/z\n";

const M_NA_Y: &[u8] = b"\x13/multistream/1.0.0\n\x03na\n\x03/y\n";

const M_PLAINTEXT: &[u8] = b"\x13/multistream/1.0.0\n\x11/plaintext/2.0.0\n";

// ---- one end, however its input is cut

/// An end that knows these names, an input, the answer to it, how many bytes are used where it is no fault, all output,
/// and whether data may be sent then, which a listener never says.
#[derive(Clone, Copy)]
struct Row {
    role: Role,
    names: &'static [&'static str],
    input: &'static [u8],
    answer: Result<Answer, SelectFault>,
    used: u8,
    output: &'static [u8],
    may_send: bool,
}

/// Before any input: a listener of y, a dialer of x, and one of x and y.
const Y: Row = Row {
    role: Role::Listener,
    names: &["/y"],
    input: b"",
    answer: Ok(Answer::Going),
    used: 0,
    output: M,
    may_send: false,
};

const X: Row = Row {
    role: Role::Dialer,
    names: &["/x"],
    output: M_X,
    may_send: true,
    ..Y
};

const X_Y: Row = Row {
    names: &["/x", "/y"],
    may_send: false,
    ..X
};

/// Rows of listeners.
static LISTENERS: [Row; 11] = [
    Y,
    // One without names refuses, and goes on.
    Row {
        names: &[],
        input: M_X,
        used: 24,
        output: M_NA,
        ..Y
    },
    // The longest message.
    Row {
        input: b"\x13/multistream/1.0.0\n\x80\x08",
        used: 22,
        ..Y
    },
    // Refused, then agreed; what follows isn't used.
    Row {
        input: b"\x13/multistream/1.0.0\n\x03/x\n\x03/y\nNext",
        answer: Ok(Answer::Agreed(0)),
        used: 28,
        output: M_NA_Y,
        ..Y
    },
    Row {
        input: b"\x13/multistream/1.0.0\n\x03ls\n",
        used: 24,
        output: M_NA,
        ..Y
    },
    // The header again is a proposal that isn't supported.
    Row {
        input: b"\x13/multistream/1.0.0\n\x13/multistream/1.0.0\n",
        used: 40,
        output: M_NA,
        ..Y
    },
    Row {
        input: b"\x13/multistream/1.0.0\n\x81\x08",
        answer: Err(SelectFault::BadLength),
        ..Y
    },
    Row {
        input: b"\x13/multistream/1.0.0\n\x00",
        answer: Err(SelectFault::BadLength),
        ..Y
    },
    Row {
        input: b"\x13/multistream/1.0.0\n\x83\x00",
        answer: Err(SelectFault::BadLength),
        ..Y
    },
    Row {
        input: b"\x13/multistream/1.0.0\n\x02ab",
        answer: Err(SelectFault::NoNewline),
        ..Y
    },
    Row {
        input: NA,
        answer: Err(SelectFault::BadHeader),
        ..Y
    },
];

/// Rows of dialers.
static DIALERS: [Row; 11] = [
    // The third of three names, and none of them.
    Row {
        names: &["/x", "/y", "/z"],
        input: b"\x13/multistream/1.0.0\n\x03na\n\x03na\n\x03/z\nN",
        answer: Ok(Answer::Agreed(2)),
        used: 32,
        output: M_X_Y_Z,
        ..X
    },
    Row {
        names: &["/x", "/y", "/z"],
        input: b"\x13/multistream/1.0.0\n\x03na\n\x03na\n\x03na\nN",
        answer: Ok(Answer::NoneLeft),
        used: 32,
        output: M_X_Y_Z,
        ..X_Y
    },
    // The first name is refused, and the second agreed on; what follows isn't used.
    Row {
        input: b"\x13/multistream/1.0.0\n\x03na\n\x03/y\nN",
        answer: Ok(Answer::Agreed(1)),
        used: 28,
        output: M_X_Y,
        may_send: true,
        ..X_Y
    },
    Row {
        input: b"\x13/multistream/1.0.0\n\x03na\n\x03na\n\x03na\n",
        answer: Ok(Answer::NoneLeft),
        used: 28,
        output: M_X_Y,
        ..X_Y
    },
    Row {
        input: M,
        used: 20,
        ..X_Y
    },
    // A second header answers no proposal, the second one neither.
    Row {
        input: b"\x13/multistream/1.0.0\n\x03na\n\x13/multistream/1.0.0\n",
        answer: Err(SelectFault::NotProposed),
        output: M_X_Y,
        ..X_Y
    },
    Row {
        input: b"\x13/multistream/1.0.0\n\x03/z\n",
        answer: Err(SelectFault::NotProposed),
        ..X_Y
    },
    Row {
        input: b"\x03/x\n",
        answer: Err(SelectFault::BadHeader),
        ..X_Y
    },
    Row {
        input: b"\x13/multistream/1.0.0\n\x81\x08",
        answer: Err(SelectFault::BadLength),
        ..X_Y
    },
    // The echo of another name is not proposed.
    Row {
        input: b"\x13/multistream/1.0.0\n\x03/y\n",
        answer: Err(SelectFault::NotProposed),
        ..X_Y
    },
    // The agreement ends inside a piece.
    Row {
        names: &["/plaintext/2.0.0"],
        input: b"\x13/multistream/1.0.0\n\x11/plaintext/2.0.0\nNmore",
        answer: Ok(Answer::Agreed(0)),
        used: 38,
        output: M_PLAINTEXT,
        ..X
    },
];

fn listeners() -> &'static [Row] {
    &LISTENERS
}

fn dialers() -> &'static [Row] {
    &DIALERS
}

#[derive(Drop)]
enum End {
    Dials(Dialer),
    Listens(Listener),
}

impl End {
    fn new(alloc: Global, role: Role, names: &[&str]) -> Result<End, SelectFault> {
        match role {
            Role::Dialer => Ok(End::Dials(Dialer::new(alloc, names)?)),
            Role::Listener => Ok(End::Listens(Listener::new(alloc, names)?)),
        }
    }

    fn feed(&mut self, piece: &[u8]) -> Result<Step, SelectFault> {
        match self {
            End::Dials(dialer) => dialer.feed(piece),
            End::Listens(listener) => listener.feed(piece),
        }
    }

    fn take_output(&mut self) -> Vec<u8> {
        match self {
            End::Dials(dialer) => dialer.take_output(),
            End::Listens(listener) => listener.take_output(),
        }
    }

    fn may_send(&self) -> bool {
        match self {
            End::Dials(dialer) => dialer.may_send(),
            End::Listens(_) => false,
        }
    }
}

/// What an end answered last, how many bytes it has used, and what it wrote.
#[derive(Drop)]
struct Came {
    end: End,
    answer: Result<Answer, SelectFault>,
    used: usize,
    output: Vec<u8>,
}

impl Came {
    /// Feeds a piece. Whether it is used whole where nothing is decided by it, and not at all behind a decision, which
    /// stays, as a fault does.
    fn hears(&mut self, piece: &[u8]) -> bool {
        let fed = self.end.feed(piece);
        match self.answer {
            Ok(Answer::Going) => self.goes_on(fed, piece.len()),
            Ok(answer) => fed == Ok(Step { used: 0, answer }),
            Err(_) => fed == Err(SelectFault::Failed),
        }
    }

    fn goes_on(&mut self, fed: Result<Step, SelectFault>, len: usize) -> bool {
        match fed {
            Ok(step) => {
                self.answer = Ok(step.answer);
                self.used = self.used.saturating_add(step.used);
                step.answer != Answer::Going || step.used == len
            }
            Err(fault) => {
                self.answer = Err(fault);
                true
            }
        }
    }

    fn take_output(&mut self) -> bool {
        let output = self.end.take_output();
        self.output.extend_from_slice(&output).is_ok()
    }

    fn is_as(&self, row: &Row) -> bool {
        let is_used = row.answer.is_err() || self.used == usize::from(row.used);
        let is_written = self.output.as_slice() == row.output;
        let is_as = self.answer == row.answer && is_used && is_written;
        is_as && self.end.may_send() == row.may_send
    }

    /// Plays the row in pieces of this size, behind each of which output is taken, or at the end alone.
    fn plays(&mut self, row: &Row, size: usize, at_once: bool) -> bool {
        let mut held = true;
        for piece in row.input.chunks(size.max(1)) {
            if at_once {
                held = self.take_output() && held;
            }
            held = self.hears(piece) && held;
        }
        held = self.take_output() && held;
        held && self.is_as(row) && (row.answer == Ok(Answer::Going) || self.hears(M))
    }
}

fn begin(alloc: Global, row: &Row) -> Option<Came> {
    Some(Came {
        end: End::new(alloc, row.role, row.names).ok()?,
        answer: Ok(Answer::Going),
        used: 0,
        output: Vec::new(alloc),
    })
}

fn holds_so(alloc: Global, row: &Row, size: usize, at_once: bool) -> bool {
    match begin(alloc, row) {
        Some(mut came) => came.plays(row, size, at_once),
        None => false,
    }
}

/// Whether the row holds in pieces of this size, behind each of which output is taken, and where it is taken at the end
/// alone.
fn is_so(alloc: Global, row: &Row, size: usize) -> bool {
    holds_so(alloc, row, size, true) && holds_so(alloc, row, size, false)
}

#[test]
fn ends_however_the_input_is_cut(rt: HostRuntime) {
    for (table, rows) in [("listeners", listeners()), ("dialers", dialers())] {
        for (number, row) in rows.iter().enumerate() {
            for size in [1, 7, 1024] {
                let held = is_so(rt.alloc(), row, size);
                holds(&rt, (table, number, "in pieces of", size), held);
            }
        }
    }
}

// ---- whole talks

fn is_talked(talk: Result<Talk, SelectFault>, answer: Answer, output: &[u8]) -> bool {
    match talk {
        Ok(talk) => talk.answer == answer && talk.output.as_slice() == output,
        Err(_) => false,
    }
}

/// What the dialer writes is the listener's piece.
#[test]
fn whole_talks_of_two_ends(rt: HostRuntime) {
    let dialed = dial(rt.alloc(), &["/x", "/y"], &[M, NA, b"\x03/y\nNext"]);
    let is_dialed = is_talked(dialed, Answer::Agreed(1), M_X_Y);
    holds(&rt, "the dialer", is_dialed);
    let listened = listen(rt.alloc(), &["/y"], &[M_X_Y]);
    let is_listened = is_talked(listened, Answer::Agreed(0), M_NA_Y);
    holds(&rt, "the listener", is_listened);
}
