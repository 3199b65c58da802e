use crate::asserts::holds;
use ms_select::SelectFault;
use peer_ids::PublicKey;
use plaintext_x::ExchangeFault;
use std::alloc::{AllocError, Global};
use std::test::*;
use upgrade::*;

/// Both talks as each end writes them where they agree.
const HELLO: &[u8] = b"\x13/multistream/1.0.0\n\x11/plaintext/2.0.0\n";

const MUX: &[u8] = b"\x13/multistream/1.0.0\n\x0d/yamux/1.0.0\n";

/// The header, and the header with a refusal.
const M: &[u8] = b"\x13/multistream/1.0.0\n";

const M_NA: &[u8] = b"\x13/multistream/1.0.0\n\x03na\n";

/// The header with a name that isn't known.
const M_X: &[u8] = b"\x13/multistream/1.0.0\n\x03/x\n";

/// The exchange of a Secp256k1 key of one byte, of this end and of the other.
const OWN: &[u8] = b"\x10\x0a\x07\0\x05\x08\x02\x12\x01\x05\x12\x05\x08\x02\x12\x01\x05";

const OTHER: &[u8] = b"\x10\x0a\x07\0\x05\x08\x02\x12\x01\x06\x12\x05\x08\x02\x12\x01\x06";

/// The message of this end's key.
const OWN_KEY: &[u8] = b"\x08\x02\x12\x01\x05";

/// What an upgrade comes to: whose key the other end has proven, by its last byte.
type Outcome = Result<Option<u8>, UpgradeFault>;

fn upgrade(alloc: Global, role: ConnRole) -> Option<Upgrade> {
    let key = PublicKey::read(alloc, OWN_KEY).ok()?;
    Upgrade::new(alloc, role, key).ok()
}

/// What the ends write, as rows name it.
#[derive(Clone, Copy)]
enum Part {
    Header,
    Refused,
    Unknown,
    Hello,
    Plaintext,
    Own,
    Other,
    Mux,
}

fn bytes_of(part: Part) -> &'static [u8] {
    match part {
        Part::Header => M,
        Part::Refused => M_NA,
        Part::Unknown => M_X,
        Part::Hello => HELLO,
        Part::Plaintext => b"\x11/plaintext/2.0.0\n",
        Part::Own => OWN,
        Part::Other => OTHER,
        Part::Mux => MUX,
    }
}

fn joined(alloc: Global, parts: &[Part], rest: &[u8]) -> Result<Vec<u8>, AllocError> {
    let mut all = Vec::new(alloc);
    for part in parts {
        all.extend_from_slice(bytes_of(*part))?;
    }
    all.extend_from_slice(rest)?;
    Ok(all)
}

/// Whether these bytes are the parts.
fn is_joined(alloc: Global, bytes: &[u8], parts: &[Part]) -> bool {
    match joined(alloc, parts, b"") {
        Ok(all) => all.as_slice() == bytes,
        Err(_) => false,
    }
}

fn last_byte(proven: &plaintext_x::Proven) -> Option<u8> {
    proven.key().body().last().copied()
}

// ---- one end, however its input is cut

/// An input of parts and a rest, what it comes to, how many bytes are used where the connection is up, and all output.
struct Row {
    role: ConnRole,
    input: &'static [Part],
    rest: &'static [u8],
    outcome: Outcome,
    used: u8,
    output: &'static [Part],
}

static DIALERS: [Row; 7] = [
    Row {
        role: ConnRole::Dialer,
        input: &[],
        rest: b"",
        outcome: Ok(None),
        used: 0,
        output: &[Part::Hello],
    },
    Row {
        role: ConnRole::Dialer,
        input: &[Part::Header],
        rest: b"\x11/plain",
        outcome: Ok(None),
        used: 0,
        output: &[Part::Hello],
    },
    Row {
        role: ConnRole::Dialer,
        input: &[Part::Hello],
        rest: b"",
        outcome: Ok(None),
        used: 0,
        output: &[Part::Hello, Part::Own],
    },
    Row {
        role: ConnRole::Dialer,
        input: &[Part::Hello],
        rest: b"\x10\x0a\x07",
        outcome: Ok(None),
        used: 0,
        output: &[Part::Hello, Part::Own],
    },
    Row {
        role: ConnRole::Dialer,
        input: &[Part::Hello, Part::Other],
        rest: b"",
        outcome: Ok(None),
        used: 0,
        output: &[Part::Hello, Part::Own, Part::Mux],
    },
    Row {
        role: ConnRole::Dialer,
        input: &[Part::Hello, Part::Other, Part::Mux],
        rest: b"",
        outcome: Ok(Some(6)),
        used: 89,
        output: &[Part::Hello, Part::Own, Part::Mux],
    },
    // What follows is the session's.
    Row {
        role: ConnRole::Dialer,
        input: &[Part::Hello, Part::Other, Part::Mux],
        rest: b"\0\x01",
        outcome: Ok(Some(6)),
        used: 89,
        output: &[Part::Hello, Part::Own, Part::Mux],
    },
];

static FAULTS_OF_DIALERS: [Row; 12] = [
    Row {
        role: ConnRole::Dialer,
        input: &[Part::Refused, Part::Hello],
        rest: b"",
        outcome: Err(UpgradeFault::NoneLeft),
        used: 0,
        output: &[Part::Hello],
    },
    Row {
        role: ConnRole::Dialer,
        input: &[],
        rest: b"\x03/x\n",
        outcome: Err(UpgradeFault::Select(SelectFault::BadHeader)),
        used: 0,
        output: &[Part::Hello],
    },
    Row {
        role: ConnRole::Dialer,
        input: &[Part::Hello],
        rest: b"\0",
        outcome: Err(UpgradeFault::Exchange(ExchangeFault::NoId)),
        used: 0,
        output: &[Part::Hello, Part::Own],
    },
    Row {
        role: ConnRole::Dialer,
        input: &[Part::Hello],
        rest: b"\x81\x40",
        outcome: Err(UpgradeFault::Exchange(ExchangeFault::TooLong)),
        used: 0,
        output: &[Part::Hello, Part::Own],
    },
    Row {
        role: ConnRole::Dialer,
        input: &[Part::Hello, Part::Other, Part::Refused],
        rest: b"",
        outcome: Err(UpgradeFault::NoneLeft),
        used: 0,
        output: &[Part::Hello, Part::Own, Part::Mux],
    },
    Row {
        role: ConnRole::Dialer,
        input: &[Part::Hello, Part::Other, Part::Unknown],
        rest: b"",
        outcome: Err(UpgradeFault::Select(SelectFault::NotProposed)),
        used: 0,
        output: &[Part::Hello, Part::Own, Part::Mux],
    },
    // Each other fault of a talk and of the exchange.
    Row {
        role: ConnRole::Dialer,
        input: &[Part::Header],
        rest: b"\0",
        outcome: Err(UpgradeFault::Select(SelectFault::BadLength)),
        used: 0,
        output: &[Part::Hello],
    },
    Row {
        role: ConnRole::Dialer,
        input: &[Part::Header],
        rest: b"\x02ab",
        outcome: Err(UpgradeFault::Select(SelectFault::NoNewline)),
        used: 0,
        output: &[Part::Hello],
    },
    Row {
        role: ConnRole::Dialer,
        input: &[Part::Hello],
        rest: b"\x01\0",
        outcome: Err(UpgradeFault::Exchange(ExchangeFault::Wire)),
        used: 0,
        output: &[Part::Hello, Part::Own],
    },
    Row {
        role: ConnRole::Dialer,
        input: &[Part::Hello],
        rest: b"\x02\x0a\0",
        outcome: Err(UpgradeFault::Exchange(ExchangeFault::NoKey)),
        used: 0,
        output: &[Part::Hello, Part::Own],
    },
    Row {
        role: ConnRole::Dialer,
        input: &[Part::Hello],
        rest: b"\x04\x0a\0\x12\0",
        outcome: Err(UpgradeFault::Exchange(ExchangeFault::BadKey)),
        used: 0,
        output: &[Part::Hello, Part::Own],
    },
    Row {
        role: ConnRole::Dialer,
        input: &[Part::Hello],
        rest: b"\x09\x0a\0\x12\x05\x08\x02\x12\x01\x06",
        outcome: Err(UpgradeFault::Exchange(ExchangeFault::Differs)),
        used: 0,
        output: &[Part::Hello, Part::Own],
    },
];

static LISTENERS: [Row; 8] = [
    Row {
        role: ConnRole::Listener,
        input: &[],
        rest: b"",
        outcome: Ok(None),
        used: 0,
        output: &[Part::Header],
    },
    Row {
        role: ConnRole::Listener,
        input: &[Part::Unknown],
        rest: b"",
        outcome: Ok(None),
        used: 0,
        output: &[Part::Refused],
    },
    Row {
        role: ConnRole::Listener,
        input: &[Part::Hello],
        rest: b"",
        outcome: Ok(None),
        used: 0,
        output: &[Part::Hello, Part::Own],
    },
    Row {
        role: ConnRole::Listener,
        input: &[Part::Hello, Part::Other],
        rest: b"",
        outcome: Ok(None),
        used: 0,
        output: &[Part::Hello, Part::Own, Part::Header],
    },
    Row {
        role: ConnRole::Listener,
        input: &[Part::Hello, Part::Other, Part::Unknown],
        rest: b"",
        outcome: Ok(None),
        used: 0,
        output: &[Part::Hello, Part::Own, Part::Refused],
    },
    Row {
        role: ConnRole::Listener,
        input: &[Part::Hello, Part::Other, Part::Mux],
        rest: b"",
        outcome: Ok(Some(6)),
        used: 89,
        output: &[Part::Hello, Part::Own, Part::Mux],
    },
    Row {
        role: ConnRole::Listener,
        input: &[Part::Hello, Part::Other, Part::Mux],
        rest: b"\0\x01",
        outcome: Ok(Some(6)),
        used: 89,
        output: &[Part::Hello, Part::Own, Part::Mux],
    },
    // A name that isn't known, and then plaintext.
    Row {
        role: ConnRole::Listener,
        input: &[Part::Unknown, Part::Plaintext, Part::Other, Part::Mux],
        rest: b"",
        outcome: Ok(Some(6)),
        used: 93,
        output: &[Part::Refused, Part::Plaintext, Part::Own, Part::Mux],
    },
];

static FAULTS_OF_LISTENERS: [Row; 5] = [
    Row {
        role: ConnRole::Listener,
        input: &[],
        rest: b"\x03/x\n",
        outcome: Err(UpgradeFault::Select(SelectFault::BadHeader)),
        used: 0,
        output: &[Part::Header],
    },
    Row {
        role: ConnRole::Listener,
        input: &[Part::Header],
        rest: b"\x02ab",
        outcome: Err(UpgradeFault::Select(SelectFault::NoNewline)),
        used: 0,
        output: &[Part::Header],
    },
    // What was written before a bad message is sent too.
    Row {
        role: ConnRole::Listener,
        input: &[Part::Unknown],
        rest: b"\0",
        outcome: Err(UpgradeFault::Select(SelectFault::BadLength)),
        used: 0,
        output: &[Part::Refused],
    },
    Row {
        role: ConnRole::Listener,
        input: &[Part::Hello],
        rest: b"\0",
        outcome: Err(UpgradeFault::Exchange(ExchangeFault::NoId)),
        used: 0,
        output: &[Part::Hello, Part::Own],
    },
    Row {
        role: ConnRole::Listener,
        input: &[Part::Hello, Part::Other, Part::Unknown],
        rest: b"\0",
        outcome: Err(UpgradeFault::Select(SelectFault::BadLength)),
        used: 0,
        output: &[Part::Hello, Part::Own, Part::Refused],
    },
];

fn dialers() -> &'static [Row] {
    &DIALERS
}

fn faults_of_dialers() -> &'static [Row] {
    &FAULTS_OF_DIALERS
}

fn listeners() -> &'static [Row] {
    &LISTENERS
}

fn faults_of_listeners() -> &'static [Row] {
    &FAULTS_OF_LISTENERS
}

/// What an upgrade has come to, how many bytes it has used, and what it wrote.
#[derive(Drop)]
struct Came {
    upgrade: Upgrade,
    outcome: Outcome,
    used: usize,
    output: Vec<u8>,
}

impl Came {
    fn is_over(&self) -> bool {
        self.outcome != Ok(None)
    }

    /// Feeds a piece. An upgrade that is over fails for good.
    fn hears(&mut self, piece: &[u8]) -> bool {
        if self.is_over() {
            self.has_failed(piece)
        } else {
            self.hear(piece);
            true
        }
    }

    fn has_failed(&mut self, piece: &[u8]) -> bool {
        matches!(self.upgrade.feed(piece), Err(UpgradeFault::Failed))
    }

    fn hear(&mut self, piece: &[u8]) {
        match self.upgrade.feed(piece) {
            Ok(Progress::Going) => self.used = self.used.saturating_add(piece.len()),
            Ok(Progress::Up { used, proven }) => {
                self.used = self.used.saturating_add(used);
                self.outcome = Ok(last_byte(&proven));
            }
            Err(fault) => self.outcome = Err(fault),
        }
    }

    fn take_output(&mut self) -> bool {
        let output = self.upgrade.take_output();
        self.output.extend_from_slice(&output).is_ok()
    }

    fn is_as(&self, row: &Row) -> bool {
        let is_up = matches!(row.outcome, Ok(Some(_)));
        let is_used = !is_up || self.used == usize::from(row.used);
        self.outcome == row.outcome && is_used
    }

    /// Hears the input in pieces of this size, behind each of which output is taken, or at the end alone.
    fn plays(&mut self, input: &[u8], size: usize, at_once: bool) -> bool {
        let mut held = true;
        for piece in input.chunks(size.max(1)) {
            held = self.hears(piece) && held;
            if at_once {
                held = self.take_output() && held;
            }
        }
        self.take_output() && held && (!self.is_over() || self.hears(M))
    }
}

fn begin(alloc: Global, role: ConnRole) -> Option<Came> {
    Some(Came {
        upgrade: upgrade(alloc, role)?,
        outcome: Ok(None),
        used: 0,
        output: Vec::new(alloc),
    })
}

/// Whether what was heard is what the row says.
fn is_played(came: &mut Came, alloc: Global, row: &Row, input: &[u8], way: (usize, bool)) -> bool {
    let is_heard = came.plays(input, way.0, way.1);
    is_heard && came.is_as(row) && is_joined(alloc, &came.output, row.output)
}

/// Lends what was made, if it was. Whatever it is, it is let go of here alone: a function that owns an upgrade has to
/// prove that of each way out.
fn lend<T: Drop, F: FnOnce(&mut T) -> bool + Drop>(made: Option<T>, play: F) -> bool
    requires { F.IsAlwaysCallable play }
{
    match made {
        Some(mut made) => play(&mut made),
        None => false,
    }
}

fn leads_to(alloc: Global, row: &Row, input: &[u8], way: (usize, bool)) -> bool {
    lend(
        begin(alloc, row.role),
        |came| is_played(came, alloc, row, input, way),
    )
}

/// Whether the row holds in pieces of this size, behind each of which output is taken, or at the end alone.
fn comes_to(alloc: Global, row: &Row, way: (usize, bool)) -> bool {
    match joined(alloc, row.input, row.rest) {
        Ok(input) => leads_to(alloc, row, &input, way),
        Err(_) => false,
    }
}

/// Whether the row holds in pieces of this size, behind each of which output is taken, and where it is taken at the end
/// alone.
fn is_so(alloc: Global, row: &Row, size: usize) -> bool {
    comes_to(alloc, row, (size, true)) && comes_to(alloc, row, (size, false))
}

#[test]
fn ends_however_the_input_is_cut(rt: HostRuntime) {
    let tables = [
        ("dialers", dialers()),
        ("faults of dialers", faults_of_dialers()),
        ("listeners", listeners()),
        ("faults of listeners", faults_of_listeners()),
    ];
    for (table, rows) in tables {
        for (number, row) in rows.iter().enumerate() {
            for size in [1, 7, 1024] {
                let held = is_so(rt.alloc(), row, size);
                holds(&rt, (table, number, "in pieces of", size), held);
            }
        }
    }
}

// ---- whole upgrades

/// Pieces, what they come to, and all output where that is no fault.
struct Whole {
    role: ConnRole,
    pieces: &'static [&'static [u8]],
    outcome: Outcome,
    output: &'static [Part],
}

static WHOLES: [Whole; 3] = [
    Whole {
        role: ConnRole::Dialer,
        pieces: &[
            HELLO,
            b"\x10\x0a\x07\0\x05",
            b"\x08\x02\x12\x01\x06\x12\x05\x08\x02\x12\x01\x06",
            MUX,
            b"Next",
        ],
        outcome: Ok(Some(6)),
        output: &[Part::Hello, Part::Own, Part::Mux],
    },
    Whole {
        role: ConnRole::Listener,
        pieces: &[HELLO, OTHER],
        outcome: Ok(None),
        output: &[Part::Hello, Part::Own, Part::Header],
    },
    Whole {
        role: ConnRole::Listener,
        pieces: &[HELLO, b"\0", OTHER],
        outcome: Err(UpgradeFault::Exchange(ExchangeFault::NoId)),
        output: &[],
    },
];

fn is_up(alloc: Global, up: &Upgraded, whole: &Whole) -> bool {
    let proven = match &up.proven {
        Some(proven) => last_byte(proven),
        None => None,
    };
    whole.outcome == Ok(proven) && is_joined(alloc, &up.output, whole.output)
}

fn comes_up(alloc: Global, whole: &Whole, key: PublicKey) -> bool {
    match bring_up(alloc, whole.role, key, whole.pieces) {
        Ok(up) => is_up(alloc, &up, whole),
        Err(fault) => whole.outcome == Err(fault),
    }
}

fn is_whole(alloc: Global, whole: &Whole) -> bool {
    match PublicKey::read(alloc, OWN_KEY) {
        Ok(key) => comes_up(alloc, whole, key),
        Err(_) => false,
    }
}

#[test]
fn whole_upgrades_in_pieces(rt: HostRuntime) {
    for (number, whole) in WHOLES.iter().enumerate() {
        holds(&rt, ("row", number), is_whole(rt.alloc(), whole));
    }
}

// ---- faults

/// Each fault, the number of that of a talk or of the exchange, and its text, which ends in the text of that.
static FAULTS: [(UpgradeFault, usize, &str); 17] = [
    (UpgradeFault::Failed, 0, "the upgrade is over"),
    (
        UpgradeFault::NoneLeft,
        0,
        "the other end does not know the protocol",
    ),
    (UpgradeFault::OutOfMemory, 0, "out of memory"),
    (
        UpgradeFault::Select(SelectFault::Failed),
        1,
        "no protocol is settled: the negotiation failed before",
    ),
    (
        UpgradeFault::Select(SelectFault::BadLength),
        2,
        "no protocol is settled: a message or a name has a bad length",
    ),
    (
        UpgradeFault::Select(SelectFault::NoNewline),
        3,
        "no protocol is settled: a message has no newline",
    ),
    (
        UpgradeFault::Select(SelectFault::BadHeader),
        4,
        "no protocol is settled: the first message is not the header",
    ),
    (
        UpgradeFault::Select(SelectFault::NotProposed),
        5,
        "no protocol is settled: the answer is no proposal",
    ),
    (
        UpgradeFault::Select(SelectFault::OutOfMemory),
        6,
        "no protocol is settled: out of memory",
    ),
    (
        UpgradeFault::Exchange(ExchangeFault::Failed),
        1,
        "no key is proven: the exchange failed before",
    ),
    (
        UpgradeFault::Exchange(ExchangeFault::TooLong),
        2,
        "no key is proven: the message is too long",
    ),
    (
        UpgradeFault::Exchange(ExchangeFault::Wire),
        3,
        "no key is proven: the message is badly spelt",
    ),
    (
        UpgradeFault::Exchange(ExchangeFault::NoId),
        4,
        "no key is proven: the message has no id",
    ),
    (
        UpgradeFault::Exchange(ExchangeFault::NoKey),
        5,
        "no key is proven: the message has no key",
    ),
    (
        UpgradeFault::Exchange(ExchangeFault::BadKey),
        6,
        "no key is proven: the key is not read",
    ),
    (
        UpgradeFault::Exchange(ExchangeFault::Differs),
        7,
        "no key is proven: the id is not that of the key",
    ),
    (
        UpgradeFault::Exchange(ExchangeFault::OutOfMemory),
        8,
        "no key is proven: out of memory",
    ),
];

/// The number of the fault of a talk or of the exchange.
fn number_of(fault: UpgradeFault) -> usize {
    match fault {
        UpgradeFault::Select(fault) => fault as usize,
        UpgradeFault::Exchange(fault) => fault as usize,
        _ => 0,
    }
}

/// Whether the fault is equal to that of this row alone.
fn is_alone(fault: UpgradeFault, row: usize) -> bool {
    let mut held = true;
    for (place, (other, _, _)) in FAULTS.iter().enumerate() {
        held = held && (fault == *other) == (row == place);
    }
    held
}

fn has_text(alloc: Global, fault: UpgradeFault, text: &str) -> bool {
    match format!(in alloc; "{fault}") {
        Ok(told) => told.as_str() == text,
        Err(_) => false,
    }
}

#[test]
fn numbers_and_texts_of_faults(rt: HostRuntime) {
    for (row, (fault, number, text)) in FAULTS.iter().enumerate() {
        let is_told = has_text(rt.alloc(), *fault, *text) && number_of(*fault) == *number;
        holds(&rt, ("row", row), is_told && is_alone(*fault, row));
    }
}
