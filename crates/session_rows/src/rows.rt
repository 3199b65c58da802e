//! The worked rows of a session: what is done, and what must come of it.

use yamux_session::{ActRefused, Fault};

/// What an event tells, data byte by byte, so that it doesn't matter how Payload is cut.
#[derive(Clone, Copy, Debug, PartialEq, Eq)]
pub enum Told {
    Opened(u32),
    Accepted(u32),
    Data(u32, u8),
    Ended(u32),
    Reset(u32),
    Credit(u32),
    GoAway(u32),
    Failed(Fault),
}

/// An act of this end. What is written are zeros.
#[derive(Clone, Copy, Debug)]
pub enum Act {
    Start,
    Write(u32, usize),
    Take(u32, usize),
    Close(u32),
    Reset(u32),
    Leave(u32),
}

/// One step of a row, with its answer and the output that it adds.
#[derive(Clone, Copy)]
pub enum Step {
    /// These bytes are fed: what the events tell.
    Fed(&'static [u8], &'static [Told], &'static [u8]),
    /// So many zeros of data are fed, and all are handed out.
    Filled(usize),
    /// An act: its number (of the stream, or of bytes; else 0) or refusal, and the output.
    Acts(Act, Result<usize, ActRefused>, &'static [u8]),
    /// A write: how much is let through, and how long the output is.
    Writes(u32, usize, usize, usize),
    Credit(u32, Option<u32>),
    MidFrame(bool),
}

/// A row, with the name by which it is told where it isn't as said.
pub struct Row {
    pub name: &'static str,
    pub steps: &'static [Step],
}

/// One frame's part of a piece, with what it tells and sends, and an act of the owner behind it, with its answer and
/// the output that it adds.
#[derive(Clone, Copy)]
pub struct Turn {
    pub told: &'static [Told],
    pub sent: &'static [u8],
    pub act: Act,
    pub answer: Result<usize, ActRefused>,
    pub output: &'static [u8],
}

/// A row that is fed frame by frame: steps before it, the piece, and what comes of each of its parts in turn.
pub struct FrameRow {
    pub name: &'static str,
    pub before: &'static [Step],
    pub piece: &'static [u8],
    pub turns: &'static [Turn],
}

use Step::*;

/// The frames of the rows, as they stand on the wire.
pub const SYN_1: &[u8] = &[0, 1, 0, 1, 0, 0, 0, 1, 0, 0, 0, 0];

const SYN_3: &[u8] = &[0, 1, 0, 1, 0, 0, 0, 3, 0, 0, 0, 0];

const ACK_1: &[u8] = &[0, 1, 0, 2, 0, 0, 0, 1, 0, 0, 0, 0];

const FIN_1: &[u8] = &[0, 1, 0, 4, 0, 0, 0, 1, 0, 0, 0, 0];

const RST_1: &[u8] = &[0, 1, 0, 8, 0, 0, 0, 1, 0, 0, 0, 0];

const HALF_BACK_1: &[u8] = &[0, 1, 0, 0, 0, 0, 0, 1, 0, 2, 0, 0];

/// GoAway with code 0.
pub const LEAVING: &[u8] = &[0, 3, 0, 0, 0, 0, 0, 0, 0, 0, 0, 0];

/// A Ping with value 7.
pub const PING: &[u8] = &[0, 2, 0, 1, 0, 0, 0, 0, 0, 0, 0, 7];

/// Its answer.
pub const PING_ANSWERED: &[u8] = &[0, 2, 0, 2, 0, 0, 0, 0, 0, 0, 0, 7];

const PROTOCOL_ERROR: &[u8] = &[0, 3, 0, 0, 0, 0, 0, 0, 0, 0, 0, 1];

/// Opened twice in one piece: the answer to the first SYN stands before the end.
const OPENED_TWICE: &[Step] = &[Fed(
    &[
        0, 1, 0, 1, 0, 0, 0, 1, 0, 0, 0, 0, 0, 1, 0, 1, 0, 0, 0, 1, 0, 0, 0, 0,
    ],
    &[Told::Opened(1), Told::Failed(Fault::DuplicateStream)],
    &[
        0, 1, 0, 2, 0, 0, 0, 1, 0, 0, 0, 0, 0, 3, 0, 0, 0, 0, 0, 0, 0, 0, 0, 1,
    ],
)];

const ENDED_AND_OPENED_AGAIN: &[Step] = &[
    Fed(SYN_1, &[Told::Opened(1)], ACK_1),
    Acts(Act::Close(1), Ok(0), FIN_1),
    Acts(Act::Close(1), Err(ActRefused::Ended), &[]),
    Fed(
        &[
            0, 1, 0, 4, 0, 0, 0, 1, 0, 0, 0, 0, 0, 1, 0, 1, 0, 0, 0, 1, 0, 0, 0, 0,
        ],
        &[Told::Ended(1), Told::Opened(1)],
        ACK_1,
    ),
    Acts(Act::Write(3, 1), Err(ActRefused::NoStream), &[]),
];

const PING_AND_UNKNOWN_STREAM: &[Step] = &[
    Fed(PING, &[], PING_ANSWERED),
    Fed(&[0, 0, 0, 0, 0, 0, 0, 9, 0, 0, 0, 3, 97, 98, 99], &[], &[]),
    Fed(SYN_1, &[Told::Opened(1)], ACK_1),
    Fed(
        &[0, 0, 0, 0, 0, 0, 0, 1, 0, 0, 0, 2, 97, 98],
        &[Told::Data(1, 97), Told::Data(1, 98)],
        &[],
    ),
];

const FAULT_WITH_ITS_LAST_BYTE: &[Step] = &[
    MidFrame(false),
    Fed(&[0, 4, 0, 0, 0, 0, 0, 0, 0, 0, 0], &[], &[]),
    MidFrame(true),
    Fed(&[0], &[Told::Failed(Fault::BadFrame)], PROTOCOL_ERROR),
    MidFrame(false),
];

const CREDIT_AND_TOO_MUCH_OF_IT: &[Step] = &[
    Fed(
        &[0, 1, 0, 1, 0, 0, 0, 3, 0, 0, 0, 1],
        &[Told::Opened(3), Told::Credit(3)],
        &[0, 1, 0, 2, 0, 0, 0, 3, 0, 0, 0, 0],
    ),
    Fed(SYN_1, &[Told::Opened(1)], ACK_1),
    Fed(
        &[0, 1, 0, 0, 0, 0, 0, 1, 255, 251, 255, 255],
        &[Told::Credit(1)],
        &[],
    ),
    Credit(1, Some(4294967295)),
    Fed(
        &[0, 1, 0, 0, 0, 0, 0, 1, 0, 0, 0, 1],
        &[Told::Failed(Fault::WindowTooLarge)],
        PROTOCOL_ERROR,
    ),
];

const DATA_BEHIND_THE_END: &[Step] = &[
    Fed(SYN_1, &[Told::Opened(1)], ACK_1),
    Fed(FIN_1, &[Told::Ended(1)], &[]),
    Fed(FIN_1, &[], &[]),
    Fed(&[0, 0, 0, 0, 0, 0, 0, 1, 0, 0, 0, 3, 1, 2, 3], &[], &[]),
    Credit(1, Some(262144)),
    Acts(Act::Close(1), Ok(0), FIN_1),
    Acts(Act::Write(1, 1), Err(ActRefused::NoStream), &[]),
    Credit(1, None),
];

/// Behind the end of the other direction the owner still takes what came, and may reset.
const TAKEN_AND_RESET_BEHIND_THE_END: &[Step] = &[
    Fed(SYN_1, &[Told::Opened(1)], ACK_1),
    Fed(ONE_BYTE, &[Told::Data(1, 97)], &[]),
    Fed(FIN_1, &[Told::Ended(1)], &[]),
    Acts(Act::Take(1, 1), Ok(0), &[]),
    Acts(Act::Reset(1), Ok(0), RST_1),
];

/// The other end may go away with any code.
const GONE_AWAY_WITH_A_CODE: &[Step] = &[
    Fed(
        &[0, 3, 0, 0, 0, 0, 0, 0, 255, 255, 255, 255],
        &[Told::GoAway(4294967295)],
        &[],
    ),
    Acts(Act::Start, Err(ActRefused::GoneAway), &[]),
];

const RESET_BEHIND_THE_END: &[Step] = &[
    Fed(SYN_1, &[Told::Opened(1)], ACK_1),
    Fed(FIN_1, &[Told::Ended(1)], &[]),
    Fed(
        &[0, 0, 0, 8, 0, 0, 0, 1, 0, 0, 0, 0],
        &[Told::Reset(1)],
        &[],
    ),
    Credit(1, None),
];

const MORE_THAN_THE_WINDOW: &[Step] = &[
    Fed(SYN_1, &[Told::Opened(1)], ACK_1),
    Fed(&[0, 0, 0, 0, 0, 0, 0, 1, 0, 4, 0, 0], &[], &[]),
    MidFrame(true),
    Filled(262144),
    MidFrame(false),
    Fed(
        &[0, 0, 0, 0, 0, 0, 0, 1, 0, 0, 0, 1],
        &[Told::Failed(Fault::WindowExceeded)],
        PROTOCOL_ERROR,
    ),
];

const GIVEN_BACK_FROM_HALF: &[Step] = &[
    Fed(SYN_1, &[Told::Opened(1)], ACK_1),
    Fed(&[0, 0, 0, 0, 0, 0, 0, 1, 0, 4, 0, 0], &[], &[]),
    Filled(262144),
    Acts(Act::Take(1, 131071), Ok(0), &[]),
    Acts(Act::Take(1, 1), Ok(0), HALF_BACK_1),
    Acts(Act::Take(1, 999999), Ok(0), HALF_BACK_1),
];

const ONE_BYTE: &[u8] = &[0, 0, 0, 0, 0, 0, 0, 1, 0, 0, 0, 1, 97];

/// A refusal leaves a session that takes what comes, and whose owner goes on.
const REFUSED_AND_GOES_ON: &[Step] = &[
    Acts(Act::Write(1, 1), Err(ActRefused::NoStream), &[]),
    Fed(PING, &[], PING_ANSWERED),
    Acts(Act::Take(1, 1), Err(ActRefused::NoStream), &[]),
    Fed(PING, &[], PING_ANSWERED),
    Acts(Act::Reset(1), Err(ActRefused::NoStream), &[]),
    Fed(PING, &[], PING_ANSWERED),
    Acts(Act::Close(1), Err(ActRefused::NoStream), &[]),
    Fed(SYN_1, &[Told::Opened(1)], ACK_1),
    Acts(Act::Close(1), Ok(0), FIN_1),
    Acts(Act::Write(1, 1), Err(ActRefused::Ended), &[]),
    Fed(ONE_BYTE, &[Told::Data(1, 97)], &[]),
    Acts(Act::Close(1), Err(ActRefused::Ended), &[]),
    Fed(ONE_BYTE, &[Told::Data(1, 97)], &[]),
    Fed(LEAVING, &[Told::GoAway(0)], &[]),
    Acts(Act::Start, Err(ActRefused::GoneAway), &[]),
    Fed(ONE_BYTE, &[Told::Data(1, 97)], &[]),
    Acts(Act::Take(1, 3), Ok(0), &[]),
    Acts(Act::Reset(1), Ok(0), RST_1),
];

/// Streams of high numbers are closed and reset as any.
const HIGH_NUMBERS: &[Step] = &[
    Fed(
        &[0, 1, 0, 1, 0, 0, 1, 255, 0, 0, 0, 0],
        &[Told::Opened(511)],
        &[0, 1, 0, 2, 0, 0, 1, 255, 0, 0, 0, 0],
    ),
    Fed(
        &[0, 1, 0, 1, 128, 0, 0, 1, 0, 0, 0, 0],
        &[Told::Opened(2147483649)],
        &[0, 1, 0, 2, 128, 0, 0, 1, 0, 0, 0, 0],
    ),
    Acts(
        Act::Close(511),
        Ok(0),
        &[0, 1, 0, 4, 0, 0, 1, 255, 0, 0, 0, 0],
    ),
    Acts(
        Act::Close(2147483649),
        Ok(0),
        &[0, 1, 0, 4, 128, 0, 0, 1, 0, 0, 0, 0],
    ),
    Acts(
        Act::Reset(2147483649),
        Ok(0),
        &[0, 1, 0, 8, 128, 0, 0, 1, 0, 0, 0, 0],
    ),
    Acts(
        Act::Reset(511),
        Ok(0),
        &[0, 1, 0, 8, 0, 0, 1, 255, 0, 0, 0, 0],
    ),
    Acts(Act::Close(511), Err(ActRefused::NoStream), &[]),
];

/// Streams whose numbers are alike but for one byte are different streams.
const NUMBERS_ALIKE: &[Step] = &[
    Fed(
        &[0, 1, 0, 1, 0, 0, 0, 1, 0, 0, 0, 0],
        &[Told::Opened(1)],
        &[0, 1, 0, 2, 0, 0, 0, 1, 0, 0, 0, 0],
    ),
    Fed(
        &[0, 1, 0, 1, 0, 0, 1, 1, 0, 0, 0, 0],
        &[Told::Opened(257)],
        &[0, 1, 0, 2, 0, 0, 1, 1, 0, 0, 0, 0],
    ),
    Fed(
        &[0, 1, 0, 1, 0, 1, 0, 1, 0, 0, 0, 0],
        &[Told::Opened(65537)],
        &[0, 1, 0, 2, 0, 1, 0, 1, 0, 0, 0, 0],
    ),
    Fed(
        &[0, 1, 0, 1, 1, 0, 0, 1, 0, 0, 0, 0],
        &[Told::Opened(16777217)],
        &[0, 1, 0, 2, 1, 0, 0, 1, 0, 0, 0, 0],
    ),
    Fed(
        &[0, 1, 0, 0, 0, 0, 0, 1, 0, 0, 0, 1],
        &[Told::Credit(1)],
        &[],
    ),
    Fed(
        &[0, 1, 0, 0, 0, 0, 1, 1, 0, 0, 0, 6],
        &[Told::Credit(257)],
        &[],
    ),
    Fed(
        &[0, 1, 0, 0, 0, 1, 0, 1, 0, 0, 0, 26],
        &[Told::Credit(65537)],
        &[],
    ),
    Fed(
        &[0, 1, 0, 0, 1, 0, 0, 1, 0, 0, 0, 126],
        &[Told::Credit(16777217)],
        &[],
    ),
    Credit(1, Some(262145)),
    Credit(257, Some(262150)),
    Credit(65537, Some(262170)),
    Credit(16777217, Some(262270)),
    Acts(
        Act::Reset(257),
        Ok(0),
        &[0, 1, 0, 8, 0, 0, 1, 1, 0, 0, 0, 0],
    ),
    Credit(257, None),
    Credit(1, Some(262145)),
    Acts(
        Act::Close(65537),
        Ok(0),
        &[0, 1, 0, 4, 0, 1, 0, 1, 0, 0, 0, 0],
    ),
    Fed(FIN_1, &[Told::Ended(1)], &[]),
    Credit(65537, None),
    Credit(1, Some(262145)),
    Acts(Act::Close(1), Ok(0), FIN_1),
    Credit(1, None),
    Fed(
        &[0, 1, 0, 4, 1, 0, 0, 1, 0, 0, 0, 0],
        &[Told::Ended(16777217)],
        &[],
    ),
];

/// A stream of a high number ends once both ends have closed it.
const HIGH_NUMBER_ENDS: &[Step] = &[
    Fed(
        &[0, 1, 0, 5, 255, 255, 255, 255, 0, 0, 0, 0],
        &[Told::Opened(4294967295), Told::Ended(4294967295)],
        &[0, 1, 0, 2, 255, 255, 255, 255, 0, 0, 0, 0],
    ),
    Acts(
        Act::Close(4294967295),
        Ok(0),
        &[0, 1, 0, 4, 255, 255, 255, 255, 0, 0, 0, 0],
    ),
    Credit(4294967295, None),
];

/// A RST with a length is credit first.
const RESET_WITH_A_LENGTH: &[Step] = &[
    Fed(SYN_1, &[Told::Opened(1)], ACK_1),
    Fed(
        &[0, 1, 0, 8, 0, 0, 0, 1, 0, 0, 0, 5],
        &[Told::Credit(1), Told::Reset(1)],
        &[],
    ),
];

/// Any code can be left with.
const LEAVES_WITH_CODES: &[Step] = &[
    Acts(Act::Leave(1), Ok(0), &[0, 3, 0, 0, 0, 0, 0, 0, 0, 0, 0, 1]),
    Acts(
        Act::Leave(258),
        Ok(0),
        &[0, 3, 0, 0, 0, 0, 0, 0, 0, 0, 1, 2],
    ),
    Acts(
        Act::Leave(4294967295),
        Ok(0),
        &[0, 3, 0, 0, 0, 0, 0, 0, 255, 255, 255, 255],
    ),
    Fed(SYN_1, &[], &[0, 1, 0, 8, 0, 0, 0, 1, 0, 0, 0, 0]),
];

/// A fault behind this end's GoAway sends one more, whose code says why.
const FAULT_BEHIND_LEAVING: &[Step] = &[
    Acts(Act::Leave(0), Ok(0), LEAVING),
    Fed(
        &[0, 4, 0, 0, 0, 0, 0, 0, 0, 0, 0, 0],
        &[Told::Failed(Fault::BadFrame)],
        PROTOCOL_ERROR,
    ),
];

/// Behind the other end's GoAway its Ping is answered, and its stream accepted.
const ANSWERED_BEHIND_GOING_AWAY: &[Step] = &[
    Fed(LEAVING, &[Told::GoAway(0)], &[]),
    Fed(PING, &[], PING_ANSWERED),
    Fed(SYN_1, &[Told::Opened(1)], ACK_1),
];

/// What is still to come of a payload isn't taken, so it isn't given back.
const TAKEN_BEFORE_IT_COMES: &[Step] = &[
    Fed(SYN_1, &[Told::Opened(1)], ACK_1),
    Fed(&[0, 0, 0, 0, 0, 0, 0, 1, 0, 4, 0, 0], &[], &[]),
    Acts(Act::Take(1, 262144), Ok(0), &[]),
    Filled(262144),
    Acts(Act::Take(1, 131072), Ok(0), HALF_BACK_1),
];

/// Behind this end's close credit is told, and a reset as a reset.
const RESET_BEHIND_THE_CLOSE: &[Step] = &[
    Fed(SYN_1, &[Told::Opened(1)], ACK_1),
    Acts(Act::Close(1), Ok(0), FIN_1),
    Fed(
        &[0, 1, 0, 0, 0, 0, 0, 1, 0, 0, 0, 5],
        &[Told::Credit(1)],
        &[],
    ),
    Fed(RST_1, &[Told::Reset(1)], &[]),
];

/// This end goes away behind the other end too, and then takes no stream of it.
const LEAVES_BEHIND_GOING_AWAY: &[Step] = &[
    Fed(LEAVING, &[Told::GoAway(0)], &[]),
    Acts(Act::Leave(0), Ok(0), LEAVING),
    Fed(SYN_1, &[], RST_1),
];

/// The rows of a server.
const OPENINGS: &[Row] = &[
    Row {
        name: "opened twice",
        steps: OPENED_TWICE,
    },
    Row {
        name: "ended and opened again",
        steps: ENDED_AND_OPENED_AGAIN,
    },
    Row {
        name: "ping and unknown stream",
        steps: PING_AND_UNKNOWN_STREAM,
    },
    Row {
        name: "fault with its last byte",
        steps: FAULT_WITH_ITS_LAST_BYTE,
    },
];

const ENDS: &[Row] = &[
    Row {
        name: "credit and too much of it",
        steps: CREDIT_AND_TOO_MUCH_OF_IT,
    },
    Row {
        name: "data behind the end",
        steps: DATA_BEHIND_THE_END,
    },
    Row {
        name: "reset behind the end",
        steps: RESET_BEHIND_THE_END,
    },
    Row {
        name: "taken and reset behind the end",
        steps: TAKEN_AND_RESET_BEHIND_THE_END,
    },
    Row {
        name: "gone away with a code",
        steps: GONE_AWAY_WITH_A_CODE,
    },
];

const WINDOWS: &[Row] = &[
    Row {
        name: "more than the window",
        steps: MORE_THAN_THE_WINDOW,
    },
    Row {
        name: "given back from half",
        steps: GIVEN_BACK_FROM_HALF,
    },
    Row {
        name: "refused and goes on",
        steps: REFUSED_AND_GOES_ON,
    },
];

const NUMBERS: &[Row] = &[
    Row {
        name: "high numbers",
        steps: HIGH_NUMBERS,
    },
    Row {
        name: "numbers alike",
        steps: NUMBERS_ALIKE,
    },
    Row {
        name: "high number ends",
        steps: HIGH_NUMBER_ENDS,
    },
];

const LEAVES: &[Row] = &[
    Row {
        name: "reset with a length",
        steps: RESET_WITH_A_LENGTH,
    },
    Row {
        name: "leaves with codes",
        steps: LEAVES_WITH_CODES,
    },
    Row {
        name: "fault behind leaving",
        steps: FAULT_BEHIND_LEAVING,
    },
    Row {
        name: "taken before it comes",
        steps: TAKEN_BEFORE_IT_COMES,
    },
    Row {
        name: "reset behind the close",
        steps: RESET_BEHIND_THE_CLOSE,
    },
    Row {
        name: "answered behind going away",
        steps: ANSWERED_BEHIND_GOING_AWAY,
    },
    Row {
        name: "leaves behind going away",
        steps: LEAVES_BEHIND_GOING_AWAY,
    },
];

const WRONG_PARITY: &[Step] = &[
    Fed(SYN_1, &[Told::Failed(Fault::WrongParity)], PROTOCOL_ERROR),
    Acts(Act::Start, Err(ActRefused::Failed), &[]),
    Credit(1, None),
];

const WRITES_AND_LEAVES: &[Step] = &[
    Acts(Act::Start, Ok(1), SYN_1),
    Acts(
        Act::Write(1, 2),
        Ok(2),
        &[0, 0, 0, 0, 0, 0, 0, 1, 0, 0, 0, 2, 0, 0],
    ),
    Writes(1, 16383, 16383, 16395),
    Writes(1, 262145, 245759, 245939),
    Acts(Act::Write(1, 5), Ok(0), &[]),
    Acts(Act::Reset(1), Ok(0), RST_1),
    Acts(Act::Reset(1), Err(ActRefused::NoStream), &[]),
    Acts(Act::Start, Ok(3), SYN_3),
    Acts(Act::Leave(0), Ok(0), LEAVING),
];

const ACCEPTED_ONCE: &[Step] = &[
    Acts(Act::Start, Ok(1), SYN_1),
    Fed(ACK_1, &[Told::Accepted(1)], &[]),
    Fed(ACK_1, &[], &[]),
    Fed(LEAVING, &[Told::GoAway(0)], &[]),
    Acts(Act::Start, Err(ActRefused::GoneAway), &[]),
    Writes(1, 1, 1, 13),
];

/// Data accepts too.
const ACCEPTED_BY_DATA: &[Step] = &[
    Acts(Act::Start, Ok(1), SYN_1),
    Fed(
        &[0, 0, 0, 2, 0, 0, 0, 1, 0, 0, 0, 1, 97],
        &[Told::Accepted(1), Told::Data(1, 97)],
        &[],
    ),
];

/// A peer may send ACK late or never: before it this end gives back, closes, and hears the end.
const GOES_ON_BEFORE_ITS_ACK: &[Step] = &[
    Acts(Act::Start, Ok(1), SYN_1),
    Fed(&[0, 0, 0, 0, 0, 0, 0, 1, 0, 4, 0, 0], &[], &[]),
    Filled(262144),
    Acts(Act::Take(1, 131072), Ok(0), HALF_BACK_1),
    Acts(Act::Close(1), Ok(0), FIN_1),
    Acts(Act::Take(1, 131072), Ok(0), HALF_BACK_1),
    Fed(FIN_1, &[Told::Ended(1)], &[]),
    Credit(1, None),
    Fed(ACK_1, &[], &[]),
];

/// The rows of a client.
const CLIENT: &[Row] = &[
    Row {
        name: "wrong parity",
        steps: WRONG_PARITY,
    },
    Row {
        name: "writes and leaves",
        steps: WRITES_AND_LEAVES,
    },
    Row {
        name: "accepted once",
        steps: ACCEPTED_ONCE,
    },
    Row {
        name: "accepted by data",
        steps: ACCEPTED_BY_DATA,
    },
    Row {
        name: "goes on before its ACK",
        steps: GOES_ON_BEFORE_ITS_ACK,
    },
];

/// The output of a byte 0 that is written on stream 1.
const ZERO_1: &[u8] = &[0, 0, 0, 0, 0, 0, 0, 1, 0, 0, 0, 1, 0];

/// What is written while the reset is still to be handled reaches no later opening.
const RESET_AND_OPENED_AGAIN: &[Turn] = &[
    Turn {
        told: &[Told::Opened(1)],
        sent: ACK_1,
        act: Act::Write(1, 1),
        answer: Ok(1),
        output: ZERO_1,
    },
    Turn {
        told: &[Told::Reset(1)],
        sent: &[],
        act: Act::Write(1, 1),
        answer: Err(ActRefused::NoStream),
        output: &[],
    },
    Turn {
        told: &[Told::Opened(1)],
        sent: ACK_1,
        act: Act::Write(1, 1),
        answer: Ok(1),
        output: ZERO_1,
    },
];

/// The same where the stream ends behind this end's close.
const CLOSED_ENDED_AND_OPENED_AGAIN: &[Turn] = &[
    Turn {
        told: &[Told::Ended(1)],
        sent: &[],
        act: Act::Write(1, 1),
        answer: Err(ActRefused::NoStream),
        output: &[],
    },
    Turn {
        told: &[Told::Opened(1)],
        sent: ACK_1,
        act: Act::Write(1, 1),
        answer: Ok(1),
        output: ZERO_1,
    },
];

/// A header and its payload are two parts. What is reset between them is not told.
const RESET_BEFORE_ITS_PAYLOAD: &[Turn] = &[
    Turn {
        told: &[Told::Opened(1)],
        sent: ACK_1,
        act: Act::Take(1, 0),
        answer: Ok(0),
        output: &[],
    },
    Turn {
        told: &[],
        sent: &[],
        act: Act::Write(1, 1),
        answer: Ok(1),
        output: ZERO_1,
    },
    Turn {
        told: &[Told::Data(1, 97), Told::Data(1, 98)],
        sent: &[],
        act: Act::Take(1, 2),
        answer: Ok(0),
        output: &[],
    },
    Turn {
        told: &[],
        sent: &[],
        act: Act::Reset(1),
        answer: Ok(0),
        output: RST_1,
    },
    Turn {
        told: &[],
        sent: &[],
        act: Act::Take(1, 1),
        answer: Err(ActRefused::NoStream),
        output: &[],
    },
    Turn {
        told: &[Told::Opened(1)],
        sent: ACK_1,
        act: Act::Take(1, 0),
        answer: Ok(0),
        output: &[],
    },
];

/// The rows of a server that are fed frame by frame.
pub const FRAMES: &[FrameRow] = &[
    FrameRow {
        name: "reset and opened again",
        before: &[],
        piece: &[
            0, 1, 0, 1, 0, 0, 0, 1, 0, 0, 0, 0, 0, 1, 0, 8, 0, 0, 0, 1, 0, 0, 0, 0, 0, 1, 0, 1, 0,
            0, 0, 1, 0, 0, 0, 0,
        ],
        turns: RESET_AND_OPENED_AGAIN,
    },
    FrameRow {
        name: "closed, ended and opened again",
        before: &[
            Fed(SYN_1, &[Told::Opened(1)], ACK_1),
            Acts(Act::Close(1), Ok(0), FIN_1),
        ],
        piece: &[
            0, 1, 0, 4, 0, 0, 0, 1, 0, 0, 0, 0, 0, 1, 0, 1, 0, 0, 0, 1, 0, 0, 0, 0,
        ],
        turns: CLOSED_ENDED_AND_OPENED_AGAIN,
    },
    FrameRow {
        name: "reset before its payload",
        before: &[],
        piece: &[
            0, 1, 0, 1, 0, 0, 0, 1, 0, 0, 0, 0, 0, 0, 0, 0, 0, 0, 0, 1, 0, 0, 0, 2, 97, 98, 0, 0,
            0, 4, 0, 0, 0, 1, 0, 0, 0, 1, 99, 0, 1, 0, 1, 0, 0, 0, 1, 0, 0, 0, 0,
        ],
        turns: RESET_BEFORE_ITS_PAYLOAD,
    },
];

// Each list has a function of its own: a proof costs by more than the square of how many slices its function names.

/// The rows of a server: openings, pings and unknown streams.
pub fn openings() -> &'static [Row] {
    OPENINGS
}

/// The rows of a server: what comes and is done behind an end.
pub fn ends() -> &'static [Row] {
    ENDS
}

/// The rows of a server: windows, and of acts that are refused.
pub fn windows() -> &'static [Row] {
    WINDOWS
}

/// The rows of a server: numbers of streams.
pub fn numbers() -> &'static [Row] {
    NUMBERS
}

/// The rows of a server: resets, and of either end that goes away.
pub fn leaves() -> &'static [Row] {
    LEAVES
}

/// The rows of a client.
pub fn client() -> &'static [Row] {
    CLIENT
}
