//! What holds of every history of a session.

ghost use Rattle.yamux_session.specs.Limits.{RoomForOwn, RoomForTheOther};
ghost use Rattle.yamux_session.specs.Limits.{ExhaustedFirst, LiveLimit, NoSecondOpening, NoWrongOpening, UntakenLimit};
ghost use Rattle.yamux_session.specs.Acts.{OneRefusal};
ghost use Rattle.yamux_session.specs.Received.{ReceivedData, SomeSince};
ghost use Rattle.yamux_session.specs.Seen.{ActsDo, ActsMove, CreditIsTold, EventsTell};
ghost use Rattle.yamux_session.specs.Endings.{EndsAreLast, NotTold, OpenedAnew, OpenedByTheOther, OpeningsAreTold};
ghost use Rattle.yamux_session.specs.Joined.{AllBeforeTheEnd, Balance, BothGoOn, JoinedAreAnswered, NoFault};
ghost use Rattle.yamux_session.specs.Joined.{NothingIsLost, NothingStandsStill, SomeJoined};
ghost use Rattle.yamux_session.specs.OneOutcome.{OneOutcome};
ghost use Rattle.yamux_session.specs.Runs.{OneCall, RunIsLegal};
ghost use Rattle.yamux_session.specs.Tied.{ActGoesOn, FeedGoesOn, WantOfMemoryStops};
ghost use Rattle.yamux_session.specs.Rows.{WorkedRows};

/// The definitions give what the specification and this project's profile give, at worked histories.
pub fn worked_rows()
    ensures { WorkedRows }
{}

/// At most 256 streams of each end are live.
pub fn live_limit()
    ensures { LiveLimit }
{}

/// And so many may be: while fewer are, a SYN of the other end opens a stream, and this end may open one. A SYN for a
/// live stream opens none, and one for no stream of the other end neither, however many are live.
pub fn room_for_more()
    ensures the_other { RoomForTheOther }
    ensures own { RoomForOwn }
    ensures exhausted { ExhaustedFirst }
    ensures opened_once { NoSecondOpening }
    ensures own_numbers { NoWrongOpening }
{}

/// Of no stream more than a window has arrived and wasn't taken.
pub fn untaken_limit()
    ensures { UntakenLimit }
{}

/// While a session has no fault, the Payload events of a stream since its opening, joined, are the data that arrived
/// for it.
pub fn received_data()
    ensures data { ReceivedData }
    ensures since { SomeSince }
{}

/// What a feed told determines, of every stream, whether it is live, whether either direction has ended, what came
/// and what was sent.
pub fn events_tell()
    ensures { EventsTell }
{}

/// Credit, and what came and wasn't taken, change only where a feed told so.
pub fn credit_is_told()
    ensures { CreditIsTold }
{}

/// A stream was opened where an event tells so, and nowhere else; what arrives opens none with a number of this end.
pub fn openings_are_told()
    ensures told { OpeningsAreTold }
    ensures theirs { OpenedByTheOther }
    ensures anew { OpenedAnew }
{}

/// The end of a stream is told once since its opening, and no data behind it. Of a stream that isn't live, and isn't
/// opened, nothing is told.
pub fn ends_are_last()
    ensures once { EndsAreLast }
    ensures nothing_else { NotTold }
{}

/// What an act of this end's own changes of these.
pub fn acts_tell()
    ensures seen { ActsDo }
    ensures windows { ActsMove }
{}

/// Two sessions, one of each role, each fed what the other has sent, under any schedule: while a stream is live at both
/// ends, the reader's receiving window is the writer's credit and what is on its way.
pub fn balance()
    ensures { Balance }
{}

/// The histories of two such sessions have only calls that weren't refused where they were made.
pub fn joined_are_answered()
    ensures { JoinedAreAnswered }
{}

/// Two such sessions never meet a fault, and the data that arrived for a stream at one end is a prefix of what was let
/// through for it at the other.
pub fn no_fault()
    ensures { NoFault }
{}

/// Nothing is lost between them: a stream has all that was let through while it is live and nothing is on its way, and
/// once its end was told.
pub fn nothing_is_lost()
    ensures live { NothingIsLost }
    ensures ended { AllBeforeTheEnd }
{}

/// No stream stands still between them: while nothing is on its way, a stream that is live at both ends, of which all
/// that came was taken and whose end hasn't come, has more than half a window of credit.
pub fn nothing_stands_still()
    ensures { NothingStandsStill }
{}

/// Such sessions are: whatever was done and fed so far, what was sent can be fed and what isn't refused can be done.
/// One of them, with a byte on its way, is worked out.
pub fn they_go_on()
    ensures both_go_on { BothGoOn }
    ensures some_joined { SomeJoined }
{}

/// A session that stands at one of two joined ends stays joined: fed what the other end has sent it meets no fault, its
/// owner may make each call that is answered, and where it runs out of memory it has sent what an end has that read a
/// first part of those bytes. So what holds of joined ends holds of such sessions, also where one of them has failed
/// for want of memory and sends nothing more.
pub fn sessions_stay_joined()
    ensures feed { FeedGoesOn }
    ensures act { ActGoesOn }
    ensures memory { WantOfMemoryStops }
{}

/// The clause of a `feed` determines what it tells, but for how data is cut, whether the session has failed, and the
/// output.
pub fn one_outcome()
    ensures { OneOutcome }
{}

/// A call is refused for one reason: the first that there is, or want of memory where there is none.
pub fn one_refusal()
    ensures { OneRefusal }
{}

/// What a run that goes on has done: acts that this end might do, each where it was done, and arrivals without a fault.
pub fn run_is_legal()
    ensures { RunIsLegal }
{}

/// A call has one answer where a run has come to, but for how data is cut and for want of memory.
pub fn one_call()
    ensures { OneCall }
{}
