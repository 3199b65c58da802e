//! Serving a stream of a session.

ghost use Rattle.std.specs.Prelude.{◌≡◌, ◌≢◌, ◌||◌, ℕ, ◌-◌, ◌<◌, true, false, List, length};
ghost use Rattle.std.specs.Prelude.{Option, Some, None, Ok, Err, IfOk, IfErr, IfSome, OnOk, OnErr, IsOk};
ghost use Rattle.yamux_session.specs.declared.event.Role.{Role};
ghost use Rattle.yamux_session.specs.History.{Item};
ghost use Rattle.yamux_session.specs.Acts.{open_credit};
ghost use Rattle.yamux_session.specs.Data.{written};
ghost use Rattle.yamux_session.specs.State.{Stands as SessionStands, Whenever};
ghost use Rattle.streams.specs.declared.stage.Stage.TheVariants.{Over};
ghost use Rattle.streams.specs.Streams.{Past};
ghost use Rattle.streams.specs.State.{Stands, Answered, Served, is_over, kind_of};
ghost use Rattle.serving.specs.Served.{Asking, Serves, GivesUp, MayGrow, WasAnswered};
ghost use Rattle.serving.specs.Wanting.{AskingRunsOut, RunsOut};
ghost use Rattle.serving.specs.Steps.{Sends, WasAsked, Closes, Counts, CloseRunsOut, CountRunsOut};

use handlers::Handler;
use streams::{Stop, Stream};
use yamux_session::laws::{acts_tell, untaken_limit};
use yamux_session::{ActRefused, Session};

/// Asks a stream for as many bytes as there is credit, and writes what it gives, if anything. Answers whether it did.
fn send<H: Handler>(
    session: &mut Session,
    number: u32,
    stream: &mut Stream<H>,
    credit: u32,
) -> Result<bool, Stop>
    ensures sends { (role : Role) (past : List Item) (fed sent : List ℕ) (so_far : Past H)
        → SessionStands role past fed sent session.old → open_credit role past number ≡ Some credit
        → Stands H.steps stream.old so_far → OnOk result
        (Asking H.steps H.is_closed role past number stream.old stream.new so_far (λ now.
        Sends H.steps H.is_closed role past fed sent number credit now session.new stream.new)) }
    ensures silent { IfOk result (λ wrote. wrote ≡ false → session.new ≡ session.old) }
    ensures fault { IfErr result (λ stop. stop ≢ Stop.OutOfMemory → (session.new ≡ session.old)
        × ((stream.new ≡ record stream.old { stage = Over }) × GivesUp H.fails H.is_closed stream.old credit stop)) }
    ensures kind { OnOk result (kind_of stream.new.stage ≡ kind_of stream.old.stage) }
    ensures answered { OnOk result
        (Answered H.steps H.is_closed stream.old.stage (credit - length stream.old.waiting)) }
    ensures memory { result ≡ Err Stop.OutOfMemory
        → Answered H.steps H.is_closed stream.old.stage (credit - length stream.old.waiting) }
    ensures runs_out { (role : Role) (past : List Item) (fed sent : List ℕ) (so_far : Past H)
        → SessionStands role past fed sent session.old → open_credit role past number ≡ Some credit
        → Stands H.steps stream.old so_far → result ≡ Err Stop.OutOfMemory
        → AskingRunsOut H.steps role past number H.is_closed so_far stream.old session.old session.new stream.new }
{
    let bytes = stream.give(credit as usize)?;
    if bytes.is_empty() {
        return Ok(false);
    }
    match session.write(number, &bytes) {
        Ok(_) => Ok(true),
        Err(_) => Err(Stop::OutOfMemory),
    }
}

/// Asks a stream for as many bytes as there is credit, and writes them, where this end's direction is open. It answers
/// whether it is sure that the credit isn't used up.
fn ask<H: Handler>(session: &mut Session, number: u32, stream: &mut Stream<H>) -> Result<bool, Stop>
    ensures asks { (role : Role) (past : List Item) (fed sent : List ℕ) (so_far : Past H)
        → SessionStands role past fed sent session.old → Stands H.steps stream.old so_far
        → so_far.sent ≡ written role past number → OnOk result
        (Asking H.steps H.is_closed role past number stream.old stream.new so_far (λ now.
        WasAsked H.steps H.is_closed H.is_finished stream.old.stage role past fed sent number now
        session.new stream.new)) }
    ensures left { IfOk result (λ is_left. is_left ≡ true
        → Whenever session.new (λ role past. open_credit role past number ≢ Some 0)) }
    ensures kind { OnOk result (kind_of stream.new.stage ≡ kind_of stream.old.stage) }
    ensures kept { Whenever session.old (λ role past. open_credit role past number ≡ None
        → IsOk result × (session.new ≡ session.old)) }
    ensures fault { IfErr result (λ stop. stop ≢ Stop.OutOfMemory → (session.new ≡ session.old)
        × ((stream.new ≡ record stream.old { stage = Over }) × Whenever session.old (λ role past.
        (credit : ℕ) × (open_credit role past number ≡ Some credit)
        × GivesUp H.fails H.is_closed stream.old credit stop))) }
    ensures answered { OnOk result (Whenever session.old (λ role past.
        WasAnswered H.steps H.is_closed role past number stream.old)) }
    ensures memory { result ≡ Err Stop.OutOfMemory → Whenever session.old (λ role past.
        WasAnswered H.steps H.is_closed role past number stream.old) }
    ensures runs_out { (role : Role) (past : List Item) (fed sent : List ℕ) (so_far : Past H)
        → SessionStands role past fed sent session.old → Stands H.steps stream.old so_far
        → result ≡ Err Stop.OutOfMemory
        → AskingRunsOut H.steps role past number H.is_closed so_far stream.old session.old session.new stream.new }
{
    acts_tell();
    let Some(credit) = session.credit(number) else {
        return Ok(true);
    };
    match send(session, number, stream, credit) {
        Ok(true) => Ok(false),
        Ok(false) => Ok(credit > 0),
        Err(stop) => Err(stop),
    }
}

/// Closes this end's direction, where it is open and the stream gives no more.
fn close(session: &mut Session, number: u32, over: bool) -> Result<(), Stop>
    ensures closes { (role : Role) (past : List Item) (fed sent : List ℕ) → SessionStands role past fed sent session.old
        → OnOk result (Closes role past fed sent number over session.old session.new) }
    ensures kept { Whenever session.old (λ role past. open_credit role past number ≡ None
        → IsOk result × (session.new ≡ session.old)) }
    ensures memory { IfErr result (λ stop. stop ≡ Stop.OutOfMemory) }
    ensures runs_out { OnErr result (Whenever session.old (λ role past.
        CloseRunsOut role past number over session.old session.new)) }
{
    if !over {
        return Ok(());
    }
    let Some(_) = session.credit(number) else {
        return Ok(());
    };
    match session.close(number) {
        Ok(()) => Ok(()),
        Err(_) => Err(Stop::OutOfMemory),
    }
}

/// Whether what came may be counted as taken: unless this direction is open and its credit is used up.
fn may_take(session: &Session, number: u32) -> bool
    ensures due { Whenever session.now (λ role past. result ≡ true → open_credit role past number ≢ Some 0) }
    ensures not_due { Whenever session.now (λ role past. result ≡ false → open_credit role past number ≡ Some 0) }
{
    match session.credit(number) {
        Some(credit) => credit > 0,
        None => true,
    }
}

/// A stream that isn't live takes nothing, and that is no fault.
fn unless_gone(refused: ActRefused) -> Result<(), Stop>
    ensures gone { OnOk result (refused ≡ ActRefused.NoStream) }
    ensures why { IfErr result (λ stop. (stop ≡ Stop.OutOfMemory) × (refused ≢ ActRefused.NoStream)) }
{
    match refused {
        ActRefused::NoStream => Ok(()),
        _ => Err(Stop::OutOfMemory),
    }
}

/// Counts all that came of a stream as taken, unless its credit is used up. Where it is known to be left it isn't
/// looked up.
fn count_taken(session: &mut Session, number: u32, is_left: bool) -> Result<(), Stop>
    ensures counts { (role : Role) (past : List Item) (fed sent : List ℕ) → SessionStands role past fed sent session.old
        → (is_left ≡ true → open_credit role past number ≢ Some 0)
        → OnOk result (Counts role past fed sent number session.old session.new) }
    ensures memory { IfErr result (λ stop. (stop ≡ Stop.OutOfMemory)
        × Whenever session.old (λ role past. MayGrow role past number)) }
    ensures runs_out { OnErr result (Whenever session.old (λ role past.
        (is_left ≡ true → open_credit role past number ≢ Some 0)
        → CountRunsOut role past number session.old session.new)) }
{
    untaken_limit();
    if !is_left && !may_take(session, number) {
        return Ok(());
    }
    match session.taken(number, usize::MAX) {
        Ok(()) => Ok(()),
        Err(refused) => unless_gone(refused),
    }
}

/// Serves a stream of a session: its handler is asked for as many bytes as there is credit, what is given is written, a
/// handler that is finished is handed out, this end's direction is closed where no more is given, and what came is
/// counted as taken, unless the credit is used up. It is called once data or its end was handed to the stream, and
/// whenever the credit has grown.
///
/// A handler that gives up leaves the session as it was; the stream is over then. Where the session has failed, or the
/// stream is over, nothing is done.
pub fn serve<H: Handler>(
    session: &mut Session,
    number: u32,
    stream: &mut Stream<H>,
) -> Result<Option<H>, Stop>
    ensures serves { (role : Role) (past : List Item) (fed sent : List ℕ) (so_far : Past H)
        → SessionStands role past fed sent session.old → Stands H.steps stream.old so_far
        → so_far.sent ≡ written role past number → IfOk result (λ handler.
        Asking H.steps H.is_closed role past number stream.old stream.new so_far (λ now.
        Serves H.steps H.is_closed H.is_finished stream.old.stage role past fed sent number now
        handler session.new stream.new)) }
    // A stream is done only with its handler handed out, which served it.
    ensures kind { result ≡ Ok None → kind_of stream.new.stage ≡ kind_of stream.old.stage }
    ensures served { IfOk result (λ handler. IfSome handler (λ it. kind_of stream.old.stage ≡ Served)) }
    ensures fault { IfErr result (λ stop. stop ≢ Stop.OutOfMemory → (session.new ≡ session.old)
        × ((stream.new ≡ record stream.old { stage = Over }) × Whenever session.old (λ role past.
        (credit : ℕ) × (open_credit role past number ≡ Some credit)
        × GivesUp H.fails H.is_closed stream.old credit stop))) }
    ensures memory { result ≡ Err Stop.OutOfMemory → Whenever session.old (λ role past. MayGrow role past number) }
    // So want of memory stands for no fault of the handler: it has answered.
    ensures answered { result ≡ Err Stop.OutOfMemory → Whenever session.old (λ role past.
        WasAnswered H.steps H.is_closed role past number stream.old) }
    // It says what was done until then, and for what memory is wanting.
    ensures runs_out { (role : Role) (past : List Item) (fed sent : List ℕ) (so_far : Past H)
        → SessionStands role past fed sent session.old → Stands H.steps stream.old so_far
        → so_far.sent ≡ written role past number → result ≡ Err Stop.OutOfMemory
        → RunsOut H.steps H.is_closed H.is_finished stream.old.stage role past fed sent number
        so_far stream.old session.old session.new stream.new }
    ensures idle { session.old.failed || is_over stream.old.stage ≡ true
        → (result ≡ Ok None) × (session.new ≡ session.old) × (stream.new ≡ stream.old) }
{
    if session.has_failed() || stream.is_over() {
        return Ok(None);
    }
    acts_tell();
    let is_left = ask(session, number, stream)?;
    let handler = stream.finish();
    close(session, number, stream.closed())?;
    count_taken(session, number, is_left)?;
    Ok(handler)
}
