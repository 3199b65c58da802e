//! A stream.

ghost use Rattle.std.specs.Prelude.{◌≡◌, ◌≢◌, ◌⊎◌, ◌↔◌, ℕ, ◌-◌, ◌<◌, ◌≤◌};
ghost use Rattle.std.specs.Prelude.{◌==◌, nat_lt, ◌&&◌, List, [], ◌∷◌, ◌++◌, length, map, take, drop};
ghost use Rattle.std.specs.Prelude.{true, false, Option, Some, None, Ok, Err};
ghost use Rattle.std.specs.Prelude.{IfOk, IfErr, IfSome, IfNone, OnOk, OnErr, IsOk};
ghost use Rattle.std.specs.List.{All};
ghost use Rattle.ms_select.specs.Messages.{header, spelled};
ghost use Rattle.ms_select.specs.Listening.{IsName};
ghost use Rattle.handlers.specs.Calls.{Take, End, Give, ToTake, ToEnd, ToGive};
ghost use Rattle.talks.specs.Talks.{Asks, Answers};
ghost use Rattle.talks.specs.State.{Stands as TalkStands};
ghost use Rattle.streams.specs.Streams.{Past, IsEarly, fresh, with_call};
ghost use Rattle.streams.specs.Stops.{FailsBy, not_now};
ghost use Rattle.streams.specs.State.{Stands, is_talking, awaits_handler, answering};
ghost use Rattle.streams.specs.State.{handler_of, holds_handler, is_open, has_closed, has_finished, was_handed_out};
ghost use Rattle.streams.specs.State.{is_over, kind_of, Answered};
ghost use Rattle.streams.specs.Giving.{StageGives};
ghost use Rattle.streams.specs.Hearing.{HasHeard, Moves, RunsOut, used_of};

use crate::heard::Heard;
use crate::stage::{Stage, stage_behind};
use crate::stop::{Cause, Stop};
use crate::talking::{drop_front, front_of, hear_talk, joined};
use handlers::Handler;
use ms_select::{Answer, SelectFault};
use std::alloc::Global;
use std::marker::Model;
use std::mem;
use talks::Talk;

/// A stream of a connection: a talk, then a handler, and what the talk wrote and isn't given out. An error ends it, and
/// drops its handler, but for that of a call out of turn; what waits stays.
pub struct Stream<H: Handler> {
    waiting: Vec<u8>,
    stage: Stage<H>,
    alloc: Global,
}

// By hand, so that the proof of who lets go of it is that of a call, and not of all that it holds.
impl<H: Handler> Drop for Stream<H> {
    fn drop(self) {
        let Self {
            waiting: _waiting,
            stage: _stage,
            alloc: _,
        } = self;
    }
}

impl<H: Handler> Model for Stream<H> {
    ghost use Rattle.streams.specs.State.{Streaming};

    ghost Value = { Streaming H };

    ghost view = { λ s. record { waiting = s.waiting.items; stage = s.stage } };
}

/// What a call out of turn answers.
fn out_of_turn() -> Stop
    ensures { result ≡ not_now }
{
    Stop::Broken(Cause::Select(SelectFault::Failed))
}

impl<H: Handler> Stream<H> {
    /// A stream that begins with this talk.
    fn begin(alloc: Global, talk: Talk, handler: Option<H>) -> Stream<H>
        requires going { talk.answer ≡ Some Answer.Going }
        requires stands { TalkStands talk [] [] }
        requires early { IsEarly H.steps (fresh talk.side handler) handler [] }
        ensures waits { result.waiting ≡ talk.pending }
        ensures talks { is_talking result.stage ≡ true }
        ensures handler { handler_of result.stage ≡ handler }
        ensures stands { Stands H.steps result (fresh talk.side handler) }
    {
        let mut talk = talk;
        let waiting = talk.take_output();
        Stream {
            waiting,
            stage: Stage::Talking(talk, handler),
            alloc,
        }
    }

    /// The stream of the end that opens it, and asks for the protocol of this name, which has this index in the list of
    /// its connection. An eager handler, which was handed nothing yet, is asked for bytes before the other end has
    /// answered.
    pub fn ask(alloc: Global, name: &str, index: usize, eager: Option<H>) -> Result<Stream<H>, Stop>
        ensures waits { IfOk result (λ stream. stream.waiting ≡ spelled (header ∷ name.now ∷ [])) }
        ensures talks { IfOk result (λ stream. (is_talking stream.stage ≡ true) × (handler_of stream.stage ≡ eager)) }
        ensures stands { IfOk result (λ stream. Stands H.steps stream (fresh (Asks name.now index) eager)) }
        ensures bad_length { (result ≡ Err (Stop.Broken (Cause.Select SelectFault.BadLength))) ↔ ¬ IsName name.now }
        ensures fault { IfErr result (λ stop. (stop ≡ Stop.Broken (Cause.Select SelectFault.BadLength))
            ⊎ (stop ≡ Stop.OutOfMemory)) }
    {
        let talk = Talk::ask(alloc, name, index)?;
        Ok(Stream::begin(alloc, talk, eager))
    }

    /// The stream of the end that answers, and knows these names.
    pub fn answer(alloc: Global, names: &[&str]) -> Result<Stream<H>, Stop>
        ensures waits { IfOk result (λ stream. stream.waiting ≡ spelled (header ∷ [])) }
        ensures talks { IfOk result (λ stream. (is_talking stream.stage ≡ true) × (handler_of stream.stage ≡ None)) }
        ensures stands { IfOk result (λ stream.
            Stands H.steps stream (fresh (Answers (map (λ name. name.now) names.now)) None)) }
        ensures bad_length { (result ≡ Err (Stop.Broken (Cause.Select SelectFault.BadLength)))
            ↔ ¬ All (λ name. IsName name.now) names.now }
        ensures fault { IfErr result (λ stop. (stop ≡ Stop.Broken (Cause.Select SelectFault.BadLength))
            ⊎ (stop ≡ Stop.OutOfMemory)) }
    {
        let talk = Talk::answer(alloc, names)?;
        Ok(Stream::begin(alloc, talk, None))
    }

    /// Whether nothing is decided yet: then data is heard, and not taken.
    pub fn talks(&self) -> bool
        ensures { result ≡ is_talking self.now.stage }
    {
        self.stage.talks()
    }

    /// Whether both ends agree, and the handler is still to be handed in.
    pub fn awaits_handler(&self) -> bool
        ensures { result ≡ awaits_handler self.now.stage }
    {
        self.stage.awaits()
    }

    /// Whether output of the talk waits to be given out.
    pub fn waits(&self) -> bool
        ensures { result ≡ nat_lt 0 (length self.now.waiting) }
    {
        !self.waiting.is_empty()
    }

    /// Whether it gives no more: nothing waits, and its handler is closed or was handed out.
    pub fn closed(&self) -> bool
        ensures { result ≡ ((length self.now.waiting == 0) && has_closed H.is_closed self.now.stage) }
    {
        self.waiting.is_empty() && self.stage.closed()
    }

    /// Whether its handler serves it, and its work is done. Before the talk agrees no handler is asked.
    pub fn finished(&self) -> bool
        ensures { result ≡ has_finished H.is_finished self.now.stage }
    {
        self.stage.finished()
    }

    /// Whether it holds a handler: that of an eager protocol before its talk agrees, too.
    pub fn holds_handler(&self) -> bool
        ensures { result ≡ holds_handler self.now.stage }
    {
        self.stage.holds_handler()
    }

    /// Whether its handler was finished, and handed out. What still comes is dropped.
    pub fn was_handed_out(&self) -> bool
        ensures { result ≡ was_handed_out self.now.stage }
    {
        self.stage.was_handed_out()
    }

    /// Whether it has ended: it was refused, or broken.
    pub fn is_over(&self) -> bool
        ensures { result ≡ is_over self.now.stage }
    {
        self.stage.is_over()
    }

    /// The talk takes data. Nothing behind the bytes by which both ends agree is read: it is the handler's.
    pub fn hear(&mut self, bytes: &[u8]) -> Result<Heard, Stop>
        ensures out_of_turn { is_talking self.old.stage ≡ false → (result ≡ Err not_now) × (self.new ≡ self.old) }
        ensures within { (index : ℕ) (used : ℕ) → result ≡ Ok (Heard.Agreed index used) → used ≤ length bytes.now }
        ensures stage { is_talking self.old.stage ≡ true → Moves self.old.stage result self.new.stage }
        // What it comes to hangs on the data so far, however that was cut.
        ensures stands { (past : Past H) → Stands H.steps self.old past → IfOk result (λ heard. heard ≢ Heard.Refused
            → Stands H.steps self.new (record past { got = past.got ++ used_of heard bytes.now })) }
        ensures hears { (past : Past H) → Stands H.steps self.old past → is_talking self.old.stage ≡ true
            → result ≢ Err Stop.OutOfMemory
            → HasHeard H.steps past (handler_of self.old.stage) bytes.now result self.new.waiting }
        ensures memory { (past : Past H) → Stands H.steps self.old past → result ≡ Err Stop.OutOfMemory
            → RunsOut H.steps past (handler_of self.old.stage) bytes.now self.old.waiting self.new.waiting }
        ensures kept { (more : List ℕ) × (self.new.waiting ≡ self.old.waiting ++ more) }
    {
        match mem::replace(&mut self.stage, Stage::Over) {
            Stage::Talking(talk, handler) => {
                let mut talk = talk;
                let heard = hear_talk(&mut talk, &mut self.waiting, bytes)?;
                let stage = stage_behind(heard, talk, handler);
                // The proof of an assignment would walk through all that the old stage holds.
                drop(mem::replace(&mut self.stage, stage));
                Ok(heard)
            }
            stage => {
                drop(mem::replace(&mut self.stage, stage));
                Err(out_of_turn())
            }
        }
    }

    /// Hands the handler in, once both ends agree: one that was just made.
    pub fn serve(&mut self, new_handler: H)
        requires { awaits_handler self.old.stage ≡ true }
        ensures stage { self.new ≡ record self.old { stage = Stage.Serving new_handler } }
        ensures stands { (past : Past H) → Stands H.steps self.old past
            → Stands H.steps self.new (record past { made = Some new_handler }) }
    {
        self.stage = Stage::Serving(new_handler);
    }

    /// Hands data to the handler, in one call. Where the handler was handed out the data is dropped.
    pub fn take(&mut self, bytes: &[u8]) -> Result<(), Stop>
        ensures kept { self.new.waiting ≡ self.old.waiting }
        ensures step { (handler : H) → self.old.stage ≡ Stage.Serving handler → OnOk result ((after : H)
            × (self.new.stage ≡ Stage.Serving after) × H.steps handler (Take bytes.now) after) }
        ensures fault { (handler : H) → self.old.stage ≡ Stage.Serving handler → IfErr result (λ stop.
            (self.new.stage ≡ Stage.Over) × FailsBy H.fails handler (ToTake bytes.now) stop) }
        ensures done { self.old.stage ≡ Stage.Done → IsOk result × (self.new ≡ self.old) }
        ensures kind { OnOk result (kind_of self.new.stage ≡ kind_of self.old.stage) }
        ensures out_of_turn { (is_talking self.old.stage ≡ true) ⊎ ((awaits_handler self.old.stage ≡ true)
            ⊎ (self.old.stage ≡ Stage.Over)) → (result ≡ Err not_now) × (self.new ≡ self.old) }
        // All data behind the talk is handed over, each byte once.
        ensures stands { (past : Past H) → Stands H.steps self.old past → past.ended ≡ false
            → OnOk result (Stands H.steps self.new (with_call (record past { got = past.got ++ bytes.now; left = None })
            (answering self.old.stage (Take bytes.now)))) }
    {
        let taken = match &mut self.stage {
            Stage::Serving(handler) => handler.take(bytes),
            Stage::Done => return Ok(()),
            _ => return Err(out_of_turn()),
        };
        if let Err(fault) = taken {
            drop(mem::replace(&mut self.stage, Stage::Over));
            return Err(Stop::from(fault));
        }
        Ok(())
    }

    /// Says that no more data comes: to the handler, in one call. An end within the talk breaks the stream.
    pub fn end(&mut self) -> Result<(), Stop>
        ensures kept { self.new.waiting ≡ self.old.waiting }
        ensures step { (handler : H) → self.old.stage ≡ Stage.Serving handler → OnOk result ((after : H)
            × (self.new.stage ≡ Stage.Serving after) × H.steps handler End after) }
        ensures fault { (handler : H) → self.old.stage ≡ Stage.Serving handler → IfErr result (λ stop.
            (self.new.stage ≡ Stage.Over) × FailsBy H.fails handler ToEnd stop) }
        ensures done { self.old.stage ≡ Stage.Done → IsOk result × (self.new ≡ self.old) }
        ensures kind { OnOk result (kind_of self.new.stage ≡ kind_of self.old.stage) }
        ensures in_talk { is_talking self.old.stage ≡ true
            → (result ≡ Err (Stop.Broken Cause.Ended)) × (self.new.stage ≡ Stage.Over) }
        ensures out_of_turn { (awaits_handler self.old.stage ≡ true) ⊎ (self.old.stage ≡ Stage.Over)
            → (result ≡ Err not_now) × (self.new ≡ self.old) }
        // The end is said once, behind all data.
        ensures stands { (past : Past H) → Stands H.steps self.old past → past.ended ≡ false
            → OnOk result (Stands H.steps self.new (with_call (record past { ended = true; left = None })
            (answering self.old.stage End))) }
    {
        let ended = match &mut self.stage {
            Stage::Serving(handler) => handler.end(),
            Stage::Done => return Ok(()),
            Stage::Talking(_, _) => {
                drop(mem::replace(&mut self.stage, Stage::Over));
                return Err(Stop::Broken(Cause::Ended));
            }
            _ => return Err(out_of_turn()),
        };
        if let Err(fault) = ended {
            drop(mem::replace(&mut self.stage, Stage::Over));
            return Err(Stop::from(fault));
        }
        Ok(())
    }

    /// So many bytes of what waits, and behind them what the handler gives with this room.
    fn gather(&mut self, count: usize, room: usize) -> Result<Vec<u8>, Stop>
        requires { count ≤ length self.old.waiting }
        ensures kept { self.new.waiting ≡ self.old.waiting }
        ensures gives { IfOk result (λ bytes. (given : List ℕ) × (bytes.items ≡ take count self.old.waiting ++ given)
            × StageGives H.steps H.is_closed self.old.stage room self.new.stage given) }
        ensures kind { OnOk result (kind_of self.new.stage ≡ kind_of self.old.stage) }
        ensures fault { IfErr result (λ stop. stop ≢ Stop.OutOfMemory → (handler : H)
            × (handler_of self.old.stage ≡ Some handler) × (H.is_closed handler ≡ false)
            × FailsBy H.fails handler (ToGive room) stop) }
        ensures memory { result ≡ Err Stop.OutOfMemory → (0 < count) × (count ≤ length self.old.waiting) }
        ensures answered { result ≡ Err Stop.OutOfMemory → Answered H.steps H.is_closed self.old.stage room }
    {
        // The handler is asked before memory is, so that want of memory stands for none of its faults.
        let given = self.stage.ask(self.alloc, room)?;
        // Behind the talk nothing waits any more, and what the handler gives is handed on as it is.
        if count == 0 {
            return Ok(given);
        }
        let front = front_of(self.alloc, &self.waiting, count)?;
        Ok(joined(front, given)?)
    }

    /// What is sent next, at most so many bytes: first what waits of the talk, and then what the handler gives with the
    /// room that is left, which is none where something still waits. A handler that is closed isn't asked.
    pub fn give(&mut self, room: usize) -> Result<Vec<u8>, Stop>
        ensures room { IfOk result (λ bytes. length bytes.items ≤ room) }
        ensures full { IfOk result (λ bytes. self.new.waiting ≢ [] → length bytes.items ≡ room) }
        ensures waits { OnOk result (self.new.waiting ≡ drop room self.old.waiting) }
        ensures kind { OnOk result (kind_of self.new.stage ≡ kind_of self.old.stage) }
        // The handler that was asked is held on, and its stage is where it was.
        ensures step { (handler : H) → handler_of self.old.stage ≡ Some handler → H.is_closed handler ≡ false
            → IfOk result (λ bytes. (after : H) × (more : List ℕ) × (handler_of self.new.stage ≡ Some after)
            × (is_talking self.new.stage ≡ is_talking self.old.stage)
            × (bytes.items ≡ take room self.old.waiting ++ more)
            × H.steps handler (Give (room - length self.old.waiting) more) after) }
        ensures asked { (past : Past H) → Stands H.steps self.old past → is_open H.is_closed self.old.stage ≡ true
            → IfOk result (λ bytes. (more : List ℕ) × (bytes.items ≡ take room self.old.waiting ++ more)
            × Stands H.steps self.new
            (with_call (record past { sent = past.sent ++ bytes.items; left = Some (room - length bytes.items) })
            (Some (Give (room - length self.old.waiting) more)))) }
        ensures not_asked { (past : Past H) → Stands H.steps self.old past → is_open H.is_closed self.old.stage ≡ false
            → IfOk result (λ bytes. Stands H.steps self.new (record past { sent = past.sent ++ bytes.items })) }
        ensures same { is_open H.is_closed self.old.stage ≡ false
            → IfOk result (λ bytes. (self.new.stage ≡ self.old.stage)
            × (bytes.items ++ self.new.waiting ≡ self.old.waiting)) }
        ensures fault { IfErr result (λ stop. stop ≢ Stop.OutOfMemory → (handler : H)
            × (handler_of self.old.stage ≡ Some handler) × (H.is_closed handler ≡ false)
            × FailsBy H.fails handler (ToGive (room - length self.old.waiting)) stop) }
        ensures memory { result ≡ Err Stop.OutOfMemory → (0 < room) × (self.old.waiting ≢ []) }
        // So want of memory stands for no fault of the handler: one that isn't closed has answered.
        ensures answered { result ≡ Err Stop.OutOfMemory
            → Answered H.steps H.is_closed self.old.stage (room - length self.old.waiting) }
        ensures ends { OnErr result (self.new ≡ record self.old { stage = Stage.Over }) }
    {
        let count = room.min(self.waiting.len());
        match self.gather(count, room - count) {
            Ok(bytes) => {
                drop_front(&mut self.waiting, count);
                Ok(bytes)
            }
            Err(stop) => {
                drop(mem::replace(&mut self.stage, Stage::Over));
                Err(stop)
            }
        }
    }

    /// Hands the handler out, where it is finished. Then the stream gives what waits, and drops what comes.
    pub fn finish(&mut self) -> Option<H>
        ensures handed_out { IfSome result (λ handler. (self.old.stage ≡ Stage.Serving handler)
            × (H.is_finished handler ≡ true) × (self.new ≡ record self.old { stage = Stage.Done })) }
        ensures none { IfNone result ((has_finished H.is_finished self.old.stage ≡ false) × (self.new ≡ self.old)) }
        ensures stands { (past : Past H) → Stands H.steps self.old past → Stands H.steps self.new past }
    {
        if !self.stage.finished() {
            return None;
        }
        match mem::replace(&mut self.stage, Stage::Done) {
            Stage::Serving(handler) => Some(handler),
            stage => {
                drop(mem::replace(&mut self.stage, stage));
                None
            }
        }
    }

    /// The handler that it holds, where it holds one.
    pub fn into_handler(self) -> Option<H>
        ensures { result ≡ handler_of self.stage }
    {
        let Self {
            waiting: _waiting,
            stage,
            alloc: _,
        } = self;
        stage.into_handler()
    }
}
