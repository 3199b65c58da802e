//! What the handlers of a ping do, over whole lists of calls.

ghost use Rattle.std.specs.Prelude.{◌≡◌, ◌≢◌, ◌↔◌, ◌<◌, ◌≤◌, ◌%◌, ℕ, Bool, List, [], ◌∷◌, ◌++◌, length, true, false};
ghost use Rattle.ping_h.specs.declared.fault.PingFault.TheVariants.{Failed, WrongEcho, Cut, OutOfMemory};
ghost use Rattle.ping_h.specs.Faults.{number_of};
ghost use mathlib.Core.List.{IsPrefix};
ghost use Rattle.handlers.specs.Calls.{HandlerCall, Take, Give, End, Asked, ToTake};
ghost use Rattle.handlers.specs.Calls.{ToGive, ToEnd, Arises, EndsAs, taken, given};
ghost use Rattle.handlers.specs.Calls.{HasFailed, HasEnded};
ghost use Rattle.ping_h.specs.Echoes.{Echo, EchoStep, EchoFails, fresh, whole_rounds};
ghost use Rattle.ping_h.specs.Rounds.{Round, RoundStep, RoundFails, round};
ghost use Rattle.ping_h.specs.Rows.{WorkedRows};

use crate::echo::PingEcho;
use crate::round::PingOut;
use handlers::Handler;

/// The definitions give what the specification and this project's profile give, at worked inputs.
pub fn worked_rows()
    ensures { WorkedRows }
{}

/// An echo answers and refuses a call as the definitions say, and in no other way.
pub fn echo_calls()
    ensures steps { (old new : Echo) (call : HandlerCall)
        → ⟦<PingEcho as Handler>⟧.steps old call new ↔ EchoStep old call new }
    ensures fails { (echo : Echo) (asked : Asked) (n : ℕ)
        → ⟦<PingEcho as Handler>⟧.fails echo asked n ↔ EchoFails echo asked n }
{}

/// What an echo gave is a first part of the whole rounds that it was handed.
pub fn echo_gives_back()
    ensures { (calls : List HandlerCall) (echo : Echo) → Arises ⟦<PingEcho as Handler>⟧.steps fresh calls echo
        → IsPrefix (given calls) (whole_rounds (taken calls)) }
{}

/// It is all of them where the last call left room.
pub fn echo_gives_all()
    ensures { (calls : List HandlerCall) (room : ℕ) (bytes : List ℕ) (echo : Echo)
        → Arises ⟦<PingEcho as Handler>⟧.steps fresh (calls ++ Give room bytes ∷ []) echo
        → length bytes < room → given calls ++ bytes ≡ whole_rounds (taken calls) }
{}

/// An echo is closed, and finished, exactly where the end came and all that it was handed was given back.
pub fn echo_finishes()
    ensures closed { (calls : List HandlerCall) (ended : Bool) (echo : Echo) → EndsAs calls ended
        → Arises ⟦<PingEcho as Handler>⟧.steps fresh calls echo
        → (⟦<PingEcho as Handler>⟧.is_closed echo ≡ true) ↔ ((ended ≡ true) × (given calls ≡ taken calls)) }
    ensures finished { (calls : List HandlerCall) (ended : Bool) (echo : Echo) → EndsAs calls ended
        → Arises ⟦<PingEcho as Handler>⟧.steps fresh calls echo
        → (⟦<PingEcho as Handler>⟧.is_finished echo ≡ true) ↔ ((ended ≡ true)
        × (given calls ≡ taken calls)) }
{}

/// An end behind whole rounds is answered, and the echo is finished once it was asked with room for all of them. Within
/// a round an end is Cut, and nothing else.
pub fn echo_is_cut()
    ensures whole { (calls : List HandlerCall) (echo : Echo) → EndsAs calls false
        → Arises ⟦<PingEcho as Handler>⟧.steps fresh calls echo → length (taken calls) % 32 ≡ 0
        → (next : Echo) × ⟦<PingEcho as Handler>⟧.steps echo End next
        × ((room : ℕ) (bytes : List ℕ) (last : Echo) → length (taken calls) ≤ room
        → ⟦<PingEcho as Handler>⟧.steps next (Give room bytes) last → ⟦<PingEcho as Handler>⟧.is_finished last ≡ true) }
    ensures cut { (calls : List HandlerCall) (echo : Echo) → EndsAs calls false
        → Arises ⟦<PingEcho as Handler>⟧.steps fresh calls echo → 0 < length (taken calls) % 32
        → ((n : ℕ) → ⟦<PingEcho as Handler>⟧.fails echo ToEnd n ↔ (n ≡ number_of Cut))
        × ((next : Echo) → ¬ ⟦<PingEcho as Handler>⟧.steps echo End next) }
{}

/// What a call of an echo leads to is determined, and so is what is given.
pub fn echo_answers_one_way()
    ensures next { (old : Echo) (call : HandlerCall) (new other : Echo) → ⟦<PingEcho as Handler>⟧.steps old call new
        → ⟦<PingEcho as Handler>⟧.steps old call other → new ≡ other }
    ensures given { (old : Echo) (room : ℕ) (bytes more : List ℕ) (new other : Echo)
        → ⟦<PingEcho as Handler>⟧.steps old (Give room bytes) new
        → ⟦<PingEcho as Handler>⟧.steps old (Give room more) other → (bytes ≡ more) × (new ≡ other) }
{}

/// A call that an echo answers is refused for want of memory alone, and only where bytes are held or given. So it has
/// one outcome where memory is ample.
pub fn echo_refuses()
    ensures take { (old new : Echo) (bytes : List ℕ) (n : ℕ) → ⟦<PingEcho as Handler>⟧.steps old (Take bytes) new
        → ⟦<PingEcho as Handler>⟧.fails old (ToTake bytes) n → (n ≡ number_of OutOfMemory) × (0 < length bytes) }
    ensures give { (old new : Echo) (room : ℕ) (bytes : List ℕ) (n : ℕ)
        → ⟦<PingEcho as Handler>⟧.steps old (Give room bytes) new
        → ⟦<PingEcho as Handler>⟧.fails old (ToGive room) n → (n ≡ number_of OutOfMemory) × (0 < length bytes) }
    ensures end { (old new : Echo) (n : ℕ) → ⟦<PingEcho as Handler>⟧.steps old End new
        → ¬ ⟦<PingEcho as Handler>⟧.fails old ToEnd n }
{}

/// An echo that goes on answers each call, but for want of memory: what comes, what it is asked for, and the end
/// between rounds.
pub fn echo_answers()
    ensures take { (echo : Echo) (bytes : List ℕ) → echo.failed ≡ false → echo.ended ≡ false
        → (next : Echo) × ⟦<PingEcho as Handler>⟧.steps echo (Take bytes) next }
    ensures give { (echo : Echo) (room : ℕ) → echo.failed ≡ false
        → (bytes : List ℕ) × (next : Echo) × ⟦<PingEcho as Handler>⟧.steps echo (Give room bytes) next }
    ensures end { (echo : Echo) → echo.failed ≡ false → echo.ended ≡ false → echo.begun ≡ 0
        → (next : Echo) × ⟦<PingEcho as Handler>⟧.steps echo End next }
{}

/// After a fault an echo answers nothing, and behind the end it takes nothing. A fault neither closes nor finishes it.
pub fn echo_stops()
    ensures failed { (echo : Echo) → echo.failed ≡ true
        → HasFailed ⟦<PingEcho as Handler>⟧.steps ⟦<PingEcho as Handler>⟧.fails (number_of Failed) echo }
    ensures ended { (echo : Echo) → echo.ended ≡ true
        → HasEnded ⟦<PingEcho as Handler>⟧.steps ⟦<PingEcho as Handler>⟧.fails (number_of Failed) echo }
    ensures closed { (echo : Echo) → ⟦<PingEcho as Handler>⟧.is_closed (record echo { failed = true })
        ≡ ⟦<PingEcho as Handler>⟧.is_closed echo }
    ensures finished { (echo : Echo) → ⟦<PingEcho as Handler>⟧.is_finished (record echo { failed = true })
        ≡ ⟦<PingEcho as Handler>⟧.is_finished echo }
{}

/// A round answers and refuses a call as the definitions say, and in no other way.
pub fn ping_calls()
    ensures steps { (old new : Round) (call : HandlerCall)
        → ⟦<PingOut as Handler>⟧.steps old call new ↔ RoundStep old call new }
    ensures fails { (out : Round) (asked : Asked) (n : ℕ)
        → ⟦<PingOut as Handler>⟧.fails out asked n ↔ RoundFails out asked n }
{}

/// What a round sent is a first part of the ping, and all of it where the last call left room.
pub fn ping_is_sent()
    ensures part { (ping : List ℕ) (calls : List HandlerCall) (out : Round)
        → Arises ⟦<PingOut as Handler>⟧.steps (round ping) calls out → IsPrefix (given calls) ping }
    ensures all { (ping : List ℕ) (calls : List HandlerCall) (room : ℕ) (bytes : List ℕ) (out : Round)
        → Arises ⟦<PingOut as Handler>⟧.steps (round ping) (calls ++ Give room bytes ∷ []) out
        → length bytes < room → given calls ++ bytes ≡ ping }
{}

/// A round is closed exactly where the ping came back and nothing more, and finished exactly where the end came then.
pub fn ping_finishes()
    ensures closed { (ping : List ℕ) (calls : List HandlerCall) (out : Round)
        → Arises ⟦<PingOut as Handler>⟧.steps (round ping) calls out
        → (⟦<PingOut as Handler>⟧.is_closed out ≡ true) ↔ (taken calls ≡ ping) }
    ensures finished { (ping : List ℕ) (calls : List HandlerCall) (ended : Bool) (out : Round) → EndsAs calls ended
        → Arises ⟦<PingOut as Handler>⟧.steps (round ping) calls out
        → (⟦<PingOut as Handler>⟧.is_finished out ≡ true) ↔ ((taken calls ≡ ping) × (ended ≡ true)) }
{}

/// Bytes that go on with the ping are taken, and behind all of them the end finishes the round. Others are a WrongEcho,
/// and an end before all came back is Cut: that alone.
pub fn ping_is_compared()
    ensures part { (ping : List ℕ) (calls : List HandlerCall) (out : Round) → EndsAs calls false
        → Arises ⟦<PingOut as Handler>⟧.steps (round ping) calls out
        → (bytes : List ℕ) → IsPrefix (taken calls ++ bytes) ping
        → (next : Round) × ⟦<PingOut as Handler>⟧.steps out (Take bytes) next }
    ensures whole { (ping : List ℕ) (calls : List HandlerCall) (out : Round) → EndsAs calls false
        → Arises ⟦<PingOut as Handler>⟧.steps (round ping) calls out → taken calls ≡ ping
        → (next : Round) × ⟦<PingOut as Handler>⟧.steps out End next
        × (⟦<PingOut as Handler>⟧.is_finished next ≡ true) }
    ensures wrong { (ping : List ℕ) (calls : List HandlerCall) (out : Round) → EndsAs calls false
        → Arises ⟦<PingOut as Handler>⟧.steps (round ping) calls out
        → (bytes : List ℕ) → ¬ IsPrefix (taken calls ++ bytes) ping
        → ((n : ℕ) → ⟦<PingOut as Handler>⟧.fails out (ToTake bytes) n ↔ (n ≡ number_of WrongEcho))
        × ((next : Round) → ¬ ⟦<PingOut as Handler>⟧.steps out (Take bytes) next) }
    ensures cut { (ping : List ℕ) (calls : List HandlerCall) (out : Round) → EndsAs calls false
        → Arises ⟦<PingOut as Handler>⟧.steps (round ping) calls out → taken calls ≢ ping
        → ((n : ℕ) → ⟦<PingOut as Handler>⟧.fails out ToEnd n ↔ (n ≡ number_of Cut))
        × ((next : Round) → ¬ ⟦<PingOut as Handler>⟧.steps out End next) }
{}

/// What a call of a round leads to is determined, and so is what is given.
pub fn ping_answers_one_way()
    ensures next { (old : Round) (call : HandlerCall) (new other : Round) → ⟦<PingOut as Handler>⟧.steps old call new
        → ⟦<PingOut as Handler>⟧.steps old call other → new ≡ other }
    ensures given { (old : Round) (room : ℕ) (bytes more : List ℕ) (new other : Round)
        → ⟦<PingOut as Handler>⟧.steps old (Give room bytes) new
        → ⟦<PingOut as Handler>⟧.steps old (Give room more) other → (bytes ≡ more) × (new ≡ other) }
{}

/// A call that a round answers is refused for want of memory alone, and only where bytes are given.
pub fn ping_refuses()
    ensures take { (old new : Round) (bytes : List ℕ) (n : ℕ) → ⟦<PingOut as Handler>⟧.steps old (Take bytes) new
        → ¬ ⟦<PingOut as Handler>⟧.fails old (ToTake bytes) n }
    ensures give { (old new : Round) (room : ℕ) (bytes : List ℕ) (n : ℕ)
        → ⟦<PingOut as Handler>⟧.steps old (Give room bytes) new
        → ⟦<PingOut as Handler>⟧.fails old (ToGive room) n → (n ≡ number_of OutOfMemory) × (0 < length bytes) }
    ensures end { (old new : Round) (n : ℕ) → ⟦<PingOut as Handler>⟧.steps old End new
        → ¬ ⟦<PingOut as Handler>⟧.fails old ToEnd n }
{}

/// A round that goes on answers each call, but for want of memory: what is awaited next, what it is asked for, and the
/// end behind the whole echo.
pub fn ping_answers()
    ensures take { (out : Round) (bytes : List ℕ) → out.failed ≡ false → out.ended ≡ false
        → IsPrefix bytes out.awaited → (next : Round) × ⟦<PingOut as Handler>⟧.steps out (Take bytes) next }
    ensures give { (out : Round) (room : ℕ) → out.failed ≡ false
        → (bytes : List ℕ) × (next : Round) × ⟦<PingOut as Handler>⟧.steps out (Give room bytes) next }
    ensures end { (out : Round) → out.failed ≡ false → out.ended ≡ false → out.awaited ≡ []
        → (next : Round) × ⟦<PingOut as Handler>⟧.steps out End next }
{}

/// After a fault a round answers nothing, and behind the end it takes nothing. A fault neither closes nor finishes it.
pub fn ping_stops()
    ensures failed { (out : Round) → out.failed ≡ true
        → HasFailed ⟦<PingOut as Handler>⟧.steps ⟦<PingOut as Handler>⟧.fails (number_of Failed) out }
    ensures ended { (out : Round) → out.ended ≡ true
        → HasEnded ⟦<PingOut as Handler>⟧.steps ⟦<PingOut as Handler>⟧.fails (number_of Failed) out }
    ensures closed { (out : Round) → ⟦<PingOut as Handler>⟧.is_closed (record out { failed = true })
        ≡ ⟦<PingOut as Handler>⟧.is_closed out }
    ensures finished { (out : Round) → ⟦<PingOut as Handler>⟧.is_finished (record out { failed = true })
        ≡ ⟦<PingOut as Handler>⟧.is_finished out }
{}
