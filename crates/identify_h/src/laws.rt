//! What the message and its handlers do, over whole inputs and whole lists of calls.

ghost use Rattle.std.specs.Prelude.{◌≡◌, ◌↔◌, ◌<◌, ℕ, Bool, List, [], ◌∷◌, ◌++◌, length, true, false, IsSome, IfSome};
ghost use Rattle.std.specs.Prelude.{is_some, map};
ghost use Rattle.std.specs.Option.{option_map};
ghost use mathlib.Core.List.{IsPrefix};
ghost use Rattle.handlers.specs.Calls.{HandlerCall, Take, Give, End, Asked, ToTake};
ghost use Rattle.handlers.specs.Calls.{ToGive, ToEnd, Arises, EndsAs, taken, given};
ghost use Rattle.handlers.specs.Calls.{HasFailed, HasEnded};
ghost use Rattle.identify_h.specs.declared.fault.IdentifyFault.TheVariants.{Failed, Wire, OutOfMemory};
ghost use Rattle.identify_h.specs.declared.fault.IdentifyFault.{IdentifyFault};
ghost use Rattle.varint_proto.specs.declared.fault.WireFault.{WireFault};
ghost use Rattle.varint_proto.specs.declared.fault.IncomingRefused.{IncomingRefused};
ghost use Rattle.peer_ids.specs.declared.fault.KeyFault.{KeyFault};
ghost use Rattle.std.specs.declared.alloc.AllocError.{AllocError};
ghost use Rattle.std.specs.declared.alloc.AllocFailed.{AllocFailed};
ghost use Rattle.identify_h.specs.Faults.{number_of, of_key_fault, of_incoming};
ghost use Rattle.identify_h.specs.contracts.identify.Identify.{the_view};
ghost use Rattle.identify_h.specs.declared.identify.Identify.TheInside.{Inside as Fields};
ghost use Rattle.identify_h.specs.Messages.{KeyIsThePeers, OneMessage, WrittenIsRead};
ghost use Rattle.identify_h.specs.Streams.{Reads, TakeFails, EndFails};
ghost use Rattle.identify_h.specs.Streams.{OneOutcome, SomeOutcome, FaultsStay, AskingGoesOn, SentIsRead};
ghost use Rattle.identify_h.specs.Reading.{Reader, Stands, IsFresh, Alike, ReadStep, ReadFails};
ghost use Rattle.identify_h.specs.Sending.{Sending, SendStep, SendFails, sending, most_bytes};
ghost use Rattle.identify_h.specs.Rows.{WorkedRows};

use crate::fault::IdentifyFault;
use crate::reader::IdentifyIn;
use crate::writer::{IdentifyOut, MOST_BYTES};
use handlers::Handler;
use peer_ids::KeyFault;
use std::alloc::{AllocError, AllocFailed};
use varint_proto::{IncomingRefused, WireFault};

/// The definitions give what the specification and this project's profile give, at worked bytes.
pub fn worked_rows()
    ensures { WorkedRows }
{}

/// What contracts see of an identify message is what its fields hold.
pub fn fields_are_public()
    ensures { (identify : Fields) → the_view identify ≡ record {
      key = identify.key;
      listen = map (λ v. v.items) identify.listen.items;
      protocols = map (λ v. v.items) identify.protocols.items;
      observed = option_map (λ v. v.items) identify.observed;
      version = option_map (λ v. v.items) identify.version;
      agent = option_map (λ v. v.items) identify.agent;
    } }
{}

/// A fault of what is read, and want of memory, become one fault of identify each.
pub fn faults_become<T: Drop>()
    ensures wire { (fault : WireFault) (told : IdentifyFault)
        → ⟦<IdentifyFault as From<WireFault>>⟧.from_gives fault told ↔ (told ≡ Wire) }
    ensures key { (fault : KeyFault) (told : IdentifyFault)
        → ⟦<IdentifyFault as From<KeyFault>>⟧.from_gives fault told ↔ (told ≡ of_key_fault fault) }
    ensures incoming { (fault : IncomingRefused) (told : IdentifyFault)
        → ⟦<IdentifyFault as From<IncomingRefused>>⟧.from_gives fault told ↔ (told ≡ of_incoming fault) }
    ensures memory { (refused : AllocError) (told : IdentifyFault)
        → ⟦<IdentifyFault as From<AllocError>>⟧.from_gives refused told ↔ (told ≡ OutOfMemory) }
    ensures growth { (refused : AllocFailed T) (told : IdentifyFault)
        → ⟦<IdentifyFault as From<AllocFailed<T>>>⟧.from_gives refused told ↔ (told ≡ OutOfMemory) }
{}

/// Bytes spell one message.
pub fn one_message()
    ensures { OneMessage }
{}

/// A key that is read has the peer's id, and bytes that a key of its type may have.
pub fn key_is_the_peers()
    ensures { KeyIsThePeers }
{}

/// What is written is read back, with a key whose id is the one handed in.
pub fn written_is_read()
    ensures { WrittenIsRead }
{}

/// What is sent is read: a written message behind its length is one stream that says it.
pub fn sent_is_read()
    ensures { SentIsRead }
{}

/// The limit of the bodies of a stream, as callers see it, is that of the definitions.
pub fn limit_is_public()
    ensures { MOST_BYTES ≡ most_bytes }
{}

/// An input has one first fault or none; a whole stream has one message, or one fault at its end.
pub fn one_outcome()
    ensures { OneOutcome }
{}

/// Each input goes on or has a fault; where it goes on, its end gives a message or has a fault.
pub fn some_outcome()
    ensures { SomeOutcome }
{}

/// A fault stays, whatever comes behind it: it doesn't depend on how the input is cut.
pub fn faults_stay()
    ensures { FaultsStay }
{}

/// Where a stream asks for memory its input has no fault so far: want of memory hides none that came before.
pub fn asking_goes_on()
    ensures { AskingGoesOn }
{}

/// A reader is finished exactly where the end has come; then the whole stream says what it has read. It gives nothing,
/// and is closed from the start.
pub fn identify_is_read()
    ensures closed { (reader : Reader) → ⟦<IdentifyIn as Handler>⟧.is_closed reader ≡ true }
    ensures finished { (peer : List ℕ) (calls : List HandlerCall) (ended : Bool) (made reader : Reader)
        → IsFresh peer made → EndsAs calls ended → Arises ⟦<IdentifyIn as Handler>⟧.steps made calls reader
        → (⟦<IdentifyIn as Handler>⟧.is_finished reader ≡ true) ↔ (ended ≡ true) }
    ensures read { (peer : List ℕ) (calls : List HandlerCall) (ended : Bool) (made reader : Reader)
        → IsFresh peer made → EndsAs calls ended → Arises ⟦<IdentifyIn as Handler>⟧.steps made calls reader
        → IfSome reader.message (Reads peer (taken calls)) }
    ensures nothing { (peer : List ℕ) (calls : List HandlerCall) (ended : Bool) (made reader : Reader)
        → IsFresh peer made → EndsAs calls ended → Arises ⟦<IdentifyIn as Handler>⟧.steps made calls reader
        → given calls ≡ [] }
{}

/// What a sender gave is a first part of its message, and all of it where the last call left room; it is closed and
/// finished exactly where all was given.
pub fn identify_is_sent()
    ensures part { (message : List ℕ) (calls : List HandlerCall) (out : Sending)
        → Arises ⟦<IdentifyOut as Handler>⟧.steps (sending message) calls out → IsPrefix (given calls) message }
    ensures all { (message : List ℕ) (calls : List HandlerCall) (room : ℕ) (bytes : List ℕ) (out : Sending)
        → Arises ⟦<IdentifyOut as Handler>⟧.steps (sending message) (calls ++ Give room bytes ∷ []) out
        → length bytes < room → given calls ++ bytes ≡ message }
    ensures closed { (message : List ℕ) (calls : List HandlerCall) (out : Sending)
        → Arises ⟦<IdentifyOut as Handler>⟧.steps (sending message) calls out
        → (⟦<IdentifyOut as Handler>⟧.is_closed out ≡ true) ↔ (given calls ≡ message) }
    ensures finished { (message : List ℕ) (calls : List HandlerCall) (out : Sending)
        → Arises ⟦<IdentifyOut as Handler>⟧.steps (sending message) calls out
        → (⟦<IdentifyOut as Handler>⟧.is_finished out ≡ true) ↔ (given calls ≡ message) }
{}

/// A call that a reader answers is refused for want of memory alone, and none where it is asked for bytes.
pub fn reading_refuses()
    ensures take { (input bytes : List ℕ) (old new : Reader) (n : ℕ) → Stands input old
        → ⟦<IdentifyIn as Handler>⟧.steps old (Take bytes) new
        → ⟦<IdentifyIn as Handler>⟧.fails old (ToTake bytes) n → n ≡ number_of OutOfMemory }
    ensures end { (input : List ℕ) (old new : Reader) (n : ℕ) → Stands input old
        → ⟦<IdentifyIn as Handler>⟧.steps old End new
        → ⟦<IdentifyIn as Handler>⟧.fails old ToEnd n → n ≡ number_of OutOfMemory }
    ensures give { (old new : Reader) (room : ℕ) (bytes : List ℕ) (n : ℕ)
        → ⟦<IdentifyIn as Handler>⟧.steps old (Give room bytes) new
        → ¬ ⟦<IdentifyIn as Handler>⟧.fails old (ToGive room) n }
{}

/// A reader refuses what comes, and the end, by the number of what is wrong with all that it was handed.
pub fn reading_tells_its_stream()
    ensures take { (peer : List ℕ) (calls : List HandlerCall) (made reader : Reader) → IsFresh peer made
        → EndsAs calls false → Arises ⟦<IdentifyIn as Handler>⟧.steps made calls reader → (bytes : List ℕ) (n : ℕ)
        → ⟦<IdentifyIn as Handler>⟧.fails reader (ToTake bytes) n
        → (fault : IdentifyFault) × (n ≡ number_of fault) × TakeFails (taken calls) bytes fault }
    ensures end { (peer : List ℕ) (calls : List HandlerCall) (made reader : Reader) → IsFresh peer made
        → EndsAs calls false → Arises ⟦<IdentifyIn as Handler>⟧.steps made calls reader → (n : ℕ)
        → ⟦<IdentifyIn as Handler>⟧.fails reader ToEnd n
        → (fault : IdentifyFault) × (n ≡ number_of fault) × EndFails peer (taken calls) fault }
{}

/// A reader refuses a call for what is wrong with its stream, by that fault's number, and for nothing else.
pub fn reading_fails()
    ensures { (reader : Reader) (asked : Asked) (n : ℕ)
        → ⟦<IdentifyIn as Handler>⟧.fails reader asked n ↔ ReadFails reader asked n }
{}

/// A reader answers a call where its stream lets it, and that leads to where the stream leaves the reader, and to
/// nothing else.
pub fn reading_steps()
    ensures { (old new : Reader) (call : HandlerCall)
        → ⟦<IdentifyIn as Handler>⟧.steps old call new ↔ ReadStep old call new }
{}

/// A sender answers and refuses a call as the definitions say, and in no other way.
pub fn sending_calls()
    ensures steps { (old new : Sending) (call : HandlerCall)
        → ⟦<IdentifyOut as Handler>⟧.steps old call new ↔ SendStep old call new }
    ensures fails { (out : Sending) (asked : Asked) (n : ℕ)
        → ⟦<IdentifyOut as Handler>⟧.fails out asked n ↔ SendFails out asked n }
{}

/// What a call of a reader leads to is determined: behind the same bytes two readers are alike, the end reads one
/// message, and nothing is given. What is alike fails alike.
pub fn reading_answers_one_way()
    ensures take { (input bytes : List ℕ) (old new other : Reader) → Stands input old
        → ⟦<IdentifyIn as Handler>⟧.steps old (Take bytes) new
        → ⟦<IdentifyIn as Handler>⟧.steps old (Take bytes) other → Alike new other }
    ensures end { (input : List ℕ) (old new other : Reader) → Stands input old
        → ⟦<IdentifyIn as Handler>⟧.steps old End new → ⟦<IdentifyIn as Handler>⟧.steps old End other → new ≡ other }
    ensures give { (old new other : Reader) (room : ℕ) (bytes more : List ℕ)
        → ⟦<IdentifyIn as Handler>⟧.steps old (Give room bytes) new
        → ⟦<IdentifyIn as Handler>⟧.steps old (Give room more) other → (bytes ≡ more) × (new ≡ other) }
    ensures alike { (one other : Reader) (asked : Asked) (n : ℕ) → Alike one other
        → ⟦<IdentifyIn as Handler>⟧.fails one asked n → ⟦<IdentifyIn as Handler>⟧.fails other asked n }
{}

/// A call that a sender answers is refused for want of memory alone, and only where bytes are given.
pub fn sending_refuses()
    ensures take { (old new : Sending) (bytes : List ℕ) (n : ℕ) → ⟦<IdentifyOut as Handler>⟧.steps old (Take bytes) new
        → ¬ ⟦<IdentifyOut as Handler>⟧.fails old (ToTake bytes) n }
    ensures end { (old new : Sending) (n : ℕ) → ⟦<IdentifyOut as Handler>⟧.steps old End new
        → ¬ ⟦<IdentifyOut as Handler>⟧.fails old ToEnd n }
    ensures give { (old new : Sending) (room : ℕ) (bytes : List ℕ) (n : ℕ)
        → ⟦<IdentifyOut as Handler>⟧.steps old (Give room bytes) new
        → ⟦<IdentifyOut as Handler>⟧.fails old (ToGive room) n
        → (n ≡ number_of OutOfMemory) × (0 < length bytes) }
{}

/// A reader that has not failed gives nothing whenever it is asked. After a fault it answers nothing, and once it has
/// read its message it takes nothing. It is finished exactly where it has read its message, so no fault finishes it.
pub fn reading_stops()
    ensures give { (reader : Reader) (room : ℕ) → reader.failed ≡ false
        → ⟦<IdentifyIn as Handler>⟧.steps reader (Give room []) reader }
    ensures failed { (reader : Reader) → reader.failed ≡ true
        → HasFailed ⟦<IdentifyIn as Handler>⟧.steps ⟦<IdentifyIn as Handler>⟧.fails (number_of Failed) reader }
    ensures ended { (reader : Reader) → IsSome reader.message
        → HasEnded ⟦<IdentifyIn as Handler>⟧.steps ⟦<IdentifyIn as Handler>⟧.fails (number_of Failed) reader }
    ensures finished { (reader : Reader) → ⟦<IdentifyIn as Handler>⟧.is_finished reader ≡ is_some reader.message }
{}

/// A sender that goes on answers each call, but for want of memory: whatever comes, what it is asked for, and the end.
pub fn sending_answers()
    ensures take { (out : Sending) (bytes : List ℕ) → out.failed ≡ false → out.ended ≡ false
        → ⟦<IdentifyOut as Handler>⟧.steps out (Take bytes) out }
    ensures give { (out : Sending) (room : ℕ) → out.failed ≡ false
        → (bytes : List ℕ) × (next : Sending) × ⟦<IdentifyOut as Handler>⟧.steps out (Give room bytes) next }
    ensures end { (out : Sending) → out.failed ≡ false → out.ended ≡ false
        → (next : Sending) × ⟦<IdentifyOut as Handler>⟧.steps out End next }
{}

/// What a call of a sender leads to is determined, and so is what is given.
pub fn sending_answers_one_way()
    ensures next { (old : Sending) (call : HandlerCall) (new other : Sending)
        → ⟦<IdentifyOut as Handler>⟧.steps old call new
        → ⟦<IdentifyOut as Handler>⟧.steps old call other → new ≡ other }
    ensures given { (old : Sending) (room : ℕ) (bytes more : List ℕ) (new other : Sending)
        → ⟦<IdentifyOut as Handler>⟧.steps old (Give room bytes) new
        → ⟦<IdentifyOut as Handler>⟧.steps old (Give room more) other → (bytes ≡ more) × (new ≡ other) }
{}

/// After a fault a sender answers nothing, and behind the end it takes nothing. A fault neither closes nor finishes it.
pub fn sending_stops()
    ensures failed { (out : Sending) → out.failed ≡ true
        → HasFailed ⟦<IdentifyOut as Handler>⟧.steps ⟦<IdentifyOut as Handler>⟧.fails (number_of Failed) out }
    ensures ended { (out : Sending) → out.ended ≡ true
        → HasEnded ⟦<IdentifyOut as Handler>⟧.steps ⟦<IdentifyOut as Handler>⟧.fails (number_of Failed) out }
    ensures closed { (out : Sending) → ⟦<IdentifyOut as Handler>⟧.is_closed (record out { failed = true })
        ≡ ⟦<IdentifyOut as Handler>⟧.is_closed out }
    ensures finished { (out : Sending) → ⟦<IdentifyOut as Handler>⟧.is_finished (record out { failed = true })
        ≡ ⟦<IdentifyOut as Handler>⟧.is_finished out }
{}
