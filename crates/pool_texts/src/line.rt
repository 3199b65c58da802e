//! Lines that call a pool: a call, or the wish for a listing.

ghost use Rattle.std.specs.Prelude.{◌≡◌, ◌↔◌, ℕ, List, Some, IfSome, IsSome, IsUtf8};
ghost use Rattle.pool_state.specs.declared.call.Call.{Call};
ghost use Rattle.pool_state.specs.declared.call.Call.TheVariants as call;
ghost use Rattle.pool_texts.specs.declared.line.Line.{Line};
ghost use Rattle.pool_texts.specs.Lines.{IsDigits, IsNumber, IsPeer, IsStream, IsSettled, IsNoted, name_of, SaysRest};
ghost use Rattle.pool_texts.specs.Lines.{ArePair, HasNoSpace, Says};

use hex::FromHex;
use peer_ids::PeerId;
use pool_state::{Agent, Call};

/// A line that calls a pool.
#[derive(Clone, Copy, Debug, PartialEq)]
pub enum Line {
    /// A call of the pool.
    Call(Call),
    /// The pool's listing is to be printed.
    List,
}

/// The peer that a word names: the text of an id, or `@hh` for the Ed25519 key of 32 bytes hh.
#[tactic(auto, unfolding(crate::specs::Lines::IsPeer))]
pub fn peer_of(word: &str) -> Option<PeerId>
    ensures named { IfSome result (IsPeer word.now) }
    ensures only { (id : List ℕ) → IsPeer word.now id → result ≡ Some id }
{
    match word.strip_prefix('@') {
        Some(digits) => {
            let [byte] = <[u8; 1] as FromHex>::from_hex(digits).ok()?;
            Some(PeerId::of_ed25519(&[byte; 32]))
        }
        None => PeerId::from_text(word).ok(),
    }
}

/// The word, where it is decimal digits.
pub fn digits(word: &str) -> Option<&str>
    ensures same { IfSome result (λ digits. digits.now ≡ word.now) }
    ensures digits { IsSome result ↔ IsDigits word.now }
{
    let are_digits = !word.is_empty() && word.bytes().all(|byte| byte.is_ascii_digit());
    are_digits.then_some(word)
}

/// The number of a connection.
fn conn_of(word: &str) -> Option<u32>
    ensures written { IfSome result (IsNumber 32 word.now) }
    ensures only { (number : ℕ) → IsNumber 32 word.now number → result ≡ Some number }
{
    digits(word)?.parse().ok()
}

/// The index of a protocol.
fn index_of(word: &str) -> Option<u8>
    ensures written { IfSome result (IsNumber 8 word.now) }
    ensures only { (number : ℕ) → IsNumber 8 word.now number → result ≡ Some number }
{
    digits(word)?.parse().ok()
}

/// What stands before and behind the first space.
pub fn pair_of(words: &str) -> Option<(&str, &str)>
    ensures parted { IfSome result (λ pair. ArePair words.now pair.0.now pair.1.now × HasNoSpace pair.0.now) }
    ensures only { (first : List ℕ) → (second : List ℕ) → ArePair words.now first second → HasNoSpace first
        → IfSome result (λ pair. (pair.0.now ≡ first) × (pair.1.now ≡ second)) × IsSome result }
{
    words.split_once(' ')
}

/// The number of a connection and the index of a protocol, in decimal digits, with a space between them.
#[tactic(auto, unfolding(crate::specs::Lines::IsStream))]
pub fn stream_of(words: &str) -> Option<(u32, u8)>
    ensures written { IfSome result (λ stream. IsStream words.now stream.0 stream.1) }
    ensures only { (conn : ℕ) → (index : ℕ) → IsStream words.now conn index → result ≡ Some (conn, index) }
{
    let (conn, index) = pair_of(words)?;
    Some((conn_of(conn)?, index_of(index)?))
}

/// The number of a connection and a peer.
#[tactic(auto, unfolding(crate::specs::Lines::IsSettled))]
fn settled_of(words: &str) -> Option<Call>
    ensures said { IfSome result (λ made. (conn : ℕ) × (peer : List ℕ) × (made ≡ call.Settle conn peer)
        × IsSettled words.now conn peer) }
    ensures only { (conn : ℕ) → (peer : List ℕ) → IsSettled words.now conn peer
        → result ≡ Some (call.Settle conn peer) }
{
    let (conn, peer) = pair_of(words)?;
    Some(Call::Settle(conn_of(conn)?, peer_of(peer)?))
}

/// The number of a connection and the name of an agent.
#[tactic(auto, unfolding(crate::specs::Lines::IsNoted))]
fn noted_of(words: &str) -> Option<Call>
    ensures said { IfSome result (λ made. (conn : ℕ) × (agent : List ℕ) × (made ≡ call.Note conn agent)
        × IsNoted words.now conn agent) }
    ensures only { (conn : ℕ) → (agent : List ℕ) → IsNoted words.now conn agent
        → result ≡ Some (call.Note conn agent) }
{
    let (conn, agent) = pair_of(words)?;
    Some(Call::Note(conn_of(conn)?, Agent::from_bytes(agent.as_bytes())?))
}

/// The call of this name with these words behind it.
fn call_of(name: &str, words: &str) -> Option<Call>
    ensures said { IfSome result (λ made. (name.now ≡ name_of made) × SaysRest (Some words.now) made) }
    ensures only { (other : Call) → name.now ≡ name_of other → SaysRest (Some words.now) other → result ≡ Some other }
{
    match name {
        "dial" if words == "-" => Some(Call::Dial(None)),
        "dial" => Some(Call::Dial(Some(peer_of(words)?))),
        "settle" => settled_of(words),
        "ask" => {
            let (conn, index) = stream_of(words)?;
            Some(Call::Ask(conn, index))
        }
        "done" => {
            let (conn, index) = stream_of(words)?;
            Some(Call::Done(conn, index))
        }
        "hangup" => Some(Call::HangUp(peer_of(words)?)),
        "block" => Some(Call::Block(peer_of(words)?)),
        "unblock" => Some(Call::Unblock(peer_of(words)?)),
        "allow" => Some(Call::Allow(peer_of(words)?)),
        "disallow" => Some(Call::Disallow(peer_of(words)?)),
        "gone" => Some(Call::Gone(conn_of(words)?)),
        "note" => noted_of(words),
        _ => None,
    }
}

/// What a text says.
fn said_of(text: &str) -> Option<Line>
    ensures said { IfSome result (Says text.now) }
    ensures only { (line : Line) → Says text.now line → result ≡ Some line }
{
    match pair_of(text) {
        Some((name, words)) => Some(Line::Call(call_of(name, words)?)),
        None if text == "accept" => Some(Line::Call(Call::Accept)),
        None if text == "list" => Some(Line::List),
        None => None,
    }
}

/// What a line says; `None` for a line of another form, or one that isn't UTF-8.
pub fn line_of(bytes: &[u8]) -> Option<Line>
    ensures said { IfSome result (λ line. IsUtf8 bytes.now × Says bytes.now line) }
    ensures only { (line : Line) → IsUtf8 bytes.now → Says bytes.now line → result ≡ Some line }
{
    said_of(std::str::from_utf8(bytes).ok()?)
}
