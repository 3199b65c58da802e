//! The lines of a script of two nodes.

ghost use Rattle.std.specs.Prelude.{◌≡◌, ◌++◌, [], ◌∷◌, ℕ, ◌<◌, List, Some, None, IfSome, IsUtf8};
ghost use Rattle.pool_texts.specs.Lines.{IsNumber};
ghost use Rattle.node_lines.specs.declared.script.Act.{Act};
ghost use Rattle.node_lines.specs.declared.script.Awaited.{Awaited};
ghost use Rattle.node_lines.specs.declared.script.Awaited.TheVariants as awaited;
ghost use Rattle.node_lines.specs.declared.script.Name.{Name};
ghost use Rattle.node_lines.specs.Script.{IsDone, await_name, AwaitsRest, Awaits, act_name, ActsRest, Acts, node_name};
ghost use Rattle.node_lines.specs.Script.{SaysAct};

use pool_texts::{digits, pair_of, stream_of};

/// One of the two nodes.
#[derive(Clone, Copy, Debug, PartialEq, Eq)]
pub enum Name {
    /// The node of key `@0a`.
    A,
    /// The node of key `@0b`.
    B,
}

impl Name {
    /// How each line that is printed of this node begins.
    pub fn begin(self) -> &'static str
        ensures { result.now ≡ node_name self ++ 32 ∷ [] }
    {
        match self {
            Name::A => "a ",
            Name::B => "b ",
        }
    }
}

/// What is awaited of a node's listing.
#[derive(Clone, Copy, Debug, PartialEq, Eq)]
pub enum Awaited {
    /// Exactly so many connections are live.
    Live(u64),
    /// No connection stands.
    None,
    /// So many streams of the protocol of this index, from 0 to 2, are done.
    Done(u8, u64),
    /// Exactly so many connections have a peer that named its agent.
    Agent(u64),
}

/// What a node is to do.
#[derive(Clone, Copy, Debug, PartialEq, Eq)]
pub enum Act {
    /// It listens.
    Listen,
    /// It dials the other node.
    Dial,
    /// It asks for a stream on the connection of this number, of the protocol of this index.
    Ask(u32, u8),
    /// Its listing is printed.
    List,
    /// It closes its connections to the other node.
    HangUp,
    /// It closes them and blocks the other node.
    Block,
    /// It blocks the other node no more.
    Unblock,
    /// The script goes on once its listing shows this.
    Await(Awaited),
}

/// A count.
fn count_of(word: &str) -> Option<u64>
    ensures written { IfSome result (IsNumber 64 word.now) }
    ensures only { (number : ℕ) → IsNumber 64 word.now number → result ≡ Some number }
{
    digits(word)?.parse().ok()
}

/// The index of a protocol, from 0 to 2.
fn index_of(word: &str) -> Option<u8>
    ensures written { IfSome result (λ index. IsNumber 8 word.now index × (index < 3)) }
    ensures only { (number : ℕ) → IsNumber 8 word.now number → number < 3 → result ≡ Some number }
{
    let index: u8 = digits(word)?.parse().ok()?;
    (index < 3).then_some(index)
}

/// The index of a protocol, from 0 to 2, and a count of streams.
#[tactic(auto, unfolding(crate::specs::Script::IsDone))]
fn done_of(words: &str) -> Option<(u8, u64)>
    ensures written { IfSome result (λ done. IsDone words.now done.0 done.1) }
    ensures only { (index : ℕ) → (count : ℕ) → IsDone words.now index count → result ≡ Some (index, count) }
{
    let (index, count) = pair_of(words)?;
    Some((index_of(index)?, count_of(count)?))
}

/// What is to be awaited by this name, and what stands behind it.
fn awaited_with(name: &str, rest: &str) -> Option<Awaited>
    ensures said { IfSome result (λ it. (name.now ≡ await_name it) × AwaitsRest (Some rest.now) it) }
    ensures only { (it : Awaited) → name.now ≡ await_name it → AwaitsRest (Some rest.now) it → result ≡ Some it }
{
    match name {
        "live" => Some(Awaited::Live(count_of(rest)?)),
        "agent" => Some(Awaited::Agent(count_of(rest)?)),
        "done" => {
            let (index, count) = done_of(rest)?;
            Some(Awaited::Done(index, count))
        }
        _ => None,
    }
}

/// What is to be awaited by a word alone.
fn awaited_alone(word: &str) -> Option<Awaited>
    ensures said { IfSome result (λ it. (word.now ≡ await_name it) × AwaitsRest None it) }
    ensures only { (it : Awaited) → word.now ≡ await_name it → AwaitsRest None it → result ≡ Some it }
{
    match word {
        "none" => Some(Awaited::None),
        _ => None,
    }
}

/// What is to be awaited.
fn awaited_of(words: &str) -> Option<Awaited>
    ensures said { IfSome result (Awaits words.now) }
    ensures only { (it : Awaited) → Awaits words.now it → result ≡ Some it }
{
    match pair_of(words) {
        Some((name, rest)) => awaited_with(name, rest),
        None => awaited_alone(words),
    }
}

/// What a word asks for by itself.
fn act_alone(word: &str) -> Option<Act>
    ensures said { IfSome result (λ it. (word.now ≡ act_name it) × ActsRest None it) }
    ensures only { (it : Act) → word.now ≡ act_name it → ActsRest None it → result ≡ Some it }
{
    match word {
        "listen" => Some(Act::Listen),
        "dial" => Some(Act::Dial),
        "list" => Some(Act::List),
        "hangup" => Some(Act::HangUp),
        "block" => Some(Act::Block),
        "unblock" => Some(Act::Unblock),
        _ => None,
    }
}

/// What a word asks for with what stands behind it.
fn act_with(name: &str, rest: &str) -> Option<Act>
    ensures said { IfSome result (λ it. (name.now ≡ act_name it) × ActsRest (Some rest.now) it) }
    ensures only { (it : Act) → name.now ≡ act_name it → ActsRest (Some rest.now) it → result ≡ Some it }
{
    match name {
        "ask" => {
            let (conn, index) = stream_of(rest)?;
            Some(Act::Ask(conn, index))
        }
        "await" => Some(Act::Await(awaited_of(rest)?)),
        _ => None,
    }
}

/// What the words behind a node's name ask for.
fn act_of(words: &str) -> Option<Act>
    ensures said { IfSome result (Acts words.now) }
    ensures only { (it : Act) → Acts words.now it → result ≡ Some it }
{
    match pair_of(words) {
        Some((name, rest)) => act_with(name, rest),
        None => act_alone(words),
    }
}

/// The node of this name.
fn node_of(word: &str) -> Option<Name>
    ensures said { IfSome result (λ node. word.now ≡ node_name node) }
    ensures only { (node : Name) → word.now ≡ node_name node → result ≡ Some node }
{
    match word {
        "a" => Some(Name::A),
        "b" => Some(Name::B),
        _ => None,
    }
}

/// What a text says.
fn said_of(text: &str) -> Option<(Name, Act)>
    ensures said { IfSome result (λ said. SaysAct text.now said.0 said.1) }
    ensures only { (node : Name) → (it : Act) → SaysAct text.now node it → result ≡ Some (node, it) }
{
    let (node, words) = pair_of(text)?;
    Some((node_of(node)?, act_of(words)?))
}

/// What a line says; `None` for a line of another form, or one that isn't UTF-8.
pub fn script_line_of(bytes: &[u8]) -> Option<(Name, Act)>
    ensures said { IfSome result (λ said. IsUtf8 bytes.now × SaysAct bytes.now said.0 said.1) }
    ensures only { (node : Name) → (it : Act) → IsUtf8 bytes.now → SaysAct bytes.now node it
        → result ≡ Some (node, it) }
{
    match std::str::from_utf8(bytes) {
        Ok(text) => said_of(text),
        Err(_) => None,
    }
}
