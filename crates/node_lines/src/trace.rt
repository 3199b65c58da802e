//! The lines of a trace: what comes to an end of a connection, and what it is asked for.

ghost use Rattle.std.specs.Prelude.{◌≡◌, ℕ, List, Some, None, Ok, IfOk, IfErr, IfSome, IsUtf8, vec_items};
ghost use Rattle.pool_texts.specs.Lines.{IsNumber};
ghost use Rattle.node_lines.specs.declared.trace.TraceLine.{TraceLine};
ghost use Rattle.node_lines.specs.Trace.{SpellsBytes, IsCut, trace_name, TraceRest, SaysTrace};
ghost use Rattle.node_lines.specs.Trace.{RestHoldsBytes, HoldsBytes};

use hex::FromHexError;
use node_texts::are_pairs;
use pool_texts::{digits, pair_of};
use std::alloc::{AllocError, Global};

/// A line of a trace.
#[derive(Drop)]
pub enum TraceLine {
    /// These bytes come.
    Feed(Vec<u8>),
    /// These bytes come in pieces of so many, the last one perhaps of fewer.
    Cut(usize, Vec<u8>),
    /// A stream is asked for, for the protocol of this index.
    Ask(usize),
    /// What was written is to be printed.
    Out,
    /// The input ends.
    End,
}

/// A number.
fn number_of(word: &str) -> Option<usize>
    ensures written { IfSome result (IsNumber 64 word.now) }
    ensures only { (number : ℕ) → IsNumber 64 word.now number → result ≡ Some number }
{
    digits(word)?.parse().ok()
}

/// The bytes that a word spells in hexadecimal; `None` where it spells none.
fn bytes_of(alloc: Global, word: &str) -> Result<Option<Vec<u8>>, AllocError>
    ensures spelt { IfOk result (λ found. IfSome found (λ bytes. SpellsBytes word.now (vec_items bytes))) }
    ensures unspelt { result ≡ Ok None → (bytes : List ℕ) → ¬ SpellsBytes word.now bytes }
    ensures memory { IfErr result (λ e. (bytes : List ℕ) × SpellsBytes word.now bytes) }
{
    if !are_pairs(word) {
        return Ok(None);
    }
    match hex::decode(alloc, word) {
        Ok(bytes) => Ok(Some(bytes)),
        Err(FromHexError::OutOfMemory) => Err(AllocError),
        Err(_) => Ok(None),
    }
}

/// The size of a piece, and its bytes.
#[tactic(auto, unfolding(crate::specs::Trace::IsCut))]
fn cut_of(alloc: Global, words: &str) -> Result<Option<(usize, Vec<u8>)>, AllocError>
    ensures spelt { IfOk result (λ found. IfSome found (λ cut. IsCut words.now cut.0 (vec_items cut.1))) }
    ensures unspelt { result ≡ Ok None → (size : ℕ) → (bytes : List ℕ) → ¬ IsCut words.now size bytes }
    ensures memory { IfErr result (λ e. (size : ℕ) × (bytes : List ℕ) × IsCut words.now size bytes) }
{
    let Some((size, word)) = pair_of(words) else {
        return Ok(None);
    };
    match number_of(size) {
        None | Some(0) => Ok(None),
        Some(size) => match bytes_of(alloc, word)? {
            Some(bytes) => Ok(Some((size, bytes))),
            None => Ok(None),
        },
    }
}

/// What a name says with what stands behind it.
fn said_with(alloc: Global, name: &str, rest: &str) -> Result<Option<TraceLine>, AllocError>
    ensures said { IfOk result (λ found. IfSome found (λ it. (name.now ≡ trace_name it)
        × TraceRest (Some rest.now) it)) }
    ensures unsaid { result ≡ Ok None → (it : TraceLine) → name.now ≡ trace_name it
        → ¬ TraceRest (Some rest.now) it }
    ensures memory { IfErr result (λ e. RestHoldsBytes name.now rest.now) }
{
    match name {
        "feed" => match bytes_of(alloc, rest)? {
            Some(bytes) => Ok(Some(TraceLine::Feed(bytes))),
            None => Ok(None),
        },
        "cut" => match cut_of(alloc, rest)? {
            Some((size, bytes)) => Ok(Some(TraceLine::Cut(size, bytes))),
            None => Ok(None),
        },
        "ask" => match number_of(rest) {
            Some(index) => Ok(Some(TraceLine::Ask(index))),
            None => Ok(None),
        },
        _ => Ok(None),
    }
}

/// What a word says by itself.
fn said_alone(word: &str) -> Option<TraceLine>
    ensures said { IfSome result (λ it. (word.now ≡ trace_name it) × TraceRest None it) }
    ensures unsaid { result ≡ None → (it : TraceLine) → word.now ≡ trace_name it → ¬ TraceRest None it }
{
    match word {
        "out" => Some(TraceLine::Out),
        "end" => Some(TraceLine::End),
        _ => None,
    }
}

/// What a text says.
fn said_of(alloc: Global, text: &str) -> Result<Option<TraceLine>, AllocError>
    ensures said { IfOk result (λ found. IfSome found (SaysTrace text.now)) }
    ensures unsaid { result ≡ Ok None → (it : TraceLine) → ¬ SaysTrace text.now it }
    ensures memory { IfErr result (λ e. HoldsBytes text.now) }
{
    match pair_of(text) {
        Some((name, rest)) => said_with(alloc, name, rest),
        None => Ok(said_alone(text)),
    }
}

/// What a line says; `None` for a line of another form, or one that isn't UTF-8. Memory is asked for only for bytes
/// that it holds.
pub fn trace_line_of(alloc: Global, bytes: &[u8]) -> Result<Option<TraceLine>, AllocError>
    ensures said { IfOk result (λ found. IfSome found (λ it. IsUtf8 bytes.now × SaysTrace bytes.now it)) }
    ensures unsaid { result ≡ Ok None → (it : TraceLine) → IsUtf8 bytes.now → ¬ SaysTrace bytes.now it }
    ensures memory { IfErr result (λ e. IsUtf8 bytes.now × HoldsBytes bytes.now) }
{
    match std::str::from_utf8(bytes) {
        Ok(text) => said_of(alloc, text),
        Err(_) => Ok(None),
    }
}
