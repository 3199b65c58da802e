//! The names of protocols that an end knows.

ghost use Rattle.std.specs.Prelude.{◌≡◌, ◌<◌, ◌⊎◌, ◌↔◌, length, slice_get, map, Some, Err, IsTrue, IfOk, IfErr, OnOk};
ghost use Rattle.std.specs.Prelude.{string_bytes};
ghost use Rattle.std.specs.List.{All, position};
ghost use Rattle.std.specs.Str.{bytes_eq};
ghost use Rattle.ms_select.specs.Listening.{IsName, is_reserved, choice};

use crate::fault::SelectFault;
use crate::message::{HEADER, LS, NA};
use std::alloc::Global;

/// The longest name, in bytes: with its newline a message of the largest length.
const LONGEST_NAME: usize = 1023;

/// Whether a text has a meaning of its own, so that it is never supported.
fn is_reserved(text: &[u8]) -> bool
    ensures { result ≡ is_reserved text.now }
{
    text == HEADER || text == NA || text == LS
}

fn index_of(names: &[String], text: &[u8]) -> Option<usize>
    ensures { result ≡ position (λ name. bytes_eq (string_bytes name) text.now) names.now }
{
    names.iter().position(|name| name.as_bytes() == text)
}

/// The least index of a name that is proposed.
#[tactic(auto, using(crate::proofs::Lists::position_map))]
pub(crate) fn choice(names: &[String], text: &[u8]) -> Option<usize>
    ensures { result ≡ choice (map string_bytes names.now) text.now }
{
    if is_reserved(text) {
        return None;
    }
    index_of(names, text)
}

/// The bytes of a name.
#[tactic(auto, using(crate::proofs::Lists::get_map))]
pub(crate) fn name_at(names: &[String], index: usize) -> &[u8]
    requires { index < length names.now }
    ensures { slice_get (map string_bytes names.now) index ≡ Some result.now }
{
    names[index].as_bytes()
}

/// Whether each name can be proposed.
fn are_names(names: &[&str]) -> bool
    ensures { IsTrue result ↔ All (λ name. IsName name.now) names.now }
{
    names
        .iter()
        .all(|name| !name.is_empty() && name.len() <= LONGEST_NAME)
}

/// The names, owned.
fn copied(alloc: Global, names: &[&str]) -> Result<Vec<String>, SelectFault>
    ensures names { IfOk result (λ copies. map string_bytes copies.items ≡ map (λ name. name.now) names.now) }
    ensures fault { IfErr result (λ fault. fault ≡ SelectFault.OutOfMemory) }
{
    let mut copies = Vec::new(alloc);
    for name in names {
        copies.push(String::from_str(alloc, *name)?)?;
    }
    Ok(copies)
}

/// The names, owned, where each can be proposed.
pub(crate) fn checked_names(alloc: Global, names: &[&str]) -> Result<Vec<String>, SelectFault>
    ensures names { IfOk result (λ copies. map string_bytes copies.items ≡ map (λ name. name.now) names.now) }
    ensures bad_length { (result ≡ Err SelectFault.BadLength) ↔ ¬ All (λ name. IsName name.now) names.now }
    ensures checked { OnOk result (All (λ name. IsName name.now) names.now) }
    ensures fault { IfErr result (λ fault. (fault ≡ SelectFault.BadLength) ⊎ (fault ≡ SelectFault.OutOfMemory)) }
{
    if !are_names(names) {
        return Err(SelectFault::BadLength);
    }
    copied(alloc, names)
}
