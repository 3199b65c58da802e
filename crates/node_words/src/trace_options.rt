//! The words and options of a trace.

ghost use Rattle.std.specs.Prelude.{◌≡◌, ◌≢◌, ◌⊎◌, ◌↔◌, ℕ, List, Ok, Err, Some, IfOk, IfErr, IfSome, codes};
ghost use Rattle.hex.specs.Hex.{decode_of};
ghost use Rattle.peer_ids.specs.Key.{Key};
ghost use Rattle.upgrade.specs.declared.role.ConnRole.{ConnRole};
ghost use Rattle.node_words.specs.Words.{word_or, role_name, IsKey, IsPayload, zero_key, zeros};

use crate::options::BadOption;
use crate::values::word_or;
use clap::{Arg, ArgAction, ArgMatches, Command};
use hex::FromHex;
use node_texts::{IdRefused, key_of};
use peer_ids::PublicKey;
use std::alloc::{AllocError, Global};
use upgrade::ConnRole;

/// The message of the Ed25519 key of 32 bytes 00.
const ZERO_KEY: &str = "080112200000000000000000000000000000000000000000000000000000000000000000";

/// 32 bytes 00.
const ZEROS: &str = "0000000000000000000000000000000000000000000000000000000000000000";

fn role<'a>(alloc: Global) -> Arg<'a> {
    Arg::new(alloc, "ROLE")
        .required(true)
        .action(ArgAction::Set)
        .help("Which end it is: dialer or listener")
}

/// An option in hexadecimal.
pub fn hex_option<'a>(
    alloc: Global,
    name: &'static str,
    help: &'static str,
    default: &'static str,
) -> Arg<'a> {
    Arg::new(alloc, name)
        .long(name)
        .value_name("HEX")
        .help(help)
        .action(ArgAction::Set)
        .default_value(default)
}

/// The command of a trace.
pub fn trace_command<'a>(alloc: Global) -> Result<Command<'a>, AllocError> {
    let key = "Its own key: a public key message in hexadecimal";
    let payload = "What its pings send: 32 bytes in hexadecimal";
    Command::new(alloc, "trace")
        .about("Runs one end of a connection on a script from standard input")
        .arg(role(alloc))?
        .arg(hex_option(alloc, "key", key, ZERO_KEY))?
        .arg(hex_option(alloc, "payload", payload, ZEROS))
}

/// The key that the value of an option spells.
fn key_option(alloc: Global, hex: &str) -> Result<PublicKey, BadOption>
    ensures key { IfOk result (IsKey hex.now) }
    ensures no_key { result ≡ Err BadOption.Key → (key : Key) → ¬ IsKey hex.now key }
    ensures refused { IfErr result (λ bad. (bad ≡ BadOption.Key) ⊎ (bad ≡ BadOption.OutOfMemory)) }
    ensures memory { result ≡ Err BadOption.OutOfMemory → (bytes : List ℕ) × (decode_of hex.now ≡ Ok bytes) }
{
    match key_of(alloc, hex) {
        Ok(key) => Ok(key),
        Err(IdRefused::NotHex) => Err(BadOption::Key),
        Err(IdRefused::Key(_)) => Err(BadOption::Key),
        Err(IdRefused::OutOfMemory) => Err(BadOption::OutOfMemory),
    }
}

/// The key that an option names, or else the other.
pub fn key_in(
    alloc: Global,
    found: &ArgMatches<'_>,
    other: &'static str,
) -> Result<PublicKey, BadOption>
    ensures key { IfOk result (IsKey (word_or other.now found.now (codes "key"))) }
    ensures no_key { result ≡ Err BadOption.Key
        → (key : Key) → ¬ IsKey (word_or other.now found.now (codes "key")) key }
    ensures refused { IfErr result (λ bad. (bad ≡ BadOption.Key) ⊎ (bad ≡ BadOption.OutOfMemory)) }
{
    key_option(alloc, word_or(found, "key", other))
}

/// The end of this name.
fn role_of(word: &str) -> Option<ConnRole>
    ensures named { IfSome result (λ role. word.now ≡ role_name role) }
    ensures only { (role : ConnRole) → word.now ≡ role_name role → result ≡ Some role }
{
    match word {
        "dialer" => Some(ConnRole::Dialer),
        "listener" => Some(ConnRole::Listener),
        _ => None,
    }
}

/// An end that is traced.
#[derive(Drop)]
pub struct Traced {
    /// Which end it is.
    pub role: ConnRole,
    /// Its own key.
    pub key: PublicKey,
    /// What its pings send.
    pub payload: [u8; 32],
}

/// The end that these words name: its role, the message of its key in hexadecimal, and the 32 bytes that its pings
/// send, in hexadecimal. A wrong role is told before a wrong key, and that before a wrong payload. Memory is asked for
/// the key, where its text is hexadecimal.
fn traced_of(alloc: Global, role: &str, key: &str, payload: &str) -> Result<Traced, BadOption>
    ensures role { IfOk result (λ traced. role.now ≡ role_name traced.role) }
    ensures key { IfOk result (λ traced. IsKey key.now traced.key) }
    ensures payload { IfOk result (λ traced. IsPayload payload.now traced.payload) }
    ensures refused { IfErr result (λ bad. (bad ≡ BadOption.Role) ⊎ (bad ≡ BadOption.Key) ⊎ (bad ≡ BadOption.Payload)
        ⊎ (bad ≡ BadOption.OutOfMemory)) }
    ensures no_role { (result ≡ Err BadOption.Role) ↔ ((it : ConnRole) → role.now ≢ role_name it) }
    ensures no_key { result ≡ Err BadOption.Key → (it : Key) → ¬ IsKey key.now it }
    ensures no_payload { result ≡ Err BadOption.Payload → ((it : Key) × IsKey key.now it)
        × ((bytes : List ℕ) → ¬ IsPayload payload.now bytes) }
    ensures memory { result ≡ Err BadOption.OutOfMemory → (bytes : List ℕ) × (decode_of key.now ≡ Ok bytes) }
{
    let role = role_of(role).ok_or(BadOption::Role)?;
    let key = match key_option(alloc, key) {
        Ok(key) => key,
        Err(bad) => return Err(bad),
    };
    match <[u8; 32] as FromHex>::from_hex(payload) {
        Ok(payload) => Ok(Traced { role, key, payload }),
        Err(_) => Err(BadOption::Payload),
    }
}

/// The end that is traced, by the words that were found.
pub fn traced_in(alloc: Global, found: &ArgMatches<'_>) -> Result<Traced, BadOption>
    ensures role { IfOk result (λ traced. word_or (codes "") found.now (codes "ROLE") ≡ role_name traced.role) }
    ensures key { IfOk result (λ traced. IsKey (word_or zero_key found.now (codes "key")) traced.key) }
    ensures payload { IfOk result (λ traced. IsPayload (word_or zeros found.now (codes "payload")) traced.payload) }
    ensures refused { IfErr result (λ bad. (bad ≡ BadOption.Role) ⊎ (bad ≡ BadOption.Key) ⊎ (bad ≡ BadOption.Payload)
        ⊎ (bad ≡ BadOption.OutOfMemory)) }
    ensures no_role { (result ≡ Err BadOption.Role)
        ↔ ((it : ConnRole) → word_or (codes "") found.now (codes "ROLE") ≢ role_name it) }
    ensures no_key { result ≡ Err BadOption.Key
        → (it : Key) → ¬ IsKey (word_or zero_key found.now (codes "key")) it }
    ensures no_payload { result ≡ Err BadOption.Payload
        → ((it : Key) × IsKey (word_or zero_key found.now (codes "key")) it)
        × ((bytes : List ℕ) → ¬ IsPayload (word_or zeros found.now (codes "payload")) bytes) }
    ensures memory { result ≡ Err BadOption.OutOfMemory
        → (bytes : List ℕ) × (decode_of (word_or zero_key found.now (codes "key")) ≡ Ok bytes) }
{
    let key = word_or(found, "key", ZERO_KEY);
    traced_of(
        alloc,
        word_or(found, "ROLE", ""),
        key,
        word_or(found, "payload", ZEROS),
    )
}
