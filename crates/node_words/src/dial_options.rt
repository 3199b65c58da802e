//! The words and options of `node ping` and `node identify`.

ghost use Rattle.std.specs.Prelude.{◌≡◌, ◌⊎◌, ℕ, Err, IfOk, IfErr, codes};
ghost use Rattle.peer_ids.specs.Key.{Key};
ghost use Rattle.node_terms.specs.declared.errand.Errand.TheVariants as errands;
ghost use Rattle.node_words.specs.Words.{word_or, HasNumber, IsKey, dialer_key};

use crate::listen_options::addr_word;
use crate::options::BadOption;
use crate::trace_options::{hex_option, key_in};
use crate::values::{number_32, word_or};
use clap::{Arg, ArgAction, ArgMatches, Command, value_parser};
use node_terms::Errand;
use peer_ids::PublicKey;
use std::alloc::{AllocError, Global};

/// The message of an Ed25519 key that is a point of the curve: the public key of RFC 8032, section 7.1, TEST 2.
const DIALER_KEY: &str = "080112203d4017c3e843895a92b70aa74d1b7ebc9c982ccf2ec4968cc0cd55f12af4660c";

/// What a node that dials is asked for.
#[derive(Drop)]
pub struct Dialer<'a> {
    /// The text of the peer's address.
    pub addr: &'a str,
    /// Its own key.
    pub key: PublicKey,
    /// What it dials the peer for.
    pub errand: Errand,
}

/// A command of a node that dials.
fn command_of<'a>(
    alloc: Global,
    name: &'static str,
    about: &'static str,
) -> Result<Command<'a>, AllocError> {
    let addr = "The peer's address: /ip4/HOST/tcp/PORT or /ip6/HOST/tcp/PORT, and /p2p/ID";
    let key = "Its own key: a public key message in hexadecimal";
    Command::new(alloc, name)
        .about(about)
        .arg(addr_word(alloc, addr).required(true))?
        .arg(hex_option(alloc, "key", key, DIALER_KEY))
}

fn count<'a>(alloc: Global) -> Arg<'a> {
    Arg::new(alloc, "count")
        .long("count")
        .value_name("N")
        .help("How many pings, one after the other")
        .action(ArgAction::Set)
        .value_parser(value_parser!(u32).range(1..=4_294_967_295))
        .default_value("1")
}

/// The command of a node that pings a peer.
pub fn ping_command<'a>(alloc: Global) -> Result<Command<'a>, AllocError> {
    command_of(alloc, "ping", "Pings a peer")?.arg(count(alloc))
}

/// The command of a node that asks a peer what it is.
pub fn identify_command<'a>(alloc: Global) -> Result<Command<'a>, AllocError> {
    command_of(alloc, "identify", "Prints what a peer says of itself")
}

/// What a node that dials is asked for, by the words that were found.
fn dialer_in<'a>(
    alloc: Global,
    found: &ArgMatches<'a>,
    errand: Errand,
) -> Result<Dialer<'a>, BadOption>
    ensures addr { IfOk result (λ dialer. dialer.addr.now ≡ word_or (codes "") found.now (codes "ADDR")) }
    ensures key { IfOk result (λ dialer. IsKey (word_or dialer_key found.now (codes "key")) dialer.key) }
    ensures errand { IfOk result (λ dialer. dialer.errand ≡ errand) }
    ensures refused { IfErr result (λ bad. (bad ≡ BadOption.Key) ⊎ (bad ≡ BadOption.OutOfMemory)) }
    ensures no_key { result ≡ Err BadOption.Key
        → (key : Key) → ¬ IsKey (word_or dialer_key found.now (codes "key")) key }
{
    match key_in(alloc, found, DIALER_KEY) {
        Ok(key) => Ok(Dialer {
            addr: word_or(found, "ADDR", ""),
            key,
            errand,
        }),
        Err(bad) => Err(bad),
    }
}

/// What a node that pings is asked for.
pub fn pinger_in<'a>(alloc: Global, found: &ArgMatches<'a>) -> Result<Dialer<'a>, BadOption>
    ensures addr { IfOk result (λ dialer. dialer.addr.now ≡ word_or (codes "") found.now (codes "ADDR")) }
    ensures key { IfOk result (λ dialer. IsKey (word_or dialer_key found.now (codes "key")) dialer.key) }
    ensures errand { IfOk result (λ dialer. (count : ℕ) × HasNumber 32 found.now (codes "count") count
        × (dialer.errand ≡ errands.Ping count)) }
    ensures refused { IfErr result (λ bad. (bad ≡ BadOption.Number) ⊎ (bad ≡ BadOption.Key)
        ⊎ (bad ≡ BadOption.OutOfMemory)) }
    ensures no_number { result ≡ Err BadOption.Number
        → (count : ℕ) → ¬ HasNumber 32 found.now (codes "count") count }
    ensures no_key { result ≡ Err BadOption.Key
        → (key : Key) → ¬ IsKey (word_or dialer_key found.now (codes "key")) key }
    ensures count_first { result ≡ Err BadOption.Key
        → (count : ℕ) × HasNumber 32 found.now (codes "count") count }
{
    match number_32(found, "count") {
        Some(count) => dialer_in(alloc, found, Errand::Ping(count)),
        None => Err(BadOption::Number),
    }
}

/// What a node is asked for that asks a peer what it is.
pub fn identifier_in<'a>(alloc: Global, found: &ArgMatches<'a>) -> Result<Dialer<'a>, BadOption>
    ensures addr { IfOk result (λ dialer. dialer.addr.now ≡ word_or (codes "") found.now (codes "ADDR")) }
    ensures key { IfOk result (λ dialer. IsKey (word_or dialer_key found.now (codes "key")) dialer.key) }
    ensures errand { IfOk result (λ dialer. dialer.errand ≡ errands.Identify) }
    ensures refused { IfErr result (λ bad. (bad ≡ BadOption.Key) ⊎ (bad ≡ BadOption.OutOfMemory)) }
    ensures no_key { result ≡ Err BadOption.Key
        → (key : Key) → ¬ IsKey (word_or dialer_key found.now (codes "key")) key }
{
    dialer_in(alloc, found, Errand::Identify)
}
