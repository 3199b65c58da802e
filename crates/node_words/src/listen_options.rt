//! The words and options of `node listen`.

ghost use Rattle.std.specs.Prelude.{◌≡◌, ◌⊎◌, ◌↔◌, ℕ, List, map, Err, IfOk, IfErr, codes};
ghost use Rattle.peer_ids.specs.Key.{Key};
ghost use Rattle.pool_state.specs.AgentName.{IsAgentName};
ghost use Rattle.pool_state.specs.declared.limits.Limits.{Limits};
ghost use Rattle.node_words.specs.Words.{word_or, words_in, AreNamed, HasFlag, HasLimits, IsKey};
ghost use Rattle.node_words.specs.Words.{listener_key, any_port, agent_name};

use crate::options::{BadOption, allow_only, limits_of, with_limits};
use crate::trace_options::{hex_option, key_in};
use crate::values::{flag, word_or};
use clap::{Arg, ArgAction, ArgMatches, Command};
use peer_ids::{PeerId, PublicKey};
use pool_state::{Agent, Limits};
use pool_texts::peer_of;
use std::alloc::{AllocError, Global};

/// The message of an Ed25519 key that is a point of the curve: the public key of RFC 8032, section 7.1, TEST 1.
const LISTENER_KEY: &str =
    "08011220d75a980182b10ab7d54bfed3c964073a0ee172f3daa62325af021a68f707511a";

/// Where it listens by default: at a port of 127.0.0.1 that the system gives.
const ANY_PORT: &str = "/ip4/127.0.0.1/tcp/0";

/// The name and version of the program.
const AGENT: &str = "node/0.1.0";

/// What a node that listens is asked for.
#[derive(Drop)]
pub struct Listener<'a> {
    /// The text of its address.
    pub addr: &'a str,
    /// Its own key.
    pub key: PublicKey,
    /// What it calls its program.
    pub agent: &'a str,
    /// What limits its connections.
    pub limits: Limits,
    /// Whether only allowed peers may connect.
    pub allow_only: bool,
    /// The peers that it blocks.
    pub blocked: Vec<PeerId>,
    /// The peers that it allows.
    pub allowed: Vec<PeerId>,
}

/// The word of an address.
pub fn addr_word<'a>(alloc: Global, help: &'static str) -> Arg<'a> {
    Arg::new(alloc, "ADDR").action(ArgAction::Set).help(help)
}

fn agent<'a>(alloc: Global) -> Arg<'a> {
    Arg::new(alloc, "agent")
        .long("agent")
        .value_name("TEXT")
        .help("What it calls its program: 1 to 64 printable ASCII characters")
        .action(ArgAction::Set)
        .default_value(AGENT)
}

/// An option that names a peer, and may stand often.
fn peers<'a>(alloc: Global, name: &'static str, help: &'static str) -> Arg<'a> {
    Arg::new(alloc, name)
        .long(name)
        .value_name("PEER")
        .help(help)
        .action(ArgAction::Append)
}

/// The command of a node that listens.
pub fn listen_command<'a>(alloc: Global) -> Result<Command<'a>, AllocError> {
    let addr = "Where it listens: /ip4/HOST/tcp/PORT or /ip6/HOST/tcp/PORT";
    let key = "Its own key: a public key message in hexadecimal";
    let command = Command::new(alloc, "listen")
        .about("Listens and serves its peers until standard input ends")
        .arg(addr_word(alloc, addr).default_value(ANY_PORT))?
        .arg(hex_option(alloc, "key", key, LISTENER_KEY))?
        .arg(agent(alloc))?;
    with_limits(alloc, command)?
        .arg(peers(
            alloc,
            "block",
            "A peer that it keeps out, by the text of its id or as @hh",
        ))?
        .arg(peers(alloc, "allow", "A peer that it lets in"))?
        .arg(allow_only(alloc))
}

/// The peers that words name.
fn peers_of(alloc: Global, words: &[&str]) -> Result<Vec<PeerId>, BadOption>
    ensures named { IfOk result (λ peers. AreNamed (map (λ word. word.now) words.now) peers.items) }
    ensures refused { IfErr result (λ bad. (bad ≡ BadOption.Listed) ⊎ (bad ≡ BadOption.OutOfMemory)) }
    ensures no_peer { result ≡ Err BadOption.Listed
        → (peers : List (List ℕ)) → ¬ AreNamed (map (λ word. word.now) words.now) peers }
{
    let mut peers = Vec::new(alloc);
    for word in words {
        let Some(peer) = peer_of(word) else {
            return Err(BadOption::Listed);
        };
        if peers.push(peer).is_err() {
            return Err(BadOption::OutOfMemory);
        }
    }
    Ok(peers)
}

/// The peers that an option names.
fn peers_in(alloc: Global, found: &ArgMatches<'_>, name: &str) -> Result<Vec<PeerId>, BadOption>
    ensures named { IfOk result (λ peers. AreNamed (words_in found.now name.now) peers.items) }
    ensures refused { IfErr result (λ bad. (bad ≡ BadOption.Listed) ⊎ (bad ≡ BadOption.OutOfMemory)) }
    ensures no_peer { result ≡ Err BadOption.Listed
        → (peers : List (List ℕ)) → ¬ AreNamed (words_in found.now name.now) peers }
{
    peers_of(alloc, found.get_strs(name).unwrap_or(&[]))
}

/// What a node that listens is asked for, by the words that were found.
pub fn listener_in<'a>(alloc: Global, found: &ArgMatches<'a>) -> Result<Listener<'a>, BadOption>
    ensures addr { IfOk result (λ listener. listener.addr.now ≡ word_or any_port found.now (codes "ADDR")) }
    ensures key { IfOk result (λ listener. IsKey (word_or listener_key found.now (codes "key")) listener.key) }
    ensures agent { IfOk result (λ listener. (listener.agent.now ≡ word_or agent_name found.now (codes "agent"))
        × IsAgentName listener.agent.now) }
    ensures limits { IfOk result (λ listener. HasLimits found.now listener.limits) }
    ensures allow_only { IfOk result (λ listener. HasFlag found.now (codes "allow-only") listener.allow_only) }
    ensures blocked { IfOk result (λ listener. AreNamed (words_in found.now (codes "block")) listener.blocked.items) }
    ensures allowed { IfOk result (λ listener. AreNamed (words_in found.now (codes "allow")) listener.allowed.items) }
    ensures no_agent { (result ≡ Err BadOption.Agent)
        ↔ (¬ IsAgentName (word_or agent_name found.now (codes "agent"))) }
    ensures no_key { result ≡ Err BadOption.Key
        → (key : Key) → ¬ IsKey (word_or listener_key found.now (codes "key")) key }
    ensures no_limits { result ≡ Err BadOption.Number → (limits : Limits) → ¬ HasLimits found.now limits }
    ensures no_peer { result ≡ Err BadOption.Listed → (blocked allowed : List (List ℕ))
        → AreNamed (words_in found.now (codes "block")) blocked
        → AreNamed (words_in found.now (codes "allow")) allowed → ⊥ }
    ensures key_first { (result ≡ Err BadOption.Number) ⊎ (result ≡ Err BadOption.Listed)
        → (key : Key) × IsKey (word_or listener_key found.now (codes "key")) key }
    ensures limits_next { result ≡ Err BadOption.Listed → (limits : Limits) × HasLimits found.now limits }
    ensures refused { IfErr result (λ bad. (bad ≡ BadOption.Agent) ⊎ (bad ≡ BadOption.Key) ⊎ (bad ≡ BadOption.Number)
        ⊎ (bad ≡ BadOption.Listed) ⊎ (bad ≡ BadOption.OutOfMemory)) }
{
    let agent = word_or(found, "agent", AGENT);
    if Agent::from_bytes(agent.as_bytes()).is_none() {
        return Err(BadOption::Agent);
    }
    let key = match key_in(alloc, found, LISTENER_KEY) {
        Ok(key) => key,
        Err(bad) => return Err(bad),
    };
    Ok(Listener {
        addr: word_or(found, "ADDR", ANY_PORT),
        key,
        agent,
        limits: limits_of(found)?,
        allow_only: flag(found, "allow-only"),
        blocked: peers_in(alloc, found, "block")?,
        allowed: peers_in(alloc, found, "allow")?,
    })
}
