//! The options of a pool: its limits, and the peers that they name; and what a replay's pool is made with.

ghost use Rattle.std.specs.Prelude.{◌≡◌, ◌⊎◌, ℕ, List, IfOk, IfErr, IfSome, IsSome, OnErr, Some, Err, codes};
ghost use Rattle.pool_state.specs.declared.limits.Limits.{Limits};
ghost use Rattle.pool_texts.specs.Lines.{IsPeer};
ghost use Rattle.node_words.specs.Words.{word_or, HasNumber, HasFlag, HasLimits};

use crate::values::{flag, number_32, number_64, word_or};
use clap::{Arg, ArgAction, ArgMatches, Command, value_parser};
use pool_state::{Config, Limits};
use pool_texts::peer_of;
use std::alloc::{AllocError, Global};
use thiserror::Error;

/// An option that is a number of a range.
struct NumberOption {
    name: &'static str,
    help: &'static str,
    default: &'static str,
    least: i64,
    most: i64,
}

static LIMITS: [NumberOption; 7] = [
    NumberOption {
        name: "conns",
        help: "How many connections may stand",
        default: "64",
        least: 1,
        most: 256,
    },
    NumberOption {
        name: "per-peer",
        help: "How many of one peer",
        default: "8",
        least: 1,
        most: 8,
    },
    NumberOption {
        name: "streams",
        help: "How many open streams on one connection",
        default: "64",
        least: 1,
        most: 64,
    },
    NumberOption {
        name: "blocked",
        help: "How many peers may be blocked",
        default: "64",
        least: 0,
        most: 64,
    },
    NumberOption {
        name: "inbound",
        help: "How many accepted connections may stand",
        default: "256",
        least: 0,
        most: 256,
    },
    NumberOption {
        name: "outbound",
        help: "How many dialed connections may stand",
        default: "256",
        least: 0,
        most: 256,
    },
    NumberOption {
        name: "allowed",
        help: "How many peers may be allowed",
        default: "64",
        least: 0,
        most: 64,
    },
];

static FIRST_CONN: NumberOption = NumberOption {
    name: "first-conn",
    help: "The first connection's number",
    default: "1",
    least: 0,
    most: 4_294_967_295,
};

/// The front's option, whose range is no range of `clap`'s.
const FIRST_FRONT: &str = "first-front";

fn number<'a>(alloc: Global, number: &'static NumberOption) -> Arg<'a> {
    Arg::new(alloc, number.name)
        .long(number.name)
        .value_name("N")
        .help(number.help)
        .action(ArgAction::Set)
        .value_parser(value_parser!(u32).range(number.least..=number.most))
        .default_value(number.default)
}

fn own<'a>(alloc: Global) -> Arg<'a> {
    Arg::new(alloc, "own")
        .long("own")
        .value_name("PEER")
        .help("The node's own peer: the text of an id, or @hh for the key of 32 bytes hh")
        .action(ArgAction::Set)
        .default_value("@00")
}

fn first_front<'a>(alloc: Global) -> Arg<'a> {
    Arg::new(alloc, FIRST_FRONT)
        .long(FIRST_FRONT)
        .value_name("N")
        .help("The front of the empty history")
        .action(ArgAction::Set)
        .value_parser(value_parser!(u64))
        .default_value("0")
}

/// The option by which only allowed peers may connect.
pub fn allow_only<'a>(alloc: Global) -> Arg<'a> {
    Arg::new(alloc, "allow-only")
        .long("allow-only")
        .help("Only allowed peers may connect")
        .action(ArgAction::SetTrue)
}

/// The command with the options of a pool's limits.
pub fn with_limits<'a>(alloc: Global, command: Command<'a>) -> Result<Command<'a>, AllocError> {
    let mut command = command;
    for option in &LIMITS {
        command = command.arg(number(alloc, option))?;
    }
    Ok(command)
}

/// The command of a replay.
pub fn replay_command<'a>(alloc: Global) -> Result<Command<'a>, AllocError> {
    let command = Command::new(alloc, "replay")
        .about("Runs a script of pool calls from standard input")
        .arg(own(alloc))?;
    with_limits(alloc, command)?
        .arg(number(alloc, &FIRST_CONN))?
        .arg(first_front(alloc))?
        .arg(allow_only(alloc))
}

/// An option whose value is none, where the parser of the command line knows no better.
#[derive(Clone, Copy, Debug, PartialEq, Eq, Error)]
pub enum BadOption {
    /// The own peer is no peer.
    #[error("the peer of '--own' is none")]
    Peer,
    /// A number has a sign.
    #[error("a number is digits alone")]
    Number,
    /// An end of a connection is none.
    #[error("the role is 'dialer' or 'listener'")]
    Role,
    /// A key message is none.
    #[error("the value of '--key' is no key message in hexadecimal")]
    Key,
    /// An agent is none.
    #[error("the value of '--agent' is not 1 to 64 printable ASCII characters")]
    Agent,
    /// A peer that is blocked or allowed is none.
    #[error("the value of '--block' or '--allow' is no peer")]
    Listed,
    /// A ping's payload is none.
    #[error("the value of '--payload' is not 32 bytes in hexadecimal")]
    Payload,
    /// A growth was refused.
    #[error("out of memory")]
    OutOfMemory,
}

fn limit(found: &ArgMatches<'_>, name: &str) -> Option<usize>
    ensures written { IfSome result (HasNumber 32 found.now name.now) }
    ensures only { (number : ℕ) → HasNumber 32 found.now name.now number → result ≡ Some number }
{
    Some(number_32(found, name)? as usize)
}

fn limits_in(found: &ArgMatches<'_>) -> Option<Limits>
    ensures limits { IfSome result (HasLimits found.now) }
    ensures only { (limits : Limits) → HasLimits found.now limits → IsSome result }
{
    Limits::new(
        limit(found, "conns")?,
        limit(found, "per-peer")?,
        limit(found, "streams")?,
        limit(found, "blocked")?,
        limit(found, "inbound")?,
        limit(found, "outbound")?,
        limit(found, "allowed")?,
    )
}

/// The limits of a pool, by the options that were found.
pub fn limits_of(found: &ArgMatches<'_>) -> Result<Limits, BadOption>
    ensures limits { IfOk result (HasLimits found.now) }
    ensures refused { OnErr result (result ≡ Err BadOption.Number) }
    ensures no_limits { OnErr result ((limits : Limits) → ¬ HasLimits found.now limits) }
{
    limits_in(found).ok_or(BadOption::Number)
}

/// What a replay's pool is made with, by the options that were found.
pub fn config_of(found: &ArgMatches<'_>) -> Result<Config, BadOption>
    ensures own { IfOk result (λ config. IsPeer (word_or (codes "") found.now (codes "own")) config.own) }
    ensures limits { IfOk result (λ config. HasLimits found.now config.limits) }
    ensures first_conn { IfOk result (λ config. HasNumber 32 found.now (codes "first-conn") config.first_conn) }
    ensures first_front { IfOk result (λ config. HasNumber 64 found.now (codes "first-front") config.first_front) }
    ensures allow_only { IfOk result (λ config. HasFlag found.now (codes "allow-only") config.allow_only) }
    ensures refused { IfErr result (λ bad. (bad ≡ BadOption.Number) ⊎ (bad ≡ BadOption.Peer)) }
    ensures no_peer { result ≡ Err BadOption.Peer
        → (id : List ℕ) → ¬ IsPeer (word_or (codes "") found.now (codes "own")) id }
    ensures no_number { result ≡ Err BadOption.Number → (limits : Limits) (conn front : ℕ)
        → HasLimits found.now limits → HasNumber 32 found.now (codes "first-conn") conn
        → HasNumber 64 found.now (codes "first-front") front → ⊥ }
    ensures peer_last { result ≡ Err BadOption.Peer → (limits : Limits) × (conn : ℕ) × (front : ℕ)
        × HasLimits found.now limits × HasNumber 32 found.now (codes "first-conn") conn
        × HasNumber 64 found.now (codes "first-front") front }
{
    let limits = limits_of(found)?;
    let Some(first_conn) = number_32(found, "first-conn") else {
        return Err(BadOption::Number);
    };
    let Some(first_front) = number_64(found, "first-front") else {
        return Err(BadOption::Number);
    };
    match peer_of(word_or(found, "own", "")) {
        Some(own) => Ok(Config {
            own,
            limits,
            first_conn,
            first_front,
            allow_only: flag(found, "allow-only"),
        }),
        None => Err(BadOption::Peer),
    }
}
