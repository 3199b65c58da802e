//! What the words of a command line ask for.

ghost use Rattle.std.specs.Prelude.{◌≡◌, Some, Ok, IfOk, option_map, codes};
ghost use Rattle.node_words.specs.declared.command.Asked.TheVariants as asked;
ghost use Rattle.clap.specs.Matches.{subcommand_name_of, found_of};
ghost use Rattle.clap.specs.Simple.{subcommand_rows_of};
ghost use Rattle.clap.specs.Walk.{rows_of};
ghost use Rattle.clap.specs.declared.parser.matches.ArgMatches.{ArgMatches};
ghost use Rattle.node_words.specs.Asking.{subcommand_of, Asks};

use crate::dial_options::{Dialer, identifier_in, identify_command, ping_command, pinger_in};
use crate::listen_options::{Listener, listen_command, listener_in};
use crate::options::{BadOption, config_of, replay_command};
use crate::trace_options::{Traced, trace_command, traced_in};
use clap::error::ErrorKind;
use clap::{Arg, ArgAction, ArgMatches, Command, Error};
use pool_state::Config;
use std::alloc::{AllocError, Global};

/// What a command line asks for.
#[derive(Drop)]
pub enum Asked<'a> {
    /// The text of the id of a key message in hexadecimal.
    Id(&'a str),
    /// The multihash of the text of an id.
    Hash(&'a str),
    /// The bytes and the printed text of an address.
    Addr(&'a str),
    /// A script of pool calls, on a pool that is made with this.
    Replay(Config),
    /// A script of what comes to an end of a connection, and what it is asked for.
    Trace(Traced),
    /// A script on two nodes.
    Run,
    /// A node that listens.
    Listen(Listener<'a>),
    /// A node that dials a peer.
    Dial(Dialer<'a>),
}

/// Why a command line asks for nothing.
pub enum Unasked {
    /// It asks for help or the version, which is this text.
    Told(Error),
    /// It is bad, as this text says.
    Bad(Error),
    /// An option or a word has a value that is none.
    BadOption(BadOption),
    /// It could not be read.
    OutOfMemory,
}

/// A subcommand with one word.
struct Worded {
    name: &'static str,
    about: &'static str,
    word: &'static str,
    help: &'static str,
}

static WORDED: [Worded; 3] = [
    Worded {
        name: "id",
        about: "Prints the text of the peer id of a public key",
        word: "HEX",
        help: "A public key message in hexadecimal",
    },
    Worded {
        name: "hash",
        about: "Prints the multihash of a peer id in hexadecimal",
        word: "TEXT",
        help: "The text of a peer id",
    },
    Worded {
        name: "addr",
        about: "Prints the bytes of a multiaddr in hexadecimal, and its text",
        word: "TEXT",
        help: "The text of a multiaddr",
    },
];

fn with_word<'a>(alloc: Global, it: &'static Worded) -> Result<Command<'a>, AllocError> {
    let word = Arg::new(alloc, it.word)
        .required(true)
        .action(ArgAction::Set)
        .help(it.help);
    Command::new(alloc, it.name).about(it.about).arg(word)
}

fn node<'a>(alloc: Global) -> Result<Command<'a>, AllocError> {
    let node = Command::new(alloc, "node")
        .no_binary_name(true)
        .bin_name("node")?
        .version("0.1.0")
        .about("A libp2p node's peers and connections")
        .subcommand_required(true);
    Ok(node)
}

fn run_command<'a>(alloc: Global) -> Command<'a> {
    Command::new(alloc, "run").about(
        "Runs a script from standard input on two nodes that talk over 127.0.0.1",
    )
}

/// The command with a subcommand. No step that can fail lets go of the command, which would cost a proof.
fn add<'a>(
    command: Command<'a>,
    made: Result<Command<'a>, AllocError>,
) -> Result<Command<'a>, AllocError> {
    command.subcommand(made?)
}

/// The command with the subcommands of one word.
fn with_worded<'a>(alloc: Global, command: Command<'a>) -> Result<Command<'a>, AllocError> {
    let mut command = command;
    for it in &WORDED {
        command = add(command, with_word(alloc, it))?;
    }
    Ok(command)
}

fn command<'a>(alloc: Global) -> Result<Command<'a>, AllocError> {
    let command = with_worded(alloc, node(alloc)?)?;
    let command = add(command, replay_command(alloc))?;
    let command = add(command, trace_command(alloc))?;
    let command = add(command, Ok(run_command(alloc)))?;
    let command = add(command, listen_command(alloc))?;
    let command = add(command, ping_command(alloc))?;
    add(command, identify_command(alloc))
}

/// What the words ask for, where they are a good command line.
fn parse<'a>(alloc: Global, words: &'a [&'a str]) -> Result<Result<Asked<'a>, BadOption>, Error> {
    let matches = command(alloc)?.try_get_matches_from(words)?;
    Ok(asked_of(alloc, &matches))
}

/// What the words of a subcommand of this name ask for. Each that has a word needs it.
fn asked_in<'a>(alloc: Global, name: &str, found: &ArgMatches<'a>) -> Result<Asked<'a>, BadOption>
    ensures words { IfOk result (Asks found.now) }
    ensures name { IfOk result (λ asked. name.now ≡ subcommand_of asked) }
    ensures run { name.now ≡ codes "run" → result ≡ Ok asked.Run }
{
    match name {
        "id" => match found.get_str("HEX") {
            Some(hex) => Ok(Asked::Id(hex)),
            None => Err(BadOption::Number),
        },
        "hash" => match found.get_str("TEXT") {
            Some(text) => Ok(Asked::Hash(text)),
            None => Err(BadOption::Number),
        },
        "addr" => match found.get_str("TEXT") {
            Some(text) => Ok(Asked::Addr(text)),
            None => Err(BadOption::Number),
        },
        "replay" => match config_of(found) {
            Ok(config) => Ok(Asked::Replay(config)),
            Err(bad) => Err(bad),
        },
        "run" => Ok(Asked::Run),
        "trace" => match traced_in(alloc, found) {
            Ok(traced) => Ok(Asked::Trace(traced)),
            Err(bad) => Err(bad),
        },
        "listen" => match listener_in(alloc, found) {
            Ok(listener) => Ok(Asked::Listen(listener)),
            Err(bad) => Err(bad),
        },
        "ping" => match pinger_in(alloc, found) {
            Ok(dialer) => Ok(Asked::Dial(dialer)),
            Err(bad) => Err(bad),
        },
        "identify" => match identifier_in(alloc, found) {
            Ok(dialer) => Ok(Asked::Dial(dialer)),
            Err(bad) => Err(bad),
        },
        _ => Err(BadOption::Number),
    }
}

/// What the words that were found ask for.
fn asked_of<'a>(alloc: Global, matches: &ArgMatches<'a>) -> Result<Asked<'a>, BadOption>
    ensures run { subcommand_name_of matches.now ≡ Some (codes "run") → result ≡ Ok asked.Run }
    ensures name { IfOk result (λ asked. subcommand_name_of matches.now ≡ Some (subcommand_of asked)) }
    ensures words { IfOk result (λ asked. (found : ArgMatches)
        × (option_map (λ it. it.1) (subcommand_rows_of matches.now) ≡ Some (rows_of (found_of found)))
        × Asks found asked) }
{
    match matches.subcommand() {
        Some((name, found)) => asked_in(alloc, name, found),
        None => Err(BadOption::Number),
    }
}

/// Reads the words behind the program's name.
pub fn read<'a>(alloc: Global, words: &'a [&'a str]) -> Result<Asked<'a>, Unasked> {
    match parse(alloc, words) {
        Ok(Ok(asked)) => Ok(asked),
        Ok(Err(BadOption::OutOfMemory)) => Err(Unasked::OutOfMemory),
        Ok(Err(bad)) => Err(Unasked::BadOption(bad)),
        Err(error) => Err(unasked_of(error)),
    }
}

/// Why a command line asks for nothing that the parser refuses.
fn unasked_of(error: Error) -> Unasked {
    if error.kind() == ErrorKind::OutOfMemory {
        return Unasked::OutOfMemory;
    }
    if error.use_stderr() {
        Unasked::Bad(error)
    } else {
        Unasked::Told(error)
    }
}
