//! What is printed of replies and listings.

ghost use Rattle.std.specs.Prelude.{◌≡◌, List, ℕ, [], ◌∷◌, ◌++◌, flat_map, OnOk};
ghost use Rattle.std.specs.Io.KnownBytes.{Appends};
ghost use Rattle.peer_ids.specs.Base32.{id_text};
ghost use Rattle.pool_state.specs.declared.row.Row.{Row};
ghost use Rattle.pool_texts.specs.Printed.{line, refusal_name, reply_text, side_text, phase_text, peer_text};
ghost use Rattle.pool_texts.specs.Printed.{counts_text, agent_text, row_text, listing_text};

use peer_ids::PeerId;
use pool_state::{Agent, ConnSide, Listing, Phase, Refusal, Reply, Row};
use std::io;
use std::io::Write;

/// Prints a reply in a line that begins so.
pub fn print_reply<O: Write>(begin: &str, reply: &Reply, output: &mut O) -> io::Result<()>
    ensures printed { OnOk result (Appends (O.contents output.old) (O.contents output.new)
        (line begin.now (reply_text reply.now))) }
{
    match *reply {
        Reply::Conn(conn) => writeln!(output, "{begin}conn {conn}"),
        Reply::Done => writeln!(output, "{begin}ok"),
        Reply::Count(count) => writeln!(output, "{begin}count {count}"),
        Reply::Refused(refusal) => {
            let (number, name) = (refusal.number(), refusal_name(refusal));
            writeln!(output, "{begin}refused {number} {name}")
        }
    }
}

/// The name of a refusal, as its documentation has it.
fn refusal_name(refusal: Refusal) -> &'static str
    ensures { result.now ≡ refusal_name refusal }
{
    match refusal {
        Refusal::Spent => "Spent",
        Refusal::OutOfMemory => "OutOfMemory",
        Refusal::NoConn => "NoConn",
        Refusal::Closing => "Closing",
        Refusal::NotPending => "NotPending",
        Refusal::NotLive => "NotLive",
        Refusal::BadProtocol => "BadProtocol",
        Refusal::SelfPeer => "SelfPeer",
        Refusal::Mismatch => "Mismatch",
        Refusal::Blocked => "Blocked",
        Refusal::Full => "Full",
        Refusal::PeerFull => "PeerFull",
        Refusal::StreamsFull => "StreamsFull",
        Refusal::NothingAsked => "NothingAsked",
        Refusal::BlockFull => "BlockFull",
        Refusal::IdsExhausted => "IdsExhausted",
        Refusal::SideFull => "SideFull",
        Refusal::NotAllowed => "NotAllowed",
        Refusal::AllowFull => "AllowFull",
    }
}

/// Prints a listing in lines that each begin so: the front, the connections by their numbers, the peers that are
/// blocked and those that are allowed, each in the order in which they came to be, and `end`.
pub fn print_listing<O: Write>(begin: &str, listing: &Listing, output: &mut O) -> io::Result<()>
    ensures printed { OnOk result (Appends (O.contents output.old) (O.contents output.new)
        (listing_text begin.now listing.now)) }
{
    writeln!(output, "{begin}front {}", listing.front)?;
    print_rows(begin, listing.conns.as_slice(), output)?;
    print_peers(begin, "blocked", listing.blocked.as_slice(), output)?;
    print_peers(begin, "allowed", listing.allowed.as_slice(), output)?;
    writeln!(output, "{begin}end")
}

fn print_rows<O: Write>(begin: &str, rows: &[Row], output: &mut O) -> io::Result<()>
    ensures printed { OnOk result (Appends (O.contents output.old) (O.contents output.new)
        (flat_map (λ row. line begin.now (row_text row)) rows.now)) }
{
    for row in rows {
        print_row(begin, row, output)?;
    }
    Ok(())
}

/// Prints each peer behind a word.
fn print_peers<O: Write>(
    begin: &str,
    word: &str,
    peers: &[PeerId],
    output: &mut O,
) -> io::Result<()>
    ensures printed { OnOk result (Appends (O.contents output.old) (O.contents output.new)
        (flat_map (λ peer. line begin.now (word.now ++ 32 ∷ id_text peer)) peers.now)) }
{
    for peer in peers {
        writeln!(output, "{begin}{word} {peer}")?;
    }
    Ok(())
}

fn print_row<O: Write>(begin: &str, row: &Row, output: &mut O) -> io::Result<()>
    ensures printed { OnOk result (Appends (O.contents output.old) (O.contents output.new)
        (line begin.now (row_text row.now))) }
{
    let (side, phase) = (side_word(row.role), phase_word(row.phase));
    write!(output, "{begin}conn {} {side} {phase} ", row.conn)?;
    print_peer(&row.peer, output)?;
    print_counts(&row.asked, &row.done, output)?;
    print_agent(&row.agent, output)
}

fn side_word(side: ConnSide) -> &'static str
    ensures { result.now ≡ side_text side }
{
    match side {
        ConnSide::Dialer => "dialer",
        ConnSide::Listener => "listener",
    }
}

fn phase_word(phase: Phase) -> &'static str
    ensures { result.now ≡ phase_text phase }
{
    match phase {
        Phase::Pending => "pending",
        Phase::Live => "live",
        Phase::Closing => "closing",
    }
}

fn print_peer<O: Write>(peer: &Option<PeerId>, output: &mut O) -> io::Result<()>
    ensures printed { OnOk result (Appends (O.contents output.old) (O.contents output.new) (peer_text peer.now)) }
{
    match peer {
        Some(peer) => write!(output, "{peer}"),
        None => write!(output, "-"),
    }
}

#[tactic(auto, unfolding(crate::specs::Printed::counts_text))]
fn print_counts<O: Write>(asked: &[u64; 3], done: &[u64; 3], output: &mut O) -> io::Result<()>
    ensures printed { OnOk result (Appends (O.contents output.old) (O.contents output.new)
        (counts_text asked.now done.now)) }
{
    write!(
        output,
        " {}/{} {}/{} {}/{}",
        asked[0], done[0], asked[1], done[1], asked[2], done[2]
    )
}

/// Prints the agent, where there is one, and the end of its line.
fn print_agent<O: Write>(agent: &Option<Agent>, output: &mut O) -> io::Result<()>
    ensures printed { OnOk result (Appends (O.contents output.old) (O.contents output.new)
        (agent_text agent.now ++ 10 ∷ [])) }
{
    match agent {
        Some(agent) => writeln!(output, " agent {}", agent_word(agent)),
        None => writeln!(output),
    }
}

/// The name of an agent, which is ASCII.
fn agent_word(agent: &Agent) -> &str
    ensures { result.now ≡ agent.now }
{
    std::str::from_utf8(agent.as_bytes()).unwrap_or("")
}
