//! A server is fed all that a client has sent.

ghost use Rattle.std.specs.Prelude.{◌≡◌, List, [], All, IfOk};
ghost use Rattle.yamux_session.specs.declared.event.Role.TheVariants.{Client};
ghost use Rattle.yamux_session.specs.History.{Item};
ghost use Rattle.yamux_session.specs.Output.{output};
ghost use Rattle.yamux_session.specs.Joined.{Joined, at_first};
ghost use Rattle.clients.specs.Sessions.{end};
ghost use Rattle.clients.specs.Runs.{HearsRun, HearsSent, IsOwn};

use std::alloc::{AllocError, Global};
use yamux_frames::laws::one_reading;
use yamux_session::laws::{
    joined_are_answered, no_fault, nothing_is_lost, received_data, they_go_on,
};
use yamux_session::{Act, Ran, Role, run};

/// Feeds a new server all bytes that a client has sent.
fn hear_sent(alloc: Global, sent: &[u8]) -> Result<Ran, AllocError>
    ensures { IfOk result (λ server. (past : List Item) → Joined (end past []) at_first → sent.now ≡ output Client past
        → HearsSent past sent.now server.answers.items) }
{
    let bytes = sent.to_vec(alloc)?;
    joined_are_answered();
    no_fault();
    nothing_is_lost();
    one_reading();
    received_data();
    they_go_on();
    run(alloc, Role::Server, &[Act::Feed(bytes)])
}

/// Runs a client that makes these calls, none of which is a feed, and feeds a server all that the client has sent.
/// Unless the server runs out of memory it meets no fault, and of each stream it hears what the client's writes let
/// through. Returns both runs, the client's first.
pub fn hear_run(alloc: Global, acts: &[Act]) -> Result<(Ran, Ran), AllocError>
    requires own { All IsOwn acts.now }
    ensures { IfOk result (λ both. HearsRun acts.now both.0 both.1) }
{
    let client = run(alloc, Role::Client, acts)?;
    let server = hear_sent(alloc, &client.output)?;
    Ok((client, server))
}
