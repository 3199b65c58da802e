//! The run of a trace.

ghost use Rattle.std.specs.Prelude.{◌≡◌, ◌⊎◌, ◌+◌, ◌-◌, ◌^◌, ◌<◌, ℕ, min, List, [], ◌∷◌, ◌++◌, length, Some, Err};
ghost use Rattle.std.specs.Prelude.{OnOk, IfOk, IfSome};
ghost use Rattle.std.specs.Io.KnownBytes.{Appends};
ghost use Rattle.node_protocols.specs.declared.handler.NodeHandler.{NodeHandler};
ghost use Rattle.script_lines.specs.declared.stopped.Stopped.TheVariants as stopped;
ghost use Rattle.script_lines.specs.Texts.{AreLines, HasLine, longest};
ghost use Rattle.trace_script.specs.Played.{Place, SaysNothing};
ghost use Rattle.node_protocols.specs.declared.payloads.FixedPayload.{FixedPayload};
ghost use Rattle.node_protocols.specs.Makes.{Node};
ghost use Rattle.node_trace.specs.Traces.{IsNode, TracePlays};

use node_protocols::{FixedPayload, NodeProtocols, Payloads};
use peer_ids::PublicKey;
use script_lines::Stopped;
use std::alloc::{AllocError, Global};
use std::io::{Read, Write};
use trace_script::trace_new;
use upgrade::ConnRole;

/// The agent that an end names itself.
const AGENT: &str = "node/0.1.0";

fn copy_of(alloc: Global, key: &PublicKey) -> Result<PublicKey, AllocError>
    ensures { IfOk result (λ copy. copy ≡ key.now) }
{
    let body = key.body().to_vec(alloc)?;
    PublicKey::new(key.kind(), body).ok_or(AllocError)
}

/// Plays the script that the input holds on a new end of a connection, of this role and with this key, whose pings send
/// this payload, and prints what it tells and writes. Its protocols are a node's: 0 is identify, 1 its push, and 2 is
/// ping, which alone is eager. It also stops as unwritten where memory is refused to the end.
pub fn trace<I: Read, O: Write>(
    alloc: Global,
    role: ConnRole,
    key: PublicKey,
    payload: [u8; 32],
    input: &mut I,
    output: &mut O,
) -> Result<(), Stopped>
    ensures played { (script : List ℕ) → I.remaining input.old ≡ Some script → OnOk result ((lines : List (List ℕ))
        × (last : List ℕ) × (printed : List ℕ) × (node : Node FixedPayload) × (to : Place NodeHandler)
        × AreLines script lines last × IsNode key payload node
        × TracePlays ⟦<FixedPayload as Payloads>⟧.gives ⟦<FixedPayload as Payloads>⟧.steps node role key
        (lines ++ last ∷ []) printed to
        × Appends (O.contents output.old) (O.contents output.new) printed) }
    ensures refused { (script : List ℕ) → I.remaining input.old ≡ Some script → (number : ℕ)
        → result ≡ Err (stopped.Line number) → (lines : List (List ℕ)) × (bad : List ℕ) × (printed : List ℕ)
        × (node : Node FixedPayload) × (to : Place NodeHandler) × HasLine script lines bad × SaysNothing bad
        × IsNode key payload node
        × TracePlays ⟦<FixedPayload as Payloads>⟧.gives ⟦<FixedPayload as Payloads>⟧.steps node role key
        lines printed to
        × Appends (O.contents output.old) (O.contents output.new) printed
        × (number ≡ min (length lines + 1) (2 ^ 64 - 1)) }
    ensures long { IfSome (I.remaining input.old) (λ script. longest < length script
        → (result ≡ Err stopped.Unread) ⊎ (result ≡ Err stopped.Unwritten)) }
    ensures unread { result ≡ Err stopped.Unread → O.contents output.new ≡ O.contents output.old }
{
    let Ok(shown) = copy_of(alloc, &key) else {
        return Err(Stopped::Unwritten);
    };
    match NodeProtocols::new(alloc, shown, AGENT, FixedPayload { payload }) {
        Ok(protocols) => trace_new(alloc, role, key, protocols, input, output),
        Err(_) => Err(Stopped::Unwritten),
    }
}
