//! A script that is read and then played.

ghost use Rattle.std.specs.Prelude.{◌≡◌, ◌⊎◌, ◌+◌, ◌-◌, ◌^◌, ◌<◌, ℕ, min, List, [], ◌∷◌, ◌++◌, length};
ghost use Rattle.std.specs.Prelude.{Some, Err, OnOk, IfSome};
ghost use Rattle.std.specs.Io.KnownBytes.{Appends};
ghost use Rattle.peer_ids.specs.Key.{Key};
ghost use Rattle.upgrade.specs.declared.role.ConnRole.{ConnRole};
ghost use Rattle.script_lines.specs.declared.stopped.Stopped.TheVariants as stopped;
ghost use Rattle.script_lines.specs.Texts.{AreLines, HasLine, longest};
ghost use Rattle.trace_script.specs.Played.{Place, at_first, Plays, IsIn, SaysNothing, SaysSomething};

use crate::playing::play;
use conn_core::ConnCore;
use handlers::{Handler, Protocols};
use peer_ids::PublicKey;
use script_lines::{LONGEST, Stopped, read_script};
use std::alloc::Global;
use std::io::{Read, Write};
use upgrade::ConnRole;

/// Plays the script that the input holds on an end of a connection, and prints what it tells and has written. It is
/// read whole before a line is played, and may have [`LONGEST`] bytes.
pub fn trace<P: Protocols, I: Read, O: Write>(
    alloc: Global,
    core: ConnCore<P>,
    input: &mut I,
    output: &mut O,
) -> Result<(), Stopped>
    ensures played { (start : P) (role : ConnRole) (own : Key) (from : Place P.H)
        → IsIn P.H.steps P.H.fails P.H.is_closed P.H.is_finished P.makes_inbound P.makes_outbound P.listed P.is_eager
        P.leads_inbound P.leads_outbound start role own from core
        → (script : List ℕ) → I.remaining input.old ≡ Some script → OnOk result ((lines : List (List ℕ))
        × (last : List ℕ) × (printed : List ℕ) × (to : Place P.H) × AreLines script lines last × Plays P.H.steps
        P.H.fails P.H.is_closed P.H.is_finished P.makes_inbound P.makes_outbound P.listed P.is_eager P.leads_inbound
        P.leads_outbound start role own from (lines ++ last ∷ []) printed to
        × Appends (O.contents output.old) (O.contents output.new) printed) }
    ensures refused { (start : P) (role : ConnRole) (own : Key) (from : Place P.H)
        → IsIn P.H.steps P.H.fails P.H.is_closed P.H.is_finished P.makes_inbound P.makes_outbound P.listed P.is_eager
        P.leads_inbound P.leads_outbound start role own from core
        → (script : List ℕ) → I.remaining input.old ≡ Some script → (number : ℕ)
        → result ≡ Err (stopped.Line number) → (lines : List (List ℕ)) × (bad : List ℕ) × (printed : List ℕ)
        × (to : Place P.H) × HasLine script lines bad × SaysNothing bad × Plays P.H.steps P.H.fails P.H.is_closed
        P.H.is_finished P.makes_inbound P.makes_outbound P.listed P.is_eager P.leads_inbound P.leads_outbound start role
        own from lines printed to × Appends (O.contents output.old) (O.contents output.new) printed
        × (number ≡ min (length lines + 1) (2 ^ 64 - 1)) }
    ensures unwritten { (start : P) (role : ConnRole) (own : Key) (from : Place P.H)
        → IsIn P.H.steps P.H.fails P.H.is_closed P.H.is_finished P.makes_inbound P.makes_outbound P.listed P.is_eager
        P.leads_inbound P.leads_outbound start role own from core
        → (script : List ℕ) → I.remaining input.old ≡ Some script → result ≡ Err stopped.Unwritten
        → (lines : List (List ℕ)) × (wanted : List ℕ) × (printed : List ℕ) × (to : Place P.H)
        × HasLine script lines wanted × SaysSomething wanted × Plays P.H.steps P.H.fails P.H.is_closed
        P.H.is_finished P.makes_inbound P.makes_outbound P.listed P.is_eager P.leads_inbound P.leads_outbound start role
        own from lines printed to }
    ensures long { IfSome (I.remaining input.old) (λ script. longest < length script → result ≡ Err stopped.Unread) }
    ensures unread { result ≡ Err stopped.Unread → O.contents output.new ≡ O.contents output.old }
{
    let mut core = core;
    let script = read_script(alloc, input, LONGEST)?;
    play(alloc, &mut core, &script, output)
}

/// Makes an end of this role, with this key and these protocols, and does what [`trace`] does with it. It also stops as
/// unwritten where memory is refused to the end.
pub fn trace_new<P: Protocols, I: Read, O: Write>(
    alloc: Global,
    role: ConnRole,
    key: PublicKey,
    protocols: P,
    input: &mut I,
    output: &mut O,
) -> Result<(), Stopped>
    ensures played { (script : List ℕ) → I.remaining input.old ≡ Some script → OnOk result ((lines : List (List ℕ))
        × (last : List ℕ) × (printed : List ℕ) × (to : Place P.H) × AreLines script lines last × Plays P.H.steps
        P.H.fails P.H.is_closed P.H.is_finished P.makes_inbound P.makes_outbound P.listed P.is_eager P.leads_inbound
        P.leads_outbound protocols role key at_first (lines ++ last ∷ []) printed to
        × Appends (O.contents output.old) (O.contents output.new) printed) }
    ensures refused { (script : List ℕ) → I.remaining input.old ≡ Some script → (number : ℕ)
        → result ≡ Err (stopped.Line number) → (lines : List (List ℕ)) × (bad : List ℕ) × (printed : List ℕ)
        × (to : Place P.H) × HasLine script lines bad × SaysNothing bad × Plays P.H.steps P.H.fails P.H.is_closed
        P.H.is_finished P.makes_inbound P.makes_outbound P.listed P.is_eager P.leads_inbound P.leads_outbound protocols
        role key at_first lines printed to × Appends (O.contents output.old) (O.contents output.new) printed
        × (number ≡ min (length lines + 1) (2 ^ 64 - 1)) }
    ensures long { IfSome (I.remaining input.old) (λ script. longest < length script
        → (result ≡ Err stopped.Unread) ⊎ (result ≡ Err stopped.Unwritten)) }
    ensures unread { result ≡ Err stopped.Unread → O.contents output.new ≡ O.contents output.old }
{
    match ConnCore::new(alloc, role, key, protocols) {
        Ok(core) => trace(alloc, core, input, output),
        Err(_) => Err(Stopped::Unwritten),
    }
}
