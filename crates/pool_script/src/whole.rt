//! A script that is read and then played.

ghost use Rattle.std.specs.Prelude.{◌≡◌, ◌+◌, ◌-◌, ◌^◌, ◌<◌, ℕ, min, List, [], ◌∷◌, ◌++◌, length};
ghost use Rattle.std.specs.Prelude.{Some, Err, OnOk, IfSome};
ghost use Rattle.std.specs.Io.KnownBytes.{Appends};
ghost use Rattle.pool_state.specs.History.{Entry};
ghost use Rattle.script_lines.specs.declared.stopped.Stopped.TheVariants as stopped;
ghost use Rattle.script_lines.specs.Texts.{AreLines, HasLine, longest};
ghost use Rattle.pool_script.specs.Played.{Plays, SaysNothing, SaysSomething};

use crate::playing::play;
use pool_state::Config;
use script_lines::{LONGEST, Stopped, read_script};
use std::alloc::Global;
use std::io::{Read, Write};

/// Plays the script that the input holds on a pool of this configuration, and prints the replies and the listings that
/// it asks for. It is read whole before a line is played, and may have [`LONGEST`] bytes.
pub fn replay<I: Read, O: Write>(
    alloc: Global,
    config: Config,
    input: &mut I,
    output: &mut O,
) -> Result<(), Stopped>
    ensures played { (script : List ℕ) → I.remaining input.old ≡ Some script → OnOk result ((lines : List (List ℕ))
        × (last : List ℕ) × (printed : List ℕ) × (after : List Entry) × AreLines script lines last
        × Plays config [] (lines ++ last ∷ []) printed after
        × Appends (O.contents output.old) (O.contents output.new) printed) }
    ensures refused { (script : List ℕ) → I.remaining input.old ≡ Some script → (number : ℕ)
        → result ≡ Err (stopped.Line number) → (lines : List (List ℕ)) × (bad : List ℕ) × (printed : List ℕ)
        × (after : List Entry) × HasLine script lines bad × SaysNothing bad × Plays config [] lines printed after
        × Appends (O.contents output.old) (O.contents output.new) printed
        × (number ≡ min (length lines + 1) (2 ^ 64 - 1)) }
    ensures unwritten { (script : List ℕ) → I.remaining input.old ≡ Some script → result ≡ Err stopped.Unwritten
        → (lines : List (List ℕ)) × (wanted : List ℕ) × (printed : List ℕ) × (after : List Entry)
        × HasLine script lines wanted × SaysSomething wanted × Plays config [] lines printed after }
    ensures long { IfSome (I.remaining input.old) (λ script. longest < length script → result ≡ Err stopped.Unread) }
    ensures unread { result ≡ Err stopped.Unread → O.contents output.new ≡ O.contents output.old }
{
    let script = read_script(alloc, input, LONGEST)?;
    play(config, &script, output)
}
