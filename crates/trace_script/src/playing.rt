//! The playing of a script.

ghost use Rattle.std.specs.Prelude.{◌≡◌, ◌≢◌, ◌+◌, ◌-◌, ◌^◌, ◌<◌, ℕ, min, List, [], ◌∷◌, ◌++◌, length};
ghost use Rattle.std.specs.Prelude.{Ok, Err, true, false, OnOk, OnErr};
ghost use Rattle.std.specs.Io.KnownBytes.{Appends};
ghost use Rattle.peer_ids.specs.Key.{Key};
ghost use Rattle.upgrade.specs.declared.role.ConnRole.{ConnRole};
ghost use Rattle.conn_core.specs.Runs.{Point, IsAt};
ghost use Rattle.node_lines.specs.Trace.{SaysTrace};
ghost use Rattle.script_lines.specs.declared.stopped.Stopped.TheVariants as stopped;
ghost use Rattle.script_lines.specs.Texts.{AreLines, HasLine};
ghost use Rattle.trace_script.specs.Played.{Place, goes_on, ArePieces, Tells, Feeds, FeedsEach, Does, PlaysLine, Plays};
ghost use Rattle.trace_script.specs.Played.{IsIn, SaysNothing, SaysSomething};

use crate::print::{print_answer, print_output};
use conn_core::{ConnAct, ConnCore, perform};
use handlers::{Handler, Protocols};
use node_lines::{TraceLine, trace_line_of};
use script_lines::{Stopped, first_line};
use std::alloc::Global;
use std::io::Write;

/// Makes a call, and prints its answer.
fn call<P: Protocols, O: Write>(
    core: &mut ConnCore<P>,
    act: &ConnAct,
    output: &mut O,
) -> Result<(), Stopped>
    ensures told { (start : P) (role : ConnRole) (own : Key) (from : Place P.H)
        → IsIn P.H.steps P.H.fails P.H.is_closed P.H.is_finished P.makes_inbound P.makes_outbound P.listed P.is_eager
        P.leads_inbound P.leads_outbound start role own from core.old → OnOk result ((printed : List ℕ)
        × (next : Point P.H) × Tells P.H.steps P.H.fails P.H.is_closed P.H.is_finished P.makes_inbound P.makes_outbound
        P.listed P.is_eager P.leads_inbound P.leads_outbound start role own from.point act.now printed next
        × Appends (O.contents output.old) (O.contents output.new) printed × IsAt P.H.steps P.H.fails P.H.is_closed
        P.H.is_finished P.makes_inbound P.makes_outbound P.listed P.is_eager P.leads_inbound P.leads_outbound start role
        own from.taken next core.new) }
    ensures unwritten { OnErr result (result ≡ Err stopped.Unwritten) }
{
    match print_answer(&perform(core, act), output) {
        Ok(()) => Ok(()),
        Err(_) => Err(Stopped::Unwritten),
    }
}

/// Feeds the bytes in pieces of so many, until the connection goes on no more.
fn feed_each<P: Protocols, O: Write>(
    alloc: Global,
    core: &mut ConnCore<P>,
    size: usize,
    bytes: &[u8],
    output: &mut O,
) -> Result<(), Stopped>
    requires some { 0 < size }
    ensures fed { (start : P) (role : ConnRole) (own : Key) (from : Place P.H)
        → IsIn P.H.steps P.H.fails P.H.is_closed P.H.is_finished P.makes_inbound P.makes_outbound P.listed P.is_eager
        P.leads_inbound P.leads_outbound start role own from core.old → OnOk result ((pieces : List (List ℕ))
        × (printed : List ℕ) × (next : Point P.H) × ArePieces size bytes.now pieces × FeedsEach P.H.steps P.H.fails
        P.H.is_closed P.H.is_finished P.makes_inbound P.makes_outbound P.listed P.is_eager P.leads_inbound
        P.leads_outbound start role own from.point pieces printed next
        × Appends (O.contents output.old) (O.contents output.new) printed × IsAt P.H.steps P.H.fails P.H.is_closed
        P.H.is_finished P.makes_inbound P.makes_outbound P.listed P.is_eager P.leads_inbound P.leads_outbound start role
        own from.taken next core.new) }
    ensures unwritten { OnErr result (result ≡ Err stopped.Unwritten) }
{
    let mut rest = bytes;
    while !rest.is_empty() {
        let (piece, more) = rest.split_at(size.min(rest.len()));
        let Ok(copy) = piece.to_vec(alloc) else {
            return Err(Stopped::Unwritten);
        };
        call(core, &ConnAct::Feed(copy), output)?;
        if core.is_over() {
            return Ok(());
        }
        rest = more;
    }
    Ok(())
}

/// Does what a line says, and prints what comes of it.
fn do_line<P: Protocols, O: Write>(
    alloc: Global,
    core: &mut ConnCore<P>,
    line: TraceLine,
    output: &mut O,
) -> Result<(), Stopped>
    ensures done { (start : P) (role : ConnRole) (own : Key) (from : Place P.H) (text : List ℕ)
        → SaysTrace text line → IsIn P.H.steps P.H.fails P.H.is_closed P.H.is_finished P.makes_inbound P.makes_outbound
        P.listed P.is_eager P.leads_inbound P.leads_outbound start role own from core.old
        → OnOk result ((printed : List ℕ) × (to : Place P.H) × Does P.H.steps P.H.fails P.H.is_closed P.H.is_finished
        P.makes_inbound P.makes_outbound P.listed P.is_eager P.leads_inbound P.leads_outbound start role own from line
        printed to × Appends (O.contents output.old) (O.contents output.new) printed × IsIn P.H.steps P.H.fails
        P.H.is_closed P.H.is_finished P.makes_inbound P.makes_outbound P.listed P.is_eager P.leads_inbound
        P.leads_outbound start role own to core.new) }
    ensures unwritten { OnErr result (result ≡ Err stopped.Unwritten) }
{
    match line {
        TraceLine::Feed(bytes) => call(core, &ConnAct::Feed(bytes), output),
        TraceLine::Cut(size, bytes) => feed_each(alloc, core, size.max(1), &bytes, output),
        TraceLine::Ask(index) => call(core, &ConnAct::Ask(index), output),
        TraceLine::Out => print_output(alloc, &core.take_output(), output),
        TraceLine::End => call(core, &ConnAct::Ended, output),
    }
}

/// Plays one line, which is empty or says something; `false` where it isn't and doesn't, and then nothing is done.
fn play_line<P: Protocols, O: Write>(
    alloc: Global,
    core: &mut ConnCore<P>,
    text: &[u8],
    output: &mut O,
) -> Result<bool, Stopped>
    ensures played { (start : P) (role : ConnRole) (own : Key) (from : Place P.H)
        → IsIn P.H.steps P.H.fails P.H.is_closed P.H.is_finished P.makes_inbound P.makes_outbound P.listed P.is_eager
        P.leads_inbound P.leads_outbound start role own from core.old → result ≡ Ok true → (printed : List ℕ)
        × (to : Place P.H) × PlaysLine P.H.steps P.H.fails P.H.is_closed P.H.is_finished P.makes_inbound
        P.makes_outbound P.listed P.is_eager P.leads_inbound P.leads_outbound start role own from text.now printed to
        × Appends (O.contents output.old) (O.contents output.new) printed × IsIn P.H.steps P.H.fails P.H.is_closed
        P.H.is_finished P.makes_inbound P.makes_outbound P.listed P.is_eager P.leads_inbound P.leads_outbound start role
        own to core.new }
    ensures refused { result ≡ Ok false → SaysNothing text.now × (O.contents output.new ≡ O.contents output.old)
        × (core.new ≡ core.old) }
    ensures failed { OnErr result (SaysSomething text.now × (result ≡ Err stopped.Unwritten)) }
{
    if text.is_empty() {
        return Ok(true);
    }
    match trace_line_of(alloc, text) {
        Ok(Some(line)) => {
            do_line(alloc, core, line, output)?;
            Ok(true)
        }
        Ok(None) => Ok(false),
        Err(_) => Err(Stopped::Unwritten),
    }
}

/// Plays the lines of a script on an end of a connection, and prints what comes of them. Where a line says nothing,
/// those before it were played.
pub fn play<P: Protocols, O: Write>(
    alloc: Global,
    core: &mut ConnCore<P>,
    script: &[u8],
    output: &mut O,
) -> Result<(), Stopped>
    ensures played { (start : P) (role : ConnRole) (own : Key) (from : Place P.H)
        → IsIn P.H.steps P.H.fails P.H.is_closed P.H.is_finished P.makes_inbound P.makes_outbound P.listed P.is_eager
        P.leads_inbound P.leads_outbound start role own from core.old → OnOk result ((lines : List (List ℕ))
        × (last : List ℕ) × (printed : List ℕ) × (to : Place P.H) × AreLines script.now lines last × Plays P.H.steps
        P.H.fails P.H.is_closed P.H.is_finished P.makes_inbound P.makes_outbound P.listed P.is_eager P.leads_inbound
        P.leads_outbound start role own from (lines ++ last ∷ []) printed to
        × Appends (O.contents output.old) (O.contents output.new) printed × IsIn P.H.steps P.H.fails P.H.is_closed
        P.H.is_finished P.makes_inbound P.makes_outbound P.listed P.is_eager P.leads_inbound P.leads_outbound start role
        own to core.new) }
    ensures refused { (start : P) (role : ConnRole) (own : Key) (from : Place P.H)
        → IsIn P.H.steps P.H.fails P.H.is_closed P.H.is_finished P.makes_inbound P.makes_outbound P.listed P.is_eager
        P.leads_inbound P.leads_outbound start role own from core.old
        → (number : ℕ) → result ≡ Err (stopped.Line number) → (lines : List (List ℕ)) × (bad : List ℕ)
        × (printed : List ℕ) × (to : Place P.H) × HasLine script.now lines bad × SaysNothing bad × Plays P.H.steps
        P.H.fails P.H.is_closed P.H.is_finished P.makes_inbound P.makes_outbound P.listed P.is_eager P.leads_inbound
        P.leads_outbound start role own from lines printed to
        × Appends (O.contents output.old) (O.contents output.new) printed × IsIn P.H.steps P.H.fails P.H.is_closed
        P.H.is_finished P.makes_inbound P.makes_outbound P.listed P.is_eager P.leads_inbound P.leads_outbound start role
        own to core.new × (number ≡ min (length lines + 1) (2 ^ 64 - 1)) }
    ensures unwritten { (start : P) (role : ConnRole) (own : Key) (from : Place P.H)
        → IsIn P.H.steps P.H.fails P.H.is_closed P.H.is_finished P.makes_inbound P.makes_outbound P.listed P.is_eager
        P.leads_inbound P.leads_outbound start role own from core.old → result ≡ Err stopped.Unwritten
        → (lines : List (List ℕ)) × (wanted : List ℕ) × (printed : List ℕ) × (to : Place P.H)
        × HasLine script.now lines wanted × SaysSomething wanted × Plays P.H.steps P.H.fails P.H.is_closed
        P.H.is_finished P.makes_inbound P.makes_outbound P.listed P.is_eager P.leads_inbound P.leads_outbound start role
        own from lines printed to }
    ensures read { result ≢ Err stopped.Unread }
{
    let mut number = 0_u64;
    let mut rest = Some(script);
    while let Some(texts) = rest {
        let (text, more) = first_line(texts);
        number = number.saturating_add(1);
        match play_line(alloc, core, text, output) {
            Ok(true) => rest = more,
            Ok(false) => return Err(Stopped::Line(number)),
            Err(_) => return Err(Stopped::Unwritten),
        }
    }
    Ok(())
}
