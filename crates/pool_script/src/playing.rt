//! The playing of a script.

ghost use Rattle.std.specs.Prelude.{◌≡◌, ◌≢◌, ◌+◌, ◌-◌, ◌^◌, ℕ, min, List, [], ◌∷◌, ◌++◌, length, Ok, Err, true, false};
ghost use Rattle.std.specs.Prelude.{OnOk, IfErr};
ghost use Rattle.std.specs.Io.KnownBytes.{Appends};
ghost use Rattle.pool_state.specs.At.{Stands};
ghost use Rattle.pool_state.specs.History.{Entry};
ghost use Rattle.pool_state.specs.declared.limits.Config.{Config};
ghost use Rattle.script_lines.specs.declared.stopped.Stopped.TheVariants as stopped;
ghost use Rattle.pool_script.specs.Played.{PlaysLine, Plays, SaysNothing, SaysSomething};
ghost use Rattle.script_lines.specs.Texts.{AreLines, HasLine};

use pool_state::{Config, Pool};
use pool_texts::{Line, line_of, print_listing, print_reply};
use script_lines::{Stopped, first_line};
use std::io;
use std::io::Write;

/// Plays one line, which is empty or says something; `false` where it isn't and doesn't, and then nothing is done.
fn play_line<O: Write>(pool: &mut Pool, text: &[u8], output: &mut O) -> io::Result<bool>
    ensures played { (config : Config) (history : List Entry) → Stands config history pool.old → result ≡ Ok true
        → (printed : List ℕ) × (after : List Entry) × PlaysLine config history text.now printed after
        × Appends (O.contents output.old) (O.contents output.new) printed × Stands config after pool.new }
    ensures refused { result ≡ Ok false → SaysNothing text.now × (O.contents output.new ≡ O.contents output.old) }
    ensures failed { IfErr result (λ e. SaysSomething text.now) }
{
    if text.is_empty() {
        return Ok(true);
    }
    match line_of(text) {
        Some(Line::Call(call)) => print_reply("", &pool.apply(call), output)?,
        Some(Line::List) => print_listing("", pool.show(), output)?,
        None => return Ok(false),
    }
    Ok(true)
}

/// Plays the lines of a script on a pool of this configuration, and prints the replies and the listings that they ask
/// for. Where a line says nothing, those before it were played.
pub fn play<O: Write>(config: Config, script: &[u8], output: &mut O) -> Result<(), Stopped>
    ensures played { OnOk result ((lines : List (List ℕ)) × (last : List ℕ) × (printed : List ℕ) × (after : List Entry)
        × AreLines script.now lines last × Plays config [] (lines ++ last ∷ []) printed after
        × Appends (O.contents output.old) (O.contents output.new) printed) }
    ensures refused { (number : ℕ) → result ≡ Err (stopped.Line number) → (lines : List (List ℕ)) × (bad : List ℕ)
        × (printed : List ℕ) × (after : List Entry) × HasLine script.now lines bad × SaysNothing bad
        × Plays config [] lines printed after × Appends (O.contents output.old) (O.contents output.new) printed
        × (number ≡ min (length lines + 1) (2 ^ 64 - 1)) }
    ensures unwritten { result ≡ Err stopped.Unwritten → (lines : List (List ℕ)) × (wanted : List ℕ)
        × (printed : List ℕ) × (after : List Entry) × HasLine script.now lines wanted × SaysSomething wanted
        × Plays config [] lines printed after }
    ensures read { result ≢ Err stopped.Unread }
{
    let mut pool = Pool::new(config);
    let mut number = 0_u64;
    let mut rest = Some(script);
    while let Some(texts) = rest {
        let (text, more) = first_line(texts);
        number = number.saturating_add(1);
        match play_line(&mut pool, text, output) {
            Ok(true) => rest = more,
            Ok(false) => return Err(Stopped::Line(number)),
            Err(_) => return Err(Stopped::Unwritten),
        }
    }
    Ok(())
}
