//! The program `node`: what it does of what its command line asks for.
#![tactic(auto)]

ghost use Rattle.std.specs.Prelude.{◌≤◌};

mod dialing;
mod ending;
mod listen;
mod run;

use dialing::run_dialer;
pub use ending::Ending;
use listen::run_listener;
pub use node_listen::Watched;
use node_texts::{addr_lines, hash_hex, id_text};
use node_trace::trace;
use node_words::{Asked, Traced, Unasked, read};
use pool_script::replay;
use run::run;
use std::alloc::{AllocGlobal, Global};
use std::io;
use std::io::{Read, Write};
use std::net::Net;
use std::random::RandomSource;
use std::sync::Wait;
use std::time::Clock;

/// Does a whole run of the words behind the program's name, and gives its status: 0 good, 1 refused input or a
/// failing write, 2 a bad command line, 3 an await that gave up. What it writes to `output` is flushed before it ends,
/// and before a refusal is told.
pub fn node<R, I, O, E>(rt: &R, words: &[&str], input: &mut I, output: &mut O, faults: &mut E) -> u8
where
    R: AllocGlobal + Wait + Clock + Net + RandomSource,
    I: Read + Watched,
    O: Write,
    E: Write,
    ensures { result ≤ 3 }
{
    let alloc = rt.alloc();
    match read(alloc, words) {
        Ok(asked) => {
            let answered = match asked {
                Asked::Run => run(rt, input, output),
                Asked::Listen(listener) => run_listener(rt, listener, input, output),
                Asked::Dial(dialer) => run_dialer(rt, dialer, output),
                Asked::Trace(traced) => {
                    let Traced { role, key, payload } = traced;
                    trace(alloc, role, key, payload, input, output).map_err(Ending::from)
                }
                asked => answer(alloc, &asked, input, output),
            };
            let flushed = output.flush();
            status(answered.and(flushed.map_err(Ending::from)), faults)
        }
        Err(Unasked::Told(text)) => {
            let told = write!(output, "{text}");
            let flushed = output.flush();
            written(told.and(flushed), 0)
        }
        Err(Unasked::Bad(text)) => written(write!(faults, "{text}"), 2),
        Err(Unasked::BadOption(bad)) => written(writeln!(faults, "error: {bad}"), 2),
        Err(Unasked::OutOfMemory) => 1,
    }
}

/// The status of a run whose last step was a write.
fn written(outcome: io::Result<()>, good: u8) -> u8
    requires { good ≤ 2 }
    ensures { result ≤ 2 }
{
    match outcome {
        Ok(()) => good,
        Err(_) => 1,
    }
}

/// The status of a run. What ended it is told in a line, but for a write that failed.
fn status<E: Write>(outcome: Result<(), Ending>, faults: &mut E) -> u8
    ensures { result ≤ 3 }
{
    let Err(ending) = outcome else {
        return 0;
    };
    if !matches!(ending, Ending::Unwritten) {
        let _ = writeln!(faults, "{ending}");
    }
    match ending {
        Ending::GaveUp => 3,
        _ => 1,
    }
}

/// Prints what was asked for, but for what a script or peers do.
fn answer<I: Read, O: Write>(
    alloc: Global,
    asked: &Asked<'_>,
    input: &mut I,
    output: &mut O,
) -> Result<(), Ending> {
    match asked {
        Asked::Id(hex) => writeln!(output, "{}", id_text(alloc, hex)?)?,
        Asked::Hash(text) => writeln!(output, "{}", hash_hex(alloc, text)?)?,
        Asked::Addr(text) => {
            let lines = addr_lines(alloc, text)?;
            writeln!(output, "{}", lines.bytes)?;
            writeln!(output, "{}", lines.text)?;
        }
        Asked::Replay(config) => replay(alloc, *config, input, output)?,
        // They aren't answered here.
        Asked::Trace(_) | Asked::Run | Asked::Listen(_) | Asked::Dial(_) => {}
    }
    Ok(())
}
