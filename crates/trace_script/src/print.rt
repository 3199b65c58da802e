//! What is printed of what an end of a connection answers, and of what it has written.

ghost use Rattle.std.specs.Prelude.{◌≡◌, List, ℕ, [], ◌∷◌, ◌++◌, flat_map, Err, OnOk, OnErr};
ghost use Rattle.std.specs.Io.KnownBytes.{Appends};
ghost use Rattle.script_lines.specs.declared.stopped.Stopped.TheVariants as stopped;
ghost use Rattle.trace_script.specs.Printed.{fault_text, refusal_text, event_text, answer_text, output_text};

use conn_core::ConnAnswer;
use conn_log::{ConnEvent, ConnFault, ConnRefused};
use handlers::Handler;
use script_lines::Stopped;
use std::alloc::Global;
use std::io;
use std::io::Write;

/// The number of a fault and its name.
fn fault_text(fault: ConnFault) -> &'static str
    ensures { result.now ≡ fault_text fault }
{
    match fault {
        ConnFault::Select => "1 Select",
        ConnFault::NoneLeft => "2 NoneLeft",
        ConnFault::Exchange => "3 Exchange",
        ConnFault::Mux => "4 Mux",
        ConnFault::Link => "5 Link",
        ConnFault::EarlyEnd => "6 EarlyEnd",
        ConnFault::OutOfMemory => "7 OutOfMemory",
    }
}

/// The number of a refusal and its name.
fn refusal_text(refused: ConnRefused) -> &'static str
    ensures { result.now ≡ refusal_text refused }
{
    match refused {
        ConnRefused::Failed => "1 Failed",
        ConnRefused::NotUp => "2 NotUp",
        ConnRefused::BadIndex => "3 BadIndex",
        ConnRefused::GoneAway => "4 GoneAway",
        ConnRefused::StreamsExhausted => "5 StreamsExhausted",
        ConnRefused::StreamsFull => "6 StreamsFull",
        ConnRefused::OutOfMemory => "7 OutOfMemory",
    }
}

fn print_event<H: Handler, O: Write>(event: &ConnEvent<H>, output: &mut O) -> io::Result<()>
    ensures printed { OnOk result (Appends (O.contents output.old) (O.contents output.new)
        (event_text event.now ++ 10 ∷ [])) }
{
    match event {
        ConnEvent::Upgraded(proven) => writeln!(output, "upgraded {}", proven.peer()),
        ConnEvent::Agreed(stream, index) => writeln!(output, "agreed {stream} {index}"),
        ConnEvent::Refused(stream) => writeln!(output, "refused-stream {stream}"),
        ConnEvent::Done(stream, _) => writeln!(output, "done {stream}"),
        ConnEvent::Broken(stream, _) => writeln!(output, "broken {stream}"),
        ConnEvent::Fault(fault) => writeln!(output, "fault {}", fault_text(*fault)),
        ConnEvent::Shut => writeln!(output, "shut"),
    }
}

fn print_events<H: Handler, O: Write>(events: &[ConnEvent<H>], output: &mut O) -> io::Result<()>
    ensures printed { OnOk result (Appends (O.contents output.old) (O.contents output.new)
        (flat_map (λ event. event_text event ++ 10 ∷ []) events.now)) }
{
    for event in events {
        print_event(event, output)?;
    }
    Ok(())
}

/// Prints what a call of a connection answered: each event in a line, the number of a stream, or a refusal by its
/// number and name.
pub fn print_answer<H: Handler, O: Write>(answer: &ConnAnswer<H>, output: &mut O) -> io::Result<()>
    ensures printed { OnOk result (Appends (O.contents output.old) (O.contents output.new) (answer_text answer.now)) }
{
    match answer {
        ConnAnswer::Events(events) => print_events(events, output),
        ConnAnswer::Stream(stream) => writeln!(output, "stream {stream}"),
        ConnAnswer::Refused(refused) => writeln!(output, "refused {}", refusal_text(*refused)),
    }
}

/// Prints bytes that were written, in hexadecimal, and `-` for none. The digits take memory.
pub fn print_output<O: Write>(alloc: Global, bytes: &[u8], output: &mut O) -> Result<(), Stopped>
    ensures printed { OnOk result (Appends (O.contents output.old) (O.contents output.new) (output_text bytes.now)) }
    ensures unwritten { OnErr result (result ≡ Err stopped.Unwritten) }
{
    let written = if bytes.is_empty() {
        writeln!(output, "out -")
    } else {
        match hex::encode(alloc, bytes) {
            Ok(digits) => writeln!(output, "out {digits}"),
            Err(_) => return Err(Stopped::Unwritten),
        }
    };
    match written {
        Ok(()) => Ok(()),
        Err(_) => Err(Stopped::Unwritten),
    }
}
