//! The program `node`: its words, its input and its outputs, handed to `node_cli`.
#![tactic(auto)]

mod input;

use input::Input;
use std::io::BufWriter;
use std::process::ExitCode;
use std::{env, io};

fn main(rt: HostRuntime) -> io::Result<ExitCode> {
    // Before a descriptor is opened, which would take the place of an input that is closed.
    let mut input = Input::new(rt.stdin());
    let args = match env::args(&rt) {
        Ok(args) => args,
        Err(error) if error.kind() == io::ErrorKind::InvalidData => {
            eprintln!(rt; "error: the command line is no UTF-8")?;
            return Ok(ExitCode::from(2));
        }
        Err(error) => return Err(error),
    };
    let args: Vec<String> = args.skip(1).collect(rt.alloc())?;
    let mut words = Vec::new(rt.alloc());
    for arg in &args {
        words.push(arg.as_str())?;
    }
    let mut faults = rt.stderr();
    // Printing writes each piece of a format by a call of its own. `node_cli` flushes behind all that it writes.
    let mut output = BufWriter::new(rt.alloc(), rt.stdout())?;
    let status = node_cli::node(&rt, words.as_slice(), &mut input, &mut output, &mut faults);
    Ok(ExitCode::from(status))
}
