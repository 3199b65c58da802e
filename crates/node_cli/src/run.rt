//! `node run`: a script on two nodes of this process.

use crate::Ending;
use driver::Fresh;
use script_lines::read_script;
use std::alloc::AllocGlobal;
use std::io::{Read, Write};
use std::net::Net;
use std::random::RandomSource;
use std::sync::Wait;
use std::time::Clock;

/// The longest script, in bytes.
const LONGEST_SCRIPT: u32 = 65_536;

/// Runs the script that the input holds on two nodes, and prints what comes of it.
pub fn run<R, I, O>(rt: &R, input: &mut I, output: &mut O) -> Result<(), Ending>
where
    R: AllocGlobal + Wait + Clock + Net + RandomSource,
    I: Read,
    O: Write,
{
    let script = read_script(rt.alloc(), input, LONGEST_SCRIPT)?;
    Ok(node_run::run(rt, &Fresh, &script, output)?)
}
