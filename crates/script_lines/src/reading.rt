//! A script that is read whole before any of it is played.

ghost use Rattle.std.specs.Prelude.{◌≡◌, ◌<◌, ◌≤◌, length, vec_len, Err, IfOk, IfSome, OnErr};
ghost use Rattle.script_lines.specs.declared.stopped.Stopped.TheVariants as stopped;

use crate::stopped::Stopped;
use std::alloc::Global;
use std::io::Read;

/// The longest script that is played, in bytes.
pub const LONGEST: u32 = 1_048_576;

/// All of the input, which may have this many bytes at most.
pub fn read_script<I: Read>(alloc: Global, input: &mut I, most: u32) -> Result<Vec<u8>, Stopped>
    ensures within { IfOk result (λ script. vec_len script ≤ most) }
    ensures all { IfOk result (λ script. IfSome (I.remaining input.old) (λ held. script.items ≡ held)) }
    ensures long { IfSome (I.remaining input.old) (λ held. most < length held → result ≡ Err stopped.Unread) }
    ensures unread { OnErr result (result ≡ Err stopped.Unread) }
{
    let mut script = Vec::new(alloc);
    let mut taken = input.take(u64::from(most) + 1);
    match taken.read_to_end(&mut script) {
        Ok(_) if script.len() as u64 <= u64::from(most) => Ok(script),
        Ok(_) | Err(_) => Err(Stopped::Unread),
    }
}
