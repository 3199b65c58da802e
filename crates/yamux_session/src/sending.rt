//! The bytes that are sent: frames, appended to the output.

ghost use Rattle.std.specs.Prelude.{◌≡◌, ◌++◌, OnErr, OnOk, length, vec_len, ◌<◌, ◌≤◌, ◌+◌, ◌^◌};
ghost use Rattle.std.specs.Vec.{vec_capacity};
ghost use Rattle.yamux_session.specs.Acts.{Carries, frames_length};
ghost use Rattle.yamux_session.specs.Output.{frame};
ghost use Rattle.yamux_session.specs.State.{room_of};

use std::alloc::AllocError;
use yamux_frames::{FrameKind, Header};

/// How many bytes of data one frame carries at most.
const LONGEST_PIECE: usize = 16384;

/// How long a header is.
const HEADER: usize = 12;

/// Appends bytes for which there is room.
fn put(output: &mut Vec<u8>, bytes: &[u8])
    requires { vec_len output.old + length bytes.now ≤ vec_capacity output.old }
    ensures items { output.new.items ≡ output.old.items ++ bytes.now }
    ensures len { vec_len output.new ≡ vec_len output.old + length bytes.now }
    ensures capacity { vec_capacity output.old ≤ vec_capacity output.new }
{
    match output.extend_from_slice(bytes) {
        Ok(()) => {}
        Err(_) => unreachable!(),
    }
}

/// Appends a header for which there is room.
pub fn put_frame(output: &mut Vec<u8>, kind: FrameKind, flags: u16, stream: u32, length: u32)
    requires { vec_len output.old + 12 ≤ vec_capacity output.old }
    ensures items { output.new.items ≡ output.old.items ++ frame kind flags stream length }
    ensures len { vec_len output.new ≡ vec_len output.old + 12 }
    ensures capacity { vec_capacity output.old ≤ vec_capacity output.new }
{
    let header = Header {
        kind,
        flags,
        stream,
        length,
    };
    put(output, &header.write());
}

/// Appends a frame without payload. Where that is refused nothing has changed.
pub fn append_frame(
    output: &mut Vec<u8>,
    kind: FrameKind,
    flags: u16,
    stream: u32,
    length: u32,
) -> Result<(), AllocError>
    ensures ok { OnOk result (output.new.items ≡ output.old.items ++ frame kind flags stream length) }
    ensures err { OnErr result (output.new.items ≡ output.old.items) }
    ensures room { OnErr result (room_of output.new ≡ room_of output.old) }
    ensures memory { OnErr result (room_of output.old < 12) }
{
    output.reserve(HEADER)?;
    put_frame(output, kind, flags, stream, length);
    Ok(())
}

/// How long the frames are that carry so much data.
fn data_length(count: usize) -> usize
    requires { count < 2 ^ 32 }
    ensures { result ≡ frames_length count }
{
    count + (count + LONGEST_PIECE - 1) / LONGEST_PIECE * HEADER
}

/// Appends the frames that carry these bytes, for which there is room.
fn append_frames(output: &mut Vec<u8>, stream: u32, bytes: &[u8])
    requires { vec_len output.old + frames_length (length bytes.now) ≤ vec_capacity output.old }
    ensures { Carries stream bytes.now output.old.items output.new.items }
{
    let mut at = 0;
    while at < bytes.len() {
        let count = LONGEST_PIECE.min(bytes.len() - at);
        put_frame(output, FrameKind::Payload, 0, stream, count as u32);
        put(output, &bytes[at..at + count]);
        at += count;
    }
}

/// Appends the frames that carry these bytes. Where that is refused nothing has changed.
pub fn append_data(output: &mut Vec<u8>, stream: u32, bytes: &[u8]) -> Result<(), AllocError>
    requires { length bytes.now < 2 ^ 32 }
    ensures ok { OnOk result (Carries stream bytes.now output.old.items output.new.items) }
    ensures err { OnErr result (output.new.items ≡ output.old.items) }
    ensures room { OnErr result (room_of output.new ≡ room_of output.old) }
    ensures memory { OnErr result (room_of output.old < frames_length (length bytes.now)) }
{
    output.reserve(data_length(bytes.len()))?;
    append_frames(output, stream, bytes);
    Ok(())
}
