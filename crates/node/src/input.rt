//! Standard input, whose end is looked for by polls.

use libc::net::{POLLIN, POLLNVAL, poll};
use libc::types::pollfd;
use node_cli::Watched;
use std::io;
use std::io::{Read, Stdin};

/// How many pieces are read at one look for the end.
const MOST_PIECES: u32 = 64;

/// Standard input, whose end is looked for by polls: a thread that waits in a read couldn't be joined.
#[derive(Drop)]
pub struct Input {
    stdin: Stdin,
    /// Whether the program was begun with one.
    is_open: bool,
}

/// What a read of standard input would meet now, in the bits of `poll`; none, where it would wait.
fn look() -> Option<i16> {
    let mut input = [pollfd {
        fd: libc::STDIN_FILENO,
        events: POLLIN,
        revents: 0,
    }];
    (poll(&mut input, 0) > 0).then_some(input[0].revents)
}

impl Input {
    /// An input of which nothing was read.
    pub fn new(stdin: Stdin) -> Input {
        let is_open = look().is_none_or(|bits| bits & POLLNVAL == 0);
        Input { stdin, is_open }
    }
}

impl Read for Input {
    fn read(&mut self, buffer: &mut [u8]) -> io::Result<usize> {
        if !self.is_open {
            return Ok(0);
        }
        self.stdin.read(buffer)
    }
}

impl Watched for Input {
    fn has_ended(&mut self) -> bool {
        if !self.is_open {
            return true;
        }
        let mut buffer = [0; 4096];
        for _ in 0..MOST_PIECES {
            if look().is_none() {
                return false;
            }
            match self.stdin.read(&mut buffer) {
                Ok(0) => return true,
                Ok(_) => {}
                Err(error) => return error.kind() != io::ErrorKind::Interrupted,
            }
        }
        false
    }
}
