//! A link over a socket in memory: which tries it makes, and what it answers by them.

ghost use Rattle.std.specs.Prelude.{◌≤◌, ⊤};
ghost use Rattle.socket_link.specs.Tries.{count_tried};

use conn_ends::{FAIL, PENDING, answer_of};
use conn_link::{Link, LinkFault};
use futures::task::{Context, Poll};
use futures::test::MockTask;
use socket_link::{Socket, SocketLink};
use std::alloc::Global;
use std::io;
use std::test::*;

/// The code of a try that finds the end of the input.
const END: u8 = 254;

/// Why a call of a socket may fail.
static KINDS: [io::ErrorKind; 12] = [
    io::ErrorKind::ConnectionReset,
    io::ErrorKind::ConnectionAborted,
    io::ErrorKind::ConnectionRefused,
    io::ErrorKind::NotConnected,
    io::ErrorKind::BrokenPipe,
    io::ErrorKind::TimedOut,
    io::ErrorKind::HostUnreachable,
    io::ErrorKind::NetworkDown,
    io::ErrorKind::UnexpectedEof,
    io::ErrorKind::WriteZero,
    io::ErrorKind::Interrupted,
    io::ErrorKind::Other,
];

/// The code of a try that fails by the first of these; those of the others are behind it.
const FIRST_KIND: u8 = 200;

/// A socket that says it is ready, or that it failed, and whose tries, and shutting, go by a list of codes; behind the
/// list they fail.
#[derive(Drop)]
struct Scripted {
    codes: Vec<u8>,
    tries: usize,
    /// Why it isn't ready.
    fails_by: Option<io::ErrorKind>,
}

fn kind_of(code: u8) -> Option<io::ErrorKind> {
    let at = code.checked_sub(FIRST_KIND)?;
    KINDS.get(usize::from(at)).copied()
}

impl Scripted {
    // What a try answers that can move so many bytes.
    fn take(&mut self, most: usize) -> io::Result<usize>
        ensures { count_tried result ≤ most }
    {
        let code = self.codes.get(self.tries).copied().unwrap_or(FAIL);
        self.tries = self.tries.saturating_add(1);
        if let Some(kind) = kind_of(code) {
            return Err(io::Error::from(kind));
        }
        match code {
            PENDING => Err(io::Error::from(io::ErrorKind::WouldBlock)),
            FAIL => Err(io::Error::from(io::ErrorKind::ConnectionReset)),
            END => Ok(0),
            count => Ok(usize::from(count).min(most)),
        }
    }

    fn is_ready(&self) -> io::Result<()> {
        match self.fails_by {
            Some(kind) => Err(io::Error::from(kind)),
            None => Ok(()),
        }
    }
}

impl Socket for Scripted {
    ghost moves = { λ _ _ _ _. ⊤ };

    ghost steps = { λ _ _ _. ⊤ };

    ghost is_shut = { λ _. ⊤ };

    ghost reads_at = { λ _. 0 };

    ghost writes_at = { λ _. 0 };

    ghost moves_nothing = { λ _. tt };

    ghost moves_on = { λ _ _ _ _ _ _ _ _ _. tt };

    ghost steps_none = { λ _. tt };

    ghost steps_on = { λ _ _ _ _ _ _ _. tt };

    ghost stays_shut = { λ _ _ _ _ _ is. is };

    fn poll_readable(&mut self, _cx: &mut Context<'_>) -> Poll<io::Result<()>> {
        Poll::Ready(self.is_ready())
    }

    fn poll_writable(&mut self, _cx: &mut Context<'_>) -> Poll<io::Result<()>> {
        Poll::Ready(self.is_ready())
    }

    fn try_read(&mut self, buffer: &mut [u8]) -> io::Result<usize> {
        self.take(buffer.len())
    }

    fn try_write(&mut self, bytes: &[u8]) -> io::Result<usize> {
        self.take(bytes.len())
    }

    fn poll_shut(&mut self, _cx: &mut Context<'_>) -> Poll<io::Result<()>> {
        Poll::Ready(self.take(0).map(|_none| ()))
    }
}

/// The codes of a socket's tries, calls in turn (r reads, w writes, s shuts), and what they answer.
static ROWS: [(&[u8], &[u8], &[u8]); 16] = [
    // A try that moves nothing yet is made again, once in a call.
    (&[3, PENDING, 2], b"rrr", b"32f"),
    (&[PENDING, PENDING, 3], b"rr", b"p3"),
    (&[PENDING, PENDING, PENDING, PENDING, 1], b"rrr", b"pp1"),
    (&[PENDING, FAIL, 1], b"rr", b"f1"),
    (&[9, PENDING, 2], b"www", b"42f"),
    (&[PENDING, PENDING, 3], b"ww", b"p3"),
    (&[PENDING, FAIL, 1], b"ww", b"f1"),
    // Behind the end of the input no read is tried, but it is written and shut: the peer closed its direction alone.
    (&[2, END, 1], b"rrrr", b"2000"),
    (&[2, END, 3, 1, FAIL], b"rrwrsrw", b"203000f"),
    // A write that takes nothing is no failure and no end, and asks for no other poll.
    (&[END, 3, END, 2], b"wwwr", b"0302"),
    // Behind shutting it is read and written as the socket answers.
    (&[1, 2, 3, END, FAIL], b"srwrw", b"0230f"),
    // Shutting fails where the socket does, and isn't tried again by itself.
    (&[FAIL, 1], b"ss", b"f0"),
    (&[1, 2, FAIL], b"sss", b"00f"),
    (&[FAIL, FAIL, 2, 1], b"ssrw", b"ff21"),
    (&[FAIL, FAIL, 1], b"rws", b"ff0"),
    // A write that failed isn't the end of the input, and a read that failed isn't that of the output.
    (&[FAIL, 2, FAIL, 3], b"wrrw", b"f2f3"),
];

/// Makes a call. Shutting moves no byte.
pub(crate) fn call<L: Link>(
    task: &MockTask,
    link: &mut L,
    kind: u8,
) -> Poll<Result<usize, LinkFault>> {
    match kind {
        b'r' => {
            let mut buffer = [0; 4];
            task.enter(|cx| link.poll_read(cx, &mut buffer))
        }
        b'w' => task.enter(|cx| link.poll_write(cx, b"abcd")),
        _shut => match task.enter(|cx| link.poll_shut(cx)) {
            Poll::Ready(Ok(())) => Poll::Ready(Ok(0)),
            Poll::Ready(Err(fault)) => Poll::Ready(Err(fault)),
            Poll::Pending => Poll::Pending,
        },
    }
}

/// Each answer is as said, a call asks for another poll exactly where it is pending, and failures are counted.
fn answers_so<L: Link>(task: &MockTask, link: &mut L, calls: &[u8], answers: &[u8]) -> bool {
    let (mut is_right, mut failed) = (calls.len() == answers.len(), 0u64);
    for (kind, letter) in calls.iter().zip(answers.iter()) {
        let polled = call(task, link, *kind);
        if let Poll::Ready(Err(_)) = &polled {
            failed = failed.saturating_add(1);
        }
        let is_calm = task.is_woken() == polled.is_pending();
        is_right = is_right && is_calm && polled == answer_of(*letter);
    }
    is_right && link.failures() == failed
}

fn runs_so(
    alloc: Global,
    task: &MockTask,
    codes: &[u8],
    calls: &[u8],
    answers: &[u8],
) -> Option<bool> {
    let codes = codes.to_vec(alloc).ok()?;
    let mut link = SocketLink::new(Scripted {
        codes,
        tries: 0,
        fails_by: None,
    });
    Some(answers_so(task, &mut link, calls, answers))
}

#[test]
fn a_socket_by_tries(rt: HostRuntime) -> Result<(), Fail> {
    let task = MockTask::new(&rt)?;
    for (row, (codes, calls, answers)) in ROWS.iter().enumerate() {
        let held = runs_so(rt.alloc(), &task, *codes, *calls, *answers) == Some(true);
        assert!(rt; held, "row {row}");
    }
    Ok(())
}

/// A call that fails is a failure of the link, whatever the kind, and the next call is tried.
fn fails_by_try(alloc: Global, task: &MockTask, code: u8) -> Option<bool> {
    let codes = [code, 2];
    let reads = runs_so(alloc, task, &codes, b"rr", b"f2")?;
    let writes = runs_so(alloc, task, &codes, b"ww", b"f2")?;
    let shuts = runs_so(alloc, task, &codes, b"sr", b"f2")?;
    Some(reads && writes && shuts)
}

/// So too where the socket says that it failed instead of that it is ready.
fn fails_unready(alloc: Global, task: &MockTask, code: u8) -> bool {
    let mut link = SocketLink::new(Scripted {
        codes: Vec::new(alloc),
        tries: 0,
        fails_by: kind_of(code),
    });
    answers_so(task, &mut link, b"rwr", b"fff")
}

#[test]
fn each_kind_is_a_failure(rt: HostRuntime) -> Result<(), Fail> {
    let task = MockTask::new(&rt)?;
    for number in 0..12u8 {
        let code = FIRST_KIND.saturating_add(number);
        let tried = fails_by_try(rt.alloc(), &task, code) == Some(true);
        let unready = fails_unready(rt.alloc(), &task, code);
        assert!(rt; tried && unready, "kind {number}");
    }
    Ok(())
}
