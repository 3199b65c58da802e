//! A thousand runs, each by steps of its own, against the core fed the same bytes directly.

use crate::row_tests::PINGS;
use conn_core::{ConnAct, ConnAnswer, ConnRan, run};
use conn_ends::{
    End, KEY, Plan, Play, Random, Said, UPGRADE, drive, kind_of, play_on, protocols, random_codes,
    steps_of, written,
};
use conn_link::{Link, Pipe};
use conn_log::ConnFault;
use futures::test::MockTask;
use node_protocols::NodeHandler;
use peer_ids::PublicKey;
use std::alloc::Global;
use std::test::*;
use upgrade::ConnRole;

/// What comes behind the ping: identify is asked for on stream 3, a protocol that is not known on stream 5, ping on
/// stream 7, which is then reset, and stream 9 is opened with a message that is none.
const MORE: &[u8] = b"\0\x01\0\x01\0\0\0\x03\0\0\0\0\0\0\0\0\0\0\0\x03\0\0\0\x24\
    \x13/multistream/1.0.0\n\x0f/ipfs/id/1.0.0\n\
    \0\x01\0\x01\0\0\0\x05\0\0\0\0\0\0\0\x04\0\0\0\x05\0\0\0\x17\x13/multistream/1.0.0\n\x02x\n\
    \0\x01\0\x01\0\0\0\x07\0\0\0\0\0\0\0\0\0\0\0\x07\0\0\0\x26\
    \x13/multistream/1.0.0\n\x11/ipfs/ping/1.0.0\n\0\x01\0\x08\0\0\0\x07\0\0\0\0\
    \0\x01\0\x01\0\0\0\x09\0\0\0\0\0\0\0\0\0\0\0\x09\0\0\0\x15\x13/multistream/1.0.0\n\0";

/// What comes in a run: all of it, or a front, or one byte of it is another.
fn input(alloc: Global, random: &mut Random) -> Option<Vec<u8>> {
    let mut input = UPGRADE.to_vec(alloc).ok()?;
    input.extend_from_slice(PINGS).ok()?;
    input.extend_from_slice(MORE).ok()?;
    let all = u32::try_from(input.len()).unwrap_or(0);
    let at = random.below(all) as usize;
    match random.below(3) {
        0 => input.truncate(at),
        1 => {
            if let Some(byte) = input.get_mut(at) {
                *byte ^= random.byte_below(255).saturating_add(1);
            }
        }
        _ => {}
    }
    Some(input)
}

/// What the core is fed: what the reads gave, each by a call of its own.
fn acts(alloc: Global, bytes: &[u8], given: &[usize]) -> Option<Vec<ConnAct>> {
    let mut acts = Vec::new(alloc);
    let mut rest = bytes;
    for count in given {
        let act = if *count == 0 {
            ConnAct::Ended
        } else {
            ConnAct::Feed(rest.get(..*count)?.to_vec(alloc).ok()?)
        };
        rest = rest.get(*count..)?;
        acts.push(act).ok()?;
    }
    Some(acts)
}

/// What the core tells and writes.
#[derive(Drop)]
struct Direct {
    told: Vec<Said>,
    output: Vec<u8>,
}

/// All that was told, in order.
fn all_told(alloc: Global, answers: &[ConnAnswer<NodeHandler>]) -> Option<Vec<Said>> {
    let mut told = Vec::new(alloc);
    for answer in answers {
        if let ConnAnswer::Events(events) = answer {
            for event in events {
                told.push(kind_of(event)).ok()?;
            }
        }
    }
    Some(told)
}

fn run_core(alloc: Global, acts: &[ConnAct]) -> Option<ConnRan<NodeHandler>> {
    let protocols = protocols(alloc)?;
    let key = PublicKey::read(alloc, KEY).ok()?;
    run(alloc, ConnRole::Listener, key, protocols, acts).ok()
}

fn feed_directly(alloc: Global, bytes: &[u8], given: &[usize]) -> Option<Direct> {
    let acts = acts(alloc, bytes, given)?;
    let ran = run_core(alloc, &acts)?;
    let told = all_told(alloc, &ran.answers)?;
    Some(Direct {
        told,
        output: ran.output,
    })
}

/// Whether the events are those of the core, and behind them Fault(Link) where a call failed, and Shut where `shut` was
/// called in time.
fn are_told(gave: &[Said], told: &[Said], has_failed: bool, may_shut: bool) -> bool {
    if gave == told {
        return !has_failed && told.len() > 0;
    }
    let Some(before) = gave.len().checked_sub(1) else {
        return false;
    };
    let last = if has_failed {
        Said::Fault(ConnFault::Link)
    } else {
        Said::Shut
    };
    gave.get(before) == Some(&last) && gave.get(..before) == Some(told) && (has_failed || may_shut)
}

/// What a run is: what comes, and by which calls.
#[derive(Drop)]
struct Script {
    bytes: Vec<u8>,
    pipe: Pipe,
    plan: Plan,
}

fn pipe(alloc: Global, bytes: &[u8], reads: &[u8], writes: &[u8]) -> Option<Pipe> {
    let input = bytes.to_vec(alloc).ok()?;
    Some(Pipe::new(
        alloc,
        input,
        steps_of(alloc, reads)?,
        steps_of(alloc, writes)?,
    ))
}

/// Most calls move some bytes, some are pending, and in every fourth run one fails.
fn pipe_at_random(alloc: Global, random: &mut Random, bytes: &[u8]) -> Option<Pipe> {
    let most = random.byte_below(200).saturating_add(1);
    let has_failing = random.below(4) == 0;
    let (reading, writing) = (random.below(100), random.below(100));
    let reads = random_codes(alloc, random, reading, most, has_failing)?;
    let writes = random_codes(alloc, random, writing, 60, has_failing)?;
    pipe(alloc, bytes, &reads, &writes)
}

/// In every fifth run `shut` is called.
fn script_of(alloc: Global, number: u32) -> Option<Script> {
    let mut random = Random {
        state: u64::from(number),
    };
    let bytes = input(alloc, &mut random)?;
    let pipe = pipe_at_random(alloc, &mut random, &bytes)?;
    let plan = if random.below(5) == 0 {
        Plan::ShutAt(random.below(30))
    } else {
        Plan::Listen
    };
    Some(Script { bytes, pipe, plan })
}

/// Whether the events are those of the core that is fed the same pieces directly, what is written begins its output,
/// and what the link didn't take is dropped.
fn follows_core(
    alloc: Global,
    task: &MockTask,
    conn: &mut End<Pipe>,
    bytes: &[u8],
    plan: Plan,
) -> Option<bool> {
    let gave = drive(alloc, task, conn, plan, 10_000)?;
    let direct = feed_directly(alloc, bytes, &conn.link().given)?;
    let has_failed = conn.link().failures() > 0;
    let may_shut = plan != Plan::Listen;
    let is_told = are_told(&gave.said, &direct.told, has_failed, may_shut);
    let is_written = direct.output.starts_with(written(conn));
    let is_over = gave.has_ended && conn.waiting() == 0;
    Some(is_told && is_written && is_over && gave.most <= 32)
}

/// A listener that hears these bytes.
#[derive(Drop)]
struct Hearing {
    bytes: Vec<u8>,
    plan: Plan,
}

impl Play<Pipe> for Hearing {
    fn play(self, alloc: Global, task: &MockTask, conn: &mut End<Pipe>) -> Option<bool> {
        follows_core(alloc, task, conn, &self.bytes, self.plan)
    }
}

fn runs(alloc: Global, task: &MockTask, number: u32) -> Option<bool> {
    let Script { bytes, pipe, plan } = script_of(alloc, number)?;
    let hearing = Hearing { bytes, plan };
    play_on(alloc, task, ConnRole::Listener, Some(pipe), hearing)
}

#[test]
fn a_thousand_runs(rt: HostRuntime) -> Result<(), Fail> {
    let task = MockTask::new(&rt)?;
    for number in 0..1000u32 {
        let held = runs(rt.alloc(), &task, number) == Some(true);
        assert!(rt; held, "run {number}");
    }
    Ok(())
}
