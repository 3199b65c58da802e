//! Two ends in one process: they negotiate plaintext, exchange their keys, negotiate yamux, and the listener echoes
//! what it receives on a stream.
#![tactic(auto)]

use anyhow::{Context, bail};
use ms_select::{Answer, Dialer, Listener};
use peer_ids::PublicKey;
use plaintext_x::{Exchange, Proven};
use std::alloc::Global;
use yamux_session::{Event, Role, Session};

/// How often `send` waits for credit before it gives up.
const MOST_ROUNDS: usize = 16;

/// Both ends of a connection that is up.
#[derive(Drop)]
struct Ends {
    dialer: Session,
    listener: Session,
}

/// Both ends agree on a protocol: what each writes is fed to the other.
fn agree(alloc: Global, name: &str) -> anyhow::Result<()> {
    let mut dialer = Dialer::new(alloc, &[name])?;
    let mut listener = Listener::new(alloc, &[name])?;
    if !do_agree(&mut dialer, &mut listener)? {
        bail!("no agreement on {name}");
    }
    Ok(())
}

fn do_agree(dialer: &mut Dialer, listener: &mut Listener) -> anyhow::Result<bool> {
    let heard = listener.feed(&dialer.take_output())?;
    let answered = dialer.feed(&listener.take_output())?;
    Ok(heard.answer == Answer::Agreed(0) && answered.answer == Answer::Agreed(0))
}

/// Each end shows its key. Returns what the dialer then knows of the listener.
fn prove(
    alloc: Global,
    dialer_key: &PublicKey,
    listener_key: &PublicKey,
) -> anyhow::Result<Proven> {
    let mut dialer = Exchange::new(alloc, dialer_key)?;
    let mut listener = Exchange::new(alloc, listener_key)?;
    listener.feed(&dialer.take_output())?;
    dialer.feed(&listener.take_output())?;
    dialer
        .into_proven()
        .ok()
        .context("the listener has shown no key")
}

/// Each end makes its key and shows it.
fn meet(alloc: Global) -> anyhow::Result<Proven> {
    let dialer_key = PublicKey::ed25519(alloc, &[0; 32])?;
    let listener_key = PublicKey::ed25519(alloc, &[0x11; 32])?;
    prove(alloc, &dialer_key, &listener_key)
}

/// The listener sends back what it receives on each stream.
fn echo(session: &mut Session, bytes: &[u8]) -> anyhow::Result<()> {
    for event in &session.feed(bytes)? {
        if let Event::Payload(stream, data) = event {
            let count = session.write(*stream, data.as_slice())?;
            if count < data.len() {
                bail!("the dialer takes nothing");
            }
            session.taken(*stream, count)?;
        }
    }
    Ok(())
}

/// The dialer prints what it receives, and takes it.
fn receive(rt: &HostRuntime, alloc: Global, ends: &mut Ends) -> anyhow::Result<()> {
    for event in &ends.dialer.feed(&ends.listener.take_output())? {
        if let Event::Payload(stream, data) = event {
            let text = String::from_utf8_lossy(alloc, data.as_slice())?;
            println!(rt; "stream {stream}: {text}")?;
            ends.dialer.taken(*stream, data.len())?;
        }
    }
    Ok(())
}

/// Sends `text` on a new stream and prints what comes back.
fn send(rt: &HostRuntime, alloc: Global, ends: &mut Ends, text: &[u8]) -> anyhow::Result<()> {
    let stream = ends.dialer.open_stream()?;
    let mut rest = text;
    for _round in 0..MOST_ROUNDS {
        let count = ends.dialer.write(stream, rest)?;
        rest = rest.get(count..).unwrap_or(&[]);
        echo(&mut ends.listener, &ends.dialer.take_output())?;
        receive(rt, alloc, ends)?;
        if rest.is_empty() {
            return Ok(());
        }
    }
    bail!("the listener gives no credit")
}

fn main(rt: HostRuntime) -> anyhow::Result<()> {
    let alloc = rt.alloc();
    agree(alloc, "/plaintext/2.0.0")?;
    let listener = meet(alloc)?;
    println!(rt; "connected to {}", listener.peer())?;
    agree(alloc, "/yamux/1.0.0")?;
    let mut ends = Ends {
        dialer: Session::new(alloc, Role::Client),
        listener: Session::new(alloc, Role::Server),
    };
    send(&rt, alloc, &mut ends, b"hello")
}
