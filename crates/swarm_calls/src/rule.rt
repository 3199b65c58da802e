//! The rule of what is published: it shows a legal history of this swarm.

use crate::identity::Identity;
use crate::snapshot::{Operation, Snapshot};
use crossbeam_utils::rule::{Outcome, Protocol};
use left_right::reader::Reader;
use left_right::writer::Writer;
use std::marker::PhantomData;

/// The rule. Each step keeps it, and tells that it holds.
pub struct ShowsSwarm<J> {
    of: PhantomData<J>,
}

impl<J: Identity> Protocol<Snapshot, ()> for ShowsSwarm<J> {
    ghost use Rattle.swarm_calls.specs.Snapshots.{IsShown};

    ghost holds = { λ x views. IsShown J.book J.config J.callers x };

    ghost first = { tt };
}

impl<J: Identity> Outcome<Snapshot, ()> for ShowsSwarm<J> {
    ghost use Rattle.swarm_calls.specs.Snapshots.{IsShown};

    ghost then = { λ v x y w. IsShown J.book J.config J.callers y };
}

/// A pass's way to what is published.
pub type SwarmReader<J> = Reader<Snapshot, (), ShowsSwarm<J>>;

/// The lock's way to what is published.
pub type SwarmWriter<J> = Writer<Snapshot, Operation, (), ShowsSwarm<J>>;
