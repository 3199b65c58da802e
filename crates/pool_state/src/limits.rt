//! What a pool is made with.

ghost use Rattle.std.specs.Prelude.{◌≡◌, ◌≤◌, ◌↔◌, IsSome, IfSome};
ghost use Rattle.pool_state.specs.Ranges.{AreInRange};

use peer_ids::PeerId;

/// The limits of a pool (this project's profile). Each lies in its range, which no code can break.
#[derive(Clone, Copy, Debug, PartialEq, Eq)]
pub struct Limits {
    /// How many connections may stand: 1 to 256.
    pub conns: usize,
    /// How many connections of one peer may stand: 1 to 8.
    pub per_peer: usize,
    /// How many streams of one connection may be asked for and not yet done: 1 to 64.
    pub streams: usize,
    /// How many peers may be blocked: 0 to 64.
    pub blocked: usize,
    /// How many accepted connections may stand: 0 to 256.
    pub inbound: usize,
    /// How many dialed connections may stand: 0 to 256.
    pub outbound: usize,
    /// How many peers may be allowed: 0 to 64.
    pub allowed: usize,
    pub ghost some_conns: { 1 ≤ conns },
    pub ghost few_conns: { conns ≤ 256 },
    pub ghost some_per_peer: { 1 ≤ per_peer },
    pub ghost few_per_peer: { per_peer ≤ 8 },
    pub ghost some_streams: { 1 ≤ streams },
    pub ghost few_streams: { streams ≤ 64 },
    pub ghost few_blocked: { blocked ≤ 64 },
    pub ghost few_inbound: { inbound ≤ 256 },
    pub ghost few_outbound: { outbound ≤ 256 },
    pub ghost few_allowed: { allowed ≤ 64 },
}

impl Limits {
    /// The limits, where each is in its range.
    pub fn new(
        conns: usize,
        per_peer: usize,
        streams: usize,
        blocked: usize,
        inbound: usize,
        outbound: usize,
        allowed: usize,
    ) -> Option<Limits>
        ensures in_range { IsSome result ↔ AreInRange conns per_peer streams blocked inbound outbound allowed }
        ensures connections { IfSome result (λ limits. (limits.conns ≡ conns) × (limits.per_peer ≡ per_peer)
            × (limits.streams ≡ streams)) }
        ensures sides { IfSome result (λ limits. (limits.inbound ≡ inbound) × (limits.outbound ≡ outbound)) }
        ensures lists { IfSome result (λ limits. (limits.blocked ≡ blocked) × (limits.allowed ≡ allowed)) }
    {
        let rows = 1 <= conns && conns <= 256 && 1 <= per_peer && per_peer <= 8;
        let lists = 1 <= streams && streams <= 64 && blocked <= 64 && allowed <= 64;
        if !rows || !lists || inbound > 256 || outbound > 256 {
            return None;
        }
        Some(Limits {
            conns,
            per_peer,
            streams,
            blocked,
            inbound,
            outbound,
            allowed,
        })
    }
}

impl Default for Limits {
    ghost use Rattle.pool_state.specs.Limits.{AreCommon};

    ghost is_default = { AreCommon };

    /// 64 connections, dialed or accepted, of one peer as many as can be, and as many streams and peers on the lists.
    fn default() -> Limits {
        Limits {
            conns: 64,
            per_peer: 8,
            streams: 64,
            blocked: 64,
            inbound: 256,
            outbound: 256,
            allowed: 64,
        }
    }
}

/// What a pool is made with.
#[derive(Clone, Copy, Debug, PartialEq, Eq)]
pub struct Config {
    /// The id of this node itself, to which no connection may lead.
    pub own: PeerId,
    /// The limits of the tables.
    pub limits: Limits,
    /// The number of the first connection.
    pub first_conn: u32,
    /// The front of the empty history: 0, or where an earlier run stopped.
    pub first_front: u64,
    /// Only allowed peers may connect.
    pub allow_only: bool,
}
