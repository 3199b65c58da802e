//! What pings send.

ghost use Rattle.std.specs.Prelude.{◌≡◌, ℕ, List};

use std::marker::Model;

/// What gives pings their 32 bytes (libp2p ping 1.0.0: they are random; a program that is to say the same at every run
/// gives the same ones).
pub trait Payloads: Drop {
    /// These bytes may be given, now or later.
    ghost gives: { Self → List ℕ → Type 0 };

    /// Giving these bytes, once, leads from the first value to the second.
    ghost steps: { Self → List ℕ → Self → Type 0 };

    /// The bytes of the next ping. What may be given later might have been given now.
    fn next(&mut self) -> [u8; 32]
        ensures given { gives self.old result }
        ensures step { steps self.old result self.new }
        ensures kept { (bytes : List ℕ) → gives self.new bytes → gives self.old bytes };
}

/// Gives the same bytes, again and again.
#[derive(Clone, Copy, Debug, PartialEq, Eq)]
pub struct FixedPayload {
    /// What each ping sends.
    pub payload: [u8; 32],
}

impl Model for FixedPayload {
    ghost use Rattle.node_protocols.specs.Fixed.{Fixed};

    ghost Value = { Fixed };

    ghost view = { λ f. record { payload = f.payload } };

    ghost inverse = { λ v. record { payload = v.payload } };
}

impl Payloads for FixedPayload {
    ghost gives = { λ fixed bytes. bytes ≡ fixed.payload };

    ghost steps = { λ fixed bytes next. (bytes ≡ fixed.payload) × (next ≡ fixed) };

    fn next(&mut self) -> [u8; 32]
        ensures given { result ≡ self.old.payload }
        ensures kept { self.new ≡ self.old }
    {
        self.payload
    }
}
