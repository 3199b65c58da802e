//! The order in which handlers were made.

ghost use Rattle.std.specs.Prelude.{◌≡◌, ◌<◌, ◌==◌, ◌∷◌, ℕ, List, [], IfOk, OnOk, IfSome, length, reverse};
ghost use Rattle.std.specs.List.{position};
ghost use Rattle.held_order.specs.Orders.{all_but, without, arranged};

use handlers::Handler;
use std::alloc::{AllocError, Global};
use std::marker::Model;

/// The streams whose handlers a connection holds, by their numbers, in the order in which the handlers were made.
///
/// Who makes a handler, or lets one go, says so.
#[derive(Debug, Drop)]
pub struct HeldOrder {
    // One that is made goes behind the others, so that none is moved.
    oldest: Vec<u32>,
}

impl Model for HeldOrder {
    ghost Value = { List ℕ };

    ghost view = { λ a. reverse a.oldest.items };
}

impl HeldOrder {
    /// No handler is held. It takes no memory.
    pub fn new(alloc: Global) -> HeldOrder
        ensures none { result ≡ [] }
    {
        HeldOrder {
            oldest: Vec::new(alloc),
        }
    }

    /// The newest handler is that of this stream. [`AllocError`] where a growth was refused.
    pub fn make(&mut self, number: u32) -> Result<(), AllocError>
        ensures made { OnOk result (self.new ≡ number ∷ self.old) }
    {
        match self.oldest.push(number) {
            Ok(()) => Ok(()),
            Err(_) => Err(AllocError),
        }
    }

    /// The newest handler of this stream is held no more.
    pub fn let_go(&mut self, number: u32)
        ensures gone { self.new ≡ without number self.old }
    {
        if let Some(at) = newest_of(&self.oldest, number) {
            self.oldest.remove(at);
        }
    }

    /// Puts what is held into the order in which it was made. What was never made comes last. [`AllocError`] where a
    /// growth was refused.
    pub fn arrange<H: Handler>(
        self,
        alloc: Global,
        held: Vec<(u32, H)>,
    ) -> Result<Vec<(u32, H)>, AllocError>
        ensures arranged { IfOk result (λ all. all.items ≡ arranged (reverse self) held.items) }
    {
        let mut newest = self.oldest;
        newest.reverse();
        let mut rest = held;
        let mut all = Vec::new(alloc);
        while let Some(number) = newest.pop() {
            if let Some(at) = place_of(&rest, number) {
                let one = rest.remove(at);
                if all.push(one).is_err() {
                    return Err(AllocError);
                }
            }
        }
        all.append(&mut rest)?;
        Ok(all)
    }
}

/// The place of this stream's newest handler.
fn newest_of(oldest: &[u32], number: u32) -> Option<usize>
    ensures within { IfSome result (λ at. at < length oldest.now) }
    ensures newest { without number (reverse oldest.now) ≡ reverse (all_but result oldest.now) }
{
    let mut at = oldest.len();
    while at > 0 {
        at -= 1;
        if oldest[at] == number {
            return Some(at);
        }
    }
    None
}

/// The first place at which this stream's handler stands.
fn place_of<H: Handler>(held: &[(u32, H)], number: u32) -> Option<usize>
    ensures { result ≡ position (λ one. one.0 == number) held.now }
{
    held.iter().position(|one| one.0 == number)
}
