//! Two ends negotiate a protocol.

ghost use Rattle.std.specs.Prelude.{◌≡◌, length, map, IfOk, IfSome, IfNone};
ghost use Rattle.clients.specs.Negotiation.{AreJoined, GoesOn, Came, NameOne};

use ms_select::laws::one_name;
use ms_select::{Answer, Dialer, Listener, SelectFault};
use std::alloc::Global;

/// Where the two ends of one negotiation stand.
#[derive(Drop)]
pub struct Ends {
    pub dialer: Answer,
    pub listener: Answer,
}

/// Hands the listener what the dialer has written, and the dialer what the listener has written then.
fn deliver(dialer: &mut Dialer, listener: &mut Listener) -> Result<Ends, SelectFault>
    ensures { IfOk result (λ ends. AreJoined dialer.old listener.old
        → GoesOn dialer.old listener.old dialer.new listener.new ends) }
{
    let said = dialer.take_output();
    let heard = listener.feed(&said)?;
    let replied = listener.take_output();
    let told = dialer.feed(&replied)?;
    Ok(Ends {
        dialer: told.answer,
        listener: heard.answer,
    })
}

/// Both ends of a negotiation in one place: as often as there are names to propose, each is fed all that the other
/// has written. Where both agree, they name the same protocol.
pub fn negotiate(
    alloc: Global,
    dialed: &[&str],
    served: &[&str],
) -> Result<Option<Ends>, SelectFault>
    ensures none { IfOk result (λ ends. IfNone ends (length dialed.now ≡ 0)) }
    ensures came { IfOk result (λ ends. IfSome ends
        (Came (map (λ name. name.now) dialed.now) (map (λ name. name.now) served.now))) }
    ensures name { IfOk result (λ ends. IfSome ends
        (NameOne (map (λ name. name.now) dialed.now) (map (λ name. name.now) served.now))) }
{
    one_name();
    let mut dialer = Dialer::new(alloc, dialed)?;
    let mut listener = Listener::new(alloc, served)?;
    let mut ends = None;
    'rounds: for _name in dialed {
        ends = Some(deliver(&mut dialer, &mut listener)?);
    }
    Ok(ends)
}
