//! What an end tells of its upgrade, and at its end.

ghost use Rattle.std.specs.Prelude.{OnOk, OnErr, Some, Err, ◌≡◌, ℕ, true, false, List, [], ◌∷◌, ◌++◌};
ghost use Rattle.peer_ids.specs.Key.{Key};
ghost use Rattle.conn_log.specs.declared.event.ConnEvent.{ConnEvent};
ghost use Rattle.conn_log.specs.declared.event.ConnEvent.TheVariants as event;
ghost use Rattle.conn_log.specs.declared.event.ConnFault.{ConnFault};
ghost use Rattle.conn_log.specs.Entries.{Entry};
ghost use Rattle.upgrade.specs.declared.role.ConnRole.{ConnRole};
ghost use Rattle.conn_core.specs.Connects.{Connects, Ends, is_over, told_of, session_role, waiting_in};

use crate::connection::Phase;
use conn_log::{ConnEvent, ConnFault, ConnRefused};
use handlers::{Handler, Protocols};
use upgrade::{ConnRole, Upgrade, UpgradeFault};
use yamux_session::Role;

/// The dialer is the client of the session.
pub(crate) fn session_role(role: ConnRole) -> Role
    ensures { result ≡ session_role role }
{
    match role {
        ConnRole::Dialer => Role::Client,
        ConnRole::Listener => Role::Server,
    }
}

/// What is told of a fault of the upgrade, unless it is want of memory.
pub(crate) fn told_of(fault: UpgradeFault) -> Option<ConnFault>
    ensures { result ≡ told_of fault }
{
    match fault {
        UpgradeFault::Select(_) => Some(ConnFault::Select),
        UpgradeFault::NoneLeft => Some(ConnFault::NoneLeft),
        UpgradeFault::Exchange(_) => Some(ConnFault::Exchange),
        UpgradeFault::Failed => None,
        UpgradeFault::OutOfMemory => None,
    }
}

/// Tells an event behind those that were told.
pub(crate) fn tell<H: Handler>(
    told: &mut Vec<ConnEvent<H>>,
    event: ConnEvent<H>,
) -> Result<(), ConnRefused>
    ensures told { OnOk result (told.new.items ≡ told.old.items ++ event ∷ []) }
    ensures memory { OnErr result (result ≡ Err ConnRefused.OutOfMemory) }
{
    match told.push(event) {
        Ok(()) => Ok(()),
        Err(_) => Err(ConnRefused::OutOfMemory),
    }
}

/// Tells a fault of the upgrade, unless it is want of memory.
pub(crate) fn fail<H: Handler>(
    fault: UpgradeFault,
    told: &mut Vec<ConnEvent<H>>,
) -> Result<(), ConnRefused>
    ensures told { OnOk result ((named : ConnFault) × (told_of fault ≡ Some named)
        × (told.new.items ≡ told.old.items ++ event.Fault named ∷ [])) }
    ensures memory { OnErr result (result ≡ Err ConnRefused.OutOfMemory) }
{
    match told_of(fault) {
        Some(named) => tell(told, ConnEvent::Fault(named)),
        None => Err(ConnRefused::OutOfMemory),
    }
}

/// What an upgrade that has ended has written, and nobody took.
pub(crate) fn last_output(upgrade: Upgrade) -> Vec<u8>
    ensures output { result.items ≡ upgrade.pending }
{
    let mut upgrade = upgrade;
    upgrade.take_output()
}

/// What is told last where the input ends in this phase. What an upgrade has written waits then.
pub(crate) fn last_event<P: Protocols>(phase: Phase<P>, output: &mut Vec<u8>) -> ConnEvent<P::H>
    ensures ends { (role : ConnRole) (own : Key) (start : P) (input taken : List ℕ) (log : List (Entry P.H))
        (before owed : List (ConnEvent P.H)) → Connects P.H.steps P.H.fails P.H.is_closed P.H.is_finished
        P.makes_inbound P.makes_outbound P.listed P.is_eager P.leads_inbound P.leads_outbound start role own input false
        log before taken phase owed output.old.items → is_over phase ≡ false
        → Ends P.H.steps P.H.fails P.H.is_closed P.H.is_finished P.makes_inbound P.makes_outbound P.listed P.is_eager
        P.leads_inbound P.leads_outbound start role own input true log ((before ++ owed) ++ result ∷ [])
        (taken ++ output.new.items) }
    ensures waits { output.new.items ≡ waiting_in phase output.old.items }
{
    match phase {
        Phase::Upgrading(upgrade, _) => {
            *output = last_output(upgrade);
            ConnEvent::Fault(ConnFault::EarlyEnd)
        }
        Phase::Up(mux) => {
            if mux.session.mid_frame() {
                return ConnEvent::Fault(ConnFault::EarlyEnd);
            }
            ConnEvent::Shut
        }
        Phase::Over | Phase::Spent => ConnEvent::Shut,
    }
}
