//! An end of a connection.

ghost use Rattle.std.specs.Prelude.{length, take, ◌<◌, ◌≤◌, IfOk, IfErr, OnOk, OnErr, None, Ok, Err};
ghost use Rattle.std.specs.Prelude.{◌≡◌, ◌≢◌, ℕ, Bool, true, false, List, [], ◌∷◌, ◌++◌, if◌then◌else◌};
ghost use Rattle.peer_ids.specs.Key.{Key};
ghost use Rattle.conn_log.specs.declared.event.ConnEvent.{ConnEvent};
ghost use Rattle.conn_log.specs.declared.event.ConnEvent.TheVariants as event;
ghost use Rattle.conn_log.specs.declared.event.ConnFault.{ConnFault};
ghost use Rattle.upgrade.specs.declared.role.ConnRole.{ConnRole};
ghost use Rattle.upgrade.specs.Upgrades.{Grows};
ghost use Rattle.yamux_session.specs.History.{Item};
ghost use Rattle.yamux_session.specs.Acts.{start_refusal};
ghost use Rattle.yamux_session.specs.State.{Stands as SessionStands, Whenever};
ghost use Rattle.conn_log.specs.Asked.{IsRefusedAs};
ghost use Rattle.conn_log.specs.Entries.{Entry};
ghost use Rattle.yamux_session.specs.declared.event.Role.{Role};
ghost use Rattle.conn_core.specs.Connects.{Stands, Connects, IsComing, IsUpWith, MayOpen, IsRefused, is_over, is_spent};
ghost use Rattle.conn_core.specs.Connects.{session_role, IsGrown, IsOpened, OwesOf, TellsFirst, waiting_in, held_in};
ghost use Rattle.conn_core.specs.Connects.{IsOrderedIn};
ghost use Rattle.conn_core.specs.Wanting.{WroteOn, Wrote};

use crate::telling::{fail, last_event, last_output, session_role, tell};
use bytes::Bytes;
use conn_log::{ConnEvent, ConnFault, ConnRefused};
use handlers::{Handler, Protocols};
use mux::Mux;
use peer_ids::PublicKey;
use plaintext_x::Proven;
use std::alloc::{AllocError, Global};
use std::mem;
use upgrade::{ConnRole, Progress, Upgrade, UpgradeFault};
use yamux_session::{Role, Session};

/// Where a connection is.
#[derive(Drop)]
pub enum Phase<P: Protocols> {
    /// It comes up.
    Upgrading(Upgrade, P),
    /// It is up.
    Up(Mux<P>),
    /// It has told a Fault or Shut.
    Over,
    /// Memory was refused to it.
    Spent,
}

/// An end of a connection, without its link.
pub struct ConnCore<P: Protocols> {
    role: ConnRole,
    pub(crate) phase: Phase<P>,
    /// What was met within an ask, and is told first by the next call.
    owed: Vec<ConnEvent<P::H>>,
    /// What was written and not yet taken, once the connection is up or over.
    output: Vec<u8>,
    pub(crate) alloc: Global,
}

// By hand, so that the proof of who lets go of it is that of a call, and not of all that it holds.
impl<P: Protocols> Drop for ConnCore<P> {
    fn drop(self) {
        let Self {
            role: _,
            phase: _phase,
            owed: _owed,
            output: _output,
            alloc: _,
        } = self;
    }
}

/// Moves what the session has written behind what waits.
fn collect(output: &mut Vec<u8>, session: &mut Session) -> Result<(), ConnRefused>
    ensures moved { OnOk result (output.new.items ≡ output.old.items ++ session.old.pending) }
    ensures rest { session.new ≡ record session.old { pending = []; room = 0 } }
    ensures stands { (role : Role) (past : List Item) (fed sent : List ℕ) → SessionStands role past fed sent session.old
        → SessionStands role past fed (sent ++ session.old.pending) session.new }
    ensures memory { OnErr result (result ≡ Err ConnRefused.OutOfMemory) }
    ensures kept { OnErr result (output.new.items ≡ output.old.items) }
{
    let bytes = session.take_output();
    if output.is_empty() {
        *output = bytes;
        return Ok(());
    }
    match output.extend_from_slice(&bytes) {
        Ok(()) => Ok(()),
        Err(_) => Err(ConnRefused::OutOfMemory),
    }
}

/// Takes what came to a connection that is up, and tells what it led to; what the session wrote goes behind what waits.
/// Where the other end broke the rules of the session, a Fault is told last. Answers whether the connection goes on:
/// its session stays where it is, since it is large, and this is called for each piece.
fn go_on<P: Protocols>(
    mux: &mut Mux<P>,
    output: &mut Vec<u8>,
    piece: &Bytes,
    told: &mut Vec<ConnEvent<P::H>>,
) -> Result<bool, ConnRefused>
    ensures goes { (role : ConnRole) (own : Key) (start : P) (input taken : List ℕ) (log : List (Entry P.H))
        (before : List (ConnEvent P.H)) → IsUpWith P.H.steps P.H.fails P.H.is_closed P.H.is_finished P.makes_inbound
        P.makes_outbound P.listed P.is_eager P.leads_inbound P.leads_outbound start role own input log
        (before ++ told.old.items) (taken ++ output.old.items) mux.old
        → IfOk result (λ is_up. (now : List (Entry P.H)) × IsGrown [] log now × Connects P.H.steps P.H.fails
        P.H.is_closed P.H.is_finished P.makes_inbound P.makes_outbound P.listed P.is_eager P.leads_inbound
        P.leads_outbound start role own (input ++ piece.now) false now (before ++ told.new.items) taken
        (if is_up then Phase.Up mux.new else Phase.Over) [] output.new.items) }
    ensures memory { OnErr result (result ≡ Err ConnRefused.OutOfMemory) }
    ensures waits { OnErr result (Grows output.old.items output.new.items) }
    ensures wrote { (role : ConnRole) (own : Key) (start : P) (input taken : List ℕ) (log : List (Entry P.H))
        (before : List (ConnEvent P.H)) → IsUpWith P.H.steps P.H.fails P.H.is_closed P.H.is_finished P.makes_inbound
        P.makes_outbound P.listed P.is_eager P.leads_inbound P.leads_outbound start role own input log
        (before ++ told.old.items) (taken ++ output.old.items) mux.old
        → OnErr result (WroteOn P.H.steps P.H.fails P.H.is_closed P.H.is_finished P.makes_inbound P.makes_outbound
        P.listed P.is_eager P.leads_inbound P.leads_outbound start role own input piece.now log before
        (taken ++ output.new.items)) }
    ensures owed_first { (role : ConnRole) (own : Key) (start : P) (input taken : List ℕ) (log : List (Entry P.H))
        (before : List (ConnEvent P.H)) → IsUpWith P.H.steps P.H.fails P.H.is_closed P.H.is_finished P.makes_inbound
        P.makes_outbound P.listed P.is_eager P.leads_inbound P.leads_outbound start role own input log
        (before ++ told.old.items) (taken ++ output.old.items) mux.old
        → IfOk result (λ is_up. TellsFirst told.old.items told.new.items) }
{
    let Ok(()) = mux.feed(piece, told) else {
        return Err(ConnRefused::OutOfMemory);
    };
    collect(output, &mut mux.session)?;
    if mux.session.has_failed() {
        tell(told, ConnEvent::Fault(ConnFault::Mux))?;
        return Ok(false);
    }
    Ok(true)
}

/// The connection has come up: it tells so first, and what follows in the piece is the session's.
fn come_up<P: Protocols>(
    mux: Mux<P>,
    proven: Proven,
    used: usize,
    output: &mut Vec<u8>,
    piece: &Bytes,
    told: &mut Vec<ConnEvent<P::H>>,
) -> Result<Phase<P>, ConnRefused>
    requires within { used ≤ length piece.now }
    ensures goes { (role : ConnRole) (own : Key) (start : P) (input taken : List ℕ) → IsUpWith P.H.steps P.H.fails
        P.H.is_closed P.H.is_finished P.makes_inbound P.makes_outbound P.listed P.is_eager P.leads_inbound
        P.leads_outbound start role own (input ++ take used piece.now) [] (event.Upgraded proven ∷ [])
        (taken ++ output.old.items) mux → told.old.items ≡ []
        → IfOk result (λ phase. (now : List (Entry P.H)) × IsGrown [] [] now × Connects P.H.steps P.H.fails
        P.H.is_closed P.H.is_finished P.makes_inbound P.makes_outbound P.listed P.is_eager P.leads_inbound
        P.leads_outbound start role own (input ++ piece.now) false now told.new.items taken phase [] output.new.items) }
    ensures memory { OnErr result (result ≡ Err ConnRefused.OutOfMemory) }
    ensures waits { OnErr result (Grows output.old.items output.new.items) }
    ensures wrote { (role : ConnRole) (own : Key) (start : P) (input taken : List ℕ)
        → IsUpWith P.H.steps P.H.fails P.H.is_closed P.H.is_finished P.makes_inbound P.makes_outbound P.listed
        P.is_eager P.leads_inbound P.leads_outbound start role own (input ++ take used piece.now) []
        (event.Upgraded proven ∷ []) (taken ++ output.old.items) mux → told.old.items ≡ []
        → OnErr result (WroteOn P.H.steps P.H.fails P.H.is_closed P.H.is_finished P.makes_inbound P.makes_outbound
        P.listed P.is_eager P.leads_inbound P.leads_outbound start role own input piece.now [] []
        (taken ++ output.new.items)) }
{
    tell(told, ConnEvent::Upgraded(proven))?;
    let Ok(rest) = piece.slice(used..) else {
        return Err(ConnRefused::OutOfMemory);
    };
    let mut mux = mux;
    match go_on(&mut mux, output, &rest, told) {
        Ok(true) => Ok(Phase::Up(mux)),
        Ok(false) => Ok(Phase::Over),
        Err(refused) => Err(refused),
    }
}

/// Opens a stream for the protocol of this index; what the session wrote goes behind what waits.
fn open<P: Protocols>(
    mux: &mut Mux<P>,
    index: usize,
    owed: &mut Vec<ConnEvent<P::H>>,
    output: &mut Vec<u8>,
) -> Result<u32, ConnRefused>
    ensures opens { (role : ConnRole) (own : Key) (start : P) (input taken : List ℕ) (log : List (Entry P.H))
        (told : List (ConnEvent P.H)) → IsUpWith P.H.steps P.H.fails P.H.is_closed P.H.is_finished P.makes_inbound
        P.makes_outbound P.listed P.is_eager P.leads_inbound P.leads_outbound start role own input log
        (told ++ owed.old.items) (taken ++ output.old.items) mux.old
        → IfOk result (λ number. (now : List (Entry P.H)) × IsOpened number index log now × IsUpWith P.H.steps
        P.H.fails P.H.is_closed P.H.is_finished P.makes_inbound P.makes_outbound P.listed P.is_eager P.leads_inbound
        P.leads_outbound start role own input now (told ++ owed.new.items) (taken ++ output.new.items) mux.new) }
    ensures owes { (role : ConnRole) (own : Key) (start : P) (input written : List ℕ) (log : List (Entry P.H))
        (told : List (ConnEvent P.H)) → IsUpWith P.H.steps P.H.fails P.H.is_closed P.H.is_finished P.makes_inbound
        P.makes_outbound P.listed P.is_eager P.leads_inbound P.leads_outbound start role own input log told written
        mux.old → IfOk result (λ number. OwesOf number owed.old.items owed.new.items) }
    ensures within { IfOk result (λ number. index < length (P.listed mux.old.board.protocols)) }
    ensures opened { IfOk result (λ number.
        Whenever mux.old.session (λ role past. start_refusal role past ≡ None)) }
    ensures bad_index { length (P.listed mux.old.board.protocols) ≤ index → result ≡ Err ConnRefused.BadIndex }
    ensures refused { index < length (P.listed mux.old.board.protocols) → IfErr result (λ refused.
        Whenever mux.old.session (λ role past. IsRefusedAs (start_refusal role past) refused)) }
    ensures kept { IfErr result (λ refused. refused ≢ ConnRefused.OutOfMemory
        → (mux.new ≡ mux.old) × (owed.new ≡ owed.old) × (output.new ≡ output.old)) }
    ensures waits { OnErr result (output.new.items ≡ output.old.items) }
{
    let number = match mux.ask(index, owed) {
        Ok(number) => number,
        Err(refused) => return Err(refused),
    };
    match collect(output, &mut mux.session) {
        Ok(()) => Ok(number),
        Err(_) => Err(ConnRefused::OutOfMemory),
    }
}

/// Takes what came to a connection that comes up. Behind the last byte of its upgrade it is up, and what follows is the
/// session's. A fault of the upgrade is told, and the connection is over.
fn bring_up<P: Protocols>(
    alloc: Global,
    role: ConnRole,
    upgrade: Upgrade,
    protocols: P,
    output: &mut Vec<u8>,
    piece: &Bytes,
    told: &mut Vec<ConnEvent<P::H>>,
) -> Result<Phase<P>, ConnRefused>
    ensures goes { (own : Key) (start : P) (input taken : List ℕ) → IsComing P.H.steps P.H.fails P.H.is_closed
        P.H.is_finished P.makes_inbound P.makes_outbound P.listed P.is_eager P.leads_inbound P.leads_outbound start role
        own input [] taken upgrade protocols → output.old.items ≡ [] → told.old.items ≡ []
        → IfOk result (λ phase. (now : List (Entry P.H)) × IsGrown [] [] now × Connects P.H.steps P.H.fails
        P.H.is_closed P.H.is_finished P.makes_inbound P.makes_outbound P.listed P.is_eager P.leads_inbound
        P.leads_outbound start role own (input ++ piece.now) false now told.new.items taken phase [] output.new.items) }
    ensures memory { OnErr result (result ≡ Err ConnRefused.OutOfMemory) }
    ensures waits { OnErr result (Grows upgrade.pending output.new.items) }
    ensures wrote { (own : Key) (start : P) (input taken : List ℕ)
        → IsComing P.H.steps P.H.fails P.H.is_closed P.H.is_finished P.makes_inbound P.makes_outbound P.listed
        P.is_eager P.leads_inbound P.leads_outbound start role own input [] taken upgrade protocols
        → output.old.items ≡ [] → told.old.items ≡ []
        → OnErr result (Wrote P.H.steps P.H.fails P.H.is_closed P.H.is_finished P.makes_inbound P.makes_outbound
        P.listed P.is_eager P.leads_inbound P.leads_outbound start role own input piece.now [] []
        (taken ++ output.new.items)) }
{
    let mut upgrade = upgrade;
    match upgrade.feed(piece) {
        Ok(Progress::Going) => Ok(Phase::Upgrading(upgrade, protocols)),
        Ok(Progress::Up { used, proven }) => {
            *output = last_output(upgrade);
            let mux = Mux::new(alloc, session_role(role), proven.peer(), protocols);
            come_up(mux, proven, used, output, piece, told)
        }
        Err(fault) => {
            *output = last_output(upgrade);
            match fail(fault, told) {
                Ok(()) => Ok(Phase::Over),
                Err(refused) => Err(refused),
            }
        }
    }
}

/// Takes what came, unless the connection is over. Want of memory may leave any phase.
fn take_on<P: Protocols>(
    alloc: Global,
    role: ConnRole,
    phase: &mut Phase<P>,
    output: &mut Vec<u8>,
    piece: &Bytes,
    told: &mut Vec<ConnEvent<P::H>>,
) -> Result<(), ConnRefused>
    ensures goes { (own : Key) (start : P) (input taken : List ℕ) (log : List (Entry P.H))
        (before : List (ConnEvent P.H)) → Connects P.H.steps P.H.fails P.H.is_closed P.H.is_finished P.makes_inbound
        P.makes_outbound P.listed P.is_eager P.leads_inbound P.leads_outbound start role own input false log before
        taken phase.old told.old.items output.old.items → is_over phase.old ≡ false
        → OnOk result ((now : List (Entry P.H)) × IsGrown [] log now × Connects P.H.steps P.H.fails P.H.is_closed
        P.H.is_finished P.makes_inbound P.makes_outbound P.listed P.is_eager P.leads_inbound P.leads_outbound start role
        own (input ++ piece.now) false now (before ++ told.new.items) taken phase.new [] output.new.items) }
    ensures memory { OnErr result (result ≡ Err ConnRefused.OutOfMemory) }
    ensures waits { OnErr result (Grows (waiting_in phase.old output.old.items) output.new.items) }
    ensures wrote { (own : Key) (start : P) (input taken : List ℕ) (log : List (Entry P.H))
        (before : List (ConnEvent P.H)) → Connects P.H.steps P.H.fails P.H.is_closed P.H.is_finished P.makes_inbound
        P.makes_outbound P.listed P.is_eager P.leads_inbound P.leads_outbound start role own input false log before
        taken phase.old told.old.items output.old.items → is_over phase.old ≡ false
        → OnErr result (Wrote P.H.steps P.H.fails P.H.is_closed P.H.is_finished P.makes_inbound P.makes_outbound
        P.listed P.is_eager P.leads_inbound P.leads_outbound start role own input piece.now log before
        (taken ++ output.new.items)) }
    ensures owed_first { (own : Key) (start : P) (input taken : List ℕ) (log : List (Entry P.H))
        (before : List (ConnEvent P.H)) → Connects P.H.steps P.H.fails P.H.is_closed P.H.is_finished P.makes_inbound
        P.makes_outbound P.listed P.is_eager P.leads_inbound P.leads_outbound start role own input false log before
        taken phase.old told.old.items output.old.items → is_over phase.old ≡ false
        → OnOk result (TellsFirst told.old.items told.new.items) }
{
    if let Phase::Up(mux) = phase {
        if !go_on(mux, output, piece, told)? {
            // The proof of an assignment would walk through all that the old phase holds.
            drop(mem::replace(phase, Phase::Over));
        }
        return Ok(());
    }
    match mem::replace(phase, Phase::Spent) {
        Phase::Upgrading(upgrade, protocols) => {
            let next = bring_up(alloc, role, upgrade, protocols, output, piece, told)?;
            drop(mem::replace(phase, next));
            Ok(())
        }
        other => {
            drop(other);
            Err(ConnRefused::OutOfMemory)
        }
    }
}

impl<P: Protocols> ConnCore<P> {
    /// An end of this role, with this key and these protocols, before any byte came. It has written the first bytes of
    /// its upgrade. Its only refusal is want of memory.
    pub fn new(
        alloc: Global,
        role: ConnRole,
        key: PublicKey,
        protocols: P,
    ) -> Result<ConnCore<P>, ConnRefused>
        ensures stands { IfOk result (λ core. Stands P.H.steps P.H.fails P.H.is_closed P.H.is_finished P.makes_inbound
            P.makes_outbound P.listed P.is_eager P.leads_inbound P.leads_outbound protocols role key [] false [] [] []
            core) }
        ensures none_owed { IfOk result (λ core. core.owed.items ≡ []) }
        ensures memory { OnErr result (result ≡ Err ConnRefused.OutOfMemory) }
    {
        match Upgrade::new(alloc, role, key) {
            Ok(upgrade) => Ok(ConnCore {
                role,
                phase: Phase::Upgrading(upgrade, protocols),
                owed: Vec::new(alloc),
                output: Vec::new(alloc),
                alloc,
            }),
            Err(_) => Err(ConnRefused::OutOfMemory),
        }
    }

    /// Whether the connection has failed or was shut, or ran out of memory.
    pub fn is_over(&self) -> bool
        ensures { result ≡ is_over self.now.phase }
    {
        match &self.phase {
            Phase::Upgrading(..) => false,
            Phase::Up(_) => false,
            Phase::Over | Phase::Spent => true,
        }
    }

    /// Takes the bytes that came, and tells what they led to. Each Payload that is handed on is a slice of the piece.
    ///
    /// A Fault is told last, and the connection is over. Where memory was refused, it is over too, and what was written
    /// before can still be taken. Each call behind that answers [`ConnRefused::Failed`].
    pub fn feed_shared(&mut self, piece: Bytes) -> Result<Vec<ConnEvent<P::H>>, ConnRefused>
        ensures fed { (role : ConnRole) (own : Key) (start : P) (input taken : List ℕ) (log : List (Entry P.H))
            (told : List (ConnEvent P.H)) → Stands P.H.steps P.H.fails P.H.is_closed P.H.is_finished P.makes_inbound
            P.makes_outbound P.listed P.is_eager P.leads_inbound P.leads_outbound start role own input false log told
            taken self.old → is_over self.old.phase ≡ false
            → IfOk result (λ events. (now : List (Entry P.H)) × IsGrown [] log now × Stands P.H.steps P.H.fails
            P.H.is_closed P.H.is_finished P.makes_inbound P.makes_outbound P.listed P.is_eager P.leads_inbound
            P.leads_outbound start role own (input ++ piece) false now (told ++ events.items) taken self.new) }
        // What an ask owes is told before all else.
        ensures owed_first { (role : ConnRole) (own : Key) (start : P) (input taken : List ℕ) (log : List (Entry P.H))
            (told : List (ConnEvent P.H)) → Stands P.H.steps P.H.fails P.H.is_closed P.H.is_finished P.makes_inbound
            P.makes_outbound P.listed P.is_eager P.leads_inbound P.leads_outbound start role own input false log told
            taken self.old → is_over self.old.phase ≡ false
            → IfOk result (λ events. TellsFirst self.old.owed.items events.items) }
        ensures none_owed { OnOk result (self.new.owed.items ≡ []) }
        ensures refused { is_over self.old.phase ≡ false
            → OnErr result ((result ≡ Err ConnRefused.OutOfMemory) × (is_spent self.new.phase ≡ true)) }
        // What was written before can still be taken, and behind it what was written until memory was refused.
        ensures waits { OnErr result (Grows (waiting_in self.old.phase self.old.output.items)
            (waiting_in self.new.phase self.new.output.items)) }
        ensures wrote { (role : ConnRole) (own : Key) (start : P) (input taken : List ℕ) (log : List (Entry P.H))
            (told : List (ConnEvent P.H)) → Stands P.H.steps P.H.fails P.H.is_closed P.H.is_finished P.makes_inbound
            P.makes_outbound P.listed P.is_eager P.leads_inbound P.leads_outbound start role own input false log told
            taken self.old → is_over self.old.phase ≡ false
            → OnErr result (Wrote P.H.steps P.H.fails P.H.is_closed P.H.is_finished P.makes_inbound P.makes_outbound
            P.listed P.is_eager P.leads_inbound P.leads_outbound start role own input piece log told
            (taken ++ waiting_in self.new.phase self.new.output.items)) }
        ensures failed { is_over self.old.phase ≡ true → (result ≡ Err ConnRefused.Failed) × (self.new ≡ self.old) }
    {
        if self.is_over() {
            return Err(ConnRefused::Failed);
        }
        let mut told = mem::replace(&mut self.owed, Vec::new(self.alloc));
        match take_on(
            self.alloc,
            self.role,
            &mut self.phase,
            &mut self.output,
            &piece,
            &mut told,
        ) {
            Ok(()) => Ok(told),
            Err(refused) => {
                drop(mem::replace(&mut self.phase, Phase::Spent));
                Err(refused)
            }
        }
    }

    /// The same, of bytes that are copied once. It is refused as `feed_shared` is.
    pub fn feed(&mut self, bytes: &[u8]) -> Result<Vec<ConnEvent<P::H>>, ConnRefused>
        ensures fed { (role : ConnRole) (own : Key) (start : P) (input taken : List ℕ) (log : List (Entry P.H))
            (told : List (ConnEvent P.H)) → Stands P.H.steps P.H.fails P.H.is_closed P.H.is_finished P.makes_inbound
            P.makes_outbound P.listed P.is_eager P.leads_inbound P.leads_outbound start role own input false log told
            taken self.old → is_over self.old.phase ≡ false
            → IfOk result (λ events. (now : List (Entry P.H)) × IsGrown [] log now × Stands P.H.steps P.H.fails
            P.H.is_closed P.H.is_finished P.makes_inbound P.makes_outbound P.listed P.is_eager P.leads_inbound
            P.leads_outbound start role own (input ++ bytes.now) false now (told ++ events.items) taken self.new) }
        // What an ask owes is told before all else.
        ensures owed_first { (role : ConnRole) (own : Key) (start : P) (input taken : List ℕ) (log : List (Entry P.H))
            (told : List (ConnEvent P.H)) → Stands P.H.steps P.H.fails P.H.is_closed P.H.is_finished P.makes_inbound
            P.makes_outbound P.listed P.is_eager P.leads_inbound P.leads_outbound start role own input false log told
            taken self.old → is_over self.old.phase ≡ false
            → IfOk result (λ events. TellsFirst self.old.owed.items events.items) }
        ensures none_owed { OnOk result (self.new.owed.items ≡ []) }
        ensures refused { is_over self.old.phase ≡ false
            → OnErr result ((result ≡ Err ConnRefused.OutOfMemory) × (is_spent self.new.phase ≡ true)) }
        // What was written before can still be taken, and behind it what was written until memory was refused.
        ensures waits { OnErr result (Grows (waiting_in self.old.phase self.old.output.items)
            (waiting_in self.new.phase self.new.output.items)) }
        ensures wrote { (role : ConnRole) (own : Key) (start : P) (input taken : List ℕ) (log : List (Entry P.H))
            (told : List (ConnEvent P.H)) → Stands P.H.steps P.H.fails P.H.is_closed P.H.is_finished P.makes_inbound
            P.makes_outbound P.listed P.is_eager P.leads_inbound P.leads_outbound start role own input false log told
            taken self.old → is_over self.old.phase ≡ false
            → OnErr result (Wrote P.H.steps P.H.fails P.H.is_closed P.H.is_finished P.makes_inbound P.makes_outbound
            P.listed P.is_eager P.leads_inbound P.leads_outbound start role own input bytes.now log told
            (taken ++ waiting_in self.new.phase self.new.output.items)) }
        ensures failed { is_over self.old.phase ≡ true → (result ≡ Err ConnRefused.Failed) × (self.new ≡ self.old) }
    {
        if self.is_over() {
            return Err(ConnRefused::Failed);
        }
        match Bytes::copy_from_slice(self.alloc, bytes) {
            Ok(piece) => self.feed_shared(piece),
            Err(_) => {
                // What an upgrade has written waits in it.
                self.output = self.take_output();
                drop(mem::replace(&mut self.phase, Phase::Spent));
                Err(ConnRefused::OutOfMemory)
            }
        }
    }

    /// Opens a stream for the protocol of this index, and tells its number. Where the protocol is eager, its handler is
    /// made and asked for bytes at once. What is told of the stream then is told first by the next `feed` or `ended`.
    ///
    /// Where several refusals hold, the lowest of [`ConnRefused`] is answered, and nothing changes. Where memory was
    /// refused, the connection is over, and what was written before can still be taken.
    pub fn ask(&mut self, index: usize) -> Result<u32, ConnRefused>
        ensures asked { (role : ConnRole) (own : Key) (start : P) (input taken : List ℕ) (log : List (Entry P.H))
            (told : List (ConnEvent P.H)) → Stands P.H.steps P.H.fails P.H.is_closed P.H.is_finished P.makes_inbound
            P.makes_outbound P.listed P.is_eager P.leads_inbound P.leads_outbound start role own input false log told
            taken self.old
            → IfOk result (λ number. (now : List (Entry P.H)) × IsOpened number index log now × Stands
            P.H.steps P.H.fails P.H.is_closed P.H.is_finished P.makes_inbound P.makes_outbound P.listed P.is_eager
            P.leads_inbound P.leads_outbound start role own input false now told taken self.new) }
        ensures owes { (role : ConnRole) (own : Key) (start : P) (input taken : List ℕ) (log : List (Entry P.H))
            (told : List (ConnEvent P.H)) → Stands P.H.steps P.H.fails P.H.is_closed P.H.is_finished P.makes_inbound
            P.makes_outbound P.listed P.is_eager P.leads_inbound P.leads_outbound start role own input false log told
            taken self.old → IfOk result (λ number. OwesOf number self.old.owed.items self.new.owed.items) }
        ensures opened { IfOk result (λ number. MayOpen P.listed self.old.phase index) }
        ensures refused { IfErr result (λ refused. IsRefused P.listed self.old.phase index refused) }
        ensures kept { IfErr result (λ refused. refused ≢ ConnRefused.OutOfMemory → self.new ≡ self.old) }
        ensures memory { result ≡ Err ConnRefused.OutOfMemory → is_spent self.new.phase ≡ true }
        // What was written before can still be taken.
        ensures waits { OnErr result (waiting_in self.new.phase self.new.output.items
            ≡ waiting_in self.old.phase self.old.output.items) }
    {
        let asked = match &mut self.phase {
            Phase::Upgrading(..) => Err(ConnRefused::NotUp),
            Phase::Up(mux) => open(mux, index, &mut self.owed, &mut self.output),
            Phase::Over | Phase::Spent => Err(ConnRefused::Failed),
        };
        if asked == Err(ConnRefused::OutOfMemory) {
            drop(mem::replace(&mut self.phase, Phase::Spent));
        }
        asked
    }

    /// The input of the link has ended: it tells what is owed, and last Shut, or Fault(EarlyEnd) within the upgrade or
    /// within a frame. Its streams and their handlers are let go of. It is refused as `feed_shared` is.
    pub fn ended(&mut self) -> Result<Vec<ConnEvent<P::H>>, ConnRefused>
        ensures ends { (role : ConnRole) (own : Key) (start : P) (input taken : List ℕ) (log : List (Entry P.H))
            (told : List (ConnEvent P.H)) → Stands P.H.steps P.H.fails P.H.is_closed P.H.is_finished P.makes_inbound
            P.makes_outbound P.listed P.is_eager P.leads_inbound P.leads_outbound start role own input false log told
            taken self.old → is_over self.old.phase ≡ false
            → IfOk result (λ events. Stands P.H.steps P.H.fails P.H.is_closed P.H.is_finished P.makes_inbound
            P.makes_outbound P.listed P.is_eager P.leads_inbound P.leads_outbound start role own input true log
            (told ++ events.items) taken self.new) }
        // What an ask owes is told before all else.
        ensures owed_first { IfOk result (λ events. TellsFirst self.old.owed.items events.items) }
        ensures over { is_over self.new.phase ≡ true }
        ensures refused { is_over self.old.phase ≡ false
            → OnErr result ((result ≡ Err ConnRefused.OutOfMemory) × (is_spent self.new.phase ≡ true)) }
        // What was written can still be taken.
        ensures waits { waiting_in self.new.phase self.new.output.items
            ≡ waiting_in self.old.phase self.old.output.items }
        ensures failed { is_over self.old.phase ≡ true → (result ≡ Err ConnRefused.Failed) × (self.new ≡ self.old) }
    {
        if self.is_over() {
            return Err(ConnRefused::Failed);
        }
        let phase = mem::replace(&mut self.phase, Phase::Spent);
        let mut told = mem::replace(&mut self.owed, Vec::new(self.alloc));
        let last = last_event(phase, &mut self.output);
        tell(&mut told, last)?;
        drop(mem::replace(&mut self.phase, Phase::Over));
        Ok(told)
    }

    /// The bytes to send that were not taken yet; afterwards none wait. It takes no memory, and always answers: what
    /// was written before a fault, or before memory was refused, is given still.
    pub fn take_output(&mut self) -> Vec<u8>
        ensures stands { (role : ConnRole) (own : Key) (start : P) (input taken : List ℕ) (ended : Bool)
            (log : List (Entry P.H)) (told : List (ConnEvent P.H)) → Stands P.H.steps P.H.fails P.H.is_closed
            P.H.is_finished P.makes_inbound P.makes_outbound P.listed P.is_eager P.leads_inbound P.leads_outbound start
            role own input ended log told taken self.old → Stands P.H.steps P.H.fails P.H.is_closed P.H.is_finished
            P.makes_inbound P.makes_outbound P.listed P.is_eager P.leads_inbound P.leads_outbound start role own input
            ended log told (taken ++ result.items) self.new }
        ensures taken { result.items ≡ waiting_in self.old.phase self.old.output.items }
        ensures none_waits { waiting_in self.new.phase self.new.output.items ≡ [] }
        ensures owed { self.new.owed.items ≡ self.old.owed.items }
        ensures over { is_over self.new.phase ≡ is_over self.old.phase }
        ensures spent { is_spent self.new.phase ≡ is_spent self.old.phase }
    {
        if let Phase::Upgrading(upgrade, _) = &mut self.phase {
            return upgrade.take_output();
        }
        mem::replace(&mut self.output, Vec::new(self.alloc))
    }

    /// The handlers that are held still, each with the number of its stream, in the order in which they were made.
    /// AllocError where memory was refused to their list.
    pub fn into_handlers(self) -> Result<Vec<(u32, P::H)>, AllocError>
        ensures held { IfOk result (λ held. held.items ≡ held_in self.phase) }
        ensures ordered { IsOrderedIn self.phase }
    {
        let Self {
            role: _,
            phase,
            owed: _owed,
            output: _output,
            alloc,
        } = self;
        match phase {
            Phase::Up(mux) => mux.into_handlers(),
            Phase::Upgrading(..) | Phase::Over | Phase::Spent => Ok(Vec::new(alloc)),
        }
    }
}
