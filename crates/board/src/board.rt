//! The streams of a connection.

ghost use Rattle.std.specs.Prelude.{◌≡◌, ◌≢◌, ◌⊎◌, ℕ, ◌==◌, if◌then◌else◌, true, false, List, [], ◌∷◌, ◌++◌, map};
ghost use Rattle.std.specs.Prelude.{Some, None, OnOk, IfOk, IfSome, IsSome, is_some, not, ◌&&◌, ◌||◌};
ghost use Rattle.std.specs.List.{AllByRecursion};
ghost use Rattle.std.specs.Ordering.{nat_cmp};
ghost use Rattle.std.specs.BTreeMap as tree;
ghost use Rattle.yamux_session.specs.History.{Item, is_own};
ghost use Rattle.yamux_session.specs.Events.{Told};
ghost use Rattle.yamux_session.specs.Seen.{Seen, just_opened, IsQuiet};
ghost use Rattle.yamux_session.specs.State.{State, Stands as SessionStands};
ghost use Rattle.conn_log.specs.Entries.{Entry, items, agreement, since, made_of, is_over};
ghost use Rattle.conn_log.specs.Asking.{is_asked_anew};
ghost use Rattle.conn_log.specs.Due.{direction_of, IsGivenUp, told_reset};
ghost use Rattle.conn_log.specs.Routes.{IsNoData, MayBeServed, Around, Routes, Routed, Comes, Resets, set_aside};
ghost use Rattle.conn_log.specs.Asked.{told_of};
ghost use Rattle.held_order.specs.Orders.{with_if, without_if};
ghost use Rattle.board.specs.Boards.{Keeps, MakesOnBoard};
ghost use Rattle.board.specs.Resets.{told_of_reset};

use conn_log::{ConnEvent, Earlier};
use dispatch::Direction;
use handlers::{Handler, Protocols};
use held_order::HeldOrder;
use peer_ids::PeerId;
use routing::{Outcome, deliver, deliver_credit, deliver_end};
use std::alloc::{AllocError, Global};
use std::collections::BTreeMap;
use streams::{Cause, Stream};
use yamux_session::laws::acts_tell;
use yamux_session::{ActRefused, Role, Session, is_own_number};

/// The streams of a connection, and what makes their handlers.
#[derive(Drop)]
pub struct Board<P: Protocols> {
    /// Which end of the session this is.
    pub role: Role,
    /// The other end.
    pub peer: PeerId,
    /// The protocols of the streams.
    pub protocols: P,
    /// The streams that are held, by their numbers: each live one, and each whose handler never finished, until its
    /// number is opened anew.
    pub streams: BTreeMap<u32, Stream<P::H>>,
    /// Streams of earlier openings, in the order in which their numbers were opened anew.
    pub past: Vec<Earlier<P::H>>,
    /// The order in which the handlers that are held were made.
    pub order: HeldOrder,
}

/// This end opened the streams that have its numbers.
fn direction_of(role: Role, number: u32) -> Direction
    ensures { result ≡ direction_of role number }
{
    if is_own_number(role, number) {
        return Direction::Outbound;
    }
    Direction::Inbound
}

/// Resets a stream, where it is live.
fn reset(session: &mut Session, number: u32) -> Result<(), AllocError>
    ensures { (role : Role) (past : List Item) (fed sent : List ℕ) → SessionStands role past fed sent session.old
        → OnOk result (Resets role past fed sent number session.old session.new) }
{
    match session.reset(number) {
        Ok(()) => Ok(()),
        Err(ActRefused::NoStream) => Ok(()),
        Err(_) => Err(AllocError),
    }
}

/// Where both ends agree by now, the handler of this stream was made then, unless it was held before. Answers whether
/// one is held now.
fn agree(
    order: &mut HeldOrder,
    number: u32,
    was_held: bool,
    agreed: Option<usize>,
) -> Result<bool, AllocError>
    ensures order { IfOk result (λ is_held. order.new
        ≡ with_if (is_some agreed && not was_held) number order.old) }
    ensures held { IfOk result (λ is_held. is_held ≡ (was_held || is_some agreed)) }
{
    if was_held || agreed.is_none() {
        return Ok(was_held);
    }
    order.make(number)?;
    Ok(true)
}

/// The newest handler of this stream is held no more, where one was made for it since its opening.
fn let_go(order: &mut HeldOrder, number: u32, was_made: bool)
    ensures { order.new ≡ without_if was_made number order.old }
{
    if was_made {
        order.let_go(number);
    }
}

/// Tells an event behind those that were told.
fn tell<H: Handler>(told: &mut Vec<ConnEvent<H>>, event: ConnEvent<H>) -> Result<(), AllocError>
    ensures { OnOk result (told.new.items ≡ told.old.items ++ event ∷ []) }
{
    match told.push(event) {
        Ok(()) => Ok(()),
        Err(_) => Err(AllocError),
    }
}

/// Tells on which protocol both ends agree, where they do by now.
fn tell_agreement<H: Handler>(
    told: &mut Vec<ConnEvent<H>>,
    number: u32,
    agreed: Option<usize>,
) -> Result<(), AllocError>
    ensures { OnOk result (told.new.items ≡ told.old.items ++ agreement number agreed) }
{
    match agreed {
        Some(index) => tell(told, ConnEvent::Agreed(number, index)),
        None => Ok(()),
    }
}

/// Puts the stream of an earlier opening of this number aside, where its handler never finished.
fn put_aside<H: Handler>(
    streams: &mut BTreeMap<u32, Stream<H>>,
    past: &mut Vec<Earlier<H>>,
    number: u32,
) -> Result<(), AllocError>
    ensures elsewhere { (m : ℕ) → (number == m) ≡ false
        → tree.get nat_cmp streams.new m ≡ tree.get nat_cmp streams.old m }
    ensures aside { OnOk result (past.new.items
        ≡ past.old.items ++ set_aside number (tree.get nat_cmp streams.old number)) }
{
    let Some(stream) = streams.remove(&number) else {
        return Ok(());
    };
    if stream.was_handed_out() {
        return Ok(());
    }
    match past.push(Earlier { number, stream }) {
        Ok(()) => Ok(()),
        Err(_) => Err(AllocError),
    }
}

/// Puts a stream in.
pub(crate) fn insert<H: Handler>(
    streams: &mut BTreeMap<u32, Stream<H>>,
    number: u32,
    stream: Stream<H>,
) -> Result<(), AllocError>
    ensures { OnOk result ((m : ℕ) → tree.get nat_cmp streams.new m
        ≡ (if tree.is_at (nat_cmp number) m then Some stream else tree.get nat_cmp streams.old m)) }
{
    match streams.insert(number, stream) {
        Ok(_) => Ok(()),
        Err(_) => Err(AllocError),
    }
}

impl<P: Protocols> Board<P> {
    /// Gives a stream up: its handler is dropped, and the stream is reset where it is live.
    fn give_up(&mut self, session: &mut Session, number: u32) -> Result<(), AllocError>
        ensures keeps { Keeps P.listed P.is_eager self.old self.new }
        ensures past { self.new.past.items ≡ self.old.past.items }
        ensures gives_up { (log : List (Entry P.H)) (fed sent : List ℕ) (view : Seen) (rest : List Told)
            (told : List (ConnEvent P.H))
            → Around P.H.steps P.H.fails P.H.is_closed P.H.is_finished P.makes_inbound P.makes_outbound
            (P.is_eager self.old.protocols) (P.listed self.old.protocols) self.old.peer self.old.role log fed sent
            session.old (tree.get nat_cmp self.old.streams) self.old.past.items number view rest
            → IsGivenUp number log → OnOk result (Routed P.H.steps P.H.fails P.H.is_closed P.H.is_finished
            P.makes_inbound P.makes_outbound (P.is_eager self.old.protocols) (P.listed self.old.protocols) self.old.peer
            self.old.role (MakesOnBoard P.leads_inbound P.leads_outbound self.old self.new) log told told fed sent
            session.new (tree.get nat_cmp self.new.streams) self.new.past.items number rest) }
    {
        acts_tell();
        self.streams.remove(&number);
        reset(session, number)
    }

    /// Tells what a stream came to, and gives it up where it goes on no more. A handler that was made for it since its
    /// opening goes then. It is inlined, since nearly every frame leaves its stream going.
    #[inline(always)]
    pub(crate) fn settle(
        &mut self,
        session: &mut Session,
        number: u32,
        outcome: Outcome<P::H>,
        is_held: bool,
        told: &mut Vec<ConnEvent<P::H>>,
    ) -> Result<(), AllocError>
        ensures keeps { Keeps P.listed P.is_eager self.old self.new }
        ensures past { self.new.past.items ≡ self.old.past.items }
        ensures tells { OnOk result (told.new.items ≡ told.old.items ++ told_of number outcome) }
        ensures settles { (log : List (Entry P.H)) (fed sent : List ℕ) (view : Seen) (rest : List Told)
            → Comes P.H.steps P.H.fails P.H.is_closed P.H.is_finished P.makes_inbound P.makes_outbound
            (P.is_eager self.old.protocols) (P.listed self.old.protocols) self.old.peer self.old.role log fed sent
            session.old (tree.get nat_cmp self.old.streams) self.old.past.items number view rest outcome
            → (is_over self.old.role log number ≡ false → is_held ≡ is_some (made_of self.old.role log number))
            → OnOk result (Routed P.H.steps P.H.fails P.H.is_closed P.H.is_finished P.makes_inbound P.makes_outbound
            (P.is_eager self.old.protocols) (P.listed self.old.protocols) self.old.peer self.old.role
            (MakesOnBoard P.leads_inbound P.leads_outbound self.old self.new) log told.old.items told.new.items fed sent
            session.new (tree.get nat_cmp self.new.streams) self.new.past.items number rest) }
    {
        match outcome {
            Outcome::Going => Ok(()),
            Outcome::Done(handler) => {
                let_go(&mut self.order, number, is_held);
                tell(told, ConnEvent::Done(number, handler))
            }
            Outcome::Refused => {
                let_go(&mut self.order, number, is_held);
                self.give_up(session, number)?;
                tell(told, ConnEvent::Refused(number))
            }
            Outcome::Broken(cause) => {
                let_go(&mut self.order, number, is_held);
                self.give_up(session, number)?;
                tell(told, ConnEvent::Broken(number, cause))
            }
        }
    }

    /// Serves a stream, where it is held, and tells what it came to.
    fn serve(
        &mut self,
        session: &mut Session,
        number: u32,
        told: &mut Vec<ConnEvent<P::H>>,
    ) -> Result<(), AllocError>
        ensures keeps { Keeps P.listed P.is_eager self.old self.new }
        ensures past { self.new.past.items ≡ self.old.past.items }
        ensures serves { (log : List (Entry P.H)) (fed sent : List ℕ) (view : Seen) (rest : List Told)
            → Around P.H.steps P.H.fails P.H.is_closed P.H.is_finished P.makes_inbound P.makes_outbound
            (P.is_eager self.old.protocols) (P.listed self.old.protocols) self.old.peer self.old.role log fed sent
            session.old (tree.get nat_cmp self.old.streams) self.old.past.items number view rest
            → AllByRecursion IsNoData rest
            → IfSome (tree.get nat_cmp self.old.streams number) (MayBeServed P.H.steps P.H.fails P.H.is_closed
            P.H.is_finished P.makes_inbound P.makes_outbound (P.is_eager self.old.protocols)
            (P.listed self.old.protocols) self.old.peer self.old.role log number view rest)
            → (view.live ≡ true → IsSome (tree.get nat_cmp self.old.streams number))
            → (made_of self.old.role log number ≢ None → is_over self.old.role log number ≡ false
            → IsSome (tree.get nat_cmp self.old.streams number))
            → (told_reset number rest ≡ true → is_over self.old.role log number ≡ false
            → IsSome (tree.get nat_cmp self.old.streams number))
            → OnOk result (Routed P.H.steps P.H.fails P.H.is_closed P.H.is_finished P.makes_inbound P.makes_outbound
            (P.is_eager self.old.protocols) (P.listed self.old.protocols) self.old.peer self.old.role
            (MakesOnBoard P.leads_inbound P.leads_outbound self.old self.new) log told.old.items told.new.items fed sent
            session.new (tree.get nat_cmp self.new.streams) self.new.past.items number rest) }
    {
        acts_tell();
        let Some(stream) = self.streams.get_mut(&number) else {
            return Ok(());
        };
        let is_held = stream.holds_handler();
        let outcome = deliver_credit(session, number, stream)?;
        self.settle(session, number, outcome, is_held, told)
    }

    /// Routes the other end's opening of a stream: the stream answers, with all names of the connection. That of an
    /// earlier opening of its number is put aside, where its handler never finished.
    pub fn open(
        &mut self,
        alloc: Global,
        session: &mut Session,
        number: u32,
        told: &mut Vec<ConnEvent<P::H>>,
    ) -> Result<(), AllocError>
        ensures keeps { Keeps P.listed P.is_eager self.old self.new }
        // A handler that never finished stays held.
        ensures aside { OnOk result (self.new.past.items
            ≡ self.old.past.items ++ set_aside number (tree.get nat_cmp self.old.streams number)) }
        ensures routes { (log : List (Entry P.H)) (fed sent : List ℕ) (rest : List Told)
            → Around P.H.steps P.H.fails P.H.is_closed P.H.is_finished P.makes_inbound P.makes_outbound
            (P.is_eager self.old.protocols) (P.listed self.old.protocols) self.old.peer self.old.role log fed sent
            session.old (tree.get nat_cmp self.old.streams)
            (self.old.past.items ++ set_aside number (tree.get nat_cmp self.old.streams number)) number just_opened rest
            → AllByRecursion IsNoData rest → since self.old.role log number ≡ [] → is_own self.old.role number ≡ false
            → AllByRecursion (IsQuiet number) rest ⊎ (is_asked_anew self.old.role log number ≡ true)
            → OnOk result (Routed P.H.steps P.H.fails P.H.is_closed P.H.is_finished P.makes_inbound P.makes_outbound
            (P.is_eager self.old.protocols) (P.listed self.old.protocols) self.old.peer self.old.role
            (MakesOnBoard P.leads_inbound P.leads_outbound self.old self.new) log told.old.items told.new.items fed sent
            session.new (tree.get nat_cmp self.new.streams) self.new.past.items number rest) }
    {
        let Ok(stream) = Stream::answer(alloc, self.protocols.names()) else {
            return Err(AllocError);
        };
        put_aside(&mut self.streams, &mut self.past, number)?;
        insert(&mut self.streams, number, stream)?;
        self.serve(session, number, told)
    }

    /// Routes credit to its stream: it is asked for as many bytes as there is credit now.
    pub fn credit(
        &mut self,
        session: &mut Session,
        number: u32,
        told: &mut Vec<ConnEvent<P::H>>,
    ) -> Result<(), AllocError>
        ensures keeps { Keeps P.listed P.is_eager self.old self.new }
        ensures past { self.new.past.items ≡ self.old.past.items }
        ensures routes { (log : List (Entry P.H)) (fed sent : List ℕ) (view : Seen) (rest : List Told)
            → Routes P.H.steps P.H.fails P.H.is_closed P.H.is_finished P.makes_inbound P.makes_outbound
            (P.is_eager self.old.protocols) (P.listed self.old.protocols) self.old.peer self.old.role log fed sent
            session.old (tree.get nat_cmp self.old.streams) self.old.past.items number view
            (Told.Credit number ∷ rest)
            → AllByRecursion IsNoData rest
            → OnOk result (Routed P.H.steps P.H.fails P.H.is_closed P.H.is_finished P.makes_inbound P.makes_outbound
            (P.is_eager self.old.protocols) (P.listed self.old.protocols) self.old.peer self.old.role
            (MakesOnBoard P.leads_inbound P.leads_outbound self.old self.new) log told.old.items told.new.items fed sent
            session.new (tree.get nat_cmp self.new.streams) self.new.past.items number rest) }
    {
        self.serve(session, number, told)
    }

    /// Routes the end of the data to its stream: to its handler. Then the stream is served. An end within the talk
    /// breaks the stream.
    pub fn end(
        &mut self,
        session: &mut Session,
        number: u32,
        told: &mut Vec<ConnEvent<P::H>>,
    ) -> Result<(), AllocError>
        ensures keeps { Keeps P.listed P.is_eager self.old self.new }
        ensures past { self.new.past.items ≡ self.old.past.items }
        ensures routes { (log : List (Entry P.H)) (fed sent : List ℕ) (view : Seen) (rest : List Told)
            → Routes P.H.steps P.H.fails P.H.is_closed P.H.is_finished P.makes_inbound P.makes_outbound
            (P.is_eager self.old.protocols) (P.listed self.old.protocols) self.old.peer self.old.role log fed sent
            session.old (tree.get nat_cmp self.old.streams) self.old.past.items number view
            (Told.Ended number ∷ rest)
            → OnOk result (Routed P.H.steps P.H.fails P.H.is_closed P.H.is_finished P.makes_inbound P.makes_outbound
            (P.is_eager self.old.protocols) (P.listed self.old.protocols) self.old.peer self.old.role
            (MakesOnBoard P.leads_inbound P.leads_outbound self.old self.new) log told.old.items told.new.items fed sent
            session.new (tree.get nat_cmp self.new.streams) self.new.past.items number rest) }
    {
        acts_tell();
        let Some(stream) = self.streams.get_mut(&number) else {
            return Ok(());
        };
        let is_held = stream.holds_handler();
        let outcome = deliver_end(session, number, stream)?;
        self.settle(session, number, outcome, is_held, told)
    }

    /// Routes the other end's reset to its stream, which is given up, unless its handler was handed out before.
    pub fn reset(&mut self, number: u32, told: &mut Vec<ConnEvent<P::H>>) -> Result<(), AllocError>
        ensures keeps { Keeps P.listed P.is_eager self.old self.new }
        ensures past { self.new.past.items ≡ self.old.past.items }
        // Each reset is told, also of a stream whose talk isn't over.
        ensures tells { OnOk result (told.new.items
            ≡ told.old.items ++ told_of_reset number (tree.get nat_cmp self.old.streams number)) }
        ensures unheld { tree.get nat_cmp self.new.streams number ≡ None }
        ensures routes { (log : List (Entry P.H)) (fed sent : List ℕ) (session : State) (view : Seen) (rest : List Told)
            → Routes P.H.steps P.H.fails P.H.is_closed P.H.is_finished P.makes_inbound P.makes_outbound
            (P.is_eager self.old.protocols) (P.listed self.old.protocols) self.old.peer self.old.role log fed sent
            session (tree.get nat_cmp self.old.streams) self.old.past.items number view
            (Told.Reset number ∷ rest)
            → OnOk result (Routed P.H.steps P.H.fails P.H.is_closed P.H.is_finished P.makes_inbound P.makes_outbound
            (P.is_eager self.old.protocols) (P.listed self.old.protocols) self.old.peer self.old.role
            (MakesOnBoard P.leads_inbound P.leads_outbound self.old self.new) log told.old.items told.new.items fed sent
            session (tree.get nat_cmp self.new.streams) self.new.past.items number rest) }
    {
        let Some(stream) = self.streams.remove(&number) else {
            return Ok(());
        };
        if stream.was_handed_out() {
            return Ok(());
        }
        let_go(&mut self.order, number, stream.holds_handler());
        tell(told, ConnEvent::Broken(number, Cause::Reset))
    }

    /// Routes data to its stream: to its talk while nothing is decided, and behind it to its handler. Then the stream
    /// is served.
    pub fn data(
        &mut self,
        session: &mut Session,
        number: u32,
        bytes: &[u8],
        told: &mut Vec<ConnEvent<P::H>>,
    ) -> Result<(), AllocError>
        ensures keeps { Keeps P.listed P.is_eager self.old self.new }
        ensures past { self.new.past.items ≡ self.old.past.items }
        ensures routes { (log : List (Entry P.H)) (fed sent : List ℕ) (view : Seen) (rest : List Told)
            → Routes P.H.steps P.H.fails P.H.is_closed P.H.is_finished P.makes_inbound P.makes_outbound
            (P.is_eager self.old.protocols) (P.listed self.old.protocols) self.old.peer self.old.role log fed sent
            session.old (tree.get nat_cmp self.old.streams) self.old.past.items number view
            (map (Told.Payload number) bytes.now ++ rest)
            → bytes.now ≢ [] → AllByRecursion IsNoData rest
            → OnOk result (Routed P.H.steps P.H.fails P.H.is_closed P.H.is_finished P.makes_inbound P.makes_outbound
            (P.is_eager self.old.protocols) (P.listed self.old.protocols) self.old.peer self.old.role
            (MakesOnBoard P.leads_inbound P.leads_outbound self.old self.new) log told.old.items told.new.items fed sent
            session.new (tree.get nat_cmp self.new.streams) self.new.past.items number rest) }
    {
        acts_tell();
        let direction = direction_of(self.role, number);
        let Some(stream) = self.streams.get_mut(&number) else {
            return Ok(());
        };
        let was_held = stream.holds_handler();
        let delivered = deliver(
            session,
            number,
            &mut self.protocols,
            direction,
            self.peer,
            stream,
            bytes,
        )?;
        let is_held = agree(&mut self.order, number, was_held, delivered.agreed)?;
        tell_agreement(told, number, delivered.agreed)?;
        self.settle(session, number, delivered.outcome, is_held, told)
    }
}
