//! One of the two nodes, and what the script has it do.

use crate::ending::RunEnding;
use driver::{Caller, Driver};
use node_lines::{Act, Awaited, Name, is_shown};
use peer_ids::PeerId;
use pool_texts::{print_listing, print_reply};
use std::io;
use std::io::Write;
use std::net::{Ipv4Addr, Net, SocketAddr};

/// One of the two nodes: what runs it, and the caller by which the script has its way.
#[derive(Drop)]
pub struct Side<'a, N: Net, C: Caller> {
    pub name: Name,
    pub peer: PeerId,
    pub driver: Driver<'a, N, C>,
    pub caller: C,
}

impl<N: Net, C: Caller> Side<'_, N, C> {
    /// Does what a line asks of this node, and prints what comes of it. What is awaited is for the script to look at.
    pub fn act<D: Caller, O: Write>(
        &mut self,
        act: Act,
        other: &mut Side<'_, N, D>,
        output: &mut O,
    ) -> Result<(), RunEnding> {
        let begin = self.name.begin();
        let reply = match act {
            Act::Listen => {
                self.listen(other)?;
                writeln!(output, "{begin}listening")?;
                return Ok(());
            }
            Act::List => {
                self.caller.renew();
                print_listing(begin, self.caller.listing(), output)?;
                return Ok(());
            }
            Act::Await(_) => return Ok(()),
            Act::Dial if !other.driver.listens() => return Err(RunEnding::Input),
            Act::Dial => self.caller.dial(Some(other.peer)),
            Act::Ask(conn, index) => self.caller.ask(conn, index),
            Act::HangUp => self.caller.hang_up(other.peer),
            Act::Block => self.caller.block(other.peer),
            Act::Unblock => self.caller.unblock(other.peer),
        };
        print_reply(begin, &reply, output)?;
        Ok(())
    }

    /// Listens, where it doesn't yet; the other node dials there.
    fn listen<D: Caller>(&mut self, other: &mut Side<'_, N, D>) -> io::Result<()> {
        if !self.driver.listens() {
            let addr = self
                .driver
                .listen(SocketAddr::from((Ipv4Addr::LOCALHOST, 0)))?;
            other.driver.dial_at(addr);
        }
        Ok(())
    }

    /// Whether the listing shows what is awaited.
    pub fn shows(&mut self, awaited: Awaited) -> bool {
        self.caller.renew();
        is_shown(awaited, self.caller.listing())
    }
}
