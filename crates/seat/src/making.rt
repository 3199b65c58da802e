//! How a connection over a socket comes to be.

use crate::payloads::RandomPayloads;
use bounded_conn::BoundedConn;
use conn_core::ConnCore;
use conn_future::Conn;
use node_protocols::NodeProtocols;
use peer_ids::PublicKey;
use rand::rngs::StdRng;
use socket_link::SocketLink;
use std::alloc::{AllocError, Global};
use tokio::net::TcpStream;
use upgrade::ConnRole;

/// The protocols of a node, whose pings are random.
pub type Spoken = NodeProtocols<RandomPayloads>;

/// A connection of a node.
pub type Socketed = BoundedConn<SocketLink<TcpStream>, Spoken>;

/// What each connection of a node is made with.
#[derive(Drop)]
pub struct Maker {
    pub alloc: Global,
    /// The message of the node's own key.
    pub key: Vec<u8>,
    /// The name and version of its program.
    pub agent: Vec<u8>,
    /// Where the bytes of its pings come from.
    pub rng: StdRng,
}

impl Maker {
    /// The node's own key.
    fn own_key(&self) -> Result<PublicKey, AllocError> {
        PublicKey::read(self.alloc, &self.key).map_err(|_| AllocError)
    }

    /// The protocols of one connection.
    fn protocols(&mut self) -> Result<Spoken, AllocError> {
        let key = self.own_key()?;
        let agent = std::str::from_utf8(&self.agent).unwrap_or("");
        let payloads = RandomPayloads::of(&mut self.rng);
        match NodeProtocols::new(self.alloc, key, agent, payloads) {
            Ok(protocols) => Ok(protocols),
            Err(_) => Err(AllocError),
        }
    }

    /// One connection's core.
    fn core(&mut self, role: ConnRole) -> Result<ConnCore<Spoken>, AllocError> {
        let key = self.own_key()?;
        let protocols = self.protocols()?;
        match ConnCore::new(self.alloc, role, key, protocols) {
            Ok(core) => Ok(core),
            Err(_) => Err(AllocError),
        }
    }

    /// A connection over a socket that is connected. Its only refusal is want of memory.
    pub fn conn(&mut self, stream: TcpStream, role: ConnRole) -> Result<Socketed, AllocError> {
        // Else the system would hold small frames back for a while.
        let _ = stream.set_nodelay(true);
        let core = self.core(role)?;
        match Conn::new(self.alloc, SocketLink::new(stream), core) {
            // It has less to say before it is up than a connection may hold.
            Ok(conn) => Ok(BoundedConn::new(conn)),
            Err(_) => Err(AllocError),
        }
    }
}
