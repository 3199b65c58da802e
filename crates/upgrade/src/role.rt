//! Which end of a connection an end is.

/// Which end of a connection this is.
#[derive(Clone, Copy, Debug, PartialEq, Eq, Hash)]
pub enum ConnRole {
    /// It opened the connection: it asks in both talks, and is the client of the session.
    Dialer,
    /// It took the connection.
    Listener,
}
