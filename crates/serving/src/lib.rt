//! What the owner of a session does on one stream of it, by the stream's talk and handler: it asks for as many bytes as
//! there is credit, writes them, closes its direction where no more is given, and takes what came.
#![tactic(auto)]

mod serving;

pub use serving::serve;
