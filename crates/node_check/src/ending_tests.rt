//! What is told where memory is wanting.

use multiaddr::AddrFault;
use node_cli::Ending;
use node_texts::{HashRefused, IdRefused};
use std::alloc::{AllocGlobal, Global};
use std::io::Write;
use std::test::*;

/// An ending for want of memory.
fn ending(row: usize) -> Ending {
    match row {
        0 => Ending::Id(IdRefused::OutOfMemory),
        1 => Ending::Hash(HashRefused::OutOfMemory),
        _ => Ending::Addr(AddrFault::OutOfMemory),
    }
}

fn is_told(alloc: Global, row: usize) -> bool {
    let mut text = Vec::new(alloc);
    let written = write!(text, "{}", ending(row));
    written.is_ok() && text.as_slice() == b"refused OutOfMemory".as_slice()
}

#[test]
fn want_of_memory_is_told(rt: HostRuntime) {
    for row in 0..3 {
        assert!(rt; is_told(rt.alloc(), row), "row {row}");
    }
}
