//! What `node` answers of keys, ids and addresses: texts and hexadecimal digits. Nothing is printed here.
#![tactic(auto)]

mod addr;
mod peer;

pub use addr::{AddrLines, addr_lines};
pub use peer::{HashRefused, IdRefused, are_pairs, hash_hex, id_text, key_of};
