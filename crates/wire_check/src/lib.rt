//! Tests of the codecs, the negotiation, the exchange of keys and the upgrade, by public calls.
#![tactic(auto)]

#[cfg(test)]
mod address_tests;
#[cfg(test)]
mod asserts;
#[cfg(test)]
mod exchange_tests;
#[cfg(test)]
mod frame_tests;
#[cfg(test)]
mod id_tests;
#[cfg(test)]
mod select_tests;
#[cfg(test)]
mod talk_tests;
#[cfg(test)]
mod upgrade_tests;
#[cfg(test)]
mod varint_tests;
