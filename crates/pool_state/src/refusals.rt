//! Questions about rows, on which refusals and answers rest.

ghost use Rattle.std.specs.Prelude.{◌≡◌, ◌==◌, nat_le, true, slice_index};
ghost use Rattle.pool_state.specs.Parts.{is_phase, is_other_peer};
ghost use Rattle.pool_state.specs.Table.{row_is, open_streams, rows_of, rows_on, others_of, closable};

use crate::row::{ConnSide, Phase, Row};
use peer_ids::PeerId;

pub(crate) fn has_conn(rows: &[Row], conn: u32) -> bool
    ensures { result ≡ row_is rows.now conn (λ row. true) }
{
    rows.iter().any(|row| row.conn == conn)
}

pub(crate) fn has_phase(rows: &[Row], conn: u32, phase: Phase) -> bool
    ensures { result ≡ row_is rows.now conn (λ row. is_phase row.phase phase) }
{
    rows.iter()
        .any(|row| row.conn == conn && row.phase.is(phase))
}

pub(crate) fn expects_another(rows: &[Row], conn: u32, peer: &PeerId) -> bool
    ensures { result ≡ row_is rows.now conn (λ row. is_other_peer peer.now row.peer) }
{
    rows.iter()
        .any(|row| row.conn == conn && row.is_of_another(peer))
}

pub(crate) fn is_busy(rows: &[Row], conn: u32, streams: usize) -> bool
    ensures { result ≡ row_is rows.now conn (λ row. nat_le streams (open_streams row)) }
{
    rows.iter().any(|row| row.conn == conn && streams as u128 <= row.open_streams())
}

pub(crate) fn is_idle(rows: &[Row], conn: u32, index: u8) -> bool
    ensures { result ≡ row_is rows.now conn (λ row. slice_index row.asked index == slice_index row.done index) }
{
    rows.iter()
        .any(|row| row.conn == conn && row.is_idle(index))
}

pub(crate) fn rows_of(rows: &[Row], peer: &PeerId) -> usize
    ensures { result ≡ rows_of rows.now peer.now }
{
    rows.iter().filter(|row| row.is_of(peer)).count()
}

pub(crate) fn others_of(rows: &[Row], conn: u32, peer: &PeerId) -> usize
    ensures { result ≡ others_of rows.now conn peer.now }
{
    rows.iter()
        .filter(|row| row.conn != conn && row.is_of(peer))
        .count()
}

pub(crate) fn rows_on(rows: &[Row], side: ConnSide) -> usize
    ensures { result ≡ rows_on rows.now side }
{
    rows.iter().filter(|row| row.role.is(side)).count()
}

pub(crate) fn closable(rows: &[Row], peer: &PeerId) -> usize
    ensures { result ≡ closable rows.now peer.now }
{
    rows.iter()
        .filter(|row| row.is_of(peer) && !row.phase.is(Phase::Closing))
        .count()
}
