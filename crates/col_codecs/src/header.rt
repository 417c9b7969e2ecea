//! Statistics in front of a list.
ghost use Rattle.std.specs.Prelude.{◌≡◌, ◌≤◌, ◌-◌, drop, length, option_map, IfSome};
ghost use Rattle.col_model.specs.Stats.{stats_at};
ghost use Rattle.col_codecs.specs.ColumnStats.{stats_seen, IsPossible};

use crate::column_stats::ColumnStats;
use bytes::Bytes;
use col_common::cut_rest;

/// The statistics at the front, and the bytes behind them.
pub fn take_stats(bytes: Bytes) -> Option<(ColumnStats, Bytes)>
    ensures value { option_map (λ r. (stats_seen r.0, r.1)) result ≡ stats_at bytes }
    ensures possible { IfSome result (λ r. IsPossible (stats_seen r.0)) }
{
    let (stats, rest_len) = read_stats(bytes.as_slice())?;
    Some((stats, cut_rest(bytes, rest_len)))
}

// The statistics at the front, and how many bytes are behind them.
fn read_stats(bytes: &[u8]) -> Option<(ColumnStats, usize)>
    ensures value { option_map
        (λ r. (stats_seen r.0, drop (length bytes.now - r.1) bytes.now)) result
        ≡ stats_at bytes.now }
    ensures within { IfSome result (λ r. r.1 ≤ length bytes.now) }
    ensures possible { IfSome result (λ r. IsPossible (stats_seen r.0)) }
{
    let mut rest = bytes;
    let Ok(stats) = ColumnStats::deserialize(&mut rest) else {
        return None;
    };
    Some((stats, rest.len()))
}
