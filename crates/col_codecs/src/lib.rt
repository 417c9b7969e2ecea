//! Lists of u64 as bytes: statistics, three codecs with their readers and estimators.
#![tactic(auto)]

mod bitpacked;
mod block_bounds;
mod blockwise_linear;
mod bounded_items;
mod codec;
mod column_stats;
mod counted_codes;
mod header;
mod laws;
mod line;
mod line_order;
mod line_stats;
mod linear;
mod linear_params;
mod on_line;
mod packed_items;
mod packing;
mod positions;
mod residues;
mod stats_collector;
mod step_vals;
mod turning;

pub use bitpacked::{BitpackedCodec, BitpackedCodecEstimator, BitpackedReader};
pub use blockwise_linear::{BlockwiseLinearCodec, BlockwiseLinearEstimator, BlockwiseLinearReader};
pub use codec::{ColumnCodec, ColumnCodecEstimator};
pub use column_stats::ColumnStats;
pub use laws::default_line_is_zero;
pub use line::Line;
pub use linear::{LinearCodec, LinearCodecEstimator, LinearReader};
pub use positions::Positions;
pub use stats_collector::{StatsCollector, compute_gcd};
