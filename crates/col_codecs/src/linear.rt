//! Lists of u64 under the codec Linear: offsets from one line.

mod estimator;
mod offsets;
mod reader;

use crate::codec::ColumnCodec;
use crate::header::take_stats;
use bytes::Bytes;
use col_common::ColumnarError;
pub use estimator::LinearCodecEstimator;
pub use reader::LinearReader;
use std::alloc::Global;

/// Offsets from one line.
pub struct LinearCodec;

impl ColumnCodec for LinearCodec {
    ghost code = { 1 };

    type ColumnValues = LinearReader;

    type Estimator = LinearCodecEstimator;

    fn load(alloc: Global, bytes: Bytes) -> Result<LinearReader, ColumnarError> {
        let Some((stats, behind)) = take_stats(bytes) else {
            return Err(ColumnarError::InvalidData);
        };
        LinearReader::open(alloc, stats, behind)
    }

    fn estimator(alloc: Global) -> Result<LinearCodecEstimator, ColumnarError> {
        Ok(LinearCodecEstimator::new(alloc)?)
    }
}
