//! Lists of u64 under the codec BlockwiseLinear: offsets from a line for each block of 512 values.

mod block;
mod estimator;
mod offsets;
mod reader;
mod writer;

use crate::codec::ColumnCodec;
use crate::header::take_stats;
use bytes::Bytes;
use col_common::ColumnarError;
pub use estimator::BlockwiseLinearEstimator;
pub use reader::BlockwiseLinearReader;
use std::alloc::Global;

/// Offsets from a line for each block of 512 values.
pub struct BlockwiseLinearCodec;

impl ColumnCodec for BlockwiseLinearCodec {
    ghost code = { 2 };

    type ColumnValues = BlockwiseLinearReader;

    type Estimator = BlockwiseLinearEstimator;

    fn load(alloc: Global, bytes: Bytes) -> Result<BlockwiseLinearReader, ColumnarError> {
        let Some((stats, behind)) = take_stats(bytes) else {
            return Err(ColumnarError::InvalidData);
        };
        BlockwiseLinearReader::open(alloc, stats, behind)
    }

    fn estimator(alloc: Global) -> Result<BlockwiseLinearEstimator, ColumnarError> {
        Ok(BlockwiseLinearEstimator::new(alloc)?)
    }
}
