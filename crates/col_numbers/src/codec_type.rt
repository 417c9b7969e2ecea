//! The codecs, by their codes.
ghost use Rattle.std.specs.Prelude.{◌≡◌, [], option_map, nat_lt, IfOk, IfErr};
ghost use Rattle.col_common.specs.declared.error.ColumnarError.TheVariants as refusals;
ghost use Rattle.col_common.specs.Reading.{only_if};

use crate::Estimator;
use col_codecs::{BitpackedCodec, BlockwiseLinearCodec, ColumnCodec, LinearCodec};
use col_common::ColumnarError;
use std::alloc::Global;

/// The codecs of lists of u64.
#[derive(Clone, Copy, Debug, PartialEq, Eq, PartialOrd, Ord)]
pub enum CodecType {
    /// Steps from the least value, at the width of the greatest.
    Bitpacked,
    /// Offsets from one line.
    Linear,
    /// Offsets from a line for each block of 512 values.
    BlockwiseLinear,
}

/// All codecs of lists of u64.
pub const ALL_U64_CODEC_TYPES: [CodecType; 3] = [
    CodecType::Bitpacked,
    CodecType::Linear,
    CodecType::BlockwiseLinear,
];

impl CodecType {
    ghost use Rattle.col_numbers.specs.CodecTypes.{code_of};
    ghost use Rattle.col_numbers.specs.Estimators.{estimator_code, HasCollected};

    /// The code that a file names the codec by.
    pub fn to_code(self) -> u8
        ensures { result ≡ code_of self }
    {
        match self {
            CodecType::Bitpacked => 0,
            CodecType::Linear => 1,
            CodecType::BlockwiseLinear => 2,
        }
    }

    /// The codec of a code.
    pub fn try_from_code(code: u8) -> Option<CodecType>
        ensures { option_map code_of result ≡ only_if (nat_lt code 3) code }
    {
        match code {
            0 => Some(CodecType::Bitpacked),
            1 => Some(CodecType::Linear),
            2 => Some(CodecType::BlockwiseLinear),
            _ => None,
        }
    }
    /// An estimator that has collected nothing.
    pub fn estimator(self, alloc: Global) -> Result<Estimator, ColumnarError>
        ensures new { IfOk result (λ e. HasCollected e []) }
        ensures code { IfOk result (λ e. estimator_code e ≡ code_of self) }
        ensures out_of_memory { IfErr result (λ e. e ≡ refusals.OutOfMemory) }
    {
        match self {
            CodecType::Bitpacked => Ok(Estimator::Bitpacked(BitpackedCodec::estimator(alloc)?)),
            CodecType::Linear => Ok(Estimator::Linear(LinearCodec::estimator(alloc)?)),
            CodecType::BlockwiseLinear => Ok(Estimator::BlockwiseLinear(
                BlockwiseLinearCodec::estimator(alloc)?,
            )),
        }
    }
}
