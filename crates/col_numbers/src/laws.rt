//! Laws of codecs, each the contract of a call that does nothing.
ghost use Rattle.std.specs.Ordering.{nat_cmp};
ghost use Rattle.col_common.specs.Laws.{EqualAsCompared};
ghost use Rattle.col_numbers.specs.CodecTypes.{ComparesByCode};

use crate::CodecType;

/// Codecs compare as their codes, and equality agrees.
pub fn codecs_compare_as_their_codes()
    ensures order { ComparesByCode ⟦<CodecType as PartialOrd>⟧.partial_cmp
        ⟦<CodecType as Ord>⟧.cmp }
    ensures equality { EqualAsCompared ⟦<CodecType as PartialEq>⟧.eq ⟦<CodecType as Ord>⟧.cmp }
{}
