//! Lists of numbers, written by their codes.
ghost use Rattle.std.specs.Prelude.{◌≡◌, ◌<◌, ◌^◌, map, length};
ghost use Rattle.col_common.specs.Serializing.{Stopped};
ghost use Rattle.col_common.specs.declared.error.ColumnarError.TheVariants as refusals;
ghost use Rattle.col_model.specs.AddressList.{least_codes};
ghost use Rattle.col_compact.specs.Covers.{IsTooLarge};
ghost use Rattle.col_compact.specs.Written.{SerializesList};

use crate::CompactSpaceCompressor;
use col_common::{ColumnarError, Iterable, Sink, Walk};
use col_values::MonotonicallyMappableToU128;
use std::alloc::Global;
use std::marker::PhantomData;

/// The numbers of values.
#[derive(Drop)]
struct Numbers<'a, T, I> {
    vals: &'a I,
    types: PhantomData<T>,
}

impl<'a, T: MonotonicallyMappableToU128, I: Iterable<T>> Iterable<u128> for Numbers<'a, T, I> {
    ghost items = { λ s. map T.code (I.items s.vals.now) };

    ghost stands = { λ s w. I.stands s.vals.now w };

    ghost left = { λ s w. map T.code (I.left s.vals.now w) };

    fn walk(&self) -> Walk {
        self.vals.walk()
    }

    #[inline]
    fn next(&self, at: &mut Walk) -> Option<u128> {
        match self.vals.next(at) {
            Some(value) => Some(value.to_u128()),
            None => None,
        }
    }
}

/// Writes a list of values by the codes of their numbers.
pub fn serialize_column_values_u128<T: MonotonicallyMappableToU128, I: Iterable<T>, K: Sink>(
    alloc: Global,
    vals: &I,
    sink: &mut K,
) -> Result<(), ColumnarError>
    ensures ok { least_codes (map T.code (I.items vals.now)) < 2 ^ 32 →
        length (I.items vals.now) < 2 ^ 32 →
        SerializesList (K.seen sink.old) (K.seen sink.new) result (map T.code (I.items vals.now)) }

    // More codes than 32 bits count are needed, or there are more values, before the first byte.
    ensures too_large { IsTooLarge (map T.code (I.items vals.now)) u32.MAX →
        Stopped sink.old sink.new result refusals.TooLarge }
{
    let numbers: Numbers<'_, T, I> = Numbers {
        vals,
        types: PhantomData,
    };
    let compressor = CompactSpaceCompressor::train_from(alloc, &numbers)?;
    compressor.serialize(alloc, &numbers, sink)
}
