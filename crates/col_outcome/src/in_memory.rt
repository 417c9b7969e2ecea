//! Refusals of objects in memory.
ghost use Rattle.std.specs.Prelude.{◌≡◌};
ghost use Rattle.col_outcome.specs.InMemory.{in_memory_alone};

use col_common::ColumnarError;

// Bytes in memory refuse a read or a write for want of memory alone.
pub(crate) fn in_memory_alone(error: ColumnarError) -> ColumnarError
    ensures { result ≡ in_memory_alone error }
{
    match error {
        ColumnarError::ReadFault => ColumnarError::OutOfMemory,
        ColumnarError::WriteFault => ColumnarError::OutOfMemory,
        _ => error,
    }
}
