//! Writes bytes that are made into a sink.
ghost use Rattle.col_set.specs.Sets.{WritesBytes};

use col_common::{ColumnarError, HandleError, Sink};

/// Writes bytes. Where the sink fails, some of the first of them were added.
pub fn write_bytes<K: Sink>(sink: &mut K, bytes: &[u8]) -> Result<(), ColumnarError>
    ensures { WritesBytes (K.seen sink.old) (K.seen sink.new) result bytes.now }
{
    match sink.write_all(bytes) {
        Ok(()) => Ok(()),
        Err(HandleError::Failed) => Err(ColumnarError::WriteFault),
        Err(HandleError::Memory) => Err(ColumnarError::OutOfMemory),
    }
}
