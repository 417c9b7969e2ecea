//! Where the bytes of a column are put.
ghost use Rattle.std.specs.Prelude.{false};
ghost use Rattle.col_common.specs.Outside.{in_memory};
ghost use Rattle.col_keys.specs.KeyTables.{key_at};
ghost use Rattle.col_keys.specs.Put.{Puts};

use crate::serializer::ColumnarSerializer;
use col_common::{Buffer, ColumnarError, HandleError, Sink, serialize_bytes};
use col_types::ColumnType;

/// A column on its way into a file. Its bytes are kept until `finalize`, since the key table wants
/// their number: so a column that is given up leaves nothing in the file.
#[derive(Drop)]
pub struct ColumnSerializer<'n> {
    pub name: &'n str,
    pub column_type: ColumnType,
    /// What was put so far. A call that is lent just this sink leaves the key as it is.
    pub bytes: Buffer,
}

impl ColumnSerializer<'_> {
    /// Writes the bytes into the sink of the file, and lists the column among those of the file.
    pub fn finalize<K: Sink>(
        self,
        columns: &mut ColumnarSerializer,
        sink: &mut K,
    ) -> Result<(), ColumnarError>
        ensures { Puts columns.old columns.new (K.seen sink.old) (K.seen sink.new) result
            (key_at self.entry.name.now self.entry.column_type) self.entry.bytes }
    {
        let bytes = self.bytes.as_slice();
        serialize_bytes(sink, bytes)?;
        columns.list(self.name, self.column_type, bytes.len() as u64)?;
        Ok(())
    }
}

impl Sink for ColumnSerializer<'_> {
    ghost seen = { λ s. in_memory s.bytes };

    ghost in_parts = { false };

    fn write_all(&mut self, bytes: &[u8]) -> Result<(), HandleError> {
        self.bytes.write_all(bytes)
    }
}
