//! Writes the columns of a file, and behind them their keys and the footer.
ghost use Rattle.std.specs.Prelude.{◌≡◌, ◌<◌, ◌+◌, ◌^◌, ◌++◌, [], ℕ, List, length, map, IfSome, IfOk, OnOk, OnErr};
ghost use Rattle.col_common.specs.Outside.{SeenSink};
ghost use Rattle.col_common.specs.Serializing.{Serializes};
ghost use Rattle.col_common.specs.VInt.{vint_bytes};
ghost use Rattle.col_model.specs.Keys.{Key};
ghost use Rattle.col_model.specs.Spelling.{keyed_length_bytes, file_bytes};
ghost use Rattle.col_keys.specs.KeyTables.{key_at};

use crate::column_serializer::ColumnSerializer;
use crate::file_footer::serialize_footer;
use col_common::{Buffer, ColumnarError, RowId, Sink, VInt, serialize_bytes};
use col_types::ColumnType;
use std::alloc::{AllocError, Global};
use std::marker::Model;

// What stands behind the name in a key.
const END_OF_NAME: u8 = 0;

/// The keys of the columns that were put into a file so far. Columns go into the file's sink one
/// behind another, each by a `ColumnSerializer`; the keys are kept until the last of them is there.
#[derive(Drop)]
pub struct ColumnarSerializer {
    alloc: Global,
    num_columns: u64,
    table: Buffer,
}

impl Model for ColumnarSerializer {
    ghost use Rattle.col_keys.specs.Put.{PutColumns};

    ghost Value = { PutColumns };

    ghost view = { λ s. record { count = s.num_columns; table = s.table } };
}

impl ColumnarSerializer {
    ghost use Rattle.col_keys.specs.Put.{no_columns, with_column, end_bytes, HavePut, AreKeys, HasColumns, Puts};

    pub fn new(alloc: Global) -> ColumnarSerializer
        ensures { result ≡ no_columns }
    {
        ColumnarSerializer {
            alloc,
            num_columns: 0,
            table: Buffer::new(alloc),
        }
    }

    /// Starts a column under a key. Its `finalize` comes before that of the next column.
    pub fn start_serialize_column<'n>(
        &self,
        name: &'n str,
        column_type: ColumnType,
    ) -> ColumnSerializer<'n>
        ensures name { result.name.now ≡ name.now }
        ensures column_type { result.column_type ≡ column_type }
        ensures bytes { result.bytes ≡ [] }
    {
        ColumnSerializer {
            name,
            column_type,
            bytes: Buffer::new(self.alloc),
        }
    }

    /// Puts the bytes of a column under a key, behind the columns before it: all of what
    /// `start_serialize_column` and `finalize` of the column do.
    pub fn put_column<K: Sink>(
        &mut self,
        name: &str,
        column_type: ColumnType,
        bytes: Buffer,
        sink: &mut K,
    ) -> Result<(), ColumnarError>
        ensures { Puts self.old self.new (K.seen sink.old) (K.seen sink.new) result
            (key_at name.now column_type) bytes }
    {
        let mut column = self.start_serialize_column(name, column_type);
        column.bytes = bytes;
        column.finalize(self, sink)
    }

    /// Writes the keys and the footer behind the columns.
    pub fn finalize<K: Sink>(self, num_rows: RowId, sink: &mut K) -> Result<(), ColumnarError>
        ensures ok { Serializes (K.seen sink.old) (K.seen sink.new) result
            (end_bytes self num_rows) }
        // With the columns in front this is the file of these columns ..
        ensures file { (start : SeenSink) (ps : List (Key × List ℕ)) →
            HavePut start (K.seen sink.old) self ps →
            Serializes start (K.seen sink.new) result (file_bytes num_rows ps) }
        // .. and has just the columns that were put.
        ensures columns { OnOk result ((start : SeenSink) (ps : List (Key × List ℕ)) →
            HavePut start (K.seen sink.old) self ps → AreKeys (map (λ p. p.0) ps) →
            HasColumns (file_bytes num_rows ps) num_rows ps) }
    {
        self.serialize_end(num_rows, sink)
    }

    // Writes the keys and the footer.
    fn serialize_end<K: Sink>(&self, num_rows: RowId, sink: &mut K) -> Result<(), ColumnarError>
        ensures ok { Serializes (K.seen sink.old) (K.seen sink.new)
            result (end_bytes self.now num_rows) }
        ensures short { OnOk result
            (length (vint_bytes self.now.count ++ self.now.table) < 2 ^ 64) }
    {
        let count = VInt(self.num_columns);
        let entries = self.table.as_slice();
        let Some(table_len) = table_len(count, entries) else {
            return Err(ColumnarError::OutOfMemory);
        };
        count.serialize(sink)?;
        serialize_bytes(sink, entries)?;
        serialize_footer(table_len, num_rows, sink)
    }

    // Lists a column of so many bytes under its key.
    pub(crate) fn list(
        &mut self,
        name: &str,
        column_type: ColumnType,
        num_bytes: u64,
    ) -> Result<(), AllocError>
        ensures ok { OnOk result
            (self.new ≡ with_column self.old (key_at name.now column_type) num_bytes) }
        ensures fits { num_bytes < 2 ^ 64 }
        ensures kept { OnErr result (self.new ≡ self.old) }
    {
        let Some(num_columns) = self.num_columns.checked_add(1) else {
            return Err(AllocError);
        };
        let entry = keyed_length(self.alloc, name, column_type, num_bytes)?;
        if self.table.write_all(entry.as_slice()).is_err() {
            return Err(AllocError);
        }
        self.num_columns = num_columns;
        Ok(())
    }
}

// How many bytes a key table takes.
fn table_len(count: VInt, entries: &[u8]) -> Option<u64>
    ensures { IfSome result (λ n. n ≡ length (vint_bytes count.0) + length entries.now) }
{
    count.num_bytes().checked_add(entries.len() as u64)
}

// The bytes of a key with its column's length.
fn keyed_length(
    alloc: Global,
    name: &str,
    column_type: ColumnType,
    num_bytes: u64,
) -> Result<Buffer, AllocError>
    ensures { IfOk result (λ entry. entry
        ≡ keyed_length_bytes (key_at name.now column_type, num_bytes)) }
{
    let mut entry = Buffer::new(alloc);
    // Bytes in memory refuse a write for want of memory alone.
    match serialize_keyed_length(name, column_type, num_bytes, &mut entry) {
        Ok(()) => Ok(entry),
        Err(_) => Err(AllocError),
    }
}

// Writes a key and its column's length.
fn serialize_keyed_length<K: Sink>(
    name: &str,
    column_type: ColumnType,
    num_bytes: u64,
    sink: &mut K,
) -> Result<(), ColumnarError>
    ensures { Serializes (K.seen sink.old) (K.seen sink.new) result
        (keyed_length_bytes (key_at name.now column_type, num_bytes)) }
{
    let end = [END_OF_NAME, column_type.to_code()];
    VInt((name.len() + end.len()) as u64).serialize(sink)?;
    serialize_bytes(sink, name.as_bytes())?;
    serialize_bytes(sink, &end)?;
    VInt(num_bytes).serialize(sink)
}
