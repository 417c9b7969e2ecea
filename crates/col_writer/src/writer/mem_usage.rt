//! How much memory the records take.
ghost use Rattle.std.specs.Prelude.{◌≡◌, ℕ, ◌+◌, ◌*◌, map, length, sum_by, bytes_eq, string_bytes};
ghost use Rattle.std.specs.List.{IsDistinct};
ghost use Rattle.std.specs.Ordering.{nat_cmp};
ghost use Rattle.std.specs.Cmp.Lexicographic.{slice_cmp};
ghost use Rattle.col_model.specs.Sorted.{distinct_items};
ghost use Rattle.col_writer.specs.Usage.{mem_usage, records_bytes, named_bytes, up_to_64_bits};

use super::ColumnarWriter;
use super::named_columns::NamedColumns;
use col_common::Ipv6Addr;
use col_writer_columns::{NumericalColumnWriter, PlainColumnWriter, StrOrBytesColumnWriter};

// How many bytes a record has: its document, and its value as it is kept.
const NUM_BYTES_NUMBER: u64 = 12;

const NUM_BYTES_TEXT: u64 = 8;

const NUM_BYTES_BOOL: u64 = 5;

const NUM_BYTES_IP_ADDR: u64 = 20;

impl ColumnarWriter {
    /// How many bytes the names have, the records and the distinct texts of each column, as far as
    /// 64 bits count. A record has four bytes for its document, and those of its value as it is
    /// kept, which is an id of four bytes for a text.
    pub fn mem_usage(&self) -> u64
        ensures { result ≡ mem_usage self.now }
    {
        columns_bytes(&self.numerical)
            .saturating_add(columns_bytes(&self.bytes))
            .saturating_add(columns_bytes(&self.strs))
            .saturating_add(columns_bytes(&self.bools))
            .saturating_add(columns_bytes(&self.ip_addrs))
            .saturating_add(columns_bytes(&self.datetimes))
    }
}

// A column whose records and texts have a number of bytes.
trait RecordBytes {
    // How many they are.
    ghost bytes: { Self → ℕ };

    fn num_bytes(&self) -> u64
        ensures { result ≡ up_to_64_bits (bytes self.now) };
}

impl RecordBytes for NumericalColumnWriter {
    ghost bytes = { λ e. records_bytes e.records };

    fn num_bytes(&self) -> u64 {
        self.codes().num_values() * NUM_BYTES_NUMBER
    }
}

impl RecordBytes for StrOrBytesColumnWriter {
    ghost bytes = { λ w. length w.values * 8 + sum_by length
        (distinct_items (slice_cmp nat_cmp) (map (λ p. p.1) w.values)) };

    fn num_bytes(&self) -> u64 {
        (self.num_values() * NUM_BYTES_TEXT).saturating_add(self.terms_num_bytes())
    }
}

impl RecordBytes for PlainColumnWriter<bool> {
    ghost bytes = { λ c. length c.column * 5 };

    fn num_bytes(&self) -> u64 {
        self.column.num_values() * NUM_BYTES_BOOL
    }
}

impl RecordBytes for PlainColumnWriter<Ipv6Addr> {
    ghost bytes = { λ c. length c.column * 20 };

    fn num_bytes(&self) -> u64 {
        self.column.num_values() * NUM_BYTES_IP_ADDR
    }
}

impl RecordBytes for PlainColumnWriter<u64> {
    ghost bytes = { λ c. length c.column * 12 };

    fn num_bytes(&self) -> u64 {
        self.column.num_values() * NUM_BYTES_NUMBER
    }
}

// How many bytes the names, the records and the texts of some columns have.
fn columns_bytes<C: RecordBytes>(columns: &NamedColumns<C>) -> u64
    ensures bytes { result ≡ up_to_64_bits (named_bytes C.bytes columns.now) }
    ensures differ { IsDistinct bytes_eq (map (λ p. string_bytes p.0) columns.now) }
{
    columns.names_differ();
    let mut bytes: u64 = 0;
    for (name, column) in columns.as_slice() {
        bytes = bytes
            .saturating_add(name.len() as u64)
            .saturating_add(column.num_bytes());
    }
    bytes
}
