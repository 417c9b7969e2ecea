//! Laws of walks, each the contract of a public call.
ghost use Rattle.std.specs.Prelude.{◌≡◌, length};

use crate::reader::ColumnarReader;
use col_common::FileHandle;

/// How many columns `iter_columns` gives before it ends: one for each entry of the key table.
pub fn count_columns<F: FileHandle>(columnar_reader: &ColumnarReader<F>) -> u64
    ensures { result ≡ length columnar_reader.now.keys.entries }
{
    // That 64 bits count the columns is known of their number.
    let _num_columns = columnar_reader.num_columns();
    let mut count = 0;
    for _column in columnar_reader.iter_columns() {
        count += 1;
    }
    count
}
