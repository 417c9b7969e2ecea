//! Laws of walks, each the contract of a public call.
ghost use Rattle.std.specs.Prelude.{◌≡◌, length};
ghost use Rattle.col_writer_columns.specs.Operations.{operations_of};

use crate::ColumnWriter;

/// How many steps `operations` gives before it ends: one for each value, and one for each document
/// that has values.
pub fn count_operations<T: Copy>(column: &ColumnWriter<T>) -> u64
    ensures { result ≡ length (operations_of column.now) }
{
    // That 32 bits count the values, and so 64 the steps.
    let _num_values = column.num_values();
    let mut operations = column.operations();
    let mut count = 0;
    while let Some(_operation) = operations.next() {
        count += 1;
    }
    count
}
