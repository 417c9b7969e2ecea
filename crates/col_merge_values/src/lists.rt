//! Lists of values that are appended as wholes.
ghost use Rattle.std.specs.Prelude.{◌≡◌, ◌+◌, ◌++◌, length, take, OnOk};

use col_values::ColumnValues;
use std::alloc::AllocError;

/// Appends the values of a list, which are read a block at a time.
pub(crate) fn append_list<T, V>(list: &V, values: &mut Vec<T>) -> Result<(), AllocError>
where
    T: PartialOrd + Copy,
    V: ColumnValues<T>,
    ensures { OnOk result (values.new.items ≡ values.old.items ++ V.values list.now) }
{
    let num_vals = list.num_vals();
    if num_vals == 0 {
        return Ok(());
    }
    let start = values.len();
    values.resize(start + num_vals as usize, list.get_val(0))?;
    read_list(list, values.as_mut_slice(), start);
    Ok(())
}

// Writes the values of a list to the end of others, from a place on.
fn read_list<T, V>(list: &V, values: &mut [T], start: usize)
where
    T: PartialOrd + Copy,
    V: ColumnValues<T>,
    requires { start + length (V.values list.now) ≡ length values.old }
    ensures { values.new ≡ take start values.old ++ V.values list.now }
{
    list.get_range(0, &mut values[start..]);
}
