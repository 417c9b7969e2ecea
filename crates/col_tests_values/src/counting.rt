//! A list that counts how it is asked.
ghost use Rattle.std.specs.Prelude.{◌≡◌};

use col_common::RowId;
use col_values::{ColumnValues, Found, Rows, VecColumn};
use std::cell::Cell;

/// A list that counts the values and the lookups that it is asked for.
#[derive(Drop)]
pub struct Counting<'a> {
    pub values: VecColumn<u64>,
    pub reads: &'a Cell<u32>,
    pub lookups: &'a Cell<u32>,
}

fn count(calls: &Cell<u32>) {
    calls.set(calls.get().saturating_add(1));
}

impl<'a> ColumnValues<u64> for Counting<'a> {
    ghost values = { λ c. c.values.values };

    ghost IsLeast = { λ c v. v ≡ c.values.low };

    ghost IsGreatest = { λ c v. v ≡ c.values.high };

    fn num_vals(&self) -> u32 {
        self.values.num_vals()
    }

    fn get_val(&self, idx: u32) -> u64 {
        count(self.reads);
        self.values.get_val(idx)
    }

    fn min_value(&self) -> u64 {
        self.values.min_value()
    }

    fn max_value(&self) -> u64 {
        self.values.max_value()
    }

    fn get_row_ids_between(&self, low: u64, high: u64, rows: Rows, hits: &mut Vec<RowId>) -> Found {
        count(self.lookups);
        self.values.get_row_ids_between(low, high, rows, hits)
    }
}
