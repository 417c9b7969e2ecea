//! The numbers of a list, where each look at one is a step. No search stands in this file: outside
//! it the list can't be asked in another way.
ghost use Rattle.std.specs.Prelude.{◌≡◌, ◌<◌, ◌+◌, length, slice_get, Some};

use col_common::Steps;
use col_numbers::U64Values;
use col_values::ColumnValues;
use std::marker::{Model, PhantomData};
use std::sync::ledger::Ledger;

/// A list of rows or of starts. It is seen through a call that takes a step, all of one ledger.
#[derive(Drop)]
pub struct CountedRows<'a, L: Ledger> {
    values: &'a U64Values,
    ledger: PhantomData<L>,
}

impl<'a, L: Ledger> Model for CountedRows<'a, L> {
    ghost use Rattle.std.specs.Prelude.{List, ℕ};
    ghost use Rattle.col_numbers.specs.Readers.{list_of};

    ghost Value = { List ℕ };

    ghost view = { λ r. list_of r.values.now };
}

impl<'a, L: Ledger> CountedRows<'a, L> {
    ghost use Rattle.col_numbers.specs.Readers.{list_of};

    /// The numbers of a list.
    #[inline(always)]
    pub fn new(values: &'a U64Values) -> CountedRows<'a, L>
        ensures { result ≡ list_of values.now }
    {
        CountedRows {
            values,
            ledger: PhantomData,
        }
    }

    /// The number at a place: a step.
    #[inline(always)]
    pub fn look(&self, at: u32, steps: &mut Steps<L>) -> u64
        requires { at < length self.now }
        ensures value { slice_get self.now at ≡ Some result }
        ensures steps { steps.new ≡ steps.old + 1 }
    {
        steps.tick();
        self.values.get_val(at)
    }
}
