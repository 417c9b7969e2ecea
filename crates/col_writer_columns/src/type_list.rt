//! The types of the numbers of a column.
ghost use Rattle.std.specs.Prelude.{◌≡◌, ◌-◌, ◌^◌, ◌<◌, [], ◌∷◌, ◌++◌, length, take, slice_get, true, Some, OnOk, OnErr};
ghost use Rattle.std.specs.List.{list_all};
ghost use Rattle.col_model.specs.ColumnType.{is_numerical};
ghost use Rattle.col_types.specs.Kinds.{numerical_kind_of};
ghost use Rattle.col_writer_columns.specs.Values.{TypeGoesOn};

use col_types::NumericalType;
use std::alloc::{AllocError, Global};
use std::marker::Model;

/// A type for each number. The first ones, as far as they are the same, take no room.
#[derive(Drop)]
pub struct TypeList {
    first: NumericalType,
    num_first: u32,
    others: Vec<NumericalType>,
}

impl Model for TypeList {
    ghost use Rattle.std.specs.Prelude.{List};
    ghost use Rattle.col_model.specs.ColumnType.{ColumnType};
    ghost use Rattle.col_writer_columns.specs.Values.{same_then};

    ghost Value = { List ColumnType };

    ghost view = { λ t. same_then t.num_first t.first t.others.items };
}

impl TypeList {
    /// No types.
    pub fn new(alloc: Global) -> TypeList
        ensures { result ≡ [] }
    {
        TypeList {
            first: NumericalType::I64,
            num_first: 0,
            others: Vec::new(alloc),
        }
    }

    /// One type more.
    #[inline]
    pub fn push(&mut self, next: NumericalType) -> Result<(), AllocError>
        ensures ok { OnOk result (self.new ≡ self.old ++ numerical_kind_of next ∷ []) }
        ensures err { OnErr result (self.new ≡ self.old) }
    {
        if goes_on(self.first, self.num_first, &self.others, next) {
            self.first = next;
            self.num_first += 1;
            return Ok(());
        }
        self.others.push(next)?;
        Ok(())
    }

    /// That they are types of numbers.
    pub fn are_numerical(&self)
        ensures { list_all is_numerical self.now ≡ true }
    {
        // That the list's invariant holds.
        let _ = &self.others;
    }

    /// The type at a place.
    pub fn get(&self, place: usize) -> NumericalType
        requires { place < length self.now }
        ensures { slice_get self.now place ≡ Some (numerical_kind_of result) }
    {
        let num_first = self.num_first as usize;
        if place < num_first {
            return self.first;
        }
        self.others[place - num_first]
    }

    /// Lets the last one go.
    pub fn pop(&mut self)
        requires { 0 < length self.old }
        ensures { self.new ≡ take (length self.old - 1) self.old }
    {
        if self.others.pop().is_none() {
            self.num_first -= 1;
        }
    }
}

// Whether a type goes on with the first ones, so many, behind which none came.
#[inline(always)]
fn goes_on(
    first: NumericalType,
    num_first: u32,
    others: &[NumericalType],
    next: NumericalType,
) -> bool
    ensures { result ≡ true → TypeGoesOn first num_first others.now next }
{
    others.is_empty() && (num_first == 0 || first == next) && num_first < u32::MAX
}
