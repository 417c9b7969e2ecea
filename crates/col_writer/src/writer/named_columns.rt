//! Columns by name, of which a call changes one.
ghost use Rattle.std.specs.Prelude.{◌≡◌, [], None, false, bytes_eq, option_map};
ghost use Rattle.std.specs.List.{IsDistinct};
ghost use Rattle.col_model.specs.Recording.{no_records};
ghost use Rattle.col_writer_columns.specs.Texts.{no_texts};
ghost use Rattle.col_writer.specs.Changes.{column_at, ChangesColumn};
ghost use Rattle.col_writer.specs.Places.{names_of};

use super::changes::Change;
use super::places::place_of;
use col_common::ColumnarError;
use col_writer_columns::{NumericalColumnWriter, PlainColumnWriter, StrOrBytesColumnWriter};
use std::alloc::Global;
use std::collections::BTreeMap;
use std::marker::Model;

// A column that is made where a name is new.
pub(super) trait NewColumn: Drop {
    // It has no values, and no type was asked for.
    ghost is_empty: { Self → Type 0 };

    fn empty(alloc: Global) -> Self
        ensures { is_empty result };
}

impl NewColumn for NumericalColumnWriter {
    ghost is_empty = { λ w. w ≡ no_records };

    fn empty(alloc: Global) -> NumericalColumnWriter {
        NumericalColumnWriter::new(alloc)
    }
}

impl NewColumn for StrOrBytesColumnWriter {
    ghost is_empty = { λ w. w ≡ no_texts };

    fn empty(alloc: Global) -> StrOrBytesColumnWriter {
        StrOrBytesColumnWriter::new(alloc)
    }
}

impl<T: Copy> NewColumn for PlainColumnWriter<T> {
    ghost is_empty = { λ w. (w.column ≡ []) × (w.is_forced ≡ false) };

    fn empty(alloc: Global) -> PlainColumnWriter<T> {
        PlainColumnWriter::new(alloc)
    }
}

// Columns by name, in the order in which they came.
#[derive(Drop)]
pub(super) struct NamedColumns<C> {
    columns: Vec<(String, C)>,
    // The place of each name, by the order of the names.
    places: BTreeMap<String, usize>,
    // The place at which a column was found last.
    last: usize,
}

impl<C> Model for NamedColumns<C> {
    ghost use Rattle.col_writer.specs.Changes.{ByName};
    ghost use Rattle.col_writer.specs.Places.{names_of, ArePlaced};

    ghost Value = { ByName C };

    ghost view = { λ c. c.columns.items };

    ghost invariant = { λ c. ArePlaced (names_of c.columns.items) c.places };
}

impl<C> NamedColumns<C> {
    // No columns.
    pub(super) fn new(alloc: Global) -> NamedColumns<C>
        ensures { result ≡ [] }
    {
        NamedColumns {
            columns: Vec::new(alloc),
            places: BTreeMap::new(alloc),
            last: 0,
        }
    }

    // The columns with their names.
    pub(super) fn as_slice(&self) -> &[(String, C)]
        ensures { result.now ≡ self.now }
    {
        &self.columns
    }

    // The column of a name.
    pub(super) fn get(&self, name: &str) -> Option<&C>
        ensures { option_map (λ c. c.now) result ≡ column_at name.now self.now }
    {
        match place_of(&self.columns, &self.places, self.last, name) {
            Some(place) => Some(&self.columns[place].1),
            None => None,
        }
    }

    // That the names differ.
    pub(super) fn names_differ(&self)
        ensures { IsDistinct bytes_eq (names_of self.now) }
    {
        let _ = &self.places;
    }
}

impl<C: NewColumn> NamedColumns<C> {
    // Changes the column of a name, which is there from now on.
    #[inline]
    pub(super) fn change<D: Change<C>>(
        &mut self,
        alloc: Global,
        name: &str,
        change: D,
    ) -> Result<(), ColumnarError>
        ensures { ChangesColumn C.is_empty (D.makes change) name.now self.old self.new result }
    {
        if let Some(place) = place_of(&self.columns, &self.places, self.last, name) {
            self.last = place;
            return change.make(&mut self.columns[place].1);
        }
        self.add(alloc, name, change)
    }

    // Changes a new column, and adds it.
    #[cold]
    fn add<D: Change<C>>(
        &mut self,
        alloc: Global,
        name: &str,
        change: D,
    ) -> Result<(), ColumnarError>
        requires { column_at name.now self.old ≡ None }
        ensures { ChangesColumn C.is_empty (D.makes change) name.now self.old self.new result }
    {
        let mut column = C::empty(alloc);
        change.make(&mut column)?;
        let key = String::from_str(alloc, name)?;
        let place_key = String::from_str(alloc, name)?;
        self.columns.reserve(1)?;
        self.places.insert(place_key, self.columns.len())?;
        self.columns.push_reserved((key, column));
        Ok(())
    }
}
