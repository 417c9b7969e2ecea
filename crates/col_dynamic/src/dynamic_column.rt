//! Columns whose type is known when they are opened.
ghost use Rattle.std.specs.Prelude.{◌≡◌, [], true, length, is_some, IfSome, None, option_map};
ghost use Rattle.col_text.specs.Indexes.{shape_of};
ghost use Rattle.col_text.specs.Offsets.{cardinality_in};
ghost use Rattle.col_text.specs.Versions.{cardinality_of};
ghost use Rattle.col_model.specs.ColumnType.{is_numerical, same_type};
ghost use Rattle.col_model.specs.ColumnType as types;
ghost use Rattle.col_model.specs.Table.{number};
ghost use Rattle.col_text.specs.NumValues.{num_values_of};
ghost use Rattle.col_types.specs.Cells.{unsigned_cell};
ghost use Rattle.col_text.specs.Columns.{IsCounted, content_seen};
ghost use Rattle.col_types.specs.Kinds.{kind_of, numerical_kind_of};
ghost use Rattle.col_dynamic.specs.declared.dynamic_column.DynamicColumn.TheVariants as columns;
ghost use Rattle.col_dynamic.specs.Dynamic.{type_of, content_of, dynamic_shape, value_count, fits_type};

use col_common::{DateTime, RowId};
use col_text::{
    BytesColumn, Cardinality, Column, ColumnIndex, IpColumn, NumColumn, NumValues, StrColumn,
    coerce_to_i64, coerce_to_u64,
};
use col_types::{ColumnType, NumericalType};
use col_values::ColumnValues;

/// A column of one of the types.
#[derive(Drop)]
pub enum DynamicColumn {
    Bool(NumColumn<bool>),
    I64(NumColumn<i64>),
    U64(NumColumn<u64>),
    IpAddr(IpColumn),
    DateTime(NumColumn<DateTime>),
    Bytes(BytesColumn),
    Str(StrColumn),
}

impl DynamicColumn {
    /// The index.
    pub fn column_index(&self) -> &ColumnIndex
        ensures { shape_of result.now ≡ dynamic_shape self.now }
    {
        match self {
            DynamicColumn::Bool(column) => column.index(),
            DynamicColumn::I64(column) => column.index(),
            DynamicColumn::U64(column) => column.index(),
            DynamicColumn::IpAddr(column) => column.index(),
            DynamicColumn::DateTime(column) => column.index(),
            DynamicColumn::Bytes(column) => column.ords().index(),
            DynamicColumn::Str(column) => column.bytes_column().ords().index(),
        }
    }

    /// The index, without the values.
    pub fn into_column_index(self) -> ColumnIndex
        ensures { shape_of result ≡ dynamic_shape self }
    {
        match self {
            DynamicColumn::Bool(column) => column.into_parts().0,
            DynamicColumn::I64(column) => column.into_parts().0,
            DynamicColumn::U64(column) => column.into_parts().0,
            DynamicColumn::IpAddr(column) => column.into_parts().0,
            DynamicColumn::DateTime(column) => column.into_parts().0,
            DynamicColumn::Bytes(column) => column.into_parts().1.into_parts().0,
            DynamicColumn::Str(column) => column.into_parts().1.into_parts().0,
        }
    }

    /// The cardinality; a column without documents is Full.
    pub fn get_cardinality(&self) -> Cardinality
        ensures { cardinality_of result ≡ cardinality_in (dynamic_shape self.now) }
    {
        self.column_index().get_cardinality()
    }

    /// How many values all documents have.
    pub fn num_values(&self) -> u32
        ensures { result ≡ value_count self.now }
    {
        match self {
            DynamicColumn::Bool(column) => column.values().num_vals(),
            DynamicColumn::I64(column) => column.values().num_vals(),
            DynamicColumn::U64(column) => column.values().num_vals(),
            DynamicColumn::IpAddr(column) => column.values().num_vals(),
            DynamicColumn::DateTime(column) => column.values().num_vals(),
            DynamicColumn::Bytes(column) => column.ords().values().num_vals(),
            DynamicColumn::Str(column) => column.bytes_column().ords().values().num_vals(),
        }
    }

    /// How many documents it has a row for.
    pub fn num_docs(&self) -> RowId
        ensures { result ≡ length (content_of self.now).rows }
    {
        match self {
            DynamicColumn::Bool(column) => column.num_docs(),
            DynamicColumn::I64(column) => column.num_docs(),
            DynamicColumn::U64(column) => column.num_docs(),
            DynamicColumn::IpAddr(column) => column.num_docs(),
            DynamicColumn::DateTime(column) => column.num_docs(),
            DynamicColumn::Bytes(column) => column.num_rows(),
            DynamicColumn::Str(column) => column.bytes_column().num_rows(),
        }
    }

    /// The type.
    pub fn column_type(&self) -> ColumnType
        ensures { kind_of result ≡ type_of self.now }
    {
        match self {
            DynamicColumn::Bool(_) => ColumnType::Bool,
            DynamicColumn::I64(_) => ColumnType::I64,
            DynamicColumn::U64(_) => ColumnType::U64,
            DynamicColumn::IpAddr(_) => ColumnType::IpAddr,
            DynamicColumn::DateTime(_) => ColumnType::DateTime,
            DynamicColumn::Bytes(_) => ColumnType::Bytes,
            DynamicColumn::Str(_) => ColumnType::Str,
        }
    }

    /// The column with its numbers as those of a numerical type, where it is numerical and each of
    /// them is one of that type.
    pub fn coerce_numerical(self, target_numerical_type: NumericalType) -> Option<DynamicColumn>
        ensures fits { is_some result
            ≡ fits_type (numerical_kind_of target_numerical_type) (type_of self) (content_of self) }
        ensures content { IfSome result (λ c. content_of c ≡ content_of self) }
        ensures kind { IfSome result (λ c. type_of c ≡ numerical_kind_of target_numerical_type) }
    {
        match target_numerical_type {
            NumericalType::I64 => self.into_i64_numbers(),
            NumericalType::U64 => self.into_u64_numbers(),
        }
    }

    // The same to i64.
    fn into_i64_numbers(self) -> Option<DynamicColumn>
        ensures fits { is_some result ≡ fits_type types.i64 (type_of self) (content_of self) }
        ensures content { IfSome result (λ c. content_of c ≡ content_of self) }
        ensures kind { IfSome result (λ c. type_of c ≡ types.i64) }
    {
        match self {
            DynamicColumn::I64(column) => Some(i64_column(column)),
            DynamicColumn::U64(column) => i64_column_of(column),
            other => no_column(other),
        }
    }

    // The same to u64.
    fn into_u64_numbers(self) -> Option<DynamicColumn>
        ensures fits { is_some result ≡ fits_type types.u64 (type_of self) (content_of self) }
        ensures content { IfSome result (λ c. content_of c ≡ content_of self) }
        ensures kind { IfSome result (λ c. type_of c ≡ types.u64) }
    {
        match self {
            DynamicColumn::U64(column) => Some(u64_column(column)),
            DynamicColumn::I64(column) => u64_column_of(column),
            other => no_column(other),
        }
    }

    /// Whether the type is i64 or u64.
    pub fn is_numerical(&self) -> bool
        ensures { result ≡ is_numerical (type_of self.now) }
    {
        self.column_type().numerical_type().is_some()
    }

    /// Whether the type is i64.
    pub fn is_i64(&self) -> bool
        ensures { result ≡ same_type (type_of self.now) types.i64 }
    {
        matches!(self, DynamicColumn::I64(_))
    }

    /// Whether the type is u64.
    pub fn is_u64(&self) -> bool
        ensures { result ≡ same_type (type_of self.now) types.u64 }
    {
        matches!(self, DynamicColumn::U64(_))
    }
}

impl DynamicColumn {
    ghost use Rattle.col_dynamic.specs.Dynamic.{as_bool, as_i64, as_u64, as_ip_addr, as_datetime, as_bytes, as_str};

    /// The column, where it is of this type.
    pub fn into_bool(self) -> Option<NumColumn<bool>>
        ensures { result ≡ as_bool self }
    {
        match self {
            DynamicColumn::Bool(column) => Some(column),
            other => no_column(other),
        }
    }

    /// The column, where it is of this type.
    pub fn into_i64(self) -> Option<NumColumn<i64>>
        ensures { result ≡ as_i64 self }
    {
        match self {
            DynamicColumn::I64(column) => Some(column),
            other => no_column(other),
        }
    }

    /// The column, where it is of this type.
    pub fn into_u64(self) -> Option<NumColumn<u64>>
        ensures { result ≡ as_u64 self }
    {
        match self {
            DynamicColumn::U64(column) => Some(column),
            other => no_column(other),
        }
    }

    /// The column, where it is of this type.
    pub fn into_ip_addr(self) -> Option<IpColumn>
        ensures { result ≡ as_ip_addr self }
    {
        match self {
            DynamicColumn::IpAddr(column) => Some(column),
            other => no_column(other),
        }
    }

    /// The column, where it is of this type.
    pub fn into_datetime(self) -> Option<NumColumn<DateTime>>
        ensures { result ≡ as_datetime self }
    {
        match self {
            DynamicColumn::DateTime(column) => Some(column),
            other => no_column(other),
        }
    }

    /// The column, where it is of this type.
    pub fn into_bytes(self) -> Option<BytesColumn>
        ensures { result ≡ as_bytes self }
    {
        match self {
            DynamicColumn::Bytes(column) => Some(column),
            other => no_column(other),
        }
    }

    /// The column, where it is of this type.
    pub fn into_str(self) -> Option<StrColumn>
        ensures { result ≡ as_str self }
    {
        match self {
            DynamicColumn::Str(column) => Some(column),
            other => no_column(other),
        }
    }
}

impl From<NumColumn<bool>> for DynamicColumn {
    ghost from_gives = { λ column dynamic. dynamic ≡ columns.Bool column };

    fn from(column: NumColumn<bool>) -> DynamicColumn {
        DynamicColumn::Bool(column)
    }
}

impl From<NumColumn<i64>> for DynamicColumn {
    ghost from_gives = { λ column dynamic. dynamic ≡ columns.I64 column };

    fn from(column: NumColumn<i64>) -> DynamicColumn {
        DynamicColumn::I64(column)
    }
}

impl From<NumColumn<u64>> for DynamicColumn {
    ghost from_gives = { λ column dynamic. dynamic ≡ columns.U64 column };

    fn from(column: NumColumn<u64>) -> DynamicColumn {
        DynamicColumn::U64(column)
    }
}

impl From<IpColumn> for DynamicColumn {
    ghost from_gives = { λ column dynamic. dynamic ≡ columns.IpAddr column };

    fn from(column: IpColumn) -> DynamicColumn {
        DynamicColumn::IpAddr(column)
    }
}

impl From<NumColumn<DateTime>> for DynamicColumn {
    ghost from_gives = { λ column dynamic. dynamic ≡ columns.DateTime column };

    fn from(column: NumColumn<DateTime>) -> DynamicColumn {
        DynamicColumn::DateTime(column)
    }
}

impl From<BytesColumn> for DynamicColumn {
    ghost from_gives = { λ column dynamic. dynamic ≡ columns.Bytes column };

    fn from(column: BytesColumn) -> DynamicColumn {
        DynamicColumn::Bytes(column)
    }
}

impl From<StrColumn> for DynamicColumn {
    ghost from_gives = { λ column dynamic. dynamic ≡ columns.Str column };

    fn from(column: StrColumn) -> DynamicColumn {
        DynamicColumn::Str(column)
    }
}

// None, for a column of another type.
fn no_column<T>(column: DynamicColumn) -> Option<T>
    ensures { result ≡ None }
{
    drop(column);
    None
}

// A column of i64, each of whose numbers is one.
fn i64_column(column: NumColumn<i64>) -> DynamicColumn
    ensures column { result ≡ columns.I64 column }
    ensures fits { fits_type types.i64 types.i64 (content_of (columns.I64 column)) ≡ true }
{
    let (index, values) = column.into_parts();
    values.values_are_in_type();
    DynamicColumn::I64(Column::new(index, values))
}

// A column of u64, each of whose numbers is one.
fn u64_column(column: NumColumn<u64>) -> DynamicColumn
    ensures column { result ≡ columns.U64 column }
    ensures fits { fits_type types.u64 types.u64 (content_of (columns.U64 column)) ≡ true }
{
    let (index, values) = column.into_parts();
    values.values_are_in_type();
    DynamicColumn::U64(Column::new(index, values))
}

// A column of u64 as one of i64, where each number is one.
fn i64_column_of(column: NumColumn<u64>) -> Option<DynamicColumn>
    ensures fits { is_some result
        ≡ fits_type types.i64 types.u64 (content_of (columns.U64 column)) }
    ensures content { IfSome result (λ c. content_of c ≡ content_of (columns.U64 column)) }
    ensures kind { IfSome result (λ c. type_of c ≡ types.i64) }
{
    let (index, values) = column.into_parts();
    with_i64_values(index, coerce_to_i64(values))
}

// A column of i64 as one of u64, where each number is one.
fn u64_column_of(column: NumColumn<i64>) -> Option<DynamicColumn>
    ensures fits { is_some result
        ≡ fits_type types.u64 types.i64 (content_of (columns.I64 column)) }
    ensures content { IfSome result (λ c. content_of c ≡ content_of (columns.I64 column)) }
    ensures kind { IfSome result (λ c. type_of c ≡ types.u64) }
{
    let (index, values) = column.into_parts();
    values.values_are_in_type();
    with_u64_values(index, coerce_to_u64(values))
}

// The column of an index and values that it counts, where there are values.
fn with_i64_values(index: ColumnIndex, values: Option<NumValues<i64>>) -> Option<DynamicColumn>
    requires { IfSome values (λ v. IsCounted (shape_of index) (length (num_values_of v))) }
    ensures content { option_map content_of result ≡ option_map
        (λ v. content_seen [] number (shape_of index) (num_values_of v)) values }
    ensures kind { IfSome result (λ c. type_of c ≡ types.i64) }
{
    match values {
        Some(values) => Some(DynamicColumn::I64(Column::new(index, values))),
        None => None,
    }
}

fn with_u64_values(index: ColumnIndex, values: Option<NumValues<u64>>) -> Option<DynamicColumn>
    requires { IfSome values (λ v. IsCounted (shape_of index) (length (num_values_of v))) }
    ensures content { option_map content_of result ≡ option_map
        (λ v. content_seen [] unsigned_cell (shape_of index) (num_values_of v)) values }
    ensures kind { IfSome result (λ c. type_of c ≡ types.u64) }
{
    match values {
        Some(values) => Some(DynamicColumn::U64(Column::new(index, values))),
        None => None,
    }
}
