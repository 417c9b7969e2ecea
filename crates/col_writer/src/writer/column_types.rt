//! Types of columns, and starts of columns that are made as they are written.
ghost use Rattle.std.specs.Prelude.{◌≡◌, true};
ghost use Rattle.col_model.specs.ColumnType.{has_terms};
ghost use Rattle.col_model.specs.Recording.{typed, tied, content_after};
ghost use Rattle.col_types.specs.Kinds.{kind_of};
ghost use Rattle.col_writer_columns.specs.Answers.{RecordsOrRefuses};

use super::ColumnarWriter;
use super::changes::{NumberType, PlainType, TextType, TieStart};
use col_common::ColumnarError;
use col_types::{ColumnType, NumericalType};

impl ColumnarWriter {
    /// Forces the type of a column, which is there from now on, and says whether the texts of a row
    /// are sorted.
    pub fn record_column_type(
        &mut self,
        name: &str,
        column_type: ColumnType,
        sort_values_within_row: bool,
    ) -> Result<(), ColumnarError>
        requires { sort_values_within_row ≡ true → has_terms (kind_of column_type) ≡ true }
        ensures { RecordsOrRefuses self.old self.new result (content_after self.old
            (typed name.now (kind_of column_type) sort_values_within_row)) }
    {
        let alloc = self.alloc;
        let sorts = sort_values_within_row;
        match column_type {
            ColumnType::I64 => self
                .numerical
                .change(alloc, name, NumberType(NumericalType::I64)),
            ColumnType::U64 => self
                .numerical
                .change(alloc, name, NumberType(NumericalType::U64)),
            ColumnType::Bytes => self.bytes.change(alloc, name, TextType { sorts }),
            ColumnType::Str => self.strs.change(alloc, name, TextType { sorts }),
            ColumnType::Bool => self.bools.change(alloc, name, PlainType),
            ColumnType::IpAddr => self.ip_addrs.change(alloc, name, PlainType),
            ColumnType::DateTime => self.datetimes.change(alloc, name, PlainType),
        }
    }

    /// Makes a column of the numbers from a start on, one for each row that is written, whatever is
    /// recorded under its name, and forces its type to i64.
    pub fn record_tie_breaker_column(&mut self, name: &str, start: i64) -> Result<(), ColumnarError>
        ensures { RecordsOrRefuses self.old self.new result (content_after self.old
            (tied name.now start)) }
    {
        self.numerical.change(self.alloc, name, TieStart(start))
    }
}
