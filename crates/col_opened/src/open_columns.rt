//! Open columns of a file.
ghost use Rattle.std.specs.Prelude.{◌≡◌, option_map, IfSome};
ghost use Rattle.col_dynamic.specs.Dynamic.{type_of, content_of};
ghost use Rattle.col_model.specs.Table.{Table};
ghost use Rattle.col_opened.specs.Opened.{open_in, AreOpen};
ghost use Rattle.col_program.specs.Queries.{column_named};
ghost use Rattle.col_types.specs.Kinds.{kind_of};

use col_common::FileHandle;
use col_dynamic::DynamicColumn;
use col_file::ColumnarReader;
use col_types::ColumnType;

/// An open column with its name.
#[derive(Drop)]
pub struct OpenColumn {
    pub name: String,
    pub column: DynamicColumn,
}

/// Open columns of a file, in the order of their keys.
#[derive(Drop)]
pub struct OpenColumns {
    // Of each entry of the file, where its column stands among those that are open.
    pub(crate) places: Vec<Option<usize>>,
    pub(crate) columns: Vec<OpenColumn>,
}

impl OpenColumns {
    /// The columns, in the order of their keys.
    pub fn columns(&self) -> &[OpenColumn]
        ensures { result.now ≡ open_in self.now }
    {
        &self.columns
    }

    /// The column of a name and a type, where it is open. It is found by halves.
    pub fn get<F: FileHandle>(
        &self,
        reader: &ColumnarReader<F>,
        name: &str,
        column_type: ColumnType,
    ) -> Option<&DynamicColumn>
        ensures kind { IfSome result (λ c. type_of c.now ≡ kind_of column_type) }
        ensures column { (t : Table) → AreOpen reader.now.keys t self.now →
            option_map (λ c. content_of c.now) result ≡ option_map (λ c. c.content)
            (column_named name.now (kind_of column_type) t.columns) }
    {
        let Some(place) = reader.column_place(name, column_type) else {
            return None;
        };
        let Some(found) = self.places.get(place) else {
            return None;
        };
        let Some(at) = *found else {
            return None;
        };
        let Some(open) = self.columns.get(at) else {
            return None;
        };
        if open.column.column_type().to_code() != column_type.to_code() {
            return None;
        }
        Some(&open.column)
    }
}
