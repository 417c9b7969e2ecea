//! Opens the columns of handles.
ghost use Rattle.std.specs.Prelude.{◌≡◌, false, Err, IfOk};
ghost use Rattle.col_dynamic_open.specs.Dynamic.{type_of, content_of};
ghost use Rattle.col_dynamic_open.specs.Contents.{usage_of};
ghost use Rattle.col_dynamic_open.specs.Lenient.{IsInPlaceOf};
ghost use Rattle.col_file.specs.Columns.{content_at, HasCodesSpelled, HasContent, IsTyped};
ghost use Rattle.col_file.specs.Files.{AnswersForHandle};
ghost use Rattle.col_file.specs.Handles.{is_entry};
ghost use Rattle.col_file.specs.Readers.{Reads};
ghost use Rattle.col_file.specs.Usages.{TellsUsage};

use crate::dynamic_column_handle::DynamicColumnHandle;
use crate::reader::ColumnarReader;
use col_common::{ColumnarError, FileHandle};
use col_dynamic_open::{
    ColumnSpaceUsage, DynamicColumn, LenientColumn, open_column, open_column_u64_lenient,
    space_usage_of,
};
use std::alloc::Global;

impl DynamicColumnHandle {
    /// Opens the column in a reader, whose file is read at most once. It answers InvalidData where
    /// the handle is no entry of the reader, or where the bytes are no column of its type. A column
    /// of a file is sound, by the law `parts_have_sound_columns`.
    pub fn open<F: FileHandle>(
        &self,
        alloc: Global,
        reader: &mut ColumnarReader<F>,
    ) -> Result<DynamicColumn, ColumnarError>
        ensures no_entry { is_entry reader.old.keys self.now ≡ false
            → result ≡ Err ColumnarError.InvalidData }
        ensures answer { AnswersForHandle (HasContent self.now.column_type) reader.old.file
            reader.new.file result (content_at reader.old.keys self.now) }
        // Also where the file doesn't tell its bytes.
        ensures typed { IfOk result (IsTyped self.now.column_type reader.old.keys.row_count) }
        ensures kept { Reads 1 reader.old reader.new }
    {
        let bytes = reader.read_column(alloc, self)?;
        open_column(
            alloc,
            self.column_type(),
            bytes,
            reader.format_version(),
            reader.num_docs(),
        )
    }

    /// The same as a column of numbers in place of one of any type: the numbers of its values, the
    /// ordinals of its terms, or the codes of its addresses.
    pub fn open_u64_lenient<F: FileHandle>(
        &self,
        alloc: Global,
        reader: &mut ColumnarReader<F>,
    ) -> Result<LenientColumn, ColumnarError>
        ensures no_entry { is_entry reader.old.keys self.now ≡ false
            → result ≡ Err ColumnarError.InvalidData }
        ensures answer { AnswersForHandle (IsInPlaceOf self.now.column_type) reader.old.file
            reader.new.file result (content_at reader.old.keys self.now) }
        ensures codes { IfOk result (λ c.
            HasCodesSpelled reader.old.keys self.now reader.old.file.told c.values) }
        ensures kept { Reads 1 reader.old reader.new }
    {
        let bytes = reader.read_column(alloc, self)?;
        open_column_u64_lenient(
            alloc,
            self.column_type(),
            bytes,
            reader.format_version(),
            reader.num_docs(),
        )
    }

    /// How many bytes the column takes, those of its dictionary apart. It refuses as `open` does.
    pub fn space_usage<F: FileHandle>(
        &self,
        alloc: Global,
        reader: &mut ColumnarReader<F>,
    ) -> Result<ColumnSpaceUsage, ColumnarError>
        ensures { TellsUsage self.now reader.old reader.new result }
    {
        let column = self.open(alloc, reader)?;
        Ok(usage_of_opened(column, self.num_bytes().get_bytes()))
    }

    /// The same as `space_usage`.
    pub fn column_and_dictionary_num_bytes<F: FileHandle>(
        &self,
        alloc: Global,
        reader: &mut ColumnarReader<F>,
    ) -> Result<ColumnSpaceUsage, ColumnarError>
        ensures { TellsUsage self.now reader.old reader.new result }
    {
        self.space_usage(alloc, reader)
    }
}

// The same of a column that is let go.
fn usage_of_opened(column: DynamicColumn, num_bytes: u64) -> ColumnSpaceUsage
    ensures { result ≡ usage_of num_bytes (type_of column) (content_of column) }
{
    let usage = space_usage_of(&column, num_bytes);
    let_go(column);
    usage
}

fn let_go(column: DynamicColumn) {
    drop(column);
}
