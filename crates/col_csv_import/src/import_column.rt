//! Columns that are made of fields.
ghost use Rattle.std.specs.Prelude.{◌≡◌, ◌<◌, ◌-◌, ◌^◌, IfOk, IfErr, map};
ghost use Rattle.col_common.specs.declared.error.ColumnarError.TheVariants as refusals;
ghost use Rattle.col_csv_import.specs.Columns.{no_values, slotted};
ghost use Rattle.col_csv_import.specs.Headings.{heading_key};
ghost use Rattle.col_csv_import.specs.Made.{Makes};
ghost use Rattle.col_writer_file.specs.Tables.{named_entry};

use crate::headings::Heading;
use crate::recorder::Recorder;
use col_common::{ColumnarError, DocId};
use col_csv::CsvError;
use col_writer_file::{EntryColumn, NamedEntry};
use std::alloc::{AllocError, Global};
use std::marker::Model;

// The byte in front of a value.
const VALUE_MARK: u8 = b'=';

/// A column that is made of fields. Contracts see its key, and what was recorded.
pub(crate) struct ImportColumn {
    name: String,
    recorder: Recorder,
}

impl Model for ImportColumn {
    ghost use Rattle.col_csv_import.specs.Columns.{FilledColumn};

    ghost Value = { FilledColumn };

    ghost use Rattle.col_csv_import.specs.Seen.{column_seen, IsTyped};

    ghost view = { column_seen };

    ghost invariant = { IsTyped };
}

// By hand, so that a drop of a column is one call in proofs.
impl Drop for ImportColumn {
    fn drop(self) {
        let ImportColumn {
            name: _,
            recorder: _,
        } = self;
    }
}

impl ImportColumn {
    ghost use Rattle.col_csv_import.specs.Columns.{HasRoom, with_field};

    // A column without values.
    fn new(alloc: Global, heading: Heading<'_>) -> Result<ImportColumn, ColumnarError>
        ensures ok { IfOk result (λ column. column ≡ no_values (heading_key heading.entry)) }
        ensures err { IfErr result (λ e. e ≡ refusals.OutOfMemory) }
    {
        let name = String::from_str(alloc, heading.name)?;
        let recorder = Recorder::new(alloc, heading.column_type)?;
        Ok(ImportColumn { name, recorder })
    }

    /// Takes the field of a row: no value, or one behind its mark. The memory of `bytes` is that of
    /// bytes that are spelled.
    pub(crate) fn take_field(
        &mut self,
        row: DocId,
        field: &[u8],
        bytes: &mut Vec<u8>,
    ) -> Result<(), CsvError>
        requires few { row < 2 ^ 32 - 1 }
        requires room { HasRoom row self.old }
        ensures { Makes (λ _. self.new) result (with_field row field.now self.old) }
    {
        let [mark, text @ ..] = field else {
            return Ok(());
        };
        if *mark != VALUE_MARK {
            return Err(CsvError::BadCsv);
        }
        self.recorder.take_value(row, text, bytes)
    }

    // The entry that is written.
    fn entry(&self) -> NamedEntry<'_>
        ensures { named_entry result ≡ slotted self.now }
    {
        let column = match &self.recorder {
            Recorder::I64(column) => EntryColumn::Numerical(column),
            Recorder::U64(column) => EntryColumn::Numerical(column),
            Recorder::Bytes(column) => EntryColumn::Bytes(column),
            Recorder::Str(column) => EntryColumn::Str(column),
            Recorder::Bool(column) => EntryColumn::Bool(column),
            Recorder::IpAddr(column) => EntryColumn::IpAddr(column),
            Recorder::DateTime(column) => EntryColumn::DateTime(column),
        };
        let name = self.name.as_str();
        NamedEntry { name, column }
    }
}

/// Columns without values.
pub(crate) fn columns_of(
    alloc: Global,
    headings: &[Heading<'_>],
) -> Result<Vec<ImportColumn>, ColumnarError>
    ensures ok { IfOk result (λ v. v.items ≡ map (λ h. no_values (heading_key h)) headings.now) }
    ensures err { IfErr result (λ e. e ≡ refusals.OutOfMemory) }
{
    let mut columns = Vec::new(alloc);
    for heading in headings {
        columns.push(ImportColumn::new(alloc, *heading)?)?;
    }
    Ok(columns)
}

/// The entries of columns.
pub(crate) fn entries_of(
    alloc: Global,
    columns: &[ImportColumn],
) -> Result<Vec<NamedEntry<'_>>, AllocError>
    ensures { IfOk result (λ v. map named_entry v.items ≡ map slotted columns.now) }
{
    let mut entries = Vec::new(alloc);
    for column in columns {
        entries.push(column.entry())?;
    }
    Ok(entries)
}
