//! Rows that documents are recorded into.
ghost use Rattle.std.specs.Prelude.{List, [], ◌∷◌, ◌++◌, map, None, IfOk, OnOk};
ghost use Rattle.col_model.specs.Recording.{Call, content_after};
ghost use Rattle.col_model.specs.Written.{written};
ghost use Rattle.col_writer_columns.specs.Answers.{RecordsOrRefuses};
ghost use Rattle.col_documents.specs.Documents.{Field as SaidField};
ghost use Rattle.col_documents.specs.Read.{field_read};
ghost use Rattle.col_load.specs.Files.{LoadsFile};
ghost use Rattle.col_load.specs.Loads.{call_at, calls_at, or_no_table, table_of_documents};
ghost use Rattle.col_load.specs.Rows.{HasDocuments, IsRecorded};

use crate::load_error::LoadError;
use col_common::{ColumnarError, DocId, RowId, Sink};
use col_documents::Field;
use col_questions::TypedValue;
use col_types::NumericalValue;
use col_writer::ColumnarWriter;
use std::alloc::{AllocError, Global};

/// What was recorded of documents.
#[derive(Drop)]
pub struct Rows {
    pub columns: ColumnarWriter,
    pub num_docs: u32,
    /// The first refusal of a record, behind which nothing was recorded.
    pub refusal: Option<ColumnarError>,
    /// There are more documents than a file may have; nothing was recorded of those behind.
    pub too_many: bool,
}

impl Rows {
    /// Without documents.
    pub fn new(alloc: Global) -> Rows
        ensures { HasDocuments [] result }
    {
        Rows {
            columns: ColumnarWriter::new(alloc),
            num_docs: 0,
            refusal: None,
            too_many: false,
        }
    }

    /// Takes one document more. Where memory is wanting, some of its fields may have been recorded.
    pub fn push(&mut self, fields: &[Field]) -> Result<(), AllocError>
        ensures { OnOk result ((docs : List (List SaidField)) → HasDocuments docs self.old
            → HasDocuments (docs ++ map field_read fields.now ∷ []) self.new) }
    {
        if self.num_docs == u32::MAX {
            self.too_many = true;
            return Ok(());
        }
        record_behind(&mut self.columns, &mut self.refusal, self.num_docs, fields)?;
        self.num_docs += 1;
        Ok(())
    }

    /// Writes a file of the documents, each at the row of its number.
    pub fn write<K: Sink>(&self, output: &mut K) -> Result<(), LoadError>
        ensures { (docs : List (List SaidField)) → HasDocuments docs self.now
            → LoadsFile (K.seen output.old) (K.seen output.new) result (table_of_documents docs) }
    {
        if self.too_many {
            return Err(LoadError::TooMany);
        }
        match self.refusal {
            Some(refusal) => Err(LoadError::Columnar(refusal)),
            None => write_columns(&self.columns, self.num_docs, output),
        }
    }
}

// Writes columns as a file.
fn write_columns<K: Sink>(
    columns: &ColumnarWriter,
    num_docs: RowId,
    output: &mut K,
) -> Result<(), LoadError>
    ensures { LoadsFile (K.seen output.old) (K.seen output.new) result
        (or_no_table (written columns.now num_docs None)) }
{
    match columns.serialize(num_docs, None, output) {
        Ok(()) => Ok(()),
        Err(error) => Err(LoadError::from(error)),
    }
}

// Records the fields of a document, unless there was a refusal.
fn record_behind(
    columns: &mut ColumnarWriter,
    refusal: &mut Option<ColumnarError>,
    doc: DocId,
    fields: &[Field],
) -> Result<(), AllocError>
    ensures { OnOk result ((calls : List Call)
        → IsRecorded [] columns.old refusal.old calls
        → IsRecorded [] columns.new refusal.new
        (calls ++ calls_at doc (map field_read fields.now))) }
{
    if refusal.is_none() {
        *refusal = record_fields(columns, doc, fields)?;
    }
    Ok(())
}

// Records the fields of a document, or tells the first refusal.
fn record_fields(
    columns: &mut ColumnarWriter,
    doc: DocId,
    fields: &[Field],
) -> Result<Option<ColumnarError>, AllocError>
    ensures { IfOk result (λ refusal. IsRecorded columns.old columns.new refusal
        (calls_at doc (map field_read fields.now))) }
{
    for field in fields {
        match record_field(columns, doc, field) {
            Ok(()) => {}
            Err(ColumnarError::OutOfMemory) => return Err(AllocError),
            Err(refusal) => return Ok(Some(refusal)),
        }
    }
    Ok(None)
}

// Records a field of a document.
fn record_field(
    columns: &mut ColumnarWriter,
    doc: DocId,
    field: &Field,
) -> Result<(), ColumnarError>
    ensures { RecordsOrRefuses columns.old columns.new result
        (content_after columns.old (call_at doc (field_read field.now))) }
{
    let name = field.path.as_str();
    match &field.value {
        TypedValue::I64(value) => columns.record_numerical(doc, name, NumericalValue::I64(*value)),
        TypedValue::U64(value) => columns.record_numerical(doc, name, NumericalValue::U64(*value)),
        TypedValue::Bytes(value) => columns.record_bytes(doc, name, value.as_slice()),
        TypedValue::Str(value) => columns.record_str(doc, name, value.as_str()),
        TypedValue::Bool(value) => columns.record_bool(doc, name, *value),
        TypedValue::IpAddr(value) => columns.record_ip_addr(doc, name, *value),
        TypedValue::DateTime(value) => columns.record_datetime(doc, name, *value),
    }
}
