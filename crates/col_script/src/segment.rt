//! The segments of a script, and the calls that record into them.
ghost use Rattle.std.specs.Prelude.{◌≡◌, [], IfSome, None, OnErr, OnOk};
ghost use Rattle.col_model.specs.Recording.{content_after, recorded};
ghost use Rattle.col_model.specs.Written.{written};
ghost use Rattle.col_program.specs.Outcome.{segment_table};
ghost use Rattle.col_program.specs.Script as model;
ghost use Rattle.col_writer_columns.specs.Answers.{RecordsOrRefuses};
ghost use Rattle.col_lines.specs.Lines.{call_of};
ghost use Rattle.col_questions.specs.Values.{typed_cell};
ghost use Rattle.col_script.specs.Files.{MakesFile};
ghost use Rattle.col_script.specs.Segments.{filled, segment_of, after_call};

use col_common::{Buffer, ColumnarError, DocId, RowId};
use col_lines::{Call, TypedValue};
use col_types::NumericalValue;
use col_writer::ColumnarWriter;
use std::alloc::{AllocError, Global};

/// A segment that is to be made.
#[derive(Drop)]
pub struct Segment {
    pub num_docs: u32,
    pub columns: ColumnarWriter,
    /// The first refusal of a call, behind which nothing was recorded.
    pub refusal: Option<ColumnarError>,
}

impl Segment {
    /// A segment in which nothing was recorded.
    pub fn new(alloc: Global, num_docs: u32) -> Segment
        ensures { segment_of result ≡ record { count = num_docs; content = Ok [] } }
    {
        Segment {
            num_docs,
            columns: ColumnarWriter::new(alloc),
            refusal: None,
        }
    }

    /// Makes a call, unless an earlier one was refused.
    pub fn record(&mut self, call: &Call) -> Result<(), AllocError>
        ensures ok { OnOk result
            (segment_of self.new ≡ after_call (segment_of self.old) (call_of call.now)) }
        ensures refused { OnOk result (IfSome self.new.refusal
            (λ refusal. self.new.columns ≡ self.old.columns)) }
        ensures kept { OnErr result (self.new ≡ self.old) }
    {
        if self.refusal.is_some() {
            return Ok(());
        }
        match record_call(call, &mut self.columns) {
            Ok(()) => Ok(()),
            Err(ColumnarError::OutOfMemory) => Err(AllocError),
            Err(refusal) => {
                self.refusal = Some(refusal);
                Ok(())
            }
        }
    }

    /// The bytes of the segment's file, or its first refusal.
    pub fn file_bytes(&self, alloc: Global) -> Result<Vec<u8>, ColumnarError>
        ensures { (s : model.Segment) → filled s ≡ segment_of self.now
            → MakesFile result (segment_table s) }
    {
        match self.refusal {
            Some(refusal) => Err(refusal),
            None => written_bytes(alloc, &self.columns, self.num_docs),
        }
    }
}

// The bytes of a file of what was recorded.
fn written_bytes(
    alloc: Global,
    columns: &ColumnarWriter,
    num_docs: RowId,
) -> Result<Vec<u8>, ColumnarError>
    ensures { MakesFile result (written columns.now num_docs None) }
{
    let mut file = Buffer::new(alloc);
    columns.serialize(num_docs, None, &mut file)?;
    Ok(file.into_bytes())
}

// Makes a call on a writer.
fn record_call(call: &Call, columns: &mut ColumnarWriter) -> Result<(), ColumnarError>
    ensures { RecordsOrRefuses columns.old columns.new result
        (content_after columns.old (call_of call.now)) }
{
    match call {
        Call::Value { doc, name, value } => record_value(value, *doc, name.as_str(), columns),
        Call::Type { name, column_type } => {
            columns.record_column_type(name.as_str(), *column_type, false)
        }
        Call::Sorted { name, term_type } => {
            columns.record_column_type(name.as_str(), term_type.column_type(), true)
        }
        Call::Tie { name, start } => columns.record_tie_breaker_column(name.as_str(), *start),
    }
}

// Records a value of a document under a name.
fn record_value(
    value: &TypedValue,
    doc: DocId,
    name: &str,
    columns: &mut ColumnarWriter,
) -> Result<(), ColumnarError>
    ensures { RecordsOrRefuses columns.old columns.new result (content_after columns.old
        (recorded doc name.now (typed_cell value.now).0 (typed_cell value.now).1)) }
{
    match value {
        TypedValue::I64(value) => columns.record_numerical(doc, name, NumericalValue::I64(*value)),
        TypedValue::U64(value) => columns.record_numerical(doc, name, NumericalValue::U64(*value)),
        TypedValue::Bytes(value) => columns.record_bytes(doc, name, value.as_slice()),
        TypedValue::Str(value) => columns.record_str(doc, name, value.as_str()),
        TypedValue::Bool(value) => columns.record_bool(doc, name, *value),
        TypedValue::IpAddr(value) => columns.record_ip_addr(doc, name, *value),
        TypedValue::DateTime(value) => columns.record_datetime(doc, name, *value),
    }
}
