//! Writes what was made into the output, and the report behind it.
ghost use Rattle.std.specs.Prelude.{◌≡◌, ◌⊎◌, []};
ghost use Rattle.col_common.specs.Outside.{Faulted, SeenSink};
ghost use Rattle.col_tool.specs.Answer.{answer_status, KeepsOutputs, Delivers};

use crate::refusal::Refusal;
use col_common::{ColumnarError, HandleError, Sink};
use col_outcome::FileAndReport;
use std::alloc::Global;

// Writes a report behind all that goes to the output.
pub(crate) fn deliver_report<R: Sink>(made: &[u8], report: &mut R) -> Result<(), Refusal>
    ensures delivers { (output : SeenSink) → Delivers output output
        (R.seen report.old) (R.seen report.new) [] made.now (answer_status result) }
    ensures keeps { (output : SeenSink) → KeepsOutputs output output
        (R.seen report.old) (R.seen report.new) (answer_status result) }
    ensures write_fault { answer_status result ≡ 5
        → Faulted (R.seen report.old) (R.seen report.new) }
{
    match report.write_all(made) {
        Ok(()) => Ok(()),
        Err(HandleError::Failed) => Err(Refusal::Store(ColumnarError::WriteFault)),
        Err(HandleError::Memory) => Err(Refusal::Store(ColumnarError::OutOfMemory)),
    }
}

// Writes the file, and then the report.
pub(crate) fn deliver<K: Sink, R: Sink>(
    alloc: Global,
    made: FileAndReport,
    output: &mut K,
    report: &mut R,
) -> Result<(), Refusal>
    ensures delivers { Delivers (K.seen output.old) (K.seen output.new) (R.seen report.old)
        (R.seen report.new) made.file made.report (answer_status result) }
    ensures keeps { KeepsOutputs (K.seen output.old) (K.seen output.new)
        (R.seen report.old) (R.seen report.new) (answer_status result) }
    ensures write_fault { answer_status result ≡ 5
        → Faulted (K.seen output.old) (K.seen output.new)
        ⊎ Faulted (R.seen report.old) (R.seen report.new) }
{
    let FileAndReport {
        file,
        report: lines,
    } = made;
    match output.write_all(file.as_slice()) {
        Ok(()) => {}
        Err(HandleError::Failed) => return Err(Refusal::Store(ColumnarError::WriteFault)),
        Err(HandleError::Memory) => return Err(Refusal::Store(ColumnarError::OutOfMemory)),
    }
    match lines.print(alloc, report) {
        Ok(()) => Ok(()),
        Err(HandleError::Failed) => Err(Refusal::Store(ColumnarError::WriteFault)),
        Err(HandleError::Memory) => Err(Refusal::Store(ColumnarError::OutOfMemory)),
    }
}
