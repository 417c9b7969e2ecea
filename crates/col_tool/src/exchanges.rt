//! Exchanges with CSV: one input as a text, and the text on the source as a file.
ghost use Rattle.std.specs.Prelude.{◌≡◌, ◌≤◌, ◌⊎◌, ◌+◌, Contains, IfErr, IfSome, OnOk, false};
ghost use Rattle.std.specs.Prelude.{length, map, nat_lt, vec_len};
ghost use Rattle.std.specs.List.{AllZip};
ghost use Rattle.col_common.specs.Causes.{Rose};
ghost use Rattle.col_common.specs.Outside.{Faulted, IsAtEnd, TakesAtMost};
ghost use Rattle.col_csv.specs.CsvTable.{table_of_csv};
ghost use Rattle.col_exchange.specs.Exchanges.{IsReadTwice};
ghost use Rattle.col_outcome.specs.Parts.{all_told, AllKeep, SomeFileRose};
ghost use Rattle.col_program.specs.Outcome.{max_script_length};
ghost use Rattle.col_tool.specs.Answer.{answer_status, import_refusals, refusal_status};
ghost use Rattle.col_tool.specs.Answer.{text_refusals, IsAnswer, Leaves, KeepsOutputs};
ghost use Rattle.col_tool.specs.Exchanges.{imported, outcome_of_export, outcome_of_import};
ghost use Rattle.col_tool.specs.Statuses.{EndsScript, export_statuses, import_statuses};

use crate::delivery::deliver;
use crate::refusal::Refusal;
use crate::texts::text_on;
use col_common::{FileHandle, Sink, Source};
use col_exchange::{export_and_report, import_and_report};
use col_outcome::FileAndReport;
use std::alloc::Global;

// Writes the table of the one input into the output as CSV, and the report on it.
pub(crate) fn answer_of_export<H: FileHandle, K: Sink, R: Sink>(
    alloc: Global,
    inputs: &mut Vec<H>,
    output: &mut K,
    report: &mut R,
) -> Result<(), Refusal>
    requires one { vec_len inputs.old ≡ 1 }
    ensures leaves { IfSome (all_told (map H.seen inputs.old.items)) (λ files.
        Leaves (K.seen output.old) (K.seen output.new) (R.seen report.old) (R.seen report.new)
        (answer_status result) (outcome_of_export files)) }
    ensures keeps { KeepsOutputs (K.seen output.old) (K.seen output.new)
        (R.seen report.old) (R.seen report.new) (answer_status result) }
    ensures read_fault { answer_status result ≡ 4 →
        SomeFileRose (map H.seen inputs.old.items) (map H.seen inputs.new.items) }
    ensures write_fault { answer_status result ≡ 5
        → Faulted (K.seen output.old) (K.seen output.new)
        ⊎ Faulted (R.seen report.old) (R.seen report.new) }
    ensures among { Contains export_statuses (answer_status result) }
    ensures handles { AllKeep (map H.seen inputs.old.items) (map H.seen inputs.new.items) }
    ensures reads { AllZip IsReadTwice
        (map H.seen inputs.old.items) (map H.seen inputs.new.items) }
{
    let made = export_and_report(alloc, inputs)?;
    let made = FileAndReport {
        file: made.bytes,
        report: made.report,
    };
    deliver(alloc, made, output, report)
}

// Writes the table of the CSV on the source into the output as a file, and the report on it.
pub(crate) fn answer_of_import<S: Source, K: Sink, R: Sink>(
    alloc: Global,
    source: &mut S,
    output: &mut K,
    report: &mut R,
) -> Result<(), Refusal>
    ensures leaves { IfSome (S.left source.old) (λ bytes.
        Leaves (K.seen output.old) (K.seen output.new) (R.seen report.old) (R.seen report.new)
        (answer_status result) (outcome_of_import bytes)) }
    ensures keeps { KeepsOutputs (K.seen output.old) (K.seen output.new)
        (R.seen report.old) (R.seen report.new) (answer_status result) }
    ensures read_fault { answer_status result ≡ 4
        → Rose (S.faults source.old) (S.faults source.new) }
    ensures write_fault { answer_status result ≡ 5
        → Faulted (K.seen output.old) (K.seen output.new)
        ⊎ Faulted (R.seen report.old) (R.seen report.new) }
    ensures among { Contains import_statuses (answer_status result) }
    ensures later { S.faults source.old ≤ S.faults source.new }
    ensures taken { TakesAtMost (max_script_length + 1) (S.left source.old) (S.left source.new) }
    ensures ended { EndsScript (answer_status result) (S.left source.new) }
{
    let made = made_of_source(alloc, source)?;
    deliver(alloc, made, output, report)
}

// Reads the CSV, and makes the file of its table.
fn made_of_source<S: Source>(alloc: Global, source: &mut S) -> Result<FileAndReport, Refusal>
    ensures made { IfSome (S.left source.old) (λ bytes.
        IsAnswer (outcome_of_import bytes) result) }
    ensures read_fault { IfErr result (λ e. refusal_status e ≡ 4 →
        Rose (S.faults source.old) (S.faults source.new)) }
    ensures among { IfErr result (λ e. Contains import_refusals (refusal_status e)) }
    ensures later { S.faults source.old ≤ S.faults source.new }
    ensures taken { TakesAtMost (max_script_length + 1) (S.left source.old) (S.left source.new) }
    ensures ended { OnOk result (IsAtEnd (S.left source.new)) }
    ensures refused { IfErr result (λ e. EndsScript (refusal_status e) (S.left source.new)) }
{
    let text = text_on(alloc, source)?;
    made_of_text(alloc, &text)
}

// Makes the file of the table of CSV that isn't too long.
fn made_of_text(alloc: Global, text: &[u8]) -> Result<FileAndReport, Refusal>
    requires short { nat_lt max_script_length (length text.now) ≡ false }
    ensures made { IsAnswer (imported (table_of_csv text.now)) result }
    ensures among { IfErr result (λ e. Contains text_refusals (refusal_status e)) }
{
    let made = import_and_report(alloc, text)?;
    Ok(FileAndReport {
        file: made.bytes,
        report: made.report,
    })
}
