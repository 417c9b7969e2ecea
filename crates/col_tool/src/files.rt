//! Answers about the one input: whether it is whole, and the same file written again.
ghost use Rattle.std.specs.Prelude.{◌≡◌, ◌⊎◌, Contains, IfSome, map, vec_len};
ghost use Rattle.std.specs.List.{AllZip};
ghost use Rattle.col_tool.specs.Upgrades.{outcome_of_upgrade};
ghost use Rattle.col_outcome.specs.Checking.{IsReadOnce};
ghost use Rattle.col_outcome.specs.Parts.{all_told, AllKeep, SomeFileRose};
ghost use Rattle.col_tool.specs.Statuses.{check_statuses, upgrade_statuses};
ghost use Rattle.col_common.specs.Outside.{Faulted, SeenSink};
ghost use Rattle.col_program.specs.Outcome.{outcome_of_check};
ghost use Rattle.col_tool.specs.Answer.{answer_status, Leaves, KeepsOutputs};

use crate::delivery::{deliver, deliver_report};
use crate::refusal::Refusal;
use col_common::{FileHandle, Sink};
use col_outcome::{check_and_report, upgrade_and_report};
use std::alloc::Global;

// Checks the one input, and writes the report; there is nothing for the output.
pub(crate) fn answer_of_check<H: FileHandle, R: Sink>(
    alloc: Global,
    inputs: &mut Vec<H>,
    report: &mut R,
) -> Result<(), Refusal>
    requires one { vec_len inputs.old ≡ 1 }
    ensures leaves { (output : SeenSink) → IfSome (all_told (map H.seen inputs.old.items))
        (λ files. Leaves output output (R.seen report.old) (R.seen report.new)
        (answer_status result) (outcome_of_check files)) }
    ensures keeps { (output : SeenSink) → KeepsOutputs output output
        (R.seen report.old) (R.seen report.new) (answer_status result) }
    ensures read_fault { answer_status result ≡ 4 →
        SomeFileRose (map H.seen inputs.old.items) (map H.seen inputs.new.items) }
    ensures write_fault { answer_status result ≡ 5
        → Faulted (R.seen report.old) (R.seen report.new) }
    ensures among { Contains check_statuses (answer_status result) }
    ensures handles { AllKeep (map H.seen inputs.old.items) (map H.seen inputs.new.items) }
    ensures reads { AllZip IsReadOnce
        (map H.seen inputs.old.items) (map H.seen inputs.new.items) }
{
    let made = check_and_report(alloc, inputs)?;
    deliver_report(&made, report)
}

// Writes the one input again into the output, and the report on it.
pub(crate) fn answer_of_upgrade<H: FileHandle, K: Sink, R: Sink>(
    alloc: Global,
    inputs: &mut Vec<H>,
    output: &mut K,
    report: &mut R,
) -> Result<(), Refusal>
    requires one { vec_len inputs.old ≡ 1 }
    ensures leaves { IfSome (all_told (map H.seen inputs.old.items)) (λ files.
        Leaves (K.seen output.old) (K.seen output.new) (R.seen report.old) (R.seen report.new)
        (answer_status result) (outcome_of_upgrade files)) }
    ensures keeps { KeepsOutputs (K.seen output.old) (K.seen output.new)
        (R.seen report.old) (R.seen report.new) (answer_status result) }
    ensures read_fault { answer_status result ≡ 4 →
        SomeFileRose (map H.seen inputs.old.items) (map H.seen inputs.new.items) }
    ensures write_fault { answer_status result ≡ 5
        → Faulted (K.seen output.old) (K.seen output.new)
        ⊎ Faulted (R.seen report.old) (R.seen report.new) }
    ensures among { Contains upgrade_statuses (answer_status result) }
    ensures handles { AllKeep (map H.seen inputs.old.items) (map H.seen inputs.new.items) }
    ensures reads { AllZip IsReadOnce
        (map H.seen inputs.old.items) (map H.seen inputs.new.items) }
{
    let made = upgrade_and_report(alloc, inputs)?;
    deliver(alloc, made, output, report)
}
