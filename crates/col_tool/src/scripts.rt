//! Answers to scripts: the one on the source, and that of a number.
ghost use Rattle.std.specs.Prelude.{◌≡◌, ◌≢◌, ◌≤◌, ◌⊎◌, [], ◌+◌, Contains, IfErr, IfSome, OnOk};
ghost use Rattle.std.specs.Prelude.{map};
ghost use Rattle.col_common.specs.Causes.{Rose};
ghost use Rattle.col_tool.specs.Expected.{bytes_refusal, generated_answer, script_answer};
ghost use Rattle.col_tool.specs.Expected.{script_refusal};
ghost use Rattle.col_outcome.specs.Parts.{all_told, AllKeep, SomeFileRose};
ghost use Rattle.col_tool.specs.Statuses.{EndsScript, ScriptDecides};
ghost use Rattle.col_common.specs.Outside.{Faulted, IsAtEnd, TakesAtMost};
ghost use Rattle.col_program.specs.Outcome.{max_script_length, script_outcome};
ghost use Rattle.col_program.specs.Script.{script_of};
ghost use Rattle.col_tool.specs.Answer.{answer_status, answers, refusal_status, refusals, IsAnswer};
ghost use Rattle.col_tool.specs.Answer.{Leaves, KeepsOutputs, ScriptDecidesFirst};

use crate::delivery::deliver;
use crate::refusal::Refusal;
use crate::texts::text_on;
use col_common::{FileHandle, MemHandle, Sink, Source};
use col_gen::generated_script;
use col_outcome::{FileAndReport, merge_and_report};
use col_script::parse_script;
use std::alloc::Global;

// Reads the script, and writes what it and the inputs come to.
pub(crate) fn answer<H: FileHandle, S: Source, K: Sink, R: Sink>(
    alloc: Global,
    inputs: &mut Vec<H>,
    script: &mut S,
    output: &mut K,
    report: &mut R,
) -> Result<(), Refusal>
    ensures leaves { IfSome (all_told (map H.seen inputs.old.items)) (λ files.
        IfSome (S.left script.old) (λ bytes.
        Leaves (K.seen output.old) (K.seen output.new) (R.seen report.old) (R.seen report.new)
        (answer_status result) (script_answer files bytes))) }
    ensures keeps { KeepsOutputs (K.seen output.old) (K.seen output.new)
        (R.seen report.old) (R.seen report.new) (answer_status result) }
    ensures read_fault { answer_status result ≡ 4 → Rose (S.faults script.old) (S.faults script.new)
        ⊎ SomeFileRose (map H.seen inputs.old.items) (map H.seen inputs.new.items) }
    ensures write_fault { answer_status result ≡ 5
        → Faulted (K.seen output.old) (K.seen output.new)
        ⊎ Faulted (R.seen report.old) (R.seen report.new) }
    ensures among { Contains answers (answer_status result) }
    ensures inputs { inputs.old.items ≡ [] → answer_status result ≢ 6 }
    ensures handles { AllKeep (map H.seen inputs.old.items) (map H.seen inputs.new.items) }
    ensures later { S.faults script.old ≤ S.faults script.new }
    ensures taken { TakesAtMost (max_script_length + 1) (S.left script.old) (S.left script.new) }
    ensures ended { EndsScript (answer_status result) (S.left script.new) }
    ensures script_alone { IfSome (S.left script.old) (λ bytes.
        ScriptDecides (bytes_refusal bytes) (Rose (S.faults script.old) (S.faults script.new))
        (answer_status result)) }
{
    let made = made_of(alloc, inputs, script)?;
    deliver(alloc, made, output, report)
}

// Reads the script, and makes what it and the inputs come to.
fn made_of<H: FileHandle, S: Source>(
    alloc: Global,
    inputs: &mut Vec<H>,
    script: &mut S,
) -> Result<FileAndReport, Refusal>
    ensures made { IfSome (all_told (map H.seen inputs.old.items)) (λ files.
        IfSome (S.left script.old) (λ bytes. IsAnswer (script_answer files bytes) result)) }
    ensures read_fault { IfErr result (λ e. refusal_status e ≡ 4 →
        Rose (S.faults script.old) (S.faults script.new)
        ⊎ SomeFileRose (map H.seen inputs.old.items) (map H.seen inputs.new.items)) }
    ensures among { IfErr result (λ e. Contains refusals (refusal_status e)) }
    ensures inputs { inputs.old.items ≡ [] → IfErr result (λ e. refusal_status e ≢ 6) }
    ensures handles { AllKeep (map H.seen inputs.old.items) (map H.seen inputs.new.items) }
    ensures later { S.faults script.old ≤ S.faults script.new }
    ensures taken { TakesAtMost (max_script_length + 1) (S.left script.old) (S.left script.new) }
    ensures ended { OnOk result (IsAtEnd (S.left script.new)) }
    ensures refused { IfErr result (λ e. EndsScript (refusal_status e) (S.left script.new)) }
    ensures script_alone { IfSome (S.left script.old) (λ bytes.
        ScriptDecidesFirst (bytes_refusal bytes) (Rose (S.faults script.old) (S.faults script.new))
        result) }
{
    let text = text_on(alloc, script)?;
    made_of_bytes(alloc, inputs, &text, false)
}

// Makes what the bytes of a script and the inputs come to.
fn made_of_bytes<H: FileHandle>(
    alloc: Global,
    inputs: &mut Vec<H>,
    bytes: &[u8],
    short: bool,
) -> Result<FileAndReport, Refusal>
    ensures made { IfSome (all_told (map H.seen inputs.old.items))
        (λ files. IsAnswer (script_outcome short files (script_of bytes.now)) result) }
    ensures read_fault { IfErr result (λ e. refusal_status e ≡ 4 →
        SomeFileRose (map H.seen inputs.old.items) (map H.seen inputs.new.items)) }
    ensures among { IfErr result (λ e. Contains refusals (refusal_status e)) }
    ensures inputs { inputs.old.items ≡ [] → IfErr result (λ e. refusal_status e ≢ 6) }
    ensures handles { AllKeep (map H.seen inputs.old.items) (map H.seen inputs.new.items) }
    ensures script_alone { ScriptDecidesFirst (script_refusal (script_of bytes.now)) ⊥ result }
{
    let Some(parsed) = parse_script(alloc, bytes)? else {
        return Err(Refusal::BadScript);
    };
    Ok(merge_and_report(alloc, parsed, inputs, short)?)
}

// Writes what the script of a number comes to.
pub(crate) fn answer_of_number<K: Sink, R: Sink>(
    alloc: Global,
    number: u64,
    output: &mut K,
    report: &mut R,
) -> Result<(), Refusal>
    ensures leaves { Leaves (K.seen output.old) (K.seen output.new)
        (R.seen report.old) (R.seen report.new) (answer_status result) (generated_answer number) }
    ensures keeps { KeepsOutputs (K.seen output.old) (K.seen output.new)
        (R.seen report.old) (R.seen report.new) (answer_status result) }
    ensures no_read_fault { answer_status result ≢ 4 }
    ensures no_invalid_data { answer_status result ≢ 6 }
    ensures write_fault { answer_status result ≡ 5
        → Faulted (K.seen output.old) (K.seen output.new)
        ⊎ Faulted (R.seen report.old) (R.seen report.new) }
    ensures among { Contains answers (answer_status result) }
{
    let made = made_of_number(alloc, number)?;
    deliver(alloc, made, output, report)
}

// Makes what the script of a number comes to.
fn made_of_number(alloc: Global, number: u64) -> Result<FileAndReport, Refusal>
    ensures made { IsAnswer (generated_answer number) result }
    ensures no_read_fault { IfErr result (λ e. refusal_status e ≢ 4) }
    ensures no_invalid_data { IfErr result (λ e. refusal_status e ≢ 6) }
    ensures among { IfErr result (λ e. Contains refusals (refusal_status e)) }
{
    let script = generated_script(alloc, number)?;
    let mut inputs: Vec<MemHandle> = Vec::new(alloc);
    made_of_bytes(alloc, &mut inputs, &script, true)
}
