//! Reads the script of a set.
ghost use Rattle.std.specs.Prelude.{◌≡◌, ◌≢◌, ◌≤◌, ◌+◌, IfErr, IfOk};
ghost use Rattle.col_common.specs.Causes.{Rose};
ghost use Rattle.col_common.specs.Outside.{IsAtEnd, TakesAtMost};
ghost use Rattle.col_program.specs.Outcome.{max_script_length};
ghost use Rattle.col_set_tool.specs.SetOutcome.{readable};
ghost use Rattle.col_set_tool.specs.Reading.{AreStepsOn, IsReadAs, RefusesRead};

use col_common::{Source, read_to_limit};
use col_set_script::{Step, parse_set_script};
use std::alloc::Global;

// The greatest length of a script, in bytes.
const MAX_SCRIPT_LEN: usize = 16_777_216;

// The steps of the script on the source. A refusal is its status.
pub(crate) fn read_steps<S: Source>(alloc: Global, script: &mut S) -> Result<Vec<Step>, u8>
    ensures steps { IfOk result (AreStepsOn (S.left script.old)) }
    ensures refused { IfErr result (RefusesRead (S.left script.old)
        (Rose (S.faults script.old) (S.faults script.new))) }
    ensures ended { IfOk result (λ _. IsAtEnd (S.left script.new)) }
    ensures stopped { IfErr result (λ status. status ≢ 3 → status ≢ 4 → status ≢ 21
        → IsAtEnd (S.left script.new)) }
    ensures taken { TakesAtMost (max_script_length + 1) (S.left script.old) (S.left script.new) }
    ensures later { S.faults script.old ≤ S.faults script.new }
{
    let bytes = match read_to_limit(alloc, script, MAX_SCRIPT_LEN) {
        Ok(bytes) => bytes,
        Err(error) => return Err(error.code()),
    };
    steps_of_bytes(alloc, &bytes)
}

// The steps of a script's bytes.
fn steps_of_bytes(alloc: Global, bytes: &[u8]) -> Result<Vec<Step>, u8>
    ensures { IsReadAs (readable bytes.now) result }
{
    if bytes.len() > MAX_SCRIPT_LEN {
        return Err(21);
    }
    match parse_set_script(alloc, bytes) {
        Ok(Some(steps)) => Ok(steps),
        Ok(None) => Err(20),
        Err(_) => Err(3),
    }
}
