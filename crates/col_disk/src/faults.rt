//! Counts of faults.
ghost use Rattle.std.specs.Prelude.{◌≡◌, false, IsOkUnless, OnOk};
ghost use Rattle.col_common.specs.Causes.{HasCause};
ghost use Rattle.col_common.specs.declared.outside.HandleError.TheVariants.{Failed};

use col_common::HandleError;

// The answer of a call that fails or doesn't; a failure is counted.
pub(crate) fn counted(faults: &mut u64, fails: bool) -> Result<(), HandleError>
    ensures done { OnOk result (fails ≡ false) }
    ensures failed { IsOkUnless result Failed }
    ensures cause { HasCause faults.old faults.new result }
{
    if fails {
        *faults = faults.saturating_add(1);
        return Err(HandleError::Failed);
    }
    Ok(())
}
