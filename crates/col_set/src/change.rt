//! A change on the disk of a set.
ghost use Rattle.std.specs.Prelude.{◌≡◌, false, Ok, List, IfSome};
ghost use Rattle.col_segments.specs.Segments.{HeldTable, changed};
ghost use Rattle.col_set.specs.Held.{Stands};
ghost use Rattle.col_set.specs.Sets.{LeavesChange};

use col_common::{ColumnarError, HandleError};
use col_disk::Disk;
use col_journal::Journal;

// Adds a change to a journal whose images stand for tables, and notes a fault of the disk.
pub(crate) fn add_change<D: Disk + Drop>(
    journal: &mut Journal<D>,
    failed: &mut bool,
    kind: u8,
    bytes: &[u8],
) -> Result<(), ColumnarError>
    requires { failed.old ≡ false }
    ensures { (hs after : List HeldTable)
        → IfSome (D.seen journal.old.disk).told
        (λ _. Stands (D.seen journal.old.disk) journal.old.gate hs)
        → changed kind bytes.now hs ≡ Ok after
        → LeavesChange (D.seen journal.old.disk) (D.seen journal.new.disk)
        journal.new.gate hs after failed.new result }
{
    match journal.append(kind, bytes) {
        Ok(()) => Ok(()),
        Err(HandleError::Failed) => {
            *failed = true;
            Err(ColumnarError::WriteFault)
        }
        Err(HandleError::Memory) => Err(ColumnarError::OutOfMemory),
    }
}
