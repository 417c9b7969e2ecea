//! Reads a journal, a change at a time.
ghost use Rattle.std.specs.Prelude.{◌≡◌, ◌⊎◌, ◌<◌, ◌≤◌, ◌-◌, List, [], Option, None, length, slice_range, IfOk, IfSome, OnOk};
ghost use Rattle.col_common.specs.declared.error.ColumnarError.TheVariants.{InvalidData};
ghost use Rattle.col_disk.specs.Crash.{LeavesOnly};
ghost use Rattle.col_disk.specs.Disks.{IsLater};
ghost use Rattle.col_journal.specs.Found.{FindsChange, ReadsAlone};
ghost use Rattle.col_journal.specs.Journal.{Change, HaveNoChange, changes_of};
ghost use Rattle.col_journal.specs.Settled.{IsReadTo};

use crate::Found;
use crate::gates::{HEAD_LEN, SHUT, is_open};
use bytes::Bytes;
use col_common::{ColumnarError, HandleError, whole_number};
use col_disk::{Disk, write_synced};
use std::alloc::Global;

/// Makes a disk's journal ready to be read, from its first gate on: syncs, and gives a disk that
/// has at most one byte a closed gate.
pub fn ready<D: Disk>(disk: &mut D) -> Result<(), HandleError>
    ensures ok { OnOk result (IfSome (D.seen disk.old).told (λ bytes.
        IsReadTo (D.seen disk.new) 0 [] (changes_of bytes))) }

    // A crash at any moment leaves what it could leave at the start, or what stands for no change,
    // as the bytes do.
    ensures any_moment { IfSome (D.seen disk.old).told (λ bytes.
        LeavesOnly (D.seen disk.old).images (D.seen disk.new).images
        (λ c. (D.seen disk.old).images.may_leave c ⊎ HaveNoChange bytes c)) }

    ensures within { OnOk result (0 < (D.seen disk.new).size) }
    ensures later { IsLater (D.seen disk.old) (D.seen disk.new) result }
{
    disk.sync()?;
    if disk.len() > 1 {
        return Ok(());
    }
    write_synced(disk, 0, &[SHUT])
}

/// The change behind a gate, and the place of the next gate; none where the gate isn't open. Each
/// byte up to the next gate is read once.
pub fn next_change<D: Disk>(
    disk: &mut D,
    alloc: Global,
    gate: u64,
) -> Result<Option<(Found, u64)>, ColumnarError>
    requires { gate < (D.seen disk.old).size }

    ensures ok { (changes : List Change) (all : Option (List Change))
        → IsReadTo (D.seen disk.old) gate changes all
        → IfOk result (FindsChange (D.seen disk.new) gate changes all) }

    ensures invalid_data { (changes : List Change) (all : Option (List Change))
        → IsReadTo (D.seen disk.old) gate changes all → result ≡ Err InvalidData → all ≡ None }

    ensures within { IfOk result (λ found. IfSome found (λ f.
        (gate < f.1) × (f.1 < (D.seen disk.new).size))) }
    ensures reads { ReadsAlone (D.seen disk.old) (D.seen disk.new) result }
{
    let room = disk.len() - gate;
    let front = read_part(disk, alloc, gate, gate + room.min(HEAD_LEN))?;
    let head = front.as_slice();
    if !is_open(head[0]) {
        return Ok(None);
    }
    // Behind a change there is a gate.
    if room <= HEAD_LEN {
        return Err(ColumnarError::InvalidData);
    }
    let len = whole_number(&head[2..]);
    if len >= room - HEAD_LEN {
        return Err(ColumnarError::InvalidData);
    }
    let next = gate + HEAD_LEN + len;
    let bytes = read_part(disk, alloc, gate + HEAD_LEN, next)?;
    let found = Found {
        kind: head[1],
        bytes,
    };
    Ok(Some((found, next)))
}

// A part of the disk, with the refusal that callers hand on.
fn read_part<D: Disk>(
    disk: &mut D,
    alloc: Global,
    start: u64,
    end: u64,
) -> Result<Bytes, ColumnarError>
    requires ordered { start ≤ «end» }
    requires within { «end» ≤ (D.seen disk.old).size }
    ensures bytes { IfOk result (λ part. IfSome (D.seen disk.old).told (λ bytes.
        part ≡ slice_range bytes start «end»)) }
    ensures count { IfOk result (λ part. length part ≡ «end» - start) }
    ensures reads { ReadsAlone (D.seen disk.old) (D.seen disk.new) result
        × (result ≡ Err InvalidData → ⊥) }
{
    match disk.read(alloc, start, end) {
        Ok(part) => Ok(part),
        Err(HandleError::Failed) => Err(ColumnarError::ReadFault),
        Err(HandleError::Memory) => Err(ColumnarError::OutOfMemory),
    }
}
