//! Changes on a disk, each behind a gate that is opened once the change is on the disk.
ghost use Rattle.std.specs.Prelude.{◌≡◌, ◌<◌, ◌≤◌, ◌+◌, ◌^◌, ◌∷◌, ◌++◌, List, length};
ghost use Rattle.std.specs.Int.{w64, to_le_bytes};
ghost use Rattle.col_disk.specs.Disks.{IsLater, WritesParts};
ghost use Rattle.col_journal.specs.Journal.{Change};
ghost use Rattle.col_journal.specs.Settled.{AddsChange, IsSettled, behind_gate};

use crate::gates::{HEAD_LEN, OPEN, SHUT};
use col_common::HandleError;
use col_disk::{Disk, write_synced};

/// Changes on a disk, one behind another, each behind a gate: a byte that is 1 once the change is
/// on the disk. The journal ends at the first gate that isn't 1, and what follows counts for
/// nothing. So a crash while a change is added leaves the journal without it or with it, and never
/// with a part of it. This one ends at `gate`.
#[derive(Drop)]
pub struct Journal<D: Disk> {
    pub disk: D,
    pub gate: u64,
    ghost within: { gate < (D.seen disk).size },
    ghost fits: { gate + 1 < 2 ^ 64 },
}

impl<D: Disk> Journal<D> {
    /// A journal that ends at this gate.
    pub fn at(disk: D, gate: u64) -> Journal<D>
        requires within { gate < (D.seen disk).size }
        requires fits { gate + 1 < 2 ^ 64 }
        ensures disk { result.disk ≡ disk }
        ensures gate { result.gate ≡ gate }
    {
        Journal { disk, gate }
    }

    /// Adds a change, of a kind, with its bytes. It takes no memory itself; where the disk wants
    /// some and has none, the journal is as before. After a fault of the disk the change may stand
    /// or not: open the journal again.
    pub fn append(&mut self, kind: u8, bytes: &[u8]) -> Result<(), HandleError>
        ensures adds { (changes : List Change)
            → IsSettled (D.seen self.old.disk) self.old.gate changes
            → AddsChange (D.seen self.old.disk) (D.seen self.new.disk) self.new.gate changes
            (record { kind = kind; bytes = bytes.now }) result }
        ensures later { IsLater (D.seen self.old.disk) (D.seen self.new.disk) result }
    {
        write_behind(&mut self.disk, self.gate, kind, bytes)?;
        self.disk.sync()?;
        write_synced(&mut self.disk, self.gate, &[OPEN])?;
        self.gate += HEAD_LEN + bytes.len() as u64;
        Ok(())
    }
}

// Writes what stands behind a gate: the change, and a closed gate.
fn write_behind<D: Disk>(disk: &mut D, gate: u64, kind: u8, bytes: &[u8]) -> Result<(), HandleError>
    requires within { gate < (D.seen disk.old).size }
    requires fits { gate + 1 < 2 ^ 64 }
    ensures { WritesParts (D.seen disk.old) (D.seen disk.new) (gate + 1)
        (behind_gate (record { kind = kind; bytes = bytes.now })) result }
{
    let len = bytes.len() as u64;
    let head = head_of(kind, len);
    disk.write_at(gate + 1, &head)?;
    disk.write_at(gate + HEAD_LEN, bytes)?;
    disk.write_at(gate + HEAD_LEN + len, &[SHUT])
}

// The kind and the length of a change.
fn head_of(kind: u8, len: u64) -> [u8; 9]
    ensures { result ≡ kind ∷ to_le_bytes w64 len }
{
    let n = len.to_le_bytes();
    [kind, n[0], n[1], n[2], n[3], n[4], n[5], n[6], n[7]]
}
