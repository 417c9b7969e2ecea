//! A disk: its bytes, and what a crash may leave of them.
ghost use Rattle.std.specs.Prelude.{◌≡◌, ◌≤◌, IfSome, OnOk};
ghost use Rattle.col_common.specs.declared.outside.HandleError.TheVariants.{Memory};
ghost use Rattle.col_disk.specs.Crash.{overwritten};
ghost use Rattle.col_disk.specs.Disks.{IsDisk, IsDurable, WritesParts, ReadsPart, SeenDisk, Stays, Syncs, WritesAt};

use bytes::Bytes;
use col_common::HandleError;
use std::alloc::Global;

/// Bytes that are read and written in any order. What is written is read at once, but a crash, as a
/// loss of power, may undo it until a sync that is Ok: of each range that was written since, by a
/// write that failed too, and of what lies past the old end, a crash leaves any bytes, and the disk
/// ends anywhere from the old end to the new one. Bytes that no write touched stay.
///
/// A disk that tells its bytes tells also which bytes a crash may leave now, and which it may have
/// left at some moment since an earlier one. Of a disk that doesn't, nothing of this is known.
pub trait Disk {
    /// Its bytes, where it tells them, how many there are, what a crash may leave of them, and how
    /// often it has failed.
    ghost seen: { Self → SeenDisk };

    /// How many bytes there are.
    fn len(&self) -> u64
        ensures { result ≡ (seen self.now).size };

    /// The bytes from `start` up to the one before `end`, all of them or none.
    fn read(&mut self, alloc: Global, start: u64, end: u64) -> Result<Bytes, HandleError>
        requires ordered { start ≤ «end» }
        requires within { «end» ≤ (seen self.old).size }
        ensures { ReadsPart (seen self.old) (seen self.new) start «end» result };

    /// Writes over what is there, and past the end. A write that fails leaves any part of its
    /// bytes, or others in their place.
    fn write_at(&mut self, pos: u64, bytes: &[u8]) -> Result<(), HandleError>
        requires { pos ≤ (seen self.old).size }
        ensures { WritesAt (seen self.old) (seen self.new) pos bytes.now result };

    /// Waits until all that was written is on the disk, so that no crash can undo it.
    fn sync(&mut self) -> Result<(), HandleError>
        ensures { Syncs (seen self.old) (seen self.new) result };

    /// What is told is as long as the disk and may be left by a crash, and moments follow one
    /// another.
    ghost laws: { (disk : Self) → IsDisk (seen disk) };
}

/// Writes, and waits until it is on the disk. Want of memory leaves all as it was.
pub fn write_synced<D: Disk>(disk: &mut D, pos: u64, bytes: &[u8]) -> Result<(), HandleError>
    requires { pos ≤ (D.seen disk.old).size }
    ensures durable { OnOk result (IfSome (D.seen disk.old).told (λ held.
        IsDurable (D.seen disk.new) (overwritten pos bytes.now held))) }
    ensures puts { WritesParts (D.seen disk.old) (D.seen disk.new) pos bytes.now result }
    ensures memory { result ≡ Err Memory → Stays (D.seen disk.old) (D.seen disk.new) }
{
    disk.write_at(pos, bytes)?;
    disk.sync()
}
