//! Sets of segments that survive a crash: tables with the rows that are alive in each, kept on a disk
//! as a journal.

pub use col_disk::{Disk, DiskOnFile, MemDisk, write_synced};
pub use col_set::SegmentSet;
