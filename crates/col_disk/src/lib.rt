//! A disk that may crash at any moment. Contracts see what its bytes are, and what a crash may
//! leave of them, now and since each earlier moment.
#![tactic(auto)]

mod disk;
mod disk_on_file;
mod faults;
mod history;
mod mem_disk;

pub use disk::{Disk, write_synced};
pub use disk_on_file::DiskOnFile;
pub use mem_disk::MemDisk;

#[cfg(test)]
mod tests;
