use crate::{Disk, DiskOnFile};
use std::fs;
use std::test::Fail;

#[test]
fn a_file_is_a_disk(rt: HostRuntime) -> Result<(), Fail> {
    let alloc = rt.alloc();
    let mut disk = DiskOnFile::open(&rt, "disk")?;
    assert_eq!(rt; disk.len(), 0);
    disk.write_at(0, b"abc")?;
    assert!(rt; disk.len() >= 1);
    disk.write_at(1, b"de")?;
    disk.sync()?;
    let mut again = DiskOnFile::open(&rt, "disk")?;
    assert_eq!(rt; again.len(), 3);
    assert_eq!(rt; again.read(alloc, 0, 3)?.as_slice(), b"ade".as_slice());
    fs::remove_file(&rt, "disk")?;
    Ok(())
}
