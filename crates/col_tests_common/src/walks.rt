//! Walks over lists, ranges and sets.
ghost use Rattle.std.specs.Prelude.{◌≡◌, IfOk};

use col_common::{BitSet, Iterable};
use std::alloc::{AllocError, Global};
use std::test::Fail;

fn items_of<T: Drop, I: Iterable<T>>(alloc: Global, list: &I) -> Result<Vec<T>, AllocError>
    ensures { IfOk result (λ v. v.items ≡ I.items list.now) }
{
    let mut found = Vec::new(alloc);
    let mut at = list.walk();
    while let Some(item) = list.next(&mut at) {
        found.push(item)?;
    }
    Ok(found)
}

#[test]
fn slices_ranges_and_sets_are_walked(rt: HostRuntime) -> Result<(), Fail> {
    let alloc = rt.alloc();
    assert_eq!(rt;
        items_of(alloc, &b"abc".as_slice())?.as_slice(),
        b"abc".as_slice()
    );
    assert_eq!(rt;
        items_of(alloc, &(u32::MAX - 2..u32::MAX))?.as_slice(),
        [u32::MAX - 2, u32::MAX - 1].as_slice()
    );
    assert_eq!(rt; items_of(alloc, &(7u64..7))?.len(), 0);
    assert_eq!(rt;
        items_of(alloc, &(-1i64..2))?.as_slice(),
        [-1, 0, 1].as_slice()
    );
    let mut set = BitSet::with_max_value(alloc, 200)?;
    set.insert(199);
    set.insert(63);
    assert_eq!(rt;
        items_of(alloc, &set.iter())?.as_slice(),
        [63, 199].as_slice()
    );
    Ok(())
}
