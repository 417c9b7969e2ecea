//! Lookups whose steps are counted.

use crate::counted::look_up;
use bytes::Bytes;
use col_codecs::{BitpackedCodec, ColumnCodec};
use std::test::Fail;

#[test]
fn a_lookup_on_packed_numbers_takes_two_steps(rt: HostRuntime) -> Result<(), Fail> {
    // The values 10 and 20: the divisor is 10, and the steps 0 and 1 take a bit each.
    let bytes = Bytes::copy_from_slice(rt.alloc(), &[0x8a, 0x8a, 0x81, 0x82, 2])?;
    let list = BitpackedCodec::load(rt.alloc(), bytes)?;
    let mut hits = Vec::new(rt.alloc());
    for (low, high, found) in [(11, 20, [1].as_slice()), (0, 9, &[])] {
        look_up(&list, (low, high), &mut hits)?;
        assert_eq!(rt; hits.as_slice(), found);
    }
    Ok(())
}
