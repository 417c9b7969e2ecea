//! Extremes of lists.

use col_bits::minmax;

#[test]
fn extremes_are_found(rt: HostRuntime) {
    assert_eq!(rt; minmax([3u64, 1, 2].iter().copied()), Some((1, 3)));
}
