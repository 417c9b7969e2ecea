//! Maps between the numerical types.

use col_numbers::{MapI64ToU64, MapToOtherHalf, MapU64ToI64};
use col_values::StrictlyMonotonicFn;

// The number of 0 among signed numbers.
const ZERO: u64 = 1 << 63;

#[test]
fn maps_between_the_numerical_types_wrap_no_end(rt: HostRuntime) {
    assert!(rt; MapI64ToU64.in_domain(0) && !MapI64ToU64.in_domain(-1));
    assert_eq!(rt; MapI64ToU64.at_least(u64::MAX), None);
    assert_eq!(rt; MapI64ToU64.at_most(u64::MAX), Some(i64::MAX));
    assert!(rt; MapU64ToI64.in_domain(ZERO - 1) && !MapU64ToI64.in_domain(ZERO));
    assert_eq!(rt;
        (MapU64ToI64.at_least(-1), MapU64ToI64.at_most(-1)),
        (Some(0), None)
    );
    let up = MapToOtherHalf { rises: true };
    assert!(rt; up.in_domain(ZERO - 1) && !up.in_domain(ZERO));
}
