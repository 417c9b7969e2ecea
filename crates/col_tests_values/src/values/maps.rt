//! Numbers of values and maps, by examples.

use crate::values::doubling::Doubling;
use col_values::{
    MonotonicallyMappableToU64, StrictlyMonotonicFn, StrictlyMonotonicMappingInverter,
    StrictlyMonotonicMappingToInternal, images_are_told,
};

#[test]
fn a_map_leads_to_numbers_and_its_inverter_back(rt: HostRuntime) {
    images_are_told::<i64>();
    let map = StrictlyMonotonicMappingToInternal::<i64>::new();
    assert!(rt; map.in_domain(-1));
    assert_eq!(rt; map.mapping(-1), 0x7fff_ffff_ffff_ffff);
    assert_eq!(rt; map.inverse(0x8000_0000_0000_0000), 0);
    let map = StrictlyMonotonicMappingInverter::from(StrictlyMonotonicMappingToInternal::<
        bool,
    >::new());
    assert!(rt; map.in_domain(1) && !map.in_domain(2));
    assert!(rt; map.mapping(1));
    assert_eq!(rt; map.inverse(map.mapping(0)), 0);
}

#[test]
fn ends_are_led_back_where_they_have_a_value(rt: HostRuntime) {
    assert_eq!(rt;
        (Doubling.at_least(3), Doubling.at_most(3)),
        (Some(2), Some(1))
    );
    assert_eq!(rt;
        (Doubling.at_least(u64::MAX), Doubling.at_most(0)),
        (None, Some(0))
    );
}

#[test]
fn numbers_of_32_bits_are_told_in_their_order(rt: HostRuntime) {
    let most = u32::MAX;
    most.known();
    assert_eq!(rt; most.to_u64(), 0xffff_ffff);
    assert_eq!(rt; u32::from_u64(0xffff_ffff), most);
    let past = 0x1_0000_0000;
    assert!(rt; !u32::is_image(past) && u32::images_reach_down());
    assert_eq!(rt;
        (u32::value_from(past), u32::value_to(past)),
        (None, Some(most))
    );
}
