//! Lists on a line, of a few bytes that claim more values than can be walked in a moment.

use bytes::Bytes;
use col_codecs::{ColumnCodec, LinearCodec, LinearReader};
use col_common::{ColumnarError, VInt, VecSink, serialize_bytes};
use col_values::ColumnValues;
use std::alloc::Global;
use std::test::Fail;

// As many values as a list may have.
const MANY: u64 = 0xffff_ffff;

// Slope, intercept and count of lines, then the least value, the divisor and the greatest count of
// divisors, which a program in C found by a walk.
const CLAIMS: [(u64, u64, u64, u64, u64, u64, &str); 9] = [
    (0, 77, MANY, 77, 1, 0, "one value"),
    (1 << 31, 0, MANY, 0, 1, 0x7fff_ffff, "half steps"),
    (1 << 10, 7, MANY, 7, 1, 1023, "a step now and then"),
    (
        0xffff_fffb << 32,
        1 << 40,
        400_000_000,
        1_097_511_627_781,
        5,
        399_999_999,
        "falls",
    ),
    (
        3 << 32,
        0,
        1 << 30,
        0,
        3,
        6_148_914_690_878_603_263,
        "passes 0",
    ),
    (3 << 32, 5, MANY, 0, 1, u64::MAX, "comes round"),
    (
        1 << 52,
        1 << 63,
        MANY,
        (1 << 63) - (1 << 31),
        1 << 20,
        4095,
        "comes round often",
    ),
    (
        0x9e37_79b9_7f4a_7c15,
        12345,
        MANY,
        0,
        1,
        u64::MAX - 1,
        "jumps about",
    ),
    (
        3 << 32 | 3,
        0,
        1 << 30,
        0,
        3,
        6_148_914_690_878_603_263,
        "lower halves that make no step",
    ),
];

// Which of these lists rise, and which never fall.
const ORDERS: [(bool, bool); 9] = [
    (false, true),
    (false, true),
    (false, true),
    (false, false),
    (true, true),
    (false, false),
    (false, false),
    (false, false),
    (true, true),
];

// A list with these statistics on this line.
fn opened(
    alloc: Global,
    (least, divisor, steps): (u64, u64, u64),
    count: u64,
    (slope, intercept): (u64, u64),
) -> Result<LinearReader, ColumnarError> {
    let mut sink = VecSink::new(Vec::new(alloc), Vec::new(alloc));
    for number in [least, divisor, steps, count, slope, intercept] {
        VInt(number).serialize(&mut sink)?;
    }
    serialize_bytes(&mut sink, &[0])?;
    LinearCodec::load(alloc, Bytes::copy_from_slice(alloc, sink.bytes())?)
}

#[test]
fn lists_on_a_line_are_opened_by_their_bounds(rt: HostRuntime) -> Result<(), Fail> {
    let alloc = rt.alloc();
    for (slope, intercept, count, least, divisor, steps, what) in CLAIMS {
        let line = (slope, intercept);
        let list = opened(alloc, (least, divisor, steps), count, line)?;
        assert_eq!(rt; list.num_vals() as u64, count, "{what}");
        assert_eq!(rt;
            list.max_value(),
            least.wrapping_add(divisor.wrapping_mul(steps)),
            "{what}"
        );
        let other = opened(alloc, (least, divisor, steps ^ 1), count, line);
        assert!(rt; other.is_err(), "{what}, with other steps");
    }
    Ok(())
}

#[test]
fn lists_on_a_line_tell_with_no_walk_whether_they_rise(rt: HostRuntime) -> Result<(), Fail> {
    let alloc = rt.alloc();
    for at in 0..CLAIMS.len() {
        let (slope, intercept, count, least, divisor, steps, what) = CLAIMS[at];
        let list = opened(alloc, (least, divisor, steps), count, (slope, intercept))?;
        let (rises, never_falls) = ORDERS[at];
        assert_eq!(rt; list.rises(), Some(rises), "{what}");
        assert_eq!(rt; list.never_falls(), Some(never_falls), "{what}");
    }
    Ok(())
}

#[test]
fn lookups_on_a_line_pass_over_what_lies_outside(rt: HostRuntime) -> Result<(), Fail> {
    let alloc = rt.alloc();
    let mut hits = Vec::new(alloc);
    // It rises by 1 from 2 ^ 63 on, and from the position 2 ^ 31 on from as far below.
    let stats = ((1 << 63) - (1 << 31), 1, MANY);
    let list = opened(alloc, stats, MANY, (1 << 32, 1 << 63))?;
    for (low, high, found) in [
        ((1 << 63) + 10, (1 << 63) + 12, [10, 11, 12].as_slice()),
        ((1 << 63) - 3, 1 << 63, &[0, 0xffff_fffd, 0xffff_fffe]),
        (0, 1 << 62, &[]),
    ] {
        list.get_row_ids_for_value_range(low..=high, 0..0xffff_ffff, &mut hits)?;
        assert_eq!(rt; hits.as_slice(), found);
    }
    Ok(())
}
