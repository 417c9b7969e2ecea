//! Lines whose values and bytes are worked out by hand.

use col_codecs::{Line, Positions};
use col_common::Iterable;
use col_values::VecColumn;
use std::test::Fail;

#[test]
fn lines_have_the_values_that_they_are_trained_on(rt: HostRuntime) -> Result<(), Fail> {
    let column = VecColumn::from_vec(vec![in rt.alloc(); 13, 12, 12, 11, 11, 11]?);
    let positions = Positions { values: &column };
    let mut at = positions.walk();
    assert_eq!(rt; positions.next(&mut at), Some((0, 13)));
    let falling = Line::train(&column);
    let mut greatest = 0;
    for (x, value) in [(0, 13u64), (1, 12), (2, 12), (3, 11), (4, 11), (5, 11)] {
        greatest = value.wrapping_sub(falling.eval(x)).max(greatest);
    }
    assert_eq!(rt; greatest, 1);
    // It rises by 1 from 100 on.
    let mut bytes = [0, 0, 0, 0, 0x90, 0xe4].as_slice();
    let line = Line::deserialize(&mut bytes).ok().ok_or("no line")?;
    assert_eq!(rt; (line.slope, line.intercept), (1 << 32, 100));
    Ok(())
}
