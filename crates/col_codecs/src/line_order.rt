//! Whether the values on a line rise, with no walk.
ghost use Rattle.std.specs.Prelude.{◌≡◌, ◌<◌, ◌≤◌, ◌+◌, ◌-◌, ◌*◌, ◌^◌, nat_le, map, IfSome};
ghost use Rattle.std.specs.List.{range_with_len};
ghost use Rattle.col_common.specs.Ascending.{is_rising, is_never_falling};
ghost use Rattle.col_model.specs.Line.{line};
ghost use Rattle.col_codecs.specs.OnLine.{shift_of};

use crate::on_line::{HALVES, PRODUCTS, shift_of};

// Slopes above this lower values by less than 1 at a position.
const FLAT_FALL: u64 = u64::MAX - (HALVES - 1);

/// Whether each of the first values on a line is below the next.
pub fn rises_on(slope: u64, intercept: u64, count: u32) -> bool
    ensures { result ≡ is_rising (map (line slope intercept) (range_with_len 0 count)) }
{
    if count <= 1 {
        return true;
    }
    slope >= HALVES && !turns_on(slope, intercept, count)
}

/// Whether none of the first values on a line is above the next, where it is known with no walk.
pub fn never_falls_on(slope: u64, intercept: u64, count: u32) -> Option<bool>
    ensures { IfSome result (λ answer. answer
        ≡ is_never_falling (map (line slope intercept) (range_with_len 0 count))) }
{
    if count <= 1 || !turns_on(slope, intercept, count) {
        return Some(true);
    }
    if slope > FLAT_FALL {
        return None;
    }
    Some(false)
}

// Whether one of the first moved products reaches 2 ^ 64: the value there isn't above the last.
fn turns_on(slope: u64, intercept: u64, count: u32) -> bool
    requires { 0 < count }
    ensures { result ≡ nat_le (2 ^ 64) (slope * (count - 1) + shift_of intercept * 2 ^ 32) }
{
    let moved = u128::from(shift_of(intercept)) << 32;
    u128::from(slope) * u128::from(count - 1) + moved >= PRODUCTS
}
