//! Lines through positions, in whole numbers.
ghost use Rattle.std.specs.Prelude.{◌≡◌, ◌<◌, ◌≤◌, ◌+◌, ◌%◌, ◌^◌, ◌++◌, ℕ, List, length, option_map, fold, min, Some};
ghost use Rattle.std.specs.List.{enumerate_from};
ghost use Rattle.col_common.specs.Decoding.{TakesFront};
ghost use Rattle.col_common.specs.Serializing.{Serializes};
ghost use Rattle.col_common.specs.VInt.{vint_bytes};
ghost use Rattle.col_model.specs.Line.{line, line_at};
ghost use Rattle.col_model.specs.Training.{trained_slope, rise, fall, trained_line, line_of};
ghost use Rattle.col_codecs.specs.Line.{line_seen, raised, distance, distances};
ghost use Rattle.col_codecs.specs.Turning.{by_position};

use crate::column_stats::serialize_two;
use crate::positions::Positions;
use col_common::{ColumnarError, InvalidData, Iterable, Sink, VInt, read_vint};
use col_values::ColumnValues;

// How far below the first value the mark lies that heights are measured from.
const MARK_BELOW_FIRST: u64 = u32::MAX as u64;

// The greatest rise that is taken for a rise; one past it is a fall.
const MAX_RISE: u64 = 1 << 63;

// Where a list rises or falls by so much, its line is flat.
const STEEP: u64 = 1 << 31;

/// A line: its value at a position is the intercept plus the upper 32 bits of position times slope.
#[derive(Clone, Copy, Debug, Default)]
pub struct Line {
    pub slope: u64,
    pub intercept: u64,
}

impl Line {
    /// The line's value at a position, modulo 2^64.
    #[inline(always)]
    pub fn eval(&self, x: u32) -> u64
        ensures { result ≡ line self.now.slope self.now.intercept x }
    {
        let rise = (u64::from(x).wrapping_mul(self.slope) >> 32) as u32;
        self.intercept
            .wrapping_add(i64::from(rise.cast_signed()).cast_unsigned())
    }

    /// The same line, so much higher, modulo 2^64.
    pub fn raised_by(&self, rise: u64) -> Line
        ensures slope { result.slope ≡ self.now.slope }
        ensures intercept { result.intercept ≡ (self.now.intercept + rise) % 2 ^ 64 }
    {
        Line {
            slope: self.slope,
            intercept: self.intercept.wrapping_add(rise),
        }
    }

    /// Adds the line's values from a position on to offsets, modulo 2^64.
    pub fn add_to(&self, start: u32, offsets: &mut [u64])
        requires { start + length offsets.old ≤ 2 ^ 32 }
        ensures { offsets.new ≡ by_position (raised self.now.slope self.now.intercept)
            start offsets.old }
    {
        let line = *self;
        for at in 0..offsets.len() {
            offsets[at] = line.eval(start + at as u32).wrapping_add(offsets[at]);
        }
    }

    /// The line that is trained on a list's first and last value, their number, and some of its
    /// values with their positions.
    pub fn train_from<I: Iterable<(u32, u64)>>(
        first_val: u64,
        last_val: u64,
        num_vals: u32,
        items: &I,
    ) -> Line
        requires count { 1 ≤ num_vals }
        requires items { 0 < length (I.items items.now) }
        ensures { line_seen result
            ≡ trained_line first_val last_val num_vals (I.items items.now) }
    {
        if num_vals == 1 {
            return Line::default();
        }
        let slope = slope_between(first_val, last_val, num_vals - 1);
        let mark = first_val.wrapping_sub(MARK_BELOW_FIRST);
        let mut least = u64::MAX;
        let mut at = items.walk();
        while let Some((pos, val)) = items.next(&mut at) {
            least = least.min(height_above(slope, mark, pos, val));
        }
        Line {
            slope,
            intercept: mark.wrapping_add(least),
        }
    }

    /// The line that is trained on a list.
    pub fn train<V: ColumnValues<u64>>(ys: &V) -> Line
        requires { 0 < length (V.values ys.now) }
        ensures { line_seen result ≡ line_of (V.values ys.now) }
    {
        let num_vals = ys.num_vals();
        let first_val = ys.get_val(0);
        let last_val = ys.get_val(num_vals - 1);
        Line::train_from(first_val, last_val, num_vals, &Positions { values: ys })
    }

    /// The line that is trained on a block of values.
    pub fn train_block(ys: &[u64]) -> Line
        requires some { 0 < length ys.now }
        requires fits { length ys.now < 2 ^ 32 }
        ensures { line_seen result ≡ line_of ys.now }
    {
        let num_vals = ys.len() as u32;
        if num_vals == 1 {
            return Line::default();
        }
        let slope = slope_between(ys[0], ys[ys.len() - 1], num_vals - 1);
        let mark = ys[0].wrapping_sub(MARK_BELOW_FIRST);
        let least = least_above(slope, mark, ys);
        Line {
            slope,
            intercept: mark.wrapping_add(least),
        }
    }

    /// Adds slope and intercept.
    pub fn serialize<K: Sink>(&self, sink: &mut K) -> Result<(), ColumnarError>
        ensures ok { Serializes (K.seen sink.old) (K.seen sink.new) result
            (vint_bytes self.now.slope ++ vint_bytes self.now.intercept) }
        // What was added reads back, whatever follows.
        ensures again { (rest : List ℕ)
            → line_at (vint_bytes self.now.slope ++ vint_bytes self.now.intercept ++ rest)
            ≡ Some (line_seen self.now, rest) }
    {
        serialize_two(self.slope, self.intercept, sink)
    }

    /// Takes slope and intercept from the front.
    pub fn deserialize(data: &mut &[u8]) -> Result<Line, InvalidData>
        ensures { TakesFront line_seen result
            (line_at «data».old.now) «data».old.now «data».new.now }
    {
        match Line::read(data) {
            Some((line, rest)) => {
                *data = rest;
                Ok(line)
            }
            None => Err(InvalidData),
        }
    }

    /// The line at the front, and the bytes behind it.
    pub fn read(bytes: &[u8]) -> Option<(Line, &[u8])>
        ensures { option_map (λ r. (line_seen r.0, r.1.now)) result ≡ line_at bytes.now }
    {
        let (slope, bytes) = read_vint(bytes)?;
        let (intercept, bytes) = read_vint(bytes)?;
        Some((Line { slope, intercept }, bytes))
    }

    /// How many bytes `serialize` adds.
    pub fn num_bytes(&self) -> u64
        ensures { result
            ≡ length (vint_bytes self.now.slope) + length (vint_bytes self.now.intercept) }
    {
        VInt(self.slope).num_bytes() + VInt(self.intercept).num_bytes()
    }
}

// The slope from one value to another, so many steps behind it.
#[tactic(auto, unfolding(col_model::specs::Training::trained_slope))]
fn slope_between(first: u64, last: u64, steps: u32) -> u64
    requires { 0 < steps }
    ensures { result ≡ trained_slope first last steps }
{
    let up = last.wrapping_sub(first);
    if up <= MAX_RISE {
        slope_up(up, steps)
    } else {
        slope_down(u64::MAX - up + 1, steps)
    }
}

// The slope that rises by so much.
fn slope_up(amount: u64, steps: u32) -> u64
    requires { 0 < steps }
    ensures { result ≡ rise amount steps }
{
    if amount < STEEP {
        (amount << 32) / u64::from(steps)
    } else {
        0
    }
}

// The slope that falls by so much.
fn slope_down(amount: u64, steps: u32) -> u64
    requires { 0 < steps }
    ensures { result ≡ fall amount steps }
{
    if amount < STEEP {
        u64::MAX - (amount << 32) / u64::from(steps)
    } else {
        0
    }
}

// How far a value lies above the line from 0 on, and that above a mark.
#[inline(always)]
fn height_above(slope: u64, mark: u64, x: u32, y: u64) -> u64
    ensures { result ≡ distance slope mark (x, y) }
{
    let bare = Line {
        slope,
        intercept: 0,
    };
    y.wrapping_sub(bare.eval(x)).wrapping_sub(mark)
}

// The least height of a block's values above a mark.
fn least_above(slope: u64, mark: u64, ys: &[u64]) -> u64
    requires { length ys.now < 2 ^ 32 }
    ensures { result ≡ fold min u64.MAX (distances slope mark (enumerate_from 0 ys.now)) }
{
    let mut least = u64::MAX;
    let mut x = 0;
    for y in ys {
        least = least.min(height_above(slope, mark, x, *y));
        x += 1;
    }
    least
}
