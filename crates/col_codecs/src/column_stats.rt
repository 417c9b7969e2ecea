//! What is said of a column's values before them.
ghost use Rattle.std.specs.Prelude.{◌≡◌, ◌≤◌, ◌<◌, ◌+◌, ◌-◌, ◌*◌, ◌++◌, ℕ, List, length, option_map, Some, IfOk};
ghost use Rattle.col_common.specs.Decoding.{TakesFront};
ghost use Rattle.col_common.specs.Reading.{only_if};
ghost use Rattle.col_common.specs.Serializing.{Serializes};
ghost use Rattle.col_common.specs.VInt.{vint_bytes};
ghost use Rattle.col_model.specs.Stats.{stats_at, stats_bytes, steps_of, same_stats, are_possible};
ghost use Rattle.col_codecs.specs.ColumnStats.{stats_seen, IsPossible};

use col_common::{ColumnarError, InvalidData, RowId, Sink, VInt, read_vint};

/// The bounds and the count of values, and the greatest common divisor of their differences from
/// the least.
#[derive(Clone, Copy, Debug, PartialEq, Eq)]
pub struct ColumnStats {
    pub gcd: u64,
    pub min_value: u64,
    pub max_value: u64,
    pub num_rows: RowId,
}

impl ColumnStats {
    /// How far the greatest value lies above the least.
    pub fn amplitude(&self) -> u64
        requires { self.now.min_value ≤ self.now.max_value }
        ensures { result ≡ self.now.max_value - self.now.min_value }
    {
        self.max_value - self.min_value
    }

    /// How many divisors the greatest value lies above the least.
    pub fn steps(&self) -> u64
        requires ordered { self.now.min_value ≤ self.now.max_value }
        requires positive { 0 < self.now.gcd }
        ensures { result ≡ steps_of (stats_seen self.now) }
    {
        self.amplitude() / self.gcd
    }

    /// Adds the least value, the divisor, the steps and the count.
    pub fn serialize<K: Sink>(&self, sink: &mut K) -> Result<(), ColumnarError>
        requires { IsPossible (stats_seen self.now) }
        ensures ok { Serializes (K.seen sink.old) (K.seen sink.new)
            result (stats_bytes (stats_seen self.now)) }
        // What was added reads back, whatever follows.
        ensures again { (rest : List ℕ) →
            stats_at (stats_bytes (stats_seen self.now) ++ rest)
            ≡ Some (stats_seen self.now, rest) }
    {
        let ColumnStats {
            gcd,
            min_value,
            max_value,
            num_rows,
        } = *self;
        let steps = (max_value - min_value) / gcd;
        serialize_two(min_value, gcd, sink)?;
        serialize_two(steps, u64::from(num_rows), sink)
    }

    /// Takes the statistics at the front.
    pub fn deserialize(data: &mut &[u8]) -> Result<ColumnStats, InvalidData>
        ensures taken { TakesFront (λ s. stats_seen s) result
            (stats_at «data».old.now) «data».old.now «data».new.now }
        ensures possible { IfOk result (λ s. IsPossible (stats_seen s)) }
    {
        match ColumnStats::read(data) {
            Some((stats, rest)) => {
                *data = rest;
                Ok(stats)
            }
            None => Err(InvalidData),
        }
    }

    /// How many bytes `serialize` adds.
    pub fn num_bytes(&self) -> u64
        requires ordered { self.now.min_value ≤ self.now.max_value }
        requires positive { 0 < self.now.gcd }
        ensures { result ≡ length (stats_bytes (stats_seen self.now)) }
    {
        VInt(self.min_value).num_bytes()
            + VInt(self.gcd).num_bytes()
            + VInt(self.steps()).num_bytes()
            + VInt(u64::from(self.num_rows)).num_bytes()
    }

    // The statistics at the front, and the bytes behind them.
    #[tactic(auto, unfolding(col_model::specs::Stats::stats_at))]
    fn read(bytes: &[u8]) -> Option<(ColumnStats, &[u8])>
        ensures { option_map (λ r. (stats_seen r.0, r.1.now)) result ≡ stats_at bytes.now }
    {
        let (min_value, bytes) = read_vint(bytes)?;
        let (gcd, bytes) = read_vint(bytes)?;
        let (steps, bytes) = read_vint(bytes)?;
        let (count, bytes) = read_vint(bytes)?;
        let stats = ColumnStats::possible(min_value, gcd, steps, count)?;
        Some((stats, bytes))
    }

    // The statistics with these parts, where they may be those of a list.
    fn possible(min_value: u64, gcd: u64, steps: u64, count: u64) -> Option<ColumnStats>
        ensures { option_map (λ s. stats_seen s) result ≡
            only_if (are_possible min_value gcd steps count) (record {
              least = min_value;
              greatest = min_value + gcd * steps;
              divisor = gcd;
              count = count;
            }) }
    {
        let num_rows = u32::try_from(count).ok()?;
        let max_value = min_value.checked_add(gcd.checked_mul(steps)?)?;
        if gcd == 0 || (steps == 0 && gcd != 1) {
            return None;
        }
        if num_rows == 0 && (min_value != 0 || steps != 0) {
            return None;
        }
        Some(ColumnStats {
            gcd,
            min_value,
            max_value,
            num_rows,
        })
    }

    /// Whether all parts are equal.
    pub fn is_same(&self, other: &ColumnStats) -> bool
        ensures { result ≡ same_stats (stats_seen self.now) (stats_seen other.now) }
    {
        self.min_value == other.min_value
            && self.max_value == other.max_value
            && self.gcd == other.gcd
            && self.num_rows == other.num_rows
    }
}

/// Adds two numbers.
pub fn serialize_two<K: Sink>(first: u64, second: u64, sink: &mut K) -> Result<(), ColumnarError>
    ensures { Serializes (K.seen sink.old) (K.seen sink.new)
        result (vint_bytes first ++ vint_bytes second) }
{
    VInt(first).serialize(sink)?;
    VInt(second).serialize(sink)
}
