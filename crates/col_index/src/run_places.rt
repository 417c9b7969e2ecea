//! Runs of rows, and places among them.
ghost use Rattle.std.specs.Prelude.{◌≡◌, ◌<◌, ◌≤◌, ◌+◌, ◌-◌, ◌^◌, ◌&&◌, nat_le, nat_lt};
ghost use Rattle.col_common.specs.Reading.{only_if};

use col_common::RowId;

/// A run: its first row, how many rows it has, and how many stand before it.
#[derive(Clone, Copy)]
pub(crate) struct Run {
    pub start: RowId,
    pub len: u32,
    pub before: u32,
}

/// A run and the rows behind it up to the next one: the last is so far behind the first.
#[derive(Clone, Copy)]
pub(crate) struct RunPlace {
    pub run: Run,
    pub span: u32,
}

impl Run {
    ghost use Rattle.col_index.specs.RunPlaces.{HasRank};

    /// The rank of a row of the run or behind it, where the run has it.
    #[inline(always)]
    pub fn rank_if_exists(self, row_id: RowId) -> Option<RowId>
        requires start { self.start ≤ row_id }
        requires fits { self.before + self.len < 2 ^ 32 }
        ensures { result ≡ only_if (nat_lt (row_id - self.start) self.len)
            (self.before + (row_id - self.start)) }
    {
        let inside = row_id - self.start;
        if inside < self.len {
            Some(self.before + inside)
        } else {
            None
        }
    }

    /// Whether a row is one of the run.
    #[inline(always)]
    pub fn has_row(self, row_id: RowId) -> bool
        requires { self.start + self.len ≤ 2 ^ 32 }
        ensures { result ≡ (nat_le self.start row_id && nat_lt row_id (self.start + self.len)) }
    {
        row_id.wrapping_sub(self.start) < self.len
    }

    /// Whether the run has the row with a rank.
    #[inline(always)]
    pub fn has_rank(self, rank: RowId) -> bool
        requires { self.before + self.len < 2 ^ 32 }
        ensures { result ≡ (nat_le self.before rank && nat_lt rank (self.before + self.len)) }
    {
        rank.wrapping_sub(self.before) < self.len
    }

    /// The row with a rank.
    #[inline(always)]
    pub fn row_with(self, rank: RowId) -> RowId
        requires reach { self.start + self.len < 2 ^ 32 }
        requires rank { HasRank self rank }
        ensures { result ≡ self.start + (rank - self.before) }
    {
        self.start + (rank - self.before)
    }
}

impl RunPlace {
    /// Whether a row is one of the place.
    #[inline(always)]
    pub fn is_near(&self, row_id: RowId) -> bool
        requires { self.now.run.start + self.now.span < 2 ^ 32 }
        ensures { result ≡ (nat_le self.now.run.start row_id
            && nat_le row_id (self.now.run.start + self.now.span)) }
    {
        row_id.wrapping_sub(self.run.start) <= self.span
    }
}
