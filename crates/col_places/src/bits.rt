//! A bit for each row, in words.
ghost use Rattle.std.specs.Prelude.{◌≡◌, ◌≢◌, ◌≤◌, ◌<◌, ◌*◌, ◌/◌, ◌^◌, ℕ, true, length};
ghost use Rattle.col_common.specs.Flags.{flag_at};
ghost use Rattle.col_places.specs.Bits.{set_below};

use col_common::RowId;

/// The rows of a word.
pub(crate) const WORD_BITS: u32 = 64;

// Whether the bit of a row is set.
pub(crate) fn is_set(words: &[u64], row: RowId) -> bool
    requires { row < 64 * length words.now }
    ensures { result ≡ flag_at words.now row }
{
    (words[(row / WORD_BITS) as usize] >> (row % WORD_BITS)) & 1 == 1
}

// Sets the bit of a row.
pub(crate) fn set_bit(words: &mut [u64], row: RowId)
    requires { row < 64 * length words.old }
    ensures row { flag_at words.new row ≡ true }
    ensures others { (k : ℕ) → k ≢ row → k < 64 * length words.old
        → flag_at words.new k ≡ flag_at words.old k }
{
    words[(row / WORD_BITS) as usize] |= 1 << (row % WORD_BITS);
}

// How many bits are set before a word, where so many are before an earlier one.
pub(crate) fn count_to(words: &[u64], from: usize, to: usize, before: RowId) -> RowId
    requires order { from ≤ to }
    requires within { to ≤ length words.now }
    requires room { 64 * to < 2 ^ 32 }
    requires before { before ≡ set_below words.now (64 * from) }
    ensures { result ≡ set_below words.now (64 * to) }
{
    let mut count = before;
    for at in from..to {
        count += words[at].count_ones();
    }
    count
}

// How many bits are set before that of a row, where so many are before its word.
pub(crate) fn count_before(words: &[u64], row: RowId, before: RowId) -> RowId
    requires row { row < 64 * length words.now }
    requires before { before ≡ set_below words.now (64 * (row / 64)) }
    ensures { result ≡ set_below words.now row }
{
    let below = words[(row / WORD_BITS) as usize] & ((1 << (row % WORD_BITS)) - 1);
    before + below.count_ones()
}
