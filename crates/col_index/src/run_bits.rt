//! Bits of rows in runs.
ghost use Rattle.std.specs.Prelude.{◌≡◌, ◌≤◌, ◌<◌, ◌+◌, ◌*◌, length, replicate, slice_index, take, IfOk};
ghost use Rattle.col_common.specs.Ascending.{differences};
ghost use Rattle.col_model.specs.Index.{run_rows};
ghost use Rattle.col_index.specs.Ranks.{AreRanks, HasFlags};
ghost use Rattle.col_index.specs.Runs.{AreSummedRuns};

use crate::rank_words::{RankWords, WORD_BITS, count_before};
use crate::run_starts::RunStarts;
use crate::selected_runs::run_at;
use std::alloc::{AllocError, Global};

/// How many rows there are for each run where the rows still get bits.
const MAX_ROWS_A_RUN: u64 = 1024;

/// The bits of the rows of runs, none where there are many rows for each run.
pub(crate) fn bits_of_runs(
    alloc: Global,
    starts: &RunStarts,
    before: &[u32],
) -> Result<RankWords, AllocError>
    requires { AreSummedRuns starts.now before.now }
    ensures { IfOk result (λ bits. AreRanks
        (run_rows starts.now.rows (differences before.now)) bits.words.items bits.before.items) }
{
    let num_rows = starts.num_docs();
    if u64::from(num_rows) > MAX_ROWS_A_RUN * u64::from(starts.num_non_nulls()) {
        return Ok(RankWords::empty(alloc));
    }
    let mut words = vec![in alloc; 0; num_rows.div_ceil(WORD_BITS) as usize]?;
    set_runs(starts, before, &mut words);
    let before = count_before(alloc, &words)?;
    Ok(RankWords { words, before })
}

// Sets the bits of the rows of runs.
fn set_runs(starts: &RunStarts, before: &[u32], words: &mut [u64])
    requires summed { AreSummedRuns starts.now before.now }
    requires room { starts.now.num_rows ≤ 64 * length words.old }
    requires clear { words.old ≡ replicate (length words.old) 0 }
    ensures { HasFlags (run_rows starts.now.rows (differences before.now)) words.new }
{
    for number in 0..starts.num_non_nulls() {
        set_run(starts, before, number, words);
    }
}

// Sets the bits of the rows of the run with a number, word by word.
fn set_run(starts: &RunStarts, before: &[u32], number: u32, words: &mut [u64])
    requires summed { AreSummedRuns starts.now before.now }
    requires number { number < length starts.now.rows }
    requires room { starts.now.num_rows ≤ 64 * length words.old }
    requires flags { HasFlags
        (take (slice_index before.now number) (run_rows starts.now.rows (differences before.now)))
        words.old }
    ensures { HasFlags
        (take (slice_index before.now (number + 1))
        (run_rows starts.now.rows (differences before.now)))
        words.new }
{
    // That rows are below a count of 32 bits is known of the count.
    let _num_docs = starts.num_docs();
    let run = run_at(starts, before, number);
    let mut inside = 0;
    while inside < run.len {
        let row = run.start + inside;
        let lowest = row % WORD_BITS;
        let len = (WORD_BITS - lowest).min(run.len - inside);
        words[(row / WORD_BITS) as usize] |= (u64::MAX >> (WORD_BITS - len)) << lowest;
        inside += len;
    }
}
