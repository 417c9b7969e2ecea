//! A block's offsets from the line that is trained on it.
ghost use Rattle.std.specs.Prelude.{◌≡◌, ◌<◌, ◌≤◌, length};
ghost use Rattle.col_model.specs.Stats.{greatest_of};
ghost use Rattle.col_model.specs.Codecs.{offsets_from, block_line, block_size};
ghost use Rattle.col_codecs.specs.LinearParams.{bare_params, params_seen};

use crate::line::Line;
use crate::linear_params::LinearParams;
use col_bits::compute_num_bits;

// Turns values into their offsets from a line, and gives the greatest of these.
fn take_offsets(line: Line, vals: &mut [u64]) -> u64
    requires { length vals.old ≤ block_size }
    ensures offsets { vals.new ≡ offsets_from (bare_params line) vals.old }
    ensures greatest { result ≡ greatest_of vals.new }
{
    let mut greatest: u64 = 0;
    for at in 0..vals.len() {
        let offset = vals[at].wrapping_sub(line.eval(at as u32));
        vals[at] = offset;
        greatest = greatest.max(offset);
    }
    greatest
}

/// Trains a line on a block, and turns the values into their offsets from it.
pub fn train_offsets(vals: &mut [u64]) -> LinearParams
    requires some { 0 < length vals.old }
    requires small { length vals.old ≤ block_size }
    ensures params { params_seen result ≡ block_line vals.old }
    ensures offsets { vals.new ≡ offsets_from (block_line vals.old) vals.old }
{
    let line = Line::train_block(vals);
    let greatest = take_offsets(line, vals);
    LinearParams {
        line,
        offset_width: compute_num_bits(greatest),
    }
}
