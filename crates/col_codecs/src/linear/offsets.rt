//! Offsets of a list from one line, in place of its values.
ghost use Rattle.col_model.specs.Codecs.{offset_from};
ghost use Rattle.col_codecs.specs.LinearParams.{params_seen};

use crate::linear_params::LinearParams;
use crate::turning::Turn;

// Offsets are packed in place of values.
impl Turn for LinearParams {
    ghost turned = { λ l. offset_from (params_seen l) };

    ghost Takes = { λ _ _. Unit {0} };

    fn turn(&self, start: u32, vals: &mut [u64]) {
        let line = self.line;
        for at in 0..vals.len() {
            vals[at] = vals[at].wrapping_sub(line.eval(start + at as u32));
        }
    }
}
