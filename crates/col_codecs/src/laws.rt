//! Laws of lines, each the contract of a call that does nothing.
ghost use Rattle.col_common.specs.Laws.{DefaultIs};

use crate::Line;

/// The default line is 0 at each position.
pub fn default_line_is_zero()
    ensures { DefaultIs (record { slope = 0; intercept = 0 }) ⟦<Line as Default>⟧.is_default }
{}
