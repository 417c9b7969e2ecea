//! Scripts of a set: what is to be done with it, in order.
ghost use Rattle.std.specs.Prelude.{IfOk};
ghost use Rattle.col_set_script.specs.SetScripts.{set_script_of};
ghost use Rattle.col_set_script.specs.Steps.{AreStepsOf};

use crate::draft::Draft;
use crate::step::Step;
use col_script::split_line;
use json::Scratch;
use std::alloc::{AllocError, Global};

/// The steps that the bytes spell, none of a bad script.
pub fn parse_set_script(alloc: Global, bytes: &[u8]) -> Result<Option<Vec<Step>>, AllocError>
    ensures { IfOk result (AreStepsOf (set_script_of bytes.now)) }
{
    let mut draft = Draft::new(alloc);
    let mut scratch = Scratch::new(alloc);
    let mut rest = Some(bytes);
    'lines: while let Some(left) = rest {
        let (piece, after) = split_line(left);
        rest = after;
        if !draft.take_piece(alloc, &mut scratch, piece)? {
            return Ok(None);
        }
    }
    let steps = draft.finish()?;
    Ok(Some(steps))
}
