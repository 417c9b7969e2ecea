//! Scripts: segments with what was recorded, required columns, an order and questions.
ghost use Rattle.std.specs.Prelude.{◌≡◌, ◌==◌, ◌<◌, ℕ, List, [], ◌∷◌, length, position, IfOk, IfSome};
ghost use Rattle.std.specs.List.{slice_split};
ghost use Rattle.col_program.specs.Script.{script_of};
ghost use Rattle.col_script.specs.Scripts.{IsScriptOf, pieces_left};

use crate::draft::Draft;
use crate::segment::Segment;
use col_lines::RowOrder;
use col_questions::Question;
use col_types::ColumnType;
use json::Scratch;
use std::alloc::{AllocError, Global};

/// What a script asks for.
#[derive(Drop)]
pub struct Script {
    pub segments: Vec<Segment>,
    pub required: Vec<(String, ColumnType)>,
    /// None is a stack.
    pub order: Option<RowOrder>,
    pub questions: Vec<Question>,
}

/// The script that the bytes spell, none of a bad one.
pub fn parse_script(alloc: Global, bytes: &[u8]) -> Result<Option<Script>, AllocError>
    ensures { IfOk result (IsScriptOf (script_of bytes.now)) }
{
    let mut draft = Draft::new(alloc);
    let mut scratch = Scratch::new(alloc);
    let mut rest = Some(bytes);
    'lines: while let Some(left) = rest {
        let (piece, after) = split_line(left);
        rest = after;
        if !draft.take_piece(alloc, &mut scratch, piece)? {
            return Ok(None);
        }
    }
    let script = draft.finish()?;
    Ok(Some(script))
}

/// The bytes before the first line feed, and those behind it if there is one.
pub fn split_line(bytes: &[u8]) -> (&[u8], Option<&[u8]>)
    ensures pieces { slice_split (λ b. b == 10) bytes.now ≡ result.0.now ∷ pieces_left result.1 }
    ensures shorter { IfSome result.1 (λ rest. length rest.now < length bytes.now) }
{
    match find_line_feed(bytes) {
        Some(end) => (&bytes[..end], Some(&bytes[end + 1..])),
        None => (bytes, None),
    }
}

fn find_line_feed(bytes: &[u8]) -> Option<usize>
    ensures { result ≡ position (λ b. b == 10) bytes.now }
{
    bytes.iter().position(|byte| *byte == b'\n')
}
