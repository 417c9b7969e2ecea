//! Reads what is on the source: a script, or CSV.
ghost use Rattle.std.specs.Prelude.{◌≡◌, length, nat_lt};
ghost use Rattle.col_program.specs.Outcome.{max_script_length};
ghost use Rattle.col_tool.specs.Texts.{ReadsText};

use crate::refusal::Refusal;
use col_common::{Source, read_to_limit};
use std::alloc::Global;

// The greatest length of a script, or of CSV, in bytes.
const MAX_SCRIPT_LEN: usize = 16_777_216;

// Reads the source to its end, where that isn't too far.
pub(crate) fn text_on<S: Source>(alloc: Global, source: &mut S) -> Result<Vec<u8>, Refusal>
    ensures { ReadsText (S.left source.old) (S.left source.new)
        (S.faults source.old) (S.faults source.new) result }
{
    let text = read_to_limit(alloc, source, MAX_SCRIPT_LEN)?;
    if is_too_long(&text) {
        return Err(Refusal::LongScript);
    }
    Ok(text)
}

// Whether a text has more bytes than a script may have.
fn is_too_long(text: &[u8]) -> bool
    ensures { result ≡ nat_lt max_script_length (length text.now) }
{
    text.len() > MAX_SCRIPT_LEN
}
