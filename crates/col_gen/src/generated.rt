//! The script that a number makes.
ghost use Rattle.std.specs.Prelude.{◌≡◌, IfOk};
ghost use Rattle.col_program.specs.GenScript.{gen_script};
ghost use Rattle.col_gen.specs.Generated.{IsSized};

use crate::documents::push_segments;
use crate::draws::Draws;
use crate::lookups::push_lookups;
use std::alloc::{AllocError, Global};

const SEGMENTS: u32 = 8;

const DOCUMENTS: u32 = 500;

/// The script of a number: eight segments of 500 documents, and four lookups.
#[tactic(auto, using(crate::proofs::AddedLemmas::whole))]
pub fn generated_script(alloc: Global, number: u64) -> Result<Vec<u8>, AllocError>
    ensures { IfOk result (λ script. script.items ≡ gen_script number) }
{
    sized_script(alloc, SEGMENTS, DOCUMENTS, number)
}

// The same, of so many segments of so many documents.
#[tactic(auto, using(crate::proofs::AddedLemmas::sized))]
fn sized_script(
    alloc: Global,
    segments: u32,
    documents: u32,
    number: u64,
) -> Result<Vec<u8>, AllocError>
    ensures { IfOk result (λ script. IsSized segments documents number script.items) }
{
    let mut script = Vec::new(alloc);
    let mut draws = Draws::new(number);
    push_segments(alloc, &mut script, &mut draws, segments, documents)?;
    push_lookups(alloc, &mut script)?;
    Ok(script)
}
