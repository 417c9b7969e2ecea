//! Appends documents, and segments of them.
ghost use Rattle.std.specs.Prelude.{OnOk};
ghost use Rattle.col_program.specs.GenScript.{delta_lines, doc_lines, docs_lines, segment_lines};
ghost use Rattle.col_gen.specs.Generated.{Adds};

use crate::draws::Draws;
use crate::lines::{push_addr, push_city, push_delta, push_on, push_segment_line, push_size};
use std::alloc::{AllocError, Global};

// Appends segments of so many documents each.
pub(crate) fn push_segments(
    alloc: Global,
    out: &mut Vec<u8>,
    draws: &mut Draws,
    segments: u32,
    documents: u32,
) -> Result<(), AllocError>
    ensures { OnOk result (Adds out.old.items out.new.items draws.new
        (segment_lines segments documents draws.old)) }
{
    for _segment in 0..segments {
        push_segment_line(alloc, out, documents)?;
        push_documents(alloc, out, draws, documents)?;
    }
    Ok(())
}

// Appends so many documents.
fn push_documents(
    alloc: Global,
    out: &mut Vec<u8>,
    draws: &mut Draws,
    documents: u32,
) -> Result<(), AllocError>
    ensures { OnOk result (Adds out.old.items out.new.items draws.new
        (docs_lines documents 0 draws.old)) }
{
    for document in 0..documents {
        push_document(alloc, out, draws, document)?;
    }
    Ok(())
}

// Appends the values of a document.
fn push_document(
    alloc: Global,
    out: &mut Vec<u8>,
    draws: &mut Draws,
    document: u32,
) -> Result<(), AllocError>
    ensures { OnOk result (Adds out.old.items out.new.items draws.new
        (doc_lines document draws.old)) }
{
    push_size(alloc, out, document, draws.draw())?;
    push_city(alloc, out, document, draws.draw())?;
    let deltas = draws.draw() % 3;
    push_deltas(alloc, out, draws, document, deltas)?;
    push_on(alloc, out, document, draws.draw())?;
    push_addr(alloc, out, document, draws.draw())
}

// Appends so many values of a document's delta.
fn push_deltas(
    alloc: Global,
    out: &mut Vec<u8>,
    draws: &mut Draws,
    document: u32,
    deltas: u64,
) -> Result<(), AllocError>
    ensures { OnOk result (Adds out.old.items out.new.items draws.new
        (delta_lines document deltas draws.old)) }
{
    for _delta in 0..deltas {
        push_delta(alloc, out, document, draws.draw())?;
    }
    Ok(())
}
