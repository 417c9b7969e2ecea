//! The files of a script's segments.
ghost use Rattle.std.specs.Prelude.{◌≡◌, map, List};
ghost use Rattle.std.specs.List.{AllZip};
ghost use Rattle.col_model.specs.File.{StandsFor};
ghost use Rattle.col_program.specs.Outcome.{segment_table};
ghost use Rattle.col_model.specs.Refusal.{each_ok};
ghost use Rattle.col_program.specs.Script as model;
ghost use Rattle.col_script.specs.Segments.{filled, segment_of};
ghost use Rattle.col_outcome.specs.Making.{Makes};

use bytes::Bytes;
use col_common::ColumnarError;
use col_script::Segment;
use std::alloc::Global;

/// The files of segments, in order, or the first refusal.
pub fn segment_files(alloc: Global, segments: &[Segment]) -> Result<Vec<Bytes>, ColumnarError>
    ensures { (ss : List model.Segment) → map filled ss ≡ map segment_of segments.now →
        Makes (λ tables files. AllZip StandsFor tables files.items) result
        (each_ok segment_table ss) }
{
    let mut files = Vec::new(alloc);
    for place in 0..segments.len() {
        let file = segment_file(alloc, &segments[place])?;
        files.push(file)?;
    }
    Ok(files)
}

// The file of a segment, or its first refusal.
fn segment_file(alloc: Global, segment: &Segment) -> Result<Bytes, ColumnarError>
    ensures { (s : model.Segment) → filled s ≡ segment_of segment.now →
        Makes StandsFor result (segment_table s) }
{
    let bytes = segment.file_bytes(alloc)?;
    let file = Bytes::from_vec(bytes)?;
    Ok(file)
}
