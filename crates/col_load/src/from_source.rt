//! Loads lines of documents into files.
ghost use Rattle.std.specs.Prelude.{map};
ghost use Rattle.col_documents.specs.Forms.{named_form};
ghost use Rattle.col_load.specs.Files.{LoadsSource};

use crate::line_counts::LineCounts;
use crate::load_error::LoadError;
use crate::loader::Loader;
use crate::reading::take_source;
use col_common::{Sink, Source};
use col_documents::Form;
use std::alloc::Global;

/// Writes a file of the documents of a source: an object in JSON on each line, but on those that
/// are blank, and a row for each document in order. `forms` says how fields are read by their
/// paths; where `skips` is true, bad lines are skipped, and counted. The source is read by blocks,
/// and no more of it is held than one, and the line that it breaks off.
///
/// # Errors
///
/// BadLine, with the first line that is no document; TooMany beyond 4,294,967,295 documents;
/// Columnar where the documents have no table, or a read or a write failed.
pub fn load<S: Source, K: Sink>(
    alloc: Global,
    forms: &[(String, Form)],
    skips: bool,
    source: &mut S,
    output: &mut K,
) -> Result<LineCounts, LoadError>
    ensures { LoadsSource (S.left source.old) (S.left source.new)
        (S.faults source.old) (S.faults source.new) (K.seen output.old) (K.seen output.new)
        (map named_form forms.now) skips result }
{
    let mut loader = Loader::new(alloc, forms, skips);
    take_source(alloc, &mut loader, source)?;
    loader.rows.write(output)?;
    Ok(loader.counts)
}
