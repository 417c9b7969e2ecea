//! Lines that are taken one after another.
ghost use Rattle.std.specs.Prelude.{◌≡◌, [], map};
ghost use Rattle.col_documents.specs.Forms.{named_form};
ghost use Rattle.col_load.specs.Loading.{HasTaken, TakesLine, forms_of};
ghost use Rattle.col_load.specs.Loads as definitions;

use crate::line_counts::LineCounts;
use crate::load_error::LoadError;
use crate::rows::Rows;
use col_documents::{DocumentError, Form, read_document};
use json::Scratch;
use std::alloc::Global;

/// Takes lines of documents, one after another, and has their rows.
#[derive(Drop)]
pub struct Loader<'a> {
    pub forms: &'a [(String, Form)],
    /// Whether bad lines are skipped.
    pub skips: bool,
    pub counts: LineCounts,
    pub rows: Rows,
    scratch: Scratch,
}

impl<'a> Loader<'a> {
    /// Before any line. `forms` says how fields are read by their paths.
    pub fn new(alloc: Global, forms: &'a [(String, Form)], skips: bool) -> Loader<'a>
        ensures none { HasTaken [] result }
        ensures forms { forms_of result ≡ map named_form forms.now }
        ensures skips { result.skips ≡ skips }
    {
        Loader {
            forms,
            skips,
            counts: LineCounts::none(),
            rows: Rows::new(alloc),
            scratch: Scratch::new(alloc),
        }
    }

    /// Takes a line.
    ///
    /// # Errors
    ///
    /// BadLine, with the line's number, where it is no document and such lines aren't skipped;
    /// TooMany where 64 bits don't hold its number. Nothing may be taken behind an error.
    pub fn take_line(&mut self, alloc: Global, line: &[u8]) -> Result<(), LoadError>
        ensures { TakesLine line.now self.old self.new result }
    {
        if self.counts.lines() == u64::MAX {
            return Err(LoadError::TooMany);
        }
        if is_blank(line) {
            self.counts = self.counts.with_line();
            return Ok(());
        }
        match read_document(alloc, self.forms, &mut self.scratch, line) {
            Ok(fields) => {
                self.rows.push(&fields)?;
                self.counts = self.counts.with_line();
                Ok(())
            }
            Err(DocumentError::OutOfMemory) => Err(LoadError::OutOfMemory),
            Err(DocumentError::Refused(refusal)) => {
                if self.skips {
                    self.counts = self.counts.with_skipped();
                    return Ok(());
                }
                Err(LoadError::BadLine {
                    number: self.counts.lines() + 1,
                    refusal,
                })
            }
        }
    }
}

// Whether nothing but blanks stands in a line.
fn is_blank(line: &[u8]) -> bool
    ensures { result ≡ definitions.is_blank line.now }
{
    line.iter().all(|byte| matches!(byte, b'\t' | b'\r' | b' '))
}
