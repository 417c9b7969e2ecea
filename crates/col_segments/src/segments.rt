//! Segments in memory, to which changes are made.
ghost use Rattle.std.specs.Prelude.{◌≡◌, ◌++◌, ◌∷◌, [], List, true, length, Ok, IfOk, IfErr};
ghost use Rattle.std.specs.List.{AllByRecursion};
ghost use Rattle.col_common.specs.Replacing.{Replaces};
ghost use Rattle.col_questions.specs.Steps.{end_of};
ghost use Rattle.col_segments.specs.Compaction.{CompactsOrConflicts, CompactsTo, RefusesRows};
ghost use Rattle.col_segments.specs.Files.{IsTableFile};
ghost use Rattle.col_segments.specs.Found.{places_between};
ghost use Rattle.col_segments.specs.Live.{live, merged_alive};
ghost use Rattle.col_segments.specs.RowIds.{row_ids};
ghost use Rattle.col_segments.specs.Segments.{HeldTable, alive_count, appended, are_places, changed, spelled_dropped, without};
ghost use Rattle.col_types.specs.Kinds.{kind_of};
ghost use Rattle.col_writer_columns.specs.Answers.{RecordsOrRefuses};

use crate::compacting::merge_alive;
use crate::finding::find_places;
use crate::held::{count_alive, drop_from, open_addable, pop_last, push_opened, rows_are_there};
use crate::kinds::{ADDED, DROPPED, REPLACED};
use crate::opening::{Reader, made_segment};
use crate::rows::read_ids;
use crate::{Segment, rows};
use bytes::Bytes;
use col_common::{ColumnarError, RowId};
use col_questions::QueryValue;
use col_types::ColumnType;
use std::alloc::Global;
use std::marker::Model;

/// Files in memory, and the rows of each that are alive. Contracts see the tables with these rows.
#[derive(Drop)]
pub struct Segments {
    alloc: Global,
    held: Vec<Segment>,
    // Those that have a row alive, open.
    readers: Vec<Reader>,
}

impl Model for Segments {
    ghost use Rattle.std.specs.Prelude.{List};
    ghost use Rattle.col_segments.specs.Segments.{HeldTable};
    ghost use Rattle.col_segments.specs.Files.{AreOpenBeside};

    ghost Value = { List HeldTable };

    ghost view = { λ s. s.held.items };

    ghost invariant = { λ s. AreOpenBeside s.held.items s.readers.items };
}

/// A file of rows that were alive, and the one segment that it makes.
#[derive(Drop)]
pub struct Compacted {
    pub file: Bytes,
    pub segments: Segments,
}

impl Segments {
    pub fn new(alloc: Global) -> Segments
        ensures { result ≡ [] }
    {
        Segments {
            alloc,
            held: Vec::new(alloc),
            readers: Vec::new(alloc),
        }
    }

    /// How many rows are alive.
    pub fn num_rows(&self) -> RowId
        ensures counted { result ≡ alive_count self.now }
        ensures live { result ≡ length (live self.now) }
    {
        count_alive(&self.held)
    }

    /// Whether ids are places of rows that are alive, strictly ascending.
    pub fn are_places(&self, ids: &[RowId]) -> bool
        ensures { result ≡ are_places 0 (alive_count self.now) ids.now }
    {
        rows::are_places(ids, count_alive(&self.held))
    }

    /// Puts the places of the rows that have a value from one end to the other under a name and the
    /// category of a type, counted among the rows alive, ascending; the list holds nothing else
    /// then. Ends of another kind than the type's values find none. Refuses for want of memory
    /// alone.
    pub fn find(
        &mut self,
        name: &str,
        column_type: ColumnType,
        lo: &QueryValue,
        hi: &QueryValue,
        places: &mut Vec<RowId>,
    ) -> Result<(), ColumnarError>
        ensures found { Replaces result places.new.items (places_between name.now
            (kind_of column_type) (end_of lo.now) (end_of hi.now) (live self.old)) }
        ensures same { self.new ≡ self.old }
    {
        let alloc = self.alloc;
        find_places(
            alloc,
            &self.held,
            &mut self.readers,
            name,
            column_type,
            lo,
            hi,
            places,
        )
    }

    /// That a compaction conflicts in its numbers, is too large, or is made.
    pub fn compacts_or_conflicts(&self)
        ensures { CompactsOrConflicts self.now }
    {
        rows_are_there(&self.held);
    }

    /// Adds a file with all its rows alive. It answers InvalidData exactly where the bytes stand
    /// for no table, then TooLarge exactly where 32 bits don't count the rows alive.
    pub fn append(&mut self, file: Bytes) -> Result<(), ColumnarError>
        ensures { RecordsOrRefuses self.old self.new result (appended file self.old) }
    {
        let opened = open_addable(self.alloc, &self.held, file)?;
        push_opened(&mut self.held, &mut self.readers, opened)?;
        Ok(())
    }

    /// Lets the last file go, if there is one.
    pub fn pop(&mut self)
        ensures last { (hs : List HeldTable) (h : HeldTable) → self.old ≡ hs ++ h ∷ []
            → self.new ≡ hs }
        ensures none { self.old ≡ [] → self.new ≡ [] }
    {
        pop_last(&mut self.held, &mut self.readers);
    }

    /// Drops the rows at places, which takes no memory.
    pub fn drop_rows(&mut self, ids: &[RowId])
        requires { are_places 0 (alive_count self.old) ids.now ≡ true }
        ensures { self.new ≡ without ids.now 0 self.old }
    {
        drop_from(&mut self.held, &mut self.readers, ids);
    }

    /// Makes a change that a journal had. What it refuses changes nothing.
    pub fn apply(&mut self, kind: u8, bytes: &Bytes) -> Result<(), ColumnarError>
        ensures { RecordsOrRefuses self.old self.new result (changed kind bytes.now self.old) }
    {
        if kind == ADDED {
            self.append(bytes.clone()?)
        } else if kind == DROPPED {
            self.drop_spelled(bytes)
        } else if kind == REPLACED {
            self.replace(bytes.clone()?)
        } else {
            Err(ColumnarError::InvalidData)
        }
    }

    // Drops the rows at the places that bytes spell.
    fn drop_spelled(&mut self, bytes: &[u8]) -> Result<(), ColumnarError>
        ensures { RecordsOrRefuses self.old self.new result (spelled_dropped bytes.now self.old) }
    {
        let ids = read_ids(self.alloc, bytes)?;
        if !self.are_places(&ids) {
            return Err(ColumnarError::BadOrder);
        }
        self.drop_rows(&ids);
        Ok(())
    }

    // Puts a file in place of all.
    fn replace(&mut self, file: Bytes) -> Result<(), ColumnarError>
        ensures { RecordsOrRefuses self.old self.new result (appended file []) }
    {
        let mut made = Segments::new(self.alloc);
        made.append(file)?;
        *self = made;
        Ok(())
    }

    /// The file of the rows alive, and the segment that it makes. A refusal is that of a merge of
    /// these rows, or want of memory.
    pub fn compacted(&mut self) -> Result<Compacted, ColumnarError>
        ensures ok { IfOk result (λ c. CompactsTo self.old c.segments c.file) }
        ensures again { IfOk result (λ c. appended c.file [] ≡ Ok c.segments) }
        ensures refused { IfErr result (RefusesRows (merged_alive self.old)) }
        ensures same { self.new ≡ self.old }
    {
        let alloc = self.alloc;
        let file = merge_alive(alloc, &self.held, &mut self.readers)?;
        let segments = one_segment(alloc, file.clone()?)?;
        Ok(Compacted { file, segments })
    }
}

// The segment of a file that was made of a table.
fn one_segment(alloc: Global, file: Bytes) -> Result<Segments, ColumnarError>
    requires { IsTableFile file }
    ensures ok { IfOk result (λ segments. appended file [] ≡ Ok segments) }
    ensures err { IfErr result (λ e. e ≡ ColumnarError.OutOfMemory) }
{
    let opened = made_segment(alloc, file)?;
    let mut held = Vec::new(alloc);
    let mut readers = Vec::new(alloc);
    push_opened(&mut held, &mut readers, opened)?;
    Ok(Segments {
        alloc,
        held,
        readers,
    })
}
