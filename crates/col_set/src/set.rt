//! Sets of segments on disks.
ghost use Rattle.std.specs.Prelude.{◌≡◌, ℕ, false, length, List, IfErr, IfOk, IfSome, OnOk};
ghost use Rattle.col_common.specs.Replacing.{Replaces};
ghost use Rattle.col_questions.specs.Steps.{end_of};
ghost use Rattle.col_segments.specs.Compaction.{CompactsOrConflicts, CompactsTo};
ghost use Rattle.col_segments.specs.Found.{places_between};
ghost use Rattle.col_segments.specs.Live.{compacted, live};
ghost use Rattle.col_segments.specs.Segments.{alive_count, appended, dropped};
ghost use Rattle.col_set.specs.Sets.{done_of, ChangesSet, EachStands, IsCompactAnswer, OpensSet, WritesSet};
ghost use Rattle.col_types.specs.Kinds.{kind_of};

use crate::loading::load;
use crate::parts::{append_file, compact_all, drop_places};
use crate::writing::write_bytes;
use bytes::Bytes;
use col_common::{ColumnarError, RowId, Sink};
use col_disk::Disk;
use col_journal::Journal;
use col_questions::QueryValue;
use col_segments::Segments;
use col_types::ColumnType;
use std::alloc::Global;
use std::marker::Model;

/// Files with the rows that are alive in each, in memory and as a journal on a disk. Contracts see
/// the disk, the tables with their rows alive, and whether a fault of the disk has ended the
/// changes.
#[derive(Drop)]
pub struct SegmentSet<D: Disk + Drop> {
    alloc: Global,
    journal: Journal<D>,
    segments: Segments,
    failed: bool,
}

impl<D: Disk + Drop> Model for SegmentSet<D> {
    ghost use Rattle.col_set.specs.Sets.{SeenSet, StandsUnlessFailed};

    ghost Value = { SeenSet D };

    ghost view = { λ s. record {
      disk = s.journal.disk;
      held = s.segments;
      failed = s.failed;
    } };

    ghost invariant = { λ s.
        StandsUnlessFailed (D.seen s.journal.disk) s.journal.gate s.segments s.failed };
}

impl<D: Disk + Drop> SegmentSet<D> {
    /// Opens what a disk holds; a disk of at most one byte holds nothing yet. It answers
    /// InvalidData exactly where the disk's bytes stand for no tables. A refusal hands the disk
    /// back.
    pub fn open(alloc: Global, disk: D) -> Result<SegmentSet<D>, (D, ColumnarError)>
        ensures { OpensSet D.seen disk result }
    {
        let mut disk = disk;
        let mut segments = Segments::new(alloc);
        match load(&mut disk, alloc, &mut segments) {
            Ok(gate) => Ok(SegmentSet {
                alloc,
                journal: Journal::at(disk, gate),
                segments,
                failed: false,
            }),
            Err(error) => Err((disk, error)),
        }
    }

    /// The disk.
    pub fn into_disk(self) -> D
        ensures disk { result ≡ self.disk }
        ensures stands { self.failed ≡ false → IfSome (D.seen result).told
            (λ _. EachStands (D.seen result).images self.held) }
    {
        self.journal.disk
    }

    /// That each image that a crash may leave now stands for what is held, unless the disk has
    /// failed, and that no compaction refuses but for numbers in conflict and a column too large.
    pub fn tell(&self)
        ensures stands { self.now.failed ≡ false → IfSome (D.seen self.now.disk).told
            (λ _. EachStands (D.seen self.now.disk).images self.now.held) }
        ensures only_now { (c : List ℕ)
            → (D.seen self.now.disk).images.left_since (D.seen self.now.disk).images.clock c
            → (D.seen self.now.disk).images.may_leave c }
        ensures compacts { CompactsOrConflicts self.now.held }
    {
        self.segments.compacts_or_conflicts();
    }

    /// How many rows are alive.
    pub fn num_rows(&self) -> RowId
        ensures counted { result ≡ alive_count self.now.held }
        ensures live { result ≡ length (live self.now.held) }
    {
        self.segments.num_rows()
    }

    /// Whether the disk has failed in a change, which ends the changes.
    pub fn failed(&self) -> bool
        ensures { result ≡ self.now.failed }
    {
        self.failed
    }

    /// Puts the places of the rows that have a value from one end to the other under a name and the
    /// category of a type, counted among the rows alive, ascending; the list holds nothing else
    /// then. Ends of another kind than the type's values find none. Refuses for want of memory
    /// alone.
    pub fn find(
        &mut self,
        name: &str,
        column_type: ColumnType,
        lo: &QueryValue,
        hi: &QueryValue,
        places: &mut Vec<RowId>,
    ) -> Result<(), ColumnarError>
        ensures found { Replaces result places.new.items (places_between name.now
            (kind_of column_type) (end_of lo.now) (end_of hi.now) (live self.old.held)) }
        ensures same { self.new ≡ self.old }
    {
        self.segments.find(name, column_type, lo, hi, places)
    }

    /// Adds a file with all its rows alive. It answers InvalidData exactly where the bytes stand
    /// for no table, then TooLarge exactly where 32 bits don't count the rows alive.
    pub fn append(&mut self, file: Vec<u8>) -> Result<(), ColumnarError>
        requires { self.old.failed ≡ false }
        ensures { ChangesSet D.seen self.old self.new result
            (appended file.items self.old.held) }
    {
        append_file(
            &mut self.journal,
            &mut self.segments,
            &mut self.failed,
            file,
        )
    }

    /// Drops the rows at these places. It answers BadOrder exactly where they don't ascend
    /// strictly, or one isn't below the count of rows.
    pub fn drop_rows(&mut self, ids: &[RowId]) -> Result<(), ColumnarError>
        requires { self.old.failed ≡ false }
        ensures { ChangesSet D.seen self.old self.new result
            (dropped ids.now self.old.held) }
    {
        drop_places(
            self.alloc,
            &mut self.journal,
            &mut self.segments,
            &mut self.failed,
            ids,
        )
    }

    // Makes the set one file, and gives it.
    fn compact_file(&mut self) -> Result<Bytes, ColumnarError>
        requires { self.old.failed ≡ false }
        ensures changes { ChangesSet D.seen self.old self.new
            (done_of result) (compacted self.old.held) }
        ensures file { IfOk result (CompactsTo self.old.held self.new.held) }
        ensures known { IfErr result IsCompactAnswer }
    {
        compact_all(&mut self.journal, &mut self.segments, &mut self.failed)
    }

    /// Makes the set one file of the rows alive, in order, which stay. It answers
    /// NumericalConflict or TooLarge exactly where the merge of these rows does.
    pub fn compact(&mut self) -> Result<(), ColumnarError>
        requires { self.old.failed ≡ false }
        ensures changes { ChangesSet D.seen self.old self.new result
            (compacted self.old.held) }
        ensures live { OnOk result (live self.new.held ≡ live self.old.held) }
        ensures known { IfErr result IsCompactAnswer }
        // No other refusal is ever expected.
        ensures expected { CompactsOrConflicts self.old.held }
    {
        self.tell();
        match self.compact_file() {
            Ok(_) => Ok(()),
            Err(error) => Err(error),
        }
    }

    /// Compacts, and writes the file. Where the sink fails, the set is compacted.
    pub fn write<K: Sink>(&mut self, sink: &mut K) -> Result<(), ColumnarError>
        requires { self.old.failed ≡ false }
        ensures { WritesSet D.seen self.old self.new
            (K.seen sink.old) (K.seen sink.new) result }
    {
        let file = match self.compact_file() {
            Ok(file) => file,
            Err(error) => return Err(error),
        };
        write_bytes(sink, &file)
    }
}
