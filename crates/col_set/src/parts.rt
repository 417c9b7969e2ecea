//! Changes of the parts of a set: its tables in memory, and the journal on its disk.
ghost use Rattle.std.specs.Prelude.{◌≡◌, false, IfErr, IfOk};
ghost use Rattle.col_segments.specs.Compaction.{CompactsTo};
ghost use Rattle.col_segments.specs.Live.{compacted};
ghost use Rattle.col_segments.specs.Segments.{appended, dropped};
ghost use Rattle.col_set.specs.Sets.{done_of, ChangesParts, IsCompactAnswer, StandsUnlessFailed};

use crate::change::add_change;
use crate::staging::{stage_file, stage_ids};
use bytes::Bytes;
use col_common::{ColumnarError, RowId};
use col_disk::Disk;
use col_journal::Journal;
use col_segments::{ADDED, Compacted, DROPPED, REPLACED, Segments};
use std::alloc::Global;

// Adds a file with all its rows alive.
pub(crate) fn append_file<D: Disk + Drop>(
    journal: &mut Journal<D>,
    segments: &mut Segments,
    failed: &mut bool,
    file: Vec<u8>,
) -> Result<(), ColumnarError>
    requires works { failed.old ≡ false }
    requires stands { StandsUnlessFailed
        (D.seen journal.old.disk) journal.old.gate segments.old failed.old }
    ensures { ChangesParts D.seen journal.old.disk journal.new.disk journal.new.gate
        segments.old segments.new failed.new result (appended file.items segments.old) }
{
    let file = match stage_file(segments, file) {
        Ok(file) => file,
        Err(error) => return Err(error),
    };
    match add_change(journal, failed, ADDED, &file) {
        Ok(()) => Ok(()),
        Err(error) => {
            segments.pop();
            Err(error)
        }
    }
}

// Drops the rows at places.
pub(crate) fn drop_places<D: Disk + Drop>(
    alloc: Global,
    journal: &mut Journal<D>,
    segments: &mut Segments,
    failed: &mut bool,
    ids: &[RowId],
) -> Result<(), ColumnarError>
    requires works { failed.old ≡ false }
    requires stands { StandsUnlessFailed
        (D.seen journal.old.disk) journal.old.gate segments.old failed.old }
    ensures { ChangesParts D.seen journal.old.disk journal.new.disk journal.new.gate
        segments.old segments.new failed.new result (dropped ids.now segments.old) }
{
    let bytes = match stage_ids(alloc, segments, ids) {
        Ok(bytes) => bytes,
        Err(error) => return Err(error),
    };
    match add_change(journal, failed, DROPPED, &bytes) {
        Ok(()) => {
            segments.drop_rows(ids);
            Ok(())
        }
        Err(error) => Err(error),
    }
}

// Makes all one file of the rows alive, and gives it.
pub(crate) fn compact_all<D: Disk + Drop>(
    journal: &mut Journal<D>,
    segments: &mut Segments,
    failed: &mut bool,
) -> Result<Bytes, ColumnarError>
    requires works { failed.old ≡ false }
    requires stands { StandsUnlessFailed
        (D.seen journal.old.disk) journal.old.gate segments.old failed.old }
    ensures changes { ChangesParts D.seen journal.old.disk journal.new.disk journal.new.gate
        segments.old segments.new failed.new (done_of result) (compacted segments.old) }
    ensures file { IfOk result (CompactsTo segments.old segments.new) }
    ensures known { IfErr result IsCompactAnswer }
{
    let Compacted {
        file,
        segments: made,
    } = match segments.compacted() {
        Ok(compacted) => compacted,
        Err(error) => return Err(error),
    };
    match add_change(journal, failed, REPLACED, &file) {
        Ok(()) => {
            *segments = made;
            Ok(file)
        }
        Err(error) => {
            let_go(file, made);
            Err(error)
        }
    }
}

fn let_go(file: Bytes, segments: Segments) {
    drop(file);
    drop(segments);
}
