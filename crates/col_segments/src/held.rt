//! Changes of segments, and of the open files beside them.
ghost use Rattle.std.specs.Prelude.{◌≡◌, ◌⊎◌, ◌<◌, ◌≤◌, ◌+◌, ◌^◌, ◌++◌, ◌∷◌, [], List, true, vec_len, IfOk, MatchResult, OnErr, OnOk};
ghost use Rattle.std.specs.List.{AllByRecursion, remove};
ghost use Rattle.col_model.specs.Sound.{IsSound};
ghost use Rattle.col_segments.specs.Compaction.{HasItsRows};
ghost use Rattle.col_segments.specs.Files.{AreOpenBeside, ReadsTable};
ghost use Rattle.col_segments.specs.Segments.{HeldTable, added_file, alive_count, are_places, without};
ghost use Rattle.col_writer_columns.specs.Answers.{Gives};

use crate::Segment;
use crate::opening::{Opened, Reader, open_segment};
use bytes::Bytes;
use col_common::{ColumnarError, RowId};
use std::alloc::{AllocError, Global};

/// How many rows are alive.
pub fn count_alive(held: &[Segment]) -> RowId
    requires { alive_count held.now < 2 ^ 32 }
    ensures { result ≡ alive_count held.now }
{
    let mut count = 0;
    for place in 0..held.len() {
        let segment = &held[place];
        count += segment.num_alive();
    }
    count
}

/// That the rows that are alive are rows of their tables.
pub fn rows_are_there(held: &[Segment])
    ensures { AllByRecursion HasItsRows held.now }
{
    for segment in held {
        segment.rows_are_there();
    }
}

/// That the tables are sound.
pub fn tables_are_sound(held: &[Segment])
    ensures { AllByRecursion (λ h. IsSound h.table) held.now }
{
    for segment in held {
        segment.table_is_sound();
    }
}

/// Opens a file that is to stand behind the segments. It answers InvalidData exactly where the
/// bytes stand for no table, then TooLarge exactly where 32 bits don't count the rows alive.
pub fn open_addable(alloc: Global, held: &[Segment], file: Bytes) -> Result<Opened, ColumnarError>
    requires { alive_count held.now < 2 ^ 32 }
    ensures segment { Gives (λ o. o.segment) result (added_file file held.now) }
    ensures reader { IfOk result (λ o. ReadsTable o.segment.table o.reader) }
{
    let opened = open_segment(alloc, file)?;
    if opened.segment.num_alive() > u32::MAX - count_alive(held) {
        return Err(ColumnarError::TooLarge);
    }
    Ok(opened)
}

/// Puts a file that was opened behind the segments. Where memory is wanting, all stays.
pub fn push_opened(
    held: &mut Vec<Segment>,
    readers: &mut Vec<Reader>,
    opened: Opened,
) -> Result<(), AllocError>
    requires reader { ReadsTable opened.segment.table opened.reader }
    requires open_ { AreOpenBeside held.old.items readers.old.items }
    requires few { alive_count (held.old.items ++ opened.segment ∷ []) < 2 ^ 32 }
    ensures held { MatchResult result
        (λ _. held.new.items ≡ held.old.items ++ opened.segment ∷ [])
        (λ _. held.new.items ≡ held.old.items) }
    ensures open_ { AreOpenBeside held.new.items readers.new.items }
{
    let Opened { segment, reader } = opened;
    held.reserve(1)?;
    push_alive(readers, reader, segment.num_alive())?;
    held.push_reserved(segment);
    Ok(())
}

// Keeps a file open that has a row alive.
fn push_alive(readers: &mut Vec<Reader>, reader: Reader, num_alive: RowId) -> Result<(), AllocError>
    ensures some { 0 < num_alive
        → OnOk result (readers.new.items ≡ readers.old.items ++ reader ∷ []) }
    ensures none { num_alive ≡ 0 → readers.new.items ≡ readers.old.items }
    ensures kept { OnErr result (readers.new.items ≡ readers.old.items) }
{
    if num_alive == 0 {
        return Ok(());
    }
    readers.push(reader)?;
    Ok(())
}

/// Lets the last segment go, if there is one.
pub fn pop_last(held: &mut Vec<Segment>, readers: &mut Vec<Reader>)
    requires { AreOpenBeside held.old.items readers.old.items }
    ensures last { (hs : List HeldTable) (h : HeldTable) → held.old.items ≡ hs ++ h ∷ []
        → held.new.items ≡ hs }
    ensures none { held.old.items ≡ [] → held.new.items ≡ [] }
    ensures open_ { AreOpenBeside held.new.items readers.new.items }
{
    let Some(segment) = held.pop() else {
        return;
    };
    if segment.num_alive() > 0 {
        let_go(readers.pop());
    }
}

fn let_go(reader: Option<Reader>) {
    drop(reader);
}

/// Drops rows, which takes no memory. A file of which no row stays alive is closed.
#[tactic(auto, using(crate::proofs::OpenLemmas::drops_open, crate::proofs::OpenLemmas::drops_end))]
pub fn drop_from(held: &mut Vec<Segment>, readers: &mut Vec<Reader>, ids: &[RowId])
    requires open_ { AreOpenBeside held.old.items readers.old.items }
    requires places { are_places 0 (alive_count held.old.items) ids.now ≡ true }
    ensures held { held.new.items ≡ without ids.now 0 held.old.items }
    ensures open_ { AreOpenBeside held.new.items readers.new.items }
{
    let mut first = 0;
    let mut next = 0;
    for place in 0..held.len() {
        let segment = &mut held[place];
        let count = segment.num_alive();
        segment.drop_places(ids, first);
        let left = segment.num_alive();
        next = keep_open(readers, next, count, left);
        first += count;
    }
}

// The place of the next open file, where the file at a place had so many rows alive, and has so
// many now. It is closed where it has none any more.
fn keep_open(readers: &mut Vec<Reader>, next: usize, before: RowId, after: RowId) -> usize
    requires { 0 < before → next < vec_len readers.old }
    ensures none { before ≡ 0 → (result ≡ next) × (readers.new.items ≡ readers.old.items) }
    ensures some { 0 < before → 0 < after
        → (result ≡ next + 1) × (readers.new.items ≡ readers.old.items) }
    ensures gone { 0 < before → after ≡ 0
        → (result ≡ next) × (readers.new.items ≡ remove readers.old.items next) }
{
    if before == 0 {
        return next;
    }
    if after == 0 {
        let_go(Some(readers.remove(next)));
        return next;
    }
    next + 1
}
