//! Laws about files that are merged in brackets, facets of stacks and sorted merges, each the
//! contract of a call that does nothing.
ghost use Rattle.col_laws.specs.FacetLaws.{FacetsOfStacksAreSummed};
ghost use Rattle.col_laws.specs.FileLaws.{
  FilesMergeInAnyBracketing,
  FilesOfRunsAreMade,
  FilesOfRunsMergeToOne,
  MergedFilesAreWhole,
  MergingAtOnceIsEnough,
};
ghost use Rattle.col_laws.specs.ScriptFiles.{
  ScriptsStackFiles,
  SegmentsAreMade,
  SegmentsMergeToOne,
};
ghost use Rattle.col_laws.specs.SortLaws.{
  SortedMergesAreInOrder,
  SortedOrdersNameEachRow,
  TiesStandAsTheyWere,
};
ghost use Rattle.col_laws.specs.StackLaws.{NeighboursWithoutTheColumnAreOne};

// ---- Consecutive runs of a writer's documents, written as files and merged in any bracketing.

/// The file that is made in the end stands for the table of writing all documents at once.
pub fn files_of_runs_merge_to_one()
    ensures { FilesOfRunsMergeToOne }
{}

/// Where writing at once refuses nothing, no run and no merge on the way does.
pub fn files_of_runs_are_made()
    ensures { FilesOfRunsAreMade }
{}

// ---- Any files, merged in any bracketing.

/// The file that is made in the end stands for the table of merging all files at once.
pub fn files_merge_in_any_bracketing()
    ensures { FilesMergeInAnyBracketing }
{}

/// Where merging at once refuses nothing, no merge on the way does.
pub fn merging_at_once_is_enough()
    ensures { MergingAtOnceIsEnough }
{}

/// Where neighbours of a stack lack a column, one file of as many rows in their place gives the
/// same column.
pub fn neighbours_without_the_column_are_one()
    ensures { NeighboursWithoutTheColumnAreOne }
{}

/// A merge that isn't refused, in any order, has merged files of which each stands for a table.
pub fn merged_files_are_whole()
    ensures { MergedFilesAreWhole }
{}

// ---- Segments and inputs of scripts.

/// The file that is made in the end, of segments that are runs of the documents of one, stands for
/// the table of that one.
pub fn segments_merge_to_one()
    ensures { SegmentsMergeToOne }
{}

/// Where one segment has a table, no run of its documents and no merge on the way is refused.
pub fn segments_are_made()
    ensures { SegmentsAreMade }
{}

/// A script without required columns and an order merges the inputs and its segments' files.
pub fn scripts_stack_files()
    ensures { ScriptsStackFiles }
{}

// ---- Facets of stacks.

/// The facets of each column of a stack, also of one with required columns, are the sums of those
/// of the tables' columns.
pub fn facets_of_stacks_are_summed()
    ensures { FacetsOfStacksAreSummed }
{}

// ---- Sorted merges.

/// The order of a sorted merge names each row of the segments just once.
pub fn sorted_orders_name_each_row()
    ensures { SortedOrdersNameEachRow }
{}

/// Rows with equal keys stand by segment, then row, in a reversed order too.
pub fn ties_stand_as_they_were()
    ensures { TiesStandAsTheyWere }
{}

/// In the table of a sorted merge keys never fall, or never rise where the order is reversed.
pub fn sorted_merges_are_in_order()
    ensures { SortedMergesAreInOrder }
{}
