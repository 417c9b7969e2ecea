//! The laws of joined columns, each the contract of a call that does nothing.
ghost use Rattle.col_merge_column.specs.Slots.{PickedContentIsJoined};
ghost use Rattle.col_merge_column.specs.TextSlots.{MergedContentIsJoined};

/// Where the columns that are merged are those that the parts keep, their column is the joined one.
pub fn picked_content_is_joined<T>()
    ensures { PickedContentIsJoined T }
{}

/// The same of columns of terms.
pub fn merged_content_is_joined()
    ensures { MergedContentIsJoined }
{}
