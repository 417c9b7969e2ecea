//! Laws about written indexes, each the contract of a call that does nothing.
ghost use Rattle.col_indexer.specs.WritingLaws.{IndexesAreReadBack};

/// What is written of an index is read back.
pub fn indexes_are_read_back()
    ensures { IndexesAreReadBack }
{}
