//! Laws of queries, each the contract of a call that does nothing.
ghost use Rattle.col_query.specs.Laws.{NotOfAnd, AndInAnyOrder};

/// What isn't of each of some queries isn't of some of them.
pub fn not_of_and_is_or_of_nots()
    ensures { NotOfAnd }
{}

/// The order of the members doesn't matter.
pub fn and_takes_any_order()
    ensures { AndInAnyOrder }
{}
