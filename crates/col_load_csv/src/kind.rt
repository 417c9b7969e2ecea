//! Kinds of columns.

/// What all fields of a column without a form are: numbers of i64, those of u64, numbers of which
/// some aren't whole, flags, or texts.
#[derive(Clone, Copy)]
pub(crate) enum Kind {
    Signed,
    Unsigned,
    Fractions,
    Flags,
    Texts,
}
