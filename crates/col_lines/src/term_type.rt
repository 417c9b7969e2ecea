//! The types of which the values are terms.
ghost use Rattle.std.specs.Prelude.{◌≡◌, true, false, MatchOption};
ghost use Rattle.col_model.specs.ColumnType.{has_terms};
ghost use Rattle.col_types.specs.Kinds.{kind_of};
ghost use Rattle.col_lines.specs.Lines.{terms_type};

use col_types::ColumnType;

/// The types of which the values are terms.
#[derive(Clone, Copy, Debug)]
pub enum TermType {
    Bytes,
    Str,
}

impl TermType {
    /// The type of the column.
    pub fn column_type(self) -> ColumnType
        ensures { kind_of result ≡ terms_type self }
    {
        match self {
            TermType::Bytes => ColumnType::Bytes,
            TermType::Str => ColumnType::Str,
        }
    }
}

/// The type, where its values are terms.
pub fn as_terms(column_type: ColumnType) -> Option<TermType>
    ensures { MatchOption result (has_terms (kind_of column_type) ≡ false)
        (λ t. (has_terms (kind_of column_type) ≡ true) × (terms_type t ≡ kind_of column_type)) }
{
    match column_type {
        ColumnType::Bytes => Some(TermType::Bytes),
        ColumnType::Str => Some(TermType::Str),
        ColumnType::I64
        | ColumnType::U64
        | ColumnType::Bool
        | ColumnType::IpAddr
        | ColumnType::DateTime => None,
    }
}
