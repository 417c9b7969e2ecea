//! The categories of column types.
ghost use Rattle.std.specs.Prelude.{◌≡◌};
ghost use Rattle.col_model.specs.Category.{category_of};
ghost use Rattle.col_keys.specs.Categories.{category_seen};
ghost use Rattle.col_types.specs.Kinds.{kind_of};

use col_types::ColumnType;

/// The category of a column type: the numerical types are one, and each other type is one by
/// itself.
#[derive(Clone, Copy, Debug, PartialEq, Eq, PartialOrd, Ord, Hash)]
pub enum ColumnTypeCategory {
    Numerical,
    Bytes,
    Str,
    Bool,
    IpAddr,
    DateTime,
}

impl From<ColumnType> for ColumnTypeCategory {
    ghost from_gives = { λ column_type category.
        category_seen category ≡ category_of (kind_of column_type) };

    fn from(column_type: ColumnType) -> ColumnTypeCategory {
        match column_type {
            ColumnType::I64 | ColumnType::U64 => ColumnTypeCategory::Numerical,
            ColumnType::Bytes => ColumnTypeCategory::Bytes,
            ColumnType::Str => ColumnTypeCategory::Str,
            ColumnType::Bool => ColumnTypeCategory::Bool,
            ColumnType::IpAddr => ColumnTypeCategory::IpAddr,
            ColumnType::DateTime => ColumnTypeCategory::DateTime,
        }
    }
}
