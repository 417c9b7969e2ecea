//! Fields.
use col_questions::TypedValue;

/// A value under the path of its field.
#[derive(Debug, Drop)]
pub struct Field {
    pub path: String,
    pub value: TypedValue,
}
