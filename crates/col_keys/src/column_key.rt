//! The key of a column.
ghost use Rattle.std.specs.Prelude.{◌≡◌, true, string_bytes};
ghost use Rattle.col_model.specs.Keys.{is_name};

use col_types::ColumnType;

/// The name and the type of a column.
#[derive(Debug, Drop)]
pub struct ColumnKey {
    pub name: String,
    pub column_type: ColumnType,
    // The name has no zero byte.
    ghost named: { is_name (string_bytes name) ≡ true },
}

impl ColumnKey {
    ghost use Rattle.col_common.specs.Ascending.{is_before};
    ghost use Rattle.col_model.specs.Keys.{key_bytes};
    ghost use Rattle.col_keys.specs.KeyTables.{key_seen};

    /// Whether the key's bytes stand before the other's: by name, then by the type's code.
    pub fn is_before(&self, other: &ColumnKey) -> bool
        ensures { result
            ≡ is_before (key_bytes (key_seen self.now)) (key_bytes (key_seen other.now)) }
    {
        let by_name = self.name.as_str().cmp(other.name.as_str());
        let by_code = self.column_type.to_code().cmp(&other.column_type.to_code());
        by_name.then(by_code).is_lt()
    }
}
