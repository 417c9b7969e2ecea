//! The columns that a merged file has to have.
ghost use Rattle.std.specs.Prelude.{◌≡◌, None};
ghost use Rattle.col_model.specs.Written.{has_zero};
ghost use Rattle.col_types.specs.Kinds.{kind_of};
ghost use Rattle.col_merge_plan.specs.RequiredTypes.{known_type, Agrees, Requires, RequiresTypes};
ghost use Rattle.col_merge_plan.specs.Slots.{required_of};

use col_common::ColumnarError;
use col_keys::SlotKey;
use col_types::ColumnType;
use std::alloc::Global;
use std::collections::BTreeMap;

/// The type that is required of each slot. It answers BadName where a name has a zero byte, and
/// RequiredConflict where two items name one slot and two types; the first such item decides.
pub fn required_types(
    alloc: Global,
    required_columns: &[(String, ColumnType)],
) -> Result<BTreeMap<SlotKey, ColumnType>, ColumnarError>
    ensures { RequiresTypes result (required_of required_columns.now) }
{
    let mut types = BTreeMap::new(alloc);
    for (name, column_type) in required_columns {
        let name = name.as_str();
        if has_zero(name) {
            return Err(ColumnarError::BadName);
        }
        let slot = SlotKey::new(alloc, name, *column_type)?;
        require(&mut types, slot, *column_type)?;
    }
    Ok(types)
}

// Requires a type of a slot.
fn require(
    types: &mut BTreeMap<SlotKey, ColumnType>,
    slot: SlotKey,
    column_type: ColumnType,
) -> Result<(), ColumnarError>
    ensures { Requires types.old types.new result slot (kind_of column_type) }
{
    match types.get(&slot).copied() {
        Some(found) => agree(found, column_type),
        None => add(types, slot, column_type),
    }
}

// Refuses another type than the one that is required already.
fn agree(found: ColumnType, column_type: ColumnType) -> Result<(), ColumnarError>
    ensures { Agrees result (kind_of found) (kind_of column_type) }
{
    if found.to_code() != column_type.to_code() {
        return Err(ColumnarError::RequiredConflict);
    }
    Ok(())
}

// Requires a type of a slot, where none was required.
fn add(
    types: &mut BTreeMap<SlotKey, ColumnType>,
    slot: SlotKey,
    column_type: ColumnType,
) -> Result<(), ColumnarError>
    requires { known_type types.old slot ≡ None }
    ensures { Requires types.old types.new result slot (kind_of column_type) }
{
    types.insert(slot, column_type)?;
    Ok(())
}

// Whether a name has a zero byte, which ends names in keys.
fn has_zero(name: &str) -> bool
    ensures { result ≡ has_zero name.now }
{
    name.as_bytes().iter().any(|byte| *byte == 0)
}
