//! The name and the category that columns of segments share.
ghost use Rattle.std.specs.Prelude.{◌≡◌, ◌==◌, IfOk, Some, refl};
ghost use Rattle.std.specs.Cmp.{partial_equiv_from_equiv, partial_order_from_agreeing_total};
ghost use Rattle.std.proofs.lemmas.Cmp.{eq_by_cmp_equiv};
ghost use Rattle.col_model.specs.Category.{slot_cmp, same_slot, slot_of, category_of, category_place};
ghost use Rattle.col_model.proofs.SlotLaws.{slots_total};
ghost use Rattle.col_keys.specs.Categories.{category_seen};
ghost use Rattle.col_types.specs.Kinds.{kind_of};

use crate::column_type_category::ColumnTypeCategory;
use col_types::ColumnType;
use std::alloc::{AllocError, Global};
use std::cmp::Ordering;
use std::marker::Model;

/// The name and the category of columns. Contracts see the slot.
#[derive(Drop)]
pub struct SlotKey {
    name: String,
    category: ColumnTypeCategory,
}

impl Model for SlotKey {
    ghost use Rattle.std.specs.Prelude.{string_bytes};
    ghost use Rattle.col_model.specs.Category.{Slot};
    ghost use Rattle.col_keys.specs.Categories.{category_seen};

    ghost Value = { Slot };

    ghost view = { λ s. record {
      name = string_bytes s.name;
      category = category_seen s.category;
    } };
}

impl SlotKey {
    /// The slot of a column.
    pub fn new(alloc: Global, name: &str, column_type: ColumnType) -> Result<SlotKey, AllocError>
        ensures { IfOk result (λ slot. slot ≡ slot_of name.now (kind_of column_type)) }
    {
        Ok(SlotKey {
            name: String::from_str(alloc, name)?,
            category: ColumnTypeCategory::from(column_type),
        })
    }

    /// The name.
    pub fn name(&self) -> &str
        ensures { result.now ≡ self.now.name }
    {
        self.name.as_str()
    }

    /// Whether columns of this type are of the category.
    pub fn has_type(&self, column_type: ColumnType) -> bool
        ensures { result ≡ (category_place (category_of (kind_of column_type))
            == category_place self.now.category) }
    {
        ColumnTypeCategory::from(column_type) == self.category
    }

    // By name, byte by byte, then by category.
    fn compare(&self, other: &SlotKey) -> Ordering
        ensures { result ≡ slot_cmp self.now other.now }
    {
        let by_name = self.name.as_str().cmp(other.name.as_str());
        by_name.then(self.category.cmp(&other.category))
    }
}

impl PartialEq for SlotKey {
    ghost eq = { same_slot };

    ghost laws = { partial_equiv_from_equiv (eq_by_cmp_equiv slots_total) };

    fn eq(&self, other: &SlotKey) -> bool {
        self.compare(other).is_eq()
    }
}

impl Eq for SlotKey {
    ghost laws = { eq_by_cmp_equiv slots_total };
}

impl PartialOrd for SlotKey {
    ghost partial_cmp = { λ a b. Some (slot_cmp a b) };

    ghost laws = { partial_order_from_agreeing_total slot_cmp slots_total
        (λ a b. refl) (λ a b. refl) };

    fn partial_cmp(&self, other: &SlotKey) -> Option<Ordering> {
        Some(self.compare(other))
    }
}

impl Ord for SlotKey {
    ghost cmp = { slot_cmp };

    ghost total = { slots_total };

    ghost matches_partial_cmp = { λ a b. refl };

    ghost matches_eq = { λ a b. refl };

    fn cmp(&self, other: &SlotKey) -> Ordering {
        self.compare(other)
    }
}
