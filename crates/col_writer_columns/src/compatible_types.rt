//! Which types the numbers of a column may have.
ghost use Rattle.std.specs.Prelude.{◌≡◌, ◌↔◌, true, Err, Some, OnOk, OnErr, IfErr, option_map};
ghost use Rattle.col_common.specs.declared.error.ColumnarError.TheVariants as refusals;
ghost use Rattle.col_model.specs.Recording.{forces_other};
ghost use Rattle.col_types.specs.Kinds.{numerical_kind_of};

use col_common::ColumnarError;
use col_types::{NumericalType, NumericalValue};

// The least u64 that makes a column one of u64.
const I64_LIMIT: u64 = 9_223_372_036_854_775_807;

/// The types that hold what was recorded, or the one that is forced.
#[derive(Clone, Copy, Debug)]
pub enum CompatibleNumericalTypes {
    Dynamic {
        all_values_within_i64_range: bool,
        all_values_within_u64_range: bool,
    },
    StaticType(NumericalType),
}

impl Default for CompatibleNumericalTypes {
    ghost use Rattle.std.specs.Prelude.{true};
    ghost use Rattle.col_writer_columns.specs.declared.compatible_types.CompatibleNumericalTypes.TheVariants.{Dynamic};

    ghost is_default = { λ a. a ≡ Dynamic true true };

    fn default() -> CompatibleNumericalTypes {
        CompatibleNumericalTypes::Dynamic {
            all_values_within_i64_range: true,
            all_values_within_u64_range: true,
        }
    }
}

impl CompatibleNumericalTypes {
    ghost use Rattle.col_writer_columns.specs.Compatible.{forced_of, is_accepted, accepted_with, accepted_type};
    ghost use Rattle.col_writer_columns.specs.Values.{value_type};

    /// Whether a column may have this type.
    pub fn is_type_accepted(&self, numerical_type: NumericalType) -> bool
        ensures { result ≡ is_accepted self.now (numerical_kind_of numerical_type) }
    {
        match (self, numerical_type) {
            (CompatibleNumericalTypes::StaticType(forced), _) => *forced == numerical_type,
            (
                CompatibleNumericalTypes::Dynamic {
                    all_values_within_i64_range,
                    ..
                },
                NumericalType::I64,
            ) => *all_values_within_i64_range,
            (
                CompatibleNumericalTypes::Dynamic {
                    all_values_within_u64_range,
                    ..
                },
                NumericalType::U64,
            ) => *all_values_within_u64_range,
        }
    }

    /// Takes one number more.
    #[inline]
    pub fn accept_value(&mut self, value: NumericalValue) -> Result<(), ColumnarError>
        ensures ok { OnOk result (self.new ≡ accepted_with self.old value) }
        ensures forced_type { (result ≡ Err ColumnarError.ForcedType)
            ↔ (forces_other (forced_of self.old) (value_type value) ≡ true) }
        ensures refused { IfErr result (λ e. e ≡ ColumnarError.ForcedType) }
        ensures kept { OnErr result (self.new ≡ self.old) }
    {
        match self {
            CompatibleNumericalTypes::Dynamic {
                all_values_within_i64_range,
                all_values_within_u64_range,
            } => match value {
                NumericalValue::I64(number) => {
                    *all_values_within_u64_range = *all_values_within_u64_range && number >= 0;
                }
                NumericalValue::U64(number) => {
                    *all_values_within_i64_range = *all_values_within_i64_range
                        && number < I64_LIMIT;
                }
            },
            CompatibleNumericalTypes::StaticType(forced) => {
                if *forced != value.numerical_type() {
                    return Err(ColumnarError::ForcedType);
                }
            }
        }
        Ok(())
    }

    /// The type of the column: the forced one, else i64 before u64; none where neither holds all
    /// numbers.
    pub fn to_numerical_type(&self) -> Option<NumericalType>
        ensures { option_map numerical_kind_of result ≡ accepted_type self.now }
    {
        match self {
            CompatibleNumericalTypes::StaticType(forced) => Some(*forced),
            CompatibleNumericalTypes::Dynamic {
                all_values_within_i64_range,
                all_values_within_u64_range,
            } => {
                if *all_values_within_i64_range {
                    Some(NumericalType::I64)
                } else if *all_values_within_u64_range {
                    Some(NumericalType::U64)
                } else {
                    None
                }
            }
        }
    }
}
