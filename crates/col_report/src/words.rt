//! The words for cardinalities.
ghost use Rattle.std.specs.Prelude.{◌≡◌};
ghost use Rattle.col_index.specs.Versions.{cardinality_of};
ghost use Rattle.col_model.specs.Table.{cardinality_name};

use col_index::Cardinality;

// The word for a cardinality.
pub(crate) fn cardinality_word(cardinality: Cardinality) -> &'static str
    ensures { result.now ≡ cardinality_name (cardinality_of cardinality) }
{
    match cardinality {
        Cardinality::Full => "full",
        Cardinality::Optional => "opt",
        Cardinality::Multivalued => "mult",
    }
}
