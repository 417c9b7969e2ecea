//! Laws about indexes, each the contract of a call that does nothing.
ghost use Rattle.std.specs.Prelude.{◌≡◌, ◌==◌};
ghost use Rattle.std.specs.Ordering.{nat_cmp};
ghost use Rattle.col_common.specs.Laws.{ComparesBy, EqualAsCompared, EqualHashAlike, DefaultIs};
ghost use Rattle.col_index.specs.Laws.{IndexesHaveCounts};
ghost use Rattle.col_model.specs.Version.{current_version};
ghost use Rattle.col_index.specs.Versions.{cardinality_code_of, version_number};
ghost use Rattle.col_index.specs.declared.format_version.TheConstants.{CURRENT_VERSION};
ghost use Rattle.col_index.specs.declared.cardinality.Cardinality.TheVariants.{Full};

use crate::cardinality::Cardinality;
use crate::format_version::Version;
use std::hash::Hash;

/// The counts of rows with a value have just these rows, and start where their offsets say.
pub fn indexes_have_counts()
    ensures { IndexesHaveCounts }
{}

/// Cardinalities compare as their codes, equality and hashes agree, and the default is Full.
pub fn cardinalities_compare_as_their_codes()
    ensures order { ComparesBy (λ a b. nat_cmp (cardinality_code_of a) (cardinality_code_of b))
        ⟦<Cardinality as PartialOrd>⟧.partial_cmp ⟦<Cardinality as Ord>⟧.cmp }
    ensures equality { EqualAsCompared
        ⟦<Cardinality as PartialEq>⟧.eq ⟦<Cardinality as Ord>⟧.cmp }
    ensures hash { EqualHashAlike
        ⟦<Cardinality as PartialEq>⟧.eq ⟦<Cardinality as Hash>⟧.hash_input }
    ensures default { DefaultIs Full ⟦<Cardinality as Default>⟧.is_default }
{}

/// Versions are equal where their numbers are, and the current one is that of the definitions.
pub fn versions_are_equal_as_their_numbers()
    ensures equality { (a b : Version) →
        ⟦<Version as PartialEq>⟧.eq a b ≡ (version_number a == version_number b) }
    ensures current { version_number CURRENT_VERSION ≡ current_version }
{}
