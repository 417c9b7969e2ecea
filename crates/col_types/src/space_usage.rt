//! How many bytes a column takes.
ghost use Rattle.std.specs.Prelude.{◌≡◌};
ghost use Rattle.col_types.specs.Usage.{total, joined};

use col_common::ByteCount;
use serde::{Deserialize, Serialize};
use std::marker::Model;

/// How many bytes a column and its dictionary take. Contracts see both counts.
#[derive(Clone, Debug, Drop, Serialize, Deserialize)]
pub struct ColumnSpaceUsage {
    column_num_bytes: ByteCount,
    dictionary_num_bytes: Option<ByteCount>,
}

impl Model for ColumnSpaceUsage {
    ghost use Rattle.col_types.specs.Usage.{Usage};

    ghost Value = { Usage };

    ghost view = { λ s. record {
      column = s.column_num_bytes;
      dictionary = s.dictionary_num_bytes;
    } };

    ghost inverse = { λ u. record {
      column_num_bytes = u.column;
      dictionary_num_bytes = u.dictionary;
    } };
}

impl ColumnSpaceUsage {
    /// The usage of a column of so many bytes beside its dictionary.
    pub fn new(
        column_num_bytes: ByteCount,
        dictionary_num_bytes: Option<ByteCount>,
    ) -> ColumnSpaceUsage
        ensures { result ≡ record { column = column_num_bytes; dictionary = dictionary_num_bytes } }
    {
        ColumnSpaceUsage {
            column_num_bytes,
            dictionary_num_bytes,
        }
    }

    /// The bytes of the column: its index, its numbers and what ends it.
    pub fn column_num_bytes(&self) -> ByteCount
        ensures { result ≡ self.now.column }
    {
        self.column_num_bytes
    }

    /// The bytes of its dictionary, where it has one.
    pub fn dictionary_num_bytes(&self) -> Option<ByteCount>
        ensures { result ≡ self.now.dictionary }
    {
        self.dictionary_num_bytes
    }

    /// All bytes, or the greatest count where they are more.
    pub fn total_num_bytes(&self) -> ByteCount
        ensures { result ≡ total self.now }
    {
        self.column_num_bytes + self.dictionary_num_bytes.unwrap_or_default()
    }

    /// The usage of both, part by part.
    pub fn merge(&self, other: &ColumnSpaceUsage) -> ColumnSpaceUsage
        ensures { result ≡ joined self.now other.now }
    {
        let dictionary_num_bytes = match (self.dictionary_num_bytes, other.dictionary_num_bytes) {
            (Some(ours), Some(theirs)) => Some(ours + theirs),
            (Some(count), None) | (None, Some(count)) => Some(count),
            (None, None) => None,
        };
        ColumnSpaceUsage::new(
            self.column_num_bytes + other.column_num_bytes,
            dictionary_num_bytes,
        )
    }
}
