//! How many values a row may have.
ghost use Rattle.std.specs.Prelude.{◌≡◌, ◌==◌, ◌∷◌, [], Some, None, IfOk, IfErr};
ghost use Rattle.col_common.specs.Decoding.{TakesFront};
ghost use Rattle.col_common.specs.Serializing.{Serializes};
ghost use Rattle.col_model.specs.Table.{cardinality_code, cardinality_name, cardinality_of_code};

use col_common::{ColumnarError, InvalidData, Sink, serialize_bytes};
use std::fmt;

/// How many values a row may have; a later one allows more.
#[derive(Clone, Copy, Debug, Default, PartialEq, Eq, PartialOrd, Ord, Hash)]
pub enum Cardinality {
    /// Each row has one value.
    #[default]
    Full,
    /// Each row has at most one.
    Optional,
    /// Each row has any number.
    Multivalued,
}

impl Cardinality {
    ghost use Rattle.col_index.specs.Versions.{cardinality_at, cardinality_of};

    /// Whether each row has one value.
    pub fn is_full(&self) -> bool
        ensures { result ≡ (cardinality_code (cardinality_of self.now) == 0) }
    {
        matches!(self, Cardinality::Full)
    }

    /// Whether each row has at most one value, and some may have none.
    pub fn is_optional(&self) -> bool
        ensures { result ≡ (cardinality_code (cardinality_of self.now) == 1) }
    {
        matches!(self, Cardinality::Optional)
    }

    /// Whether a row may have any number of values.
    pub fn is_multivalue(&self) -> bool
        ensures { result ≡ (cardinality_code (cardinality_of self.now) == 2) }
    {
        matches!(self, Cardinality::Multivalued)
    }

    /// The code in an index.
    pub fn to_code(self) -> u8
        ensures { result ≡ cardinality_code (cardinality_of self) }
    {
        match self {
            Cardinality::Full => 0,
            Cardinality::Optional => 1,
            Cardinality::Multivalued => 2,
        }
    }

    /// The cardinality of a code.
    pub fn try_from_code(code: u8) -> Result<Cardinality, InvalidData>
        ensures ok { IfOk result (λ c. cardinality_of_code code ≡ Some (cardinality_of c)) }
        ensures invalid_data { IfErr result (λ _. cardinality_of_code code ≡ None) }
    {
        match code {
            0 => Ok(Cardinality::Full),
            1 => Ok(Cardinality::Optional),
            2 => Ok(Cardinality::Multivalued),
            _ => Err(InvalidData),
        }
    }

    /// Adds the code.
    pub fn serialize<K: Sink>(&self, sink: &mut K) -> Result<(), ColumnarError>
        ensures { Serializes (K.seen sink.old) (K.seen sink.new) result
            (cardinality_code (cardinality_of self.now) ∷ []) }
    {
        serialize_bytes(sink, &[self.to_code()])
    }

    /// Takes the cardinality of the code at the front.
    pub fn deserialize(data: &mut &[u8]) -> Result<Cardinality, InvalidData>
        ensures { TakesFront cardinality_of result (cardinality_at «data».old.now)
            «data».old.now «data».new.now }
    {
        let bytes = *data;
        let [code, rest @ ..] = bytes else {
            return Err(InvalidData);
        };
        let cardinality = Cardinality::try_from_code(*code)?;
        *data = rest;
        Ok(cardinality)
    }
}

impl fmt::Display for Cardinality {
    ghost use Rattle.col_index.specs.Versions.{cardinality_of};

    ghost output = { λ c. Some (cardinality_name (cardinality_of c)) };

    fn fmt<W: fmt::Write>(&self, f: &mut fmt::Formatter<W>) -> fmt::Result {
        f.write_str(match self {
            Cardinality::Full => "full",
            Cardinality::Optional => "opt",
            Cardinality::Multivalued => "mult",
        })
    }
}
