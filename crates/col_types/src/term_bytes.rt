//! The bytes of a term.
ghost use Rattle.std.specs.Prelude.{◌≡◌, nat_eq, Some, refl, IfOk};
ghost use Rattle.std.specs.Cmp.{partial_equiv_from_equiv};
ghost use Rattle.std.specs.Cmp.Lexicographic.{slice_cmp, pointwise, texts_po, texts_ties};
ghost use Rattle.std.specs.Ordering.{nat_cmp};
ghost use Rattle.std.proofs.lemmas.Cmp.{nat_list_cmp_total, nat_list_eq_equiv};

use std::alloc::{AllocError, Global};
use std::cmp::Ordering;
use std::marker::Model;

/// The bytes of a term, in the order of bytes. Contracts see the list of them.
#[derive(Drop)]
pub struct TermBytes {
    bytes: Vec<u8>,
}

impl Model for TermBytes {
    ghost use Rattle.std.specs.Prelude.{ℕ, List};

    ghost Value = { List ℕ };

    ghost view = { λ t. t.bytes.items };
}

impl TermBytes {
    /// The bytes as those of a term.
    pub fn from_vec(bytes: Vec<u8>) -> TermBytes
        ensures { result ≡ bytes.items }
    {
        TermBytes { bytes }
    }

    /// The bytes.
    pub fn as_slice(&self) -> &[u8]
        ensures { result.now ≡ self.now }
    {
        self.bytes.as_slice()
    }

    /// The bytes, without the term.
    pub fn into_vec(self) -> Vec<u8>
        ensures { result.items ≡ self }
    {
        self.bytes
    }

    /// The same bytes once more.
    pub fn try_clone(&self, alloc: Global) -> Result<TermBytes, AllocError>
        ensures { IfOk result (λ t. t ≡ self.now) }
    {
        Ok(TermBytes::from_vec(Vec::from_slice(alloc, self.as_slice())?))
    }
}

impl PartialEq for TermBytes {
    ghost eq = { pointwise nat_eq };

    ghost laws = { partial_equiv_from_equiv nat_list_eq_equiv };

    fn eq(&self, other: &TermBytes) -> bool {
        self.as_slice() == other.as_slice()
    }
}

impl Eq for TermBytes {
    ghost laws = { nat_list_eq_equiv };
}

impl PartialOrd for TermBytes {
    ghost partial_cmp = { λ a b. Some (slice_cmp nat_cmp a b) };

    ghost laws = { texts_po };

    fn partial_cmp(&self, other: &TermBytes) -> Option<Ordering> {
        Some(self.cmp(other))
    }
}

impl Ord for TermBytes {
    ghost cmp = { slice_cmp nat_cmp };

    ghost total = { nat_list_cmp_total };

    ghost matches_partial_cmp = { λ a b. refl };

    ghost matches_eq = { texts_ties };

    fn cmp(&self, other: &TermBytes) -> Ordering {
        self.as_slice().cmp(other.as_slice())
    }
}
