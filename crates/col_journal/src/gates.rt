//! The bytes in front of a change.
ghost use Rattle.std.specs.Prelude.{◌≡◌, ◌↔◌, IsTrue};

// The gate in front of a change that stands. Behind each other gate nothing counts.
pub(crate) const OPEN: u8 = 1;

// The gate where a journal ends.
pub(crate) const SHUT: u8 = 0;

// How many bytes a gate, a kind and a length take.
pub(crate) const HEAD_LEN: u64 = 10;

// Whether a change stands behind the gate.
pub(crate) fn is_open(gate: u8) -> bool
    ensures { IsTrue result ↔ (gate ≡ 1) }
{
    gate == OPEN
}
