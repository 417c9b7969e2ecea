//! Lists of parts that a stack can't tell apart under a slot, and why neighbours that lack a column
//! may be one. The lemmas stand in `proofs/`.
#![tactic(auto)]
