//! What runs of the programs leave in their sinks: definitions alone, which the contracts of both
//! top calls name.
#![tactic(auto)]
