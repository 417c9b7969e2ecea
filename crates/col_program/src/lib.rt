//! Definitions of the program: scripts, reports, checks, and what a run comes to. They stand in
//! `specs/`, over those of the format, of tables and of merges.
#![tactic(auto)]
