//! Tests of open files, their merges, reports and lines of scripts, by examples.
#![tactic(auto)]

#[cfg(test)]
mod file;
#[cfg(test)]
mod merge;
#[cfg(test)]
mod refused;
#[cfg(test)]
mod report;
#[cfg(test)]
mod script;
#[cfg(test)]
mod upgraded;
