//! Tests of the public calls of the crates below `pb_suite`, and of `pb_files`: each once on its happy path, vectors from outside,
//! and sinks that fail. They take texts and compare texts.
#![tactic(auto)]

#[cfg(test)]
mod cases;
#[cfg(test)]
mod clauses;
#[cfg(test)]
mod derivations;
#[cfg(test)]
mod samples;
#[cfg(test)]
mod sums;
#[cfg(test)]
mod texts;
