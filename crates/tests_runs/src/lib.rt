//! Tests of whole runs of the program on a desk in memory: worked examples, broken texts, desks that fail, and desks with too little
//! room; and over the system's files, whose calls are kept.
#![tactic(auto)]

#[cfg(test)]
mod hostile;
mod recorder;
mod replay;
#[cfg(test)]
mod rows;
#[cfg(test)]
mod runs;
