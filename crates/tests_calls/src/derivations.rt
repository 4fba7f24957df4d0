//! Tests of what derivations are made of: operations, steps that are applied, and derivations that are checked.
mod changed_lines;
mod checking;
mod derived;
mod drawn;
mod operations;
mod rules;
mod step_writer;
