//! Tests over texts, desks and words, of the generator, and of models that solvers print.
mod bounds;
mod command_lines;
mod decoding;
mod desks;
mod generated;
mod line_reader;
mod problems;
mod real_desks;
mod steps;
mod words_and_numbers;
